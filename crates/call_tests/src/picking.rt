//! The places that the strategies pick, called as a caller calls them.
use pick_rule::{Pick, busiest_place, first_place, last_place};

/// Scores, and the places of the first, the last, and the first of the greatest.
const LISTS: [(&[u64], [usize; 3]); 5] = [
    (&[7], [0, 0, 0]),
    (&[3, 1, 2], [0, 2, 0]),
    (&[0, 0], [0, 1, 0]),
    (&[2, 9, 9, 4], [0, 3, 1]),
    (&[1, 2, 18446744073709551615], [0, 2, 2]),
];

#[test]
fn strategies_pick_places(rt: HostRuntime) {
    for (scores, wanted) in &LISTS {
        if !scores.is_empty() {
            let places = [
                first_place(scores),
                last_place(scores),
                busiest_place(scores),
            ];
            assert_eq!(rt; places.as_slice(), wanted.as_slice());
            let picked = [
                Pick::First.place(scores),
                Pick::Last.place(scores),
                Pick::Busy.place(scores),
            ];
            assert_eq!(rt; picked.as_slice(), wanted.as_slice());
            assert!(rt; Pick::Activity.place(scores) < scores.len());
        }
    }
}

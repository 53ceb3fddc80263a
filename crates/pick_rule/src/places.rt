// Places of a list of scores that a rule may answer.
ghost use Rattle.std.specs.Prelude.{◌≡◌, ◌+◌, ◌<◌, length};
ghost use Rattle.pick_rule.specs.Busiest.{IsBusiest};

/// The first place.
pub fn first_place(_scores: &[u64]) -> usize
    ensures { result ≡ 0 }
{
    0
}

/// The last place.
pub fn last_place(scores: &[u64]) -> usize
    requires { 0 < length scores.now }
    ensures { result + 1 ≡ length scores.now }
{
    scores.len() - 1
}

/// The place of the greatest score; of several, the first.
pub fn busiest_place(scores: &[u64]) -> usize
    requires { 0 < length scores.now }
    ensures { IsBusiest scores.now (length scores.now) result }
{
    let mut best = 0;
    for place in 1..scores.len() {
        if scores[best] < scores[place] {
            best = place;
        }
    }
    best
}

// The strategies.
ghost use Rattle.std.specs.Prelude.{◌<◌, length};
ghost use Rattle.pick_rule.specs.Picks.{PicksPlace};

use crate::places::{busiest_place, first_place, last_place};

/// How a solver's next decision is picked among the free variables. `First` is the one with the least number, `Last` the
/// one with the greatest, and `Busy` the first of those that stand in the most lemmas so far; these are tried false first.
/// `Activity` is one that took part in many conflicts of late, which is tried with the value that it had last; the search
/// then starts again from time to time, and lemmas are minimised further.
#[derive(Clone, Copy, PartialEq, Eq)]
pub enum Pick {
    First,
    Last,
    Busy,
    Activity,
}

impl Pick {
    /// A place of a decision among the free variables' scores, which are in the order of the variables' numbers.
    pub fn place(self, scores: &[u64]) -> usize
        requires { 0 < length scores.now }
        ensures within { result < length scores.now }
        ensures picked { PicksPlace self scores.now result }
    {
        match self {
            Pick::First | Pick::Activity => first_place(scores),
            Pick::Last => last_place(scores),
            Pick::Busy => busiest_place(scores),
        }
    }
}

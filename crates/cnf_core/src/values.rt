// The status of a clause under the values of some variables: unit, falsified or open.
ghost use Rattle.std.specs.Prelude.{◌≡◌, ℕ, ◌≤◌};
ghost use Rattle.std.specs.List.{All};
ghost use Rattle.cnf_core.specs.Formula.{IsLitOf};
ghost use Rattle.cnf_core.specs.Values.{Partial};
ghost use Rattle.cnf_core.specs.Statuses.{HasStatus};

use crate::Lit;

/// A partial assignment: it gives some of the variables a value.
pub trait Values {
    /// The last variable that may have a value.
    ghost last: { Self → ℕ };

    /// The values.
    ghost partial: { Self → Partial };

    /// The value of a variable, where it has one.
    fn value(&self, var: u32) -> Option<bool>
        requires above { 1 ≤ var }
        requires within { var ≤ last self.now }
        ensures value { result ≡ partial self.now var };
}

/// The status of a clause under some values.
#[derive(Clone, Copy)]
pub enum ClauseStatus {
    /// All literals but this one are false, and it has no value.
    Unit(Lit),
    /// All literals are false.
    Falsified,
    /// A literal is true, or two have no value.
    Open,
}

/// The status of a clause. Its literals are read up to the first that shows that it is open, and one that stands twice
/// counts once.
pub fn status_of<V: Values>(clause: &[Lit], values: &V) -> ClauseStatus
    requires { All (IsLitOf (V.last values.now)) clause.now }
    ensures { HasStatus (V.partial values.now) clause.now result }
{
    let mut found: Option<Lit> = None;
    for lit in clause {
        match values.value(lit.var) {
            Some(positive) => {
                if positive == lit.positive {
                    return ClauseStatus::Open;
                }
            }
            None => {
                if let Some(other) = found {
                    if other != *lit {
                        return ClauseStatus::Open;
                    }
                }
                found = Some(*lit);
            }
        }
    }
    match found {
        Some(lit) => ClauseStatus::Unit(lit),
        None => ClauseStatus::Falsified,
    }
}

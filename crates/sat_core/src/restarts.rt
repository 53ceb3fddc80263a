// When the search starts again from the first decision: Luby's sequence (Luby, Sinclair, Zuckerman, 1993).

/// How many conflicts are left before the next restart, and the place in the sequence: `v` is its number there, and `u`
/// counts its numbers 1 (Knuth, The Art of Computer Programming, 7.2.2.2).
#[derive(Drop)]
pub(crate) struct Restarts {
    u: u32,
    v: u32,
    left: u32,
}

/// The unit of the sequence.
const UNIT: u32 = 100;

impl Restarts {
    pub(crate) fn new() -> Restarts {
        Restarts {
            u: 1,
            v: 1,
            left: UNIT,
        }
    }

    /// Counts a conflict; whether the search starts again after it.
    pub(crate) fn is_due(&mut self) -> bool {
        self.left = self.left.saturating_sub(1);
        if self.left > 0 {
            return false;
        }
        if self.u & self.u.wrapping_neg() == self.v {
            self.u = self.u.saturating_add(1);
            self.v = 1;
        } else {
            self.v = self.v.saturating_mul(2);
        }
        self.left = self.v.saturating_mul(UNIT);
        true
    }
}

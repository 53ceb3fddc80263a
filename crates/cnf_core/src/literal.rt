// A variable or its negation.
ghost use Rattle.std.specs.Prelude.{◌≡◌};
ghost use Rattle.cnf_core.specs.Formula.{negated};

/// A variable, numbered from 1, or its negation.
#[derive(Clone, Copy, PartialEq, Eq)]
pub struct Lit {
    pub var: u32,
    pub positive: bool,
}

impl Lit {
    /// The literal of the same variable with the other sign.
    pub fn negated(self) -> Lit
        ensures { result ≡ negated self }
    {
        Lit {
            var: self.var,
            positive: !self.positive,
        }
    }
}

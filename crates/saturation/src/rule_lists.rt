// The rules that rounds go over, as lists.
ghost use Rattle.std.specs.Prelude.{◌≡◌, ◌++◌};
ghost use Rattle.axiom_base.specs.Equations as rows;
ghost use Rattle.axiom_base.specs.Schemes.{calc_kinds};

use axiom_base::{Calc, Rule};
use items::Items;
use std::marker::Model;

/// The rules of a text, which serve for all its goals: the equations, the axioms that join them, and the kinds of
/// computed rules, with those of every text first. Folding always applies.
#[derive(Drop)]
pub struct Rules {
    pub(crate) equations: Items<Rule>,
    pub(crate) axioms: Items<Rule>,
    pub(crate) kinds: Items<Calc>,
}

impl Model for Rules {
    ghost use Rattle.std.specs.Prelude.{◌≡◌, ◌++◌, drop};
    ghost use Rattle.axiom_base.specs.Codes.{added_rules_code};
    ghost use Rattle.axiom_base.specs.Equations as rows;
    ghost use Rattle.axiom_base.specs.Schemes.{AddedRules, calc_kinds};

    ghost Value = { AddedRules };

    ghost coded = { added_rules_code };

    ghost view = { λ r. record { axioms = r.axioms; kinds = drop 12 r.kinds } };

    ghost invariant = { λ r. (r.equations ≡ rows.equations) × (r.kinds ≡ calc_kinds ++ drop 12 r.kinds) };
}

impl Rules {
    /// The equations, which are those of every text.
    pub(crate) fn equations(&self) -> &[Rule]
        ensures { result.now ≡ rows.equations }
    {
        self.equations.as_slice()
    }

    /// The axioms that join them.
    pub(crate) fn axioms(&self) -> &[Rule]
        ensures { result.now ≡ self.now.axioms }
    {
        self.axioms.as_slice()
    }

    /// All kinds of computed rules.
    pub(crate) fn kinds(&self) -> &[Calc]
        ensures { result.now ≡ calc_kinds ++ self.now.kinds }
    {
        self.kinds.as_slice()
    }
}

//! Rewrite rules over terms: 66 equations between operators, 37 kinds of rules whose constants are computed, of which
//! 12 are asked for with every text, and folding, each of them true for all words and memories.
//!
//! Proved: `equations` gives the 66 rows of the table, in order, each true in every world for all words and memories,
//! and each a rule (`equations_are_true`). A `Rule` has an application on its left, well-formed sides of one sort,
//! variables numbered from 0 without a gap, and none on its right that its left lacks; `Rule::new` makes one exactly
//! where two terms keep this. Of the computed rules `calc` gives the constants of the right side exactly where those of
//! the left meet the condition (`exact`), and both sides then have one value (`true_rule`). Laws: computed rules and
//! folds are true at all their constants and well formed (`computed_rules_are_true`, `folds_are_true`), and so is each
//! rule of a saturation, if the axioms that join are true (`schemes_are_true`).
//!
//! What nothing forced, and why:
//! - A rule is seen as a rewrite: sorts of its variables, two trees, and constants, that is, variables that stand for
//!   one word alone, which are its last ones. So one definition of truth and one of a match serve equations, axioms,
//!   computed rules and folds.
//! - Truth is by world and by list of values, which is what a graph's classes give. The equations need no well-formed
//!   world; an axiom's truth is a premise on the world.
//! - A variable above a gap, or new on the right, has no sort where `Rule::new` looks for one, so one test serves all
//!   demands on variables. An operator's own constant is a word by its type, and the rule says so too, since a tree
//!   doesn't.
//! - A scheme, and not a rule, is what is counted: an equation, an axiom, a kind of computed rules, or folding of one
//!   operator (`Scheme`). A rule that stands twice is two schemes, so what it needs counts twice. Folding is by
//!   operator, so that a match is a list of classes there too.
//! - That constants give one at most is a law, so a match of a computed rule is unmet or it isn't.
//! - Kinds of computed rules have numbers: C1 to C12 serve every goal, C13 to C37 a library that has their family. C9
//!   is said byte by byte, C5 by the word that is left without the low 16 bits; of 0, C9 gives the mask 0. C35 leaves
//!   out the constants that C3, C4, C5 and C16 make, since their rows are no dearer; C36 keeps those of C5, whose right
//!   side is then the same row.
#![tactic(auto)]

mod calc_sides;
mod computed_laws;
mod conditions;
mod kinds;
mod narrow;
mod rule;
mod shapes;
mod stores;
mod table;
mod well_formed;

pub use calc_sides::{calc_left, calc_right};
pub use computed_laws::{
    computed_rules_are_true, constants_are_numbered, folds_are_true, schemes_are_true,
};
pub use conditions::calc;
pub use kinds::{CALC_KINDS, Calc, FURTHER_KINDS, Given, constants, first_constant};
pub use rule::Rule;
pub use table::{equations, equations_are_true};

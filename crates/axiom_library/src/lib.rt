//! The library: families of rules, each of them true for all words and memories. A user may write a family's axioms in
//! front of a goal, or ask for families by an option.
//!
//! Proved: `axioms` gives the rows of a family, in order. Each axiom of the thirteen families is true in every world,
//! for all words and whatever operators are declared, so an input all of whose axioms are of the library meets them in
//! every world (`library_axioms_hold`). Each is an axiom that a text may have, unless the text declares an operator
//! with the name of one of its variables, and all families together have no more axioms than a text may have
//! (`library_axioms_are_well_formed`). A `Library` says which families are asked for: it has those that were put in,
//! whatever their order (`libraries_have_families`), and `library_axioms`, `library_equations` and `library_kinds`
//! give what these families have, all of it nothing where none is asked for (`no_library_asks`). Each equation is a
//! rule, and true in every world (`library_equations_are_true`); of the kinds of computed rules `axiom_base` says
//! that. A family is found by its name (`families_have_names`). That a rule serves a goal, and which family does, is
//! no clause.
//!
//! What nothing forced, and why:
//! - Rows are rewrites that the built-in equations don't reach, chosen by the cycles of the table `ev6`.
//! - `sums` differs by the way it is asked for: in a text it is an axiom, by the option a computed rule alone. The
//!   axiom matches every sum and feeds itself, so graphs fill up; for the same reason `all` leaves out `halves`.
//! - `lda` and `ldah` can't be written in a text, so the parts of a long constant are made by operators that fold: an
//!   eighth by `srl`, a rounded half by `s4addq` and `zapnot`. A constant alone is helped by computed rules only, since
//!   an axiom's left side is an application.
//! - A swap of bytes is one axiom over the whole term, since the way over single bytes needs more rounds and rows than
//!   a text has by default.
//! - Two equations of `unaligned` have a memory as variable, which no axiom of a text may have. So they are rewrites
//!   beside the axioms, after all of these.
//! - A library is a struct of thirteen flags, so the order and number of its words can't matter; a list of families
//!   would need an invariant for that.
//! - What is asked for twice counts twice: an axiom that stands in the text and in the library is two rules. The graph
//!   is the same.
#![tactic(auto)]

mod asked;
mod axiom;
mod building;
mod bytes;
mod carries;
mod comparisons;
mod families;
mod fields;
mod laws;
mod libraries;
mod minima;
mod names;
mod products;
mod shifts;
mod sums;
mod unaligned;

pub use asked::{family_of_kind, library_axioms, library_equations, library_kinds};
pub use families::{FAMILIES, Family, axioms};
pub use laws::{
    families_have_names, libraries_have_families, library_axioms_are_well_formed,
    library_axioms_hold, library_equations_are_true, no_library_asks,
};
pub use libraries::Library;
pub use names::family_named;

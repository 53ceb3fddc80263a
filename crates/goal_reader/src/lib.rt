//! Goal texts: declared operators, axioms and goals, read by the grammar, or refused with the first fault.
//!
//! A text is read in passes: its bytes, its parentheses, and then its forms, each in the role that its keyword and the
//! forms before it give. A machine form is read by `machine_table`. `term`, `axiom` and `goal` read one form each.
//! `print` gives the canonical text of an input, which is read as that input again. `read_term` and `print_term` do so
//! for a term by itself. `goal_meaning` says what inputs and goals mean; its types and laws are exported again here.
//!
//! The readers and printers of single parts, as `own_name`, `pool` and `put_term`, are for crates whose texts have them
//! too.
//!
//! Proved: what `read` reads is in the grammar and keeps its rules (`input`), and what is in the grammar is read as the
//! one input that it writes (`read`); a fault is the first one, of the bytes, else of the parentheses, else of the
//! forms (`fault`), and a text with one is answered so (`refused`). A text has one reading, and then no fault
//! (`texts_have_one_reading`), and one first fault at most (`texts_have_one_first_fault`, `the_first_form_decides`). A
//! printed input is read back as itself (`printed_inputs_are_read`). What is read is well formed
//! (`read_inputs_are_well_formed`) and has at most four operators for each five bytes of its text
//! (`read_inputs_have_few_operators`). `term`, `goal` and `axiom` are exact in the same way.
//!
//! What nothing forced, and why:
//! - Faults are one relation over roles. A role says what a form is to be read as, with what it is read among (names
//!   given before, registers, the scope of terms). Each kind of fault is one row over roles, and each kind of list one
//!   equation that gives the roles of its parts. What is past a limit, and what the grammar doesn't have there, are
//!   roles of their own: so a seventeenth input is `LimitPassed` also if it is malformed, and what stands out of order
//!   is `BadForm` whatever it holds.
//! - The grammar is a relation of its own, over views with trees, so that how vectors lie in memory doesn't count. It
//!   isn't 'no fault'; that the reader accepts only what is in it is a clause.
//! - What earlier forms give skips malformed ones: the earliest fault decides, so it doesn't matter after one.
//! - A pin is there if a `set` has a register in its third place, whatever the register is. A missing `set` is a fault
//!   of the goal's list and is looked for before its items; a missing goal stands at the text's length, after all
//!   others.
//! - A variable that an axiom's left side lacks is a name of its own kind in the scope of the right side, so `BadAxiom`
//!   is one more row of terms.
#![tactic(auto)]

mod assumes;
mod axioms;
mod declarations;
mod drafts;
mod goal_terms;
mod guards;
mod inputs;
mod keywords;
mod laws;
mod lets;
mod order;
mod pools;
mod printing;
mod reading;
mod scopes;
mod targets;
mod terms;
mod texts;
mod variables;
mod whole;

pub use axioms::axiom;
pub use goal_meaning::{
    Assume, Axiom, DeclaredOp, Goal, Input, InputReg, Let, Set, axioms_hold_for_all_goals,
    goals_have_outcomes,
};
pub use goal_terms::{print_term, read_term};
pub use inputs::{fresh_register, own_name, register_number};
pub use keywords::head;
pub use laws::{
    printed_inputs_are_read, printed_terms_are_read, read_inputs_are_well_formed,
    read_inputs_have_few_operators, read_terms_are_well_sorted, terms_have_one_reading,
    texts_have_one_first_fault, texts_have_one_reading, the_first_form_decides,
};
pub use pools::pool;
pub use printing::{print, put_pool, put_register, put_term};
pub use reading::{read, table_or_built_in};
pub use scopes::{Leaf, Named, Scope};
pub use terms::term;
pub use whole::{goal, pool_or_default};

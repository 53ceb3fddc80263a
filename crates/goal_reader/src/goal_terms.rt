// Terms by themselves, over inputs and the memory.
ghost use Rattle.std.specs.Prelude.{◌≡◌, ◌∷◌, ◌++◌, [], ℕ, Some, IfOk, IfErr, map};
ghost use Rattle.forms.specs.Forms.{sexp_form};
ghost use Rattle.forms.specs.Printing.{plain_text};
ghost use Rattle.forms.specs.Reading.{IsSexpOf};
ghost use Rattle.goal_meaning.specs.InputForms.{naming, term_plain};
ghost use Rattle.goal_reader.specs.Drafts.{input_leaf};
ghost use Rattle.goal_reader.specs.GoalTerms.{term_scope, term_text};
ghost use Rattle.goal_reader.specs.Roles.{IsFaultAs, term as a_term};
ghost use Rattle.goal_reader.specs.Terms.{Writes};
ghost use Rattle.text_core.specs.Faults.{GivesUnlessMemory, IsFaultBy, IsFirst, RefusesUnlessMemory};
ghost use Rattle.text_core.specs.declared.faults.Kind.{Kind as FaultKind};
ghost use Rattle.word_ops.specs.declared.sorts.Op.{Op as Operator};
ghost use Rattle.word_terms.specs.Tree.{Tree};
ghost use Rattle.word_terms.specs.View.{tree_of};

use crate::printing::put_term;
use crate::scopes::{Leaf, Named, Scope};
use crate::terms::term;
use goal_meaning::InputReg;
use items::{Items, NoMemory};
use std::alloc::Global;
use text_core::{Name, Sexp, TextFault};
use word_ops::{Op, Sort};
use word_terms::Term;

/// What names mean in a term over these inputs.
fn scope_of(alloc: Global, inputs: &[InputReg]) -> Result<Scope, NoMemory>
    ensures { IfOk result (λ scope. scope ≡ term_scope inputs.now) }
{
    let mut leaves = Items::new(alloc);
    let name = Name::new(alloc, b"M")?;
    let named = Named::Memory;
    leaves.push(Leaf { name, named })?;
    for input in inputs {
        let name = input.name.copy()?;
        let named = Named::Input(input.reg);
        leaves.push(Leaf { name, named })?;
    }
    let declared = Items::new(alloc);
    Ok(Scope { declared, leaves })
}

/// Reads a term of this sort, over these inputs and the memory and without declared operators. The cost is linear in the
/// length of the text, beside the search for names.
pub fn read_term(
    alloc: Global,
    form: &Sexp,
    bytes: &[u8],
    inputs: &[InputReg],
    sort: Sort,
) -> Result<Term<Op>, TextFault>
    requires of { IsSexpOf bytes.now form.now }

    // What is read is in the grammar, and what is in it is read.
    ensures term { IfOk result (λ t. Writes (term_scope inputs.now) sort (sexp_form bytes.now form.now) (tree_of t)) }
    ensures read { (t : Tree Operator) → Writes (term_scope inputs.now) sort (sexp_form bytes.now form.now) t
        → GivesUnlessMemory (λ read. tree_of read ≡ t) result }

    // A fault is the first one, and where there is one it is answered.
    ensures fault { IfErr result (IsFaultBy (IsFirst (IsFaultAs (a_term (term_scope inputs.now) (Some sort))
        (sexp_form bytes.now form.now)))) }
    ensures refused { (place : ℕ) (kind : FaultKind) → IsFirst (IsFaultAs (a_term (term_scope inputs.now) (Some sort))
        (sexp_form bytes.now form.now)) place kind
        → RefusesUnlessMemory place kind result }
{
    let scope = scope_of(alloc, inputs)?;
    term(alloc, form, bytes, &scope, Some(sort))
}

/// The canonical text of a term over these inputs, on a line of its own.
pub fn print_term(alloc: Global, term: &Term<Op>, inputs: &[InputReg]) -> Result<Vec<u8>, NoMemory>
    ensures { IfOk result (λ text. text.items ≡ term_text inputs.now (tree_of term.now)) }
{
    let mut text = Vec::new(alloc);
    put_term(&mut text, term, &[], inputs, &[])?;
    text.extend_from_slice(b"\n")?;
    Ok(text)
}

// The passes over a text before its forms are examined.
ghost use Rattle.std.specs.Prelude.{◌≡◌, ◌<◌, ◌^◌, ℕ, All, length, IfOk, IfErr};
ghost use Rattle.forms.specs.Reading.{TextHasTrees, IsFirstReadFault, IsSexpOf};
ghost use Rattle.text_core.specs.Faults.{IsFaultBy, GivesUnlessMemory, RefusesUnlessMemory};
ghost use Rattle.text_core.specs.Sexps.{sexp_trees};
ghost use Rattle.text_core.specs.Trees.{SexpTrees};
ghost use Rattle.text_core.specs.declared.faults.Kind.{Kind};

use crate::one_reading;
use std::alloc::Global;
use text_core::{Sexp, TextFault, lex, tree};

fn lexed_and_parsed(alloc: Global, text: &[u8]) -> Result<Vec<Sexp>, TextFault>
    requires { length text.now < 2 ^ 29 }
    ensures trees { IfOk result (λ forms. TextHasTrees text.now (sexp_trees forms.items)) }
    ensures fault { IfErr result (IsFaultBy (IsFirstReadFault text.now)) }
{
    let tokens = lex(alloc, text)?;
    match tree(alloc, &tokens) {
        Ok(forms) => Ok(forms),
        Err(fault) => Err(fault),
    }
}

/// The trees of a text, in order. The cost is linear in the length of the text.
pub fn trees(alloc: Global, text: &[u8]) -> Result<Vec<Sexp>, TextFault>
    requires { length text.now < 2 ^ 29 }

    // What is read is in the grammar, and what is in it is read.
    ensures trees { IfOk result (λ forms. TextHasTrees text.now (sexp_trees forms.items)) }
    ensures read { (trees : SexpTrees) → TextHasTrees text.now trees
        → GivesUnlessMemory (λ forms. sexp_trees forms.items ≡ trees) result }

    // Each tree is one of the text, as the calls on forms need it.
    ensures each { IfOk result (λ forms. All (IsSexpOf text.now) forms.items) }

    // A fault is the first one of the bytes, or else of the parentheses, and where there is one it is answered.
    ensures fault { IfErr result (IsFaultBy (IsFirstReadFault text.now)) }
    ensures refused { (place : ℕ) (kind : Kind) → IsFirstReadFault text.now place kind
        → RefusesUnlessMemory place kind result }
{
    one_reading();
    lexed_and_parsed(alloc, text)
}

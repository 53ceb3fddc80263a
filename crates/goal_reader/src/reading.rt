// Reading a text of goals.
ghost use Rattle.std.specs.Prelude.{◌≡◌, ◌<◌, ◌^◌, ℕ, All, IfErr, IfOk, length, unwrap_or, is_none};
ghost use Rattle.forms.specs.Forms.{Stand, forms_from, sexp_forms};
ghost use Rattle.forms.specs.Reading.{IsSexpOf};
ghost use Rattle.goal_reader.specs.Grammar.{IsFirstTextFault, Reads};
ghost use Rattle.goal_reader.specs.Roles.{IsTextFault};
ghost use Rattle.goal_reader.specs.TextDrafts.{IsTextWritten, KeepsText};
ghost use Rattle.goal_meaning.specs.Views.{input_view, InputTree};
ghost use Rattle.machine_table.specs.Tables.{ev6 as built_in};
ghost use Rattle.text_core.specs.Faults.{GivesUnlessMemory, IsFaultBy, IsFirst, RefusesUnlessMemory};
ghost use Rattle.text_core.specs.declared.faults.Kind.{Kind as FaultKind};

use crate::keywords::admitted_form;
use crate::order::Order;
use crate::texts::{TextDraft, start_text, text_form};
use forms::{at, one_reading, trees};
use goal_meaning::Input;
use items::NoMemory;
use machine_table::{Table, ev6, one_table};
use std::alloc::Global;
use text_core::{Kind, Sexp, TextFault};

fn read_forms(alloc: Global, forms: &[Sexp], text: &[u8]) -> Result<TextDraft, TextFault>
    requires of { All (IsSexpOf text.now) forms.now }
    requires stand { Stand 0 (length text.now) (forms_from (sexp_forms text.now forms.now)) }
    requires small { length text.now < 2 ^ 29 }
    ensures written { IfOk result (IsTextWritten (sexp_forms text.now forms.now)) }
    ensures keeps { IfOk result KeepsText }
    ensures some { IfOk result (λ draft. 0 < length draft.goals) }
    ensures clear { IfOk result (λ _. (place : ℕ) (kind : FaultKind)
        → IsTextFault (length text.now) (sexp_forms text.now forms.now) place kind → ⊥) }
    ensures fault { IfErr result (IsFaultBy (IsFirst (IsTextFault (length text.now) (sexp_forms text.now forms.now)))) }
{
    let mut order = Order::new();
    let mut draft = start_text(alloc);
    for index in 0..forms.len() {
        let form = &forms[index];
        let keyword = admitted_form(form, text, &order)?;
        draft = text_form(alloc, form, text, keyword, draft)?;
        order = order.after(keyword.rank());
    }
    if draft.goals.is_empty() {
        return Err(at(text.len() as u32, Kind::BadForm));
    }
    Ok(draft)
}

/// The table that was read and `false`, or else the table `ev6` and `true`.
pub fn table_or_built_in(alloc: Global, table: Option<Table>) -> Result<(Table, bool), NoMemory>
    ensures table { IfOk result (λ kept. kept.0 ≡ unwrap_or table built_in) }
    ensures builtin { IfOk result (λ kept. kept.1 ≡ is_none table) }
{
    match table {
        Some(table) => Ok((table, false)),
        None => Ok((ev6(alloc)?, true)),
    }
}

fn read_text(alloc: Global, bytes: &[u8]) -> Result<Input, TextFault>
    requires { length bytes.now < 2 ^ 29 }
    ensures input { IfOk result (λ input. Reads bytes.now (input_view input)) }
    ensures clear { IfOk result (λ _. (place : ℕ) (kind : FaultKind) → IsFirstTextFault bytes.now place kind → ⊥) }
    ensures fault { IfErr result (IsFaultBy (IsFirstTextFault bytes.now)) }
{
    one_reading();
    let forms = trees(alloc, bytes)?;
    let draft = read_forms(alloc, &forms, bytes)?;
    let TextDraft {
        table,
        declared,
        axioms,
        goals,
    } = draft;
    let (table, builtin) = table_or_built_in(alloc, table)?;
    Ok(Input {
        table,
        builtin,
        ops: declared,
        axioms,
        goals,
    })
}

/// Reads a text of goals. The cost is linear in the length of the text, beside the search for names, of which a goal
/// has few.
pub fn read(alloc: Global, bytes: &[u8]) -> Result<Input, TextFault>
    requires { length bytes.now < 2 ^ 29 }

    // What is read is in the grammar, and what is in it is read.
    ensures input { IfOk result (λ input. Reads bytes.now (input_view input)) }
    ensures read { (input : InputTree) → Reads bytes.now input
        → GivesUnlessMemory (λ read. input_view read ≡ input) result }

    // A fault is the first one, of the bytes, else of the parentheses, else of the forms; and where there is one, it is
    // answered.
    ensures fault { IfErr result (IsFaultBy (IsFirstTextFault bytes.now)) }
    ensures refused { (place : ℕ) (kind : FaultKind) → IsFirstTextFault bytes.now place kind
        → RefusesUnlessMemory place kind result }
{
    one_reading();
    one_table();
    read_text(alloc, bytes)
}

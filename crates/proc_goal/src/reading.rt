// Reading a text of a proc.
ghost use Rattle.std.specs.Prelude.{◌≡◌, ◌<◌, ◌^◌, ◌&&◌, ℕ, [], All, IfErr, IfOk, length, codes, true};
ghost use Rattle.forms.specs.Forms.{Stand, forms_from, name_in, sexp_form, sexp_forms};
ghost use Rattle.forms.specs.Reading.{IsSexpOf};
ghost use Rattle.machine_table.specs.Roles as table_roles;
ghost use Rattle.goal_reader.specs.Roles as goal_roles;
ghost use Rattle.goal_reader.specs.Roles.{IsFaultAs};
ghost use Rattle.proc_goal.specs.ProcGrammar.{IsFirstProcFault, ReadsProc, WritesProc, WritesProcText};
ghost use Rattle.proc_goal.specs.ProcReading.{IsClearProc, IsFirstAs, IsPoolFault, IsPoolRead, IsTableRead, IsTableRefused};
ghost use Rattle.proc_goal.specs.ProcRoles as roles;
ghost use Rattle.proc_goal.specs.ProcRoles.{IsProcTextFault};
ghost use Rattle.proc_goal.specs.Views.{ProcTree, proc_view};
ghost use Rattle.proc_goal.specs.WellFormed.{IsProc};
ghost use Rattle.text_core.specs.Faults.{GivesUnlessMemory, IsFaultBy, IsFirst, RefusesUnlessMemory};
ghost use Rattle.text_core.specs.declared.faults.Kind.{Kind as FaultKind};

use crate::blocks::blocks;
use crate::heads::{behind, has_head, has_leading_variable, has_list};
use crate::laws::{procs_have_one_reading, read_procs_are_well_formed};
use crate::procs::Proc;
use crate::targets::block_names;
use crate::variables::variables;
use forms::{at, name, one_reading, parts, place, sexps_are_forms, trees};
use goal_meaning::InputReg;
use goal_reader::{pool, pool_or_default, table_or_built_in};
use items::Items;
use machine_table::Table;
use std::alloc::Global;
use text_core::{Kind, Name, Sexp, TextFault};

/// Reads the pool of a proc, where the first of the items behind its variables is one.
fn first_pool(
    alloc: Global,
    items: &[Sexp],
    text: &[u8],
    vars: &[InputReg],
) -> Result<Option<Items<u8>>, TextFault>
    requires of { All (IsSexpOf text.now) items.now }
    ensures pool { IfOk result (IsPoolRead vars.now (sexp_forms text.now items.now)) }
    ensures fault { IfErr result (IsFaultBy (IsPoolFault vars.now (sexp_forms text.now items.now))) }
{
    let Some(item) = items.first() else {
        return Ok(None);
    };
    if !has_head(item, text, b"pool") {
        return Ok(None);
    }
    let registers = pool(alloc, item, text, vars)?;
    Ok(Some(Items::from(registers)))
}

/// Reads a name.
fn any_name<'a>(form: &Sexp, text: &'a [u8]) -> Result<&'a [u8], TextFault>
    requires of { IsSexpOf text.now form.now }
    ensures named { IfOk result (λ bytes. name_in (sexp_form text.now form.now) ≡ Some bytes.now) }
    ensures fault { IfErr result (IsFaultBy (IsFirst (IsFaultAs (goal_roles.fresh_name [])
        (sexp_form text.now form.now)))) }
{
    sexps_are_forms();
    match name(form, text) {
        Some(bytes) => Ok(bytes),
        None => Err(at(place(form), Kind::BadForm)),
    }
}

/// Whether items have all that a proc must have: a variable where it may stand, and a block.
fn is_whole(items: &[Sexp], text: &[u8]) -> bool
    requires of { All (IsSexpOf text.now) items.now }
    ensures { result ≡ (roles.has_leading_variable (sexp_forms text.now items.now)
        && roles.has_list (codes "block") (sexp_forms text.now items.now)) }
{
    let variable = has_leading_variable(items, text);
    let block = has_list(items, text, b"block");
    variable && block
}

/// Reads `( proc NAME {var} [pool] block {block} )`, for this table.
fn proc(
    alloc: Global,
    form: &Sexp,
    text: &[u8],
    table: Table,
    builtin: bool,
) -> Result<Proc, TextFault>
    requires of { IsSexpOf text.now form.now }
    requires head { table_roles.has_head (codes "proc") (sexp_form text.now form.now) ≡ true }
    ensures proc { IfOk result (λ p. WritesProc (sexp_form text.now form.now) (proc_view p)) }
    ensures table { IfOk result (λ p. (p.table ≡ table) × (p.builtin ≡ builtin)) }
    ensures clear { IfOk result (λ _. IsClearProc roles.a_proc (sexp_form text.now form.now)) }
    ensures fault { IfErr result (IsFaultBy (IsFirstAs roles.a_proc (sexp_form text.now form.now))) }
{
    sexps_are_forms();
    let Some(parts) = parts(form) else {
        unreachable!();
    };
    if parts.len() < 3 {
        return Err(at(place(form), Kind::BadForm));
    }
    let items = behind(parts, 2);
    if !is_whole(items, text) {
        return Err(at(place(form), Kind::BadForm));
    }
    let bytes = any_name(&parts[1], text)?;
    let names = block_names(alloc, items, text)?;
    let vars = variables(alloc, items, text)?;
    let others = behind(items, vars.len());
    let given = first_pool(alloc, others, text, vars.as_slice())?;
    let rest = behind(others, usize::from(given.is_some()));
    let blocks = blocks(alloc, rest, text, vars.as_slice(), names.as_slice())?;
    let pool = pool_or_default(alloc, given, vars.as_slice(), &[])?;
    let name = Name::new(alloc, bytes)?;
    Ok(Proc {
        table,
        builtin,
        name,
        vars,
        pool,
        blocks,
    })
}

/// Reads the machine form of a text, where its first form is one.
fn first_table(alloc: Global, forms: &[Sexp], text: &[u8]) -> Result<Option<Table>, TextFault>
    requires of { All (IsSexpOf text.now) forms.now }
    ensures table { IfOk result (IsTableRead (sexp_forms text.now forms.now)) }
    ensures fault { IfErr result (IsFaultBy (IsTableRefused (sexp_forms text.now forms.now))) }
{
    let Some(form) = forms.first() else {
        return Ok(None);
    };
    if !has_head(form, text, b"machine") {
        return Ok(None);
    }
    Ok(Some(machine_table::read(alloc, form, text)?))
}

fn read_forms(alloc: Global, forms: &[Sexp], text: &[u8]) -> Result<Proc, TextFault>
    requires of { All (IsSexpOf text.now) forms.now }
    requires stand { Stand 0 (length text.now) (forms_from (sexp_forms text.now forms.now)) }
    requires small { length text.now < 2 ^ 29 }
    ensures written { IfOk result (λ p. WritesProcText (sexp_forms text.now forms.now) (proc_view p)) }
    ensures clear { IfOk result (λ _. (place : ℕ) (kind : FaultKind)
        → IsProcTextFault (length text.now) (sexp_forms text.now forms.now) place kind → ⊥) }
    ensures fault { IfErr result (IsFaultBy (IsFirst (IsProcTextFault (length text.now)
        (sexp_forms text.now forms.now)))) }
{
    sexps_are_forms();
    let given = first_table(alloc, forms, text)?;
    let rest = behind(forms, usize::from(given.is_some()));
    let Some(form) = rest.first() else {
        return Err(at(text.len() as u32, Kind::BadForm));
    };
    if !has_head(form, text, b"proc") {
        return Err(at(place(form), Kind::BadForm));
    }
    let (table, builtin) = table_or_built_in(alloc, given)?;
    let proc = proc(alloc, form, text, table, builtin)?;
    if rest.len() > 1 {
        return Err(at(place(&rest[1]), Kind::BadForm));
    }
    Ok(proc)
}

fn read_text(alloc: Global, bytes: &[u8]) -> Result<Proc, TextFault>
    requires { length bytes.now < 2 ^ 29 }
    ensures proc { IfOk result (λ p. ReadsProc bytes.now (proc_view p)) }
    ensures clear { IfOk result (λ _. (place : ℕ) (kind : FaultKind) → IsFirstProcFault bytes.now place kind → ⊥) }
    ensures fault { IfErr result (IsFaultBy (IsFirstProcFault bytes.now)) }
{
    one_reading();
    let forms = trees(alloc, bytes)?;
    read_forms(alloc, &forms, bytes)
}

/// Reads a text of a proc. The cost is linear in the length of the text, beside the search for names, of which a proc has
/// few.
pub fn read(alloc: Global, bytes: &[u8]) -> Result<Proc, TextFault>
    requires { length bytes.now < 2 ^ 29 }

    // What is read is in the grammar, and what is in it is read. It is well formed.
    ensures proc { IfOk result (λ p. ReadsProc bytes.now (proc_view p)) }
    ensures read { (p : ProcTree) → ReadsProc bytes.now p → GivesUnlessMemory (λ read. proc_view read ≡ p) result }
    ensures well_formed { IfOk result (λ p. IsProc (proc_view p)) }

    // A fault is the first one, of the bytes, else of the parentheses, else of the forms; and where there is one, it is
    // answered.
    ensures fault { IfErr result (IsFaultBy (IsFirstProcFault bytes.now)) }
    ensures refused { (place : ℕ) (kind : FaultKind) → IsFirstProcFault bytes.now place kind
        → RefusesUnlessMemory place kind result }
{
    procs_have_one_reading();
    read_procs_are_well_formed();
    read_text(alloc, bytes)
}

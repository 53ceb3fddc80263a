// The names of blocks, and reading where a block leads to.
ghost use Rattle.std.specs.Prelude.{◌≡◌, ◌≤◌, ◌<◌, ◌++◌, List, All, bytes_eq, length, codes, slice_get, false, true, Some, None, IfOk, IfErr, MatchOption};
ghost use Rattle.text_core.specs.Limits.{most_blocks};
ghost use Rattle.text_core.specs.Faults.{IsFaultBy};
ghost use Rattle.text_core.specs.Names.{is_among};
ghost use Rattle.forms.specs.Forms.{Form, sexp_form, sexp_forms};
ghost use Rattle.goal_meaning.specs.declared.goals.InputReg.{InputReg as InputRegOf};
ghost use Rattle.forms.specs.Reading.{IsSexpOf};
ghost use Rattle.goal_reader.specs.Roles.{second_name};
ghost use Rattle.machine_table.specs.Roles as table_roles;
ghost use Rattle.proc_goal.specs.ProcGrammar.{WritesGo, WritesProcTarget};
ghost use Rattle.proc_goal.specs.ProcReading.{IsClearProc, IsEndFront, IsFirstAmong, IsFirstAs, IsLastItem};
ghost use Rattle.proc_goal.specs.ProcRoles as roles;
ghost use Rattle.proc_goal.specs.ProcRoles.{block_names_in, step_role};

use crate::heads::has_head;
use crate::procs::Target;
use forms::{at, name, parts, place, sexps_are_forms};
use items::{Items, NoMemory};
use std::alloc::Global;
use text_core::{Kind, MOST_BLOCKS, Name, Sexp, TextFault};

/// The name that is the second part of a list.
fn second<'a>(form: &Sexp, text: &'a [u8]) -> Option<&'a [u8]>
    requires of { IsSexpOf text.now form.now }
    ensures { MatchOption result (second_name (sexp_form text.now form.now) ≡ None)
        (λ bytes. second_name (sexp_form text.now form.now) ≡ Some bytes.now) }
{
    sexps_are_forms();
    let Some(parts) = parts(form) else {
        return None;
    };
    if parts.len() < 2 {
        return None;
    }
    name(&parts[1], text)
}

/// The names of the blocks among the items, up to the limit.
pub(crate) fn block_names(
    alloc: Global,
    items: &[Sexp],
    text: &[u8],
) -> Result<Items<Name>, NoMemory>
    requires of { All (IsSexpOf text.now) items.now }
    ensures names { IfOk result (λ names. names ≡ block_names_in (sexp_forms text.now items.now)) }
    ensures few { IfOk result (λ names. length names ≤ most_blocks) }
{
    let mut names = Items::new(alloc);
    let mut count: usize = 0;
    for item in items {
        if has_head(item, text, b"block") {
            if count >= MOST_BLOCKS {
                return Ok(names);
            }
            count += 1;
            if let Some(bytes) = second(item, text) {
                names.push(Name::new(alloc, bytes)?)?;
            }
        }
    }
    Ok(names)
}

/// The number of the block of this name.
fn block_number(names: &[Name], bytes: &[u8]) -> Option<u32>
    requires few { length names.now ≤ most_blocks }
    ensures { MatchOption result (is_among names.now bytes.now ≡ false)
        (λ number. slice_get names.now number ≡ Some bytes.now) }
{
    for number in 0..names.len() {
        if names[number].bytes() == bytes {
            return Some(number as u32);
        }
    }
    None
}

/// Whether the name is that of the end.
pub(crate) fn is_done(name: &[u8]) -> bool
    ensures { result ≡ bytes_eq (codes "done") name.now }
{
    b"done".as_slice() == name
}

/// Reads the name of one of these blocks, or `done`.
pub(crate) fn target(form: &Sexp, text: &[u8], names: &[Name]) -> Result<Target, TextFault>
    requires of { IsSexpOf text.now form.now }
    requires few { length names.now ≤ most_blocks }
    ensures target { IfOk result (WritesProcTarget names.now (sexp_form text.now form.now)) }
    ensures clear { IfOk result (λ _. IsClearProc (roles.a_target names.now) (sexp_form text.now form.now)) }
    ensures fault { IfErr result (IsFaultBy (IsFirstAs (roles.a_target names.now) (sexp_form text.now form.now))) }
{
    sexps_are_forms();
    let Some(bytes) = name(form, text) else {
        return Err(at(place(form), Kind::BadForm));
    };
    if is_done(bytes) {
        return Ok(Target::Done);
    }
    match block_number(names, bytes) {
        Some(number) => Ok(Target::Block(number)),
        None => Err(at(place(form), Kind::UnknownName)),
    }
}

/// Reads `( go TARGET )`.
fn go(form: &Sexp, text: &[u8], names: &[Name]) -> Result<Target, TextFault>
    requires of { IsSexpOf text.now form.now }
    requires head { table_roles.has_head (codes "go") (sexp_form text.now form.now) ≡ true }
    requires few { length names.now ≤ most_blocks }
    ensures go { IfOk result (WritesGo names.now (sexp_form text.now form.now)) }
    ensures clear { IfOk result (λ _. IsClearProc (roles.a_go names.now) (sexp_form text.now form.now)) }
    ensures fault { IfErr result (IsFaultBy (IsFirstAs (roles.a_go names.now) (sexp_form text.now form.now))) }
{
    sexps_are_forms();
    let Some(parts) = parts(form) else {
        unreachable!();
    };
    if parts.len() < 2 {
        return Err(at(place(form), Kind::BadForm));
    }
    let target = target(&parts[1], text, names)?;
    if parts.len() > 2 {
        return Err(at(place(&parts[2]), Kind::BadForm));
    }
    Ok(target)
}

/// Reads the last of a block's items, which is the one that is left.
pub(crate) fn end(items: &[Sexp], text: &[u8], names: &[Name]) -> Result<Target, TextFault>
    requires of { All (IsSexpOf text.now) items.now }
    requires there { 0 < length items.now }
    requires few { length names.now ≤ most_blocks }
    ensures end { IfOk result (IsLastItem names.now (sexp_forms text.now items.now)) }
    ensures fault { IfErr result (λ fault. (vars : List InputRegOf) (front : List Form)
        → IsEndFront front (sexp_forms text.now items.now)
        → IsFaultBy (IsFirstAmong (λ before form. step_role vars names.now (front ++ before) form)
        (sexp_forms text.now items.now)) fault) }
{
    sexps_are_forms();
    let item = &items[0];
    if !has_head(item, text, b"go") {
        return Err(at(place(item), Kind::BadForm));
    }
    let target = go(item, text, names)?;
    if items.len() > 1 {
        return Err(at(place(&items[1]), Kind::BadForm));
    }
    Ok(target)
}

// Reading the blocks of a proc.
ghost use Rattle.std.specs.Prelude.{◌≡◌, ◌≢◌, ◌≤◌, ◌∷◌, ◌++◌, List, All, AllPairs, length, map, codes, true, false, Some, IfOk, IfErr};
ghost use Rattle.text_core.specs.Limits.{most_blocks, most_sets};
ghost use Rattle.text_core.specs.Faults.{IsFaultBy, IsFirst};
ghost use Rattle.text_core.specs.Names.{is_among};
ghost use Rattle.forms.specs.Forms.{Form, name_in, sexp_form, sexp_forms};
ghost use Rattle.forms.specs.Reading.{IsSexpOf};
ghost use Rattle.machine_table.specs.Roles as table_roles;
ghost use Rattle.goal_meaning.specs.Views.{TargetTree, target_view};
ghost use Rattle.goal_reader.specs.Roles as goal_roles;
ghost use Rattle.goal_reader.specs.Roles.{IsFaultAs};
ghost use Rattle.proc_goal.specs.ProcGrammar.{WritesBlock};
ghost use Rattle.proc_goal.specs.ProcReading.{AreBlocks, IsClearProc, IsFirstAmong, IsFirstAs, IsProcFront};
ghost use Rattle.proc_goal.specs.ProcRoles as roles;
ghost use Rattle.proc_goal.specs.ProcRoles.{proc_item_role};
ghost use Rattle.proc_goal.specs.Views.{block_view, names_of_blocks};

use crate::heads::{behind, has_head, has_list};
use crate::procs::Block;
use crate::sets::{first_guard, sets};
use crate::targets::{end, is_done};
use forms::{at, name, parts, place, sexps_are_forms};
use goal_meaning::InputReg;
use items::Items;
use std::alloc::Global;
use text_core::{Kind, MOST_BLOCKS, Name, Sexp, TextFault};

fn is_block(blocks: &[Block], name: &[u8]) -> bool
    ensures { result ≡ is_among (names_of_blocks (map block_view blocks.now)) name.now }
{
    for block in blocks {
        if block.name.bytes() == name {
            return true;
        }
    }
    false
}

/// Whether a block may not have the name.
fn is_taken(blocks: &[Block], name: &[u8]) -> bool
    ensures { result ≡ is_among (codes "done" ∷ names_of_blocks (map block_view blocks.now)) name.now }
{
    let done = is_done(name);
    let block = is_block(blocks, name);
    done || block
}

/// Reads a name that neither a block before nor the end has.
fn block_name<'a>(form: &Sexp, text: &'a [u8], before: &[Block]) -> Result<&'a [u8], TextFault>
    requires of { IsSexpOf text.now form.now }
    ensures named { IfOk result (λ bytes. name_in (sexp_form text.now form.now) ≡ Some bytes.now) }
    ensures fresh { IfOk result (λ bytes. is_among (codes "done" ∷ names_of_blocks (map block_view before.now)) bytes.now
        ≡ false) }
    ensures fault { IfErr result (IsFaultBy (IsFirst (IsFaultAs (goal_roles.fresh_name (codes "done"
        ∷ names_of_blocks (map block_view before.now))) (sexp_form text.now form.now)))) }
{
    sexps_are_forms();
    let Some(bytes) = name(form, text) else {
        return Err(at(place(form), Kind::BadForm));
    };
    if is_taken(before, bytes) {
        return Err(at(place(form), Kind::Twice));
    }
    Ok(bytes)
}

/// Reads `( block NAME [when] {set} go )`, behind these blocks and among blocks of these names.
fn block(
    alloc: Global,
    form: &Sexp,
    text: &[u8],
    vars: &[InputReg],
    names: &[Name],
    before: &[Block],
) -> Result<Block, TextFault>
    requires of { IsSexpOf text.now form.now }
    requires head { table_roles.has_head (codes "block") (sexp_form text.now form.now) ≡ true }
    requires few { length names.now ≤ most_blocks }
    ensures block { IfOk result (λ b. WritesBlock vars.now names.now (sexp_form text.now form.now) (block_view b)) }
    ensures fresh { IfOk result (λ b. is_among (codes "done" ∷ names_of_blocks (map block_view before.now)) b.name
        ≡ false) }
    ensures sets { IfOk result (λ b. AllPairs (λ (s t : TargetTree). s.name ≢ t.name) (map target_view b.sets)
        × (length b.sets ≤ most_sets)) }
    ensures clear { IfOk result (λ _. IsClearProc (roles.a_block vars.now names.now
        (names_of_blocks (map block_view before.now))) (sexp_form text.now form.now)) }
    ensures fault { IfErr result (IsFaultBy (IsFirstAs (roles.a_block vars.now names.now
        (names_of_blocks (map block_view before.now))) (sexp_form text.now form.now))) }
{
    sexps_are_forms();
    let Some(parts) = parts(form) else {
        unreachable!();
    };
    if parts.len() < 3 {
        return Err(at(place(form), Kind::BadForm));
    }
    let items = behind(parts, 2);
    if !has_list(items, text, b"go") {
        return Err(at(place(form), Kind::BadForm));
    }
    let bytes = block_name(&parts[1], text, before)?;
    let when = first_guard(alloc, items, text, vars, names)?;
    let steps = behind(items, usize::from(when.is_some()));
    let sets = sets(alloc, steps, text, vars)?;
    let go = end(behind(steps, sets.len()), text, names)?;
    let name = Name::new(alloc, bytes)?;
    Ok(Block {
        name,
        when,
        sets,
        go,
    })
}

/// Reads the items of a proc behind its variables and its pool, each of which is a block.
pub(crate) fn blocks(
    alloc: Global,
    items: &[Sexp],
    text: &[u8],
    vars: &[InputReg],
    names: &[Name],
) -> Result<Items<Block>, TextFault>
    requires of { All (IsSexpOf text.now) items.now }
    requires few { length names.now ≤ most_blocks }
    ensures blocks { IfOk result (λ blocks. AreBlocks vars.now names.now (sexp_forms text.now items.now)
        (map block_view blocks)) }
    ensures fault { IfErr result (λ fault. (front : List Form)
        → IsProcFront vars.now front (sexp_forms text.now items.now)
        → IsFaultBy (IsFirstAmong (λ before form. proc_item_role names.now (front ++ before) form)
        (sexp_forms text.now items.now)) fault) }
{
    sexps_are_forms();
    let mut blocks = Items::new(alloc);
    for index in 0..items.len() {
        let item = &items[index];
        if !has_head(item, text, b"block") {
            return Err(at(place(item), Kind::BadForm));
        }
        if index >= MOST_BLOCKS {
            return Err(at(place(item), Kind::LimitPassed));
        }
        let one = block(alloc, item, text, vars, names, blocks.as_slice())?;
        blocks.push(one)?;
    }
    Ok(blocks)
}

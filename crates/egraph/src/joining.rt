// Putting two classes into one.
ghost use Rattle.std.specs.Prelude.{◌≡◌, ◌≢◌, ◌<◌, ◌⊎◌, ℕ, map, Some, OnOk, IfErr};
ghost use Rattle.slab.specs.Slab.{slab_len};
ghost use Rattle.egraph.specs.Joined.{relabel};
ghost use Rattle.egraph.specs.Steps.{moved};
ghost use Rattle.egraph.specs.Tables.{EachBecomes, IsTracked, FitLists, TwoConstants, JoinedUp};

use crate::class_constants::{find_two_constants, move_constant};
use crate::faults::MergeFault;
use crate::moving::{move_classes, move_members, move_uses, still_of, still_using};
use crate::tables::Tables;
use std::alloc::Global;
use word_terms::Operator;

/// Puts the class `to` in place of `from` everywhere.
fn join<O: Operator>(
    alloc: Global,
    tables: &mut Tables<O>,
    waiting: &mut Vec<usize>,
    from: u32,
    to: u32,
) -> Result<(), MergeFault>
    requires differ { from ≢ to }
    requires listed { FitLists O.signature tables.old.rows
        tables.old.own tables.old.uses tables.old.members tables.old.constants.items tables.old.current.items }
    ensures rows { OnOk result (EachBecomes (relabel (moved from to)) tables.old.rows tables.new.rows) }
    ensures current { OnOk result (tables.new.current.items ≡ map (moved from to) tables.old.current.items) }
    ensures listed { OnOk result (FitLists O.signature tables.new.rows
        tables.new.own tables.new.uses tables.new.members tables.new.constants.items tables.new.current.items) }
    ensures tracked { OnOk result ((place : ℕ) →
        IsTracked O.signature tables.old.rows tables.old.index waiting.old.items place →
        IsTracked O.signature tables.new.rows tables.new.index waiting.new.items place) }
    ensures len { OnOk result (slab_len tables.new.rows ≡ slab_len tables.old.rows) }
    ensures fault { IfErr result (TwoConstants tables.old.constants.items from to) }
{
    if let Some((a, b)) = find_two_constants(&tables.constants, from, to) {
        return Err(MergeFault::NoWorld { class: to, a, b });
    }
    move_constant(&mut tables.constants, from, to)?;
    let own = tables.own.take(from);
    let own = still_of(alloc, &tables.rows, &own, from)?;
    move_classes(&mut tables.rows, &own, from, to);
    tables.own.add_all(to, own)?;
    let uses = tables.uses.take(from);
    let uses = still_using(alloc, &tables.rows, &uses, from)?;
    move_uses(
        alloc,
        &mut tables.rows,
        &mut tables.index,
        waiting,
        &uses,
        from,
        to,
    )?;
    tables.uses.add_all(to, uses)?;
    let members = tables.members.take(from);
    move_members(&mut tables.current, &members, from, to);
    tables.members.add_all(to, members)?;
    Ok(())
}

/// Joins two classes. The one that fewer rows name is renamed, or the second one where as many rows name both.
pub(crate) fn join_classes<O: Operator>(
    alloc: Global,
    tables: &mut Tables<O>,
    waiting: &mut Vec<usize>,
    x: u32,
    y: u32,
) -> Result<(), MergeFault>
    requires listed { FitLists O.signature tables.old.rows
        tables.old.own tables.old.uses tables.old.members tables.old.constants.items tables.old.current.items }
    ensures joined { OnOk result (
        JoinedUp x y tables.old.rows tables.new.rows tables.old.current.items tables.new.current.items
        ⊎ JoinedUp y x tables.old.rows tables.new.rows tables.old.current.items tables.new.current.items) }
    ensures listed { OnOk result (FitLists O.signature tables.new.rows
        tables.new.own tables.new.uses tables.new.members tables.new.constants.items tables.new.current.items) }
    ensures tracked { OnOk result ((place : ℕ) →
        IsTracked O.signature tables.old.rows tables.old.index waiting.old.items place →
        IsTracked O.signature tables.new.rows tables.new.index waiting.new.items place) }
    ensures len { OnOk result (slab_len tables.new.rows ≡ slab_len tables.old.rows) }
    ensures fault { IfErr result (λ fault. TwoConstants tables.old.constants.items x y fault
        ⊎ TwoConstants tables.old.constants.items y x fault) }
{
    if x == y {
        return Ok(());
    }
    let of_x = tables.own.count(x).saturating_add(tables.uses.count(x));
    let of_y = tables.own.count(y).saturating_add(tables.uses.count(y));
    if of_x < of_y {
        join(alloc, tables, waiting, x, y)
    } else {
        join(alloc, tables, waiting, y, x)
    }
}

// The E-graph, with an index of its rows and, for each class, lists of the rows that name it.
ghost use Rattle.std.specs.Prelude.{◌≡◌, ℕ, ◌<◌, ◌^◌, [], length, filter, is_some, All, IsSome, IsFalse, slice_index, slice_get, Some, MatchOption, IfOk, OnOk, OnErr, IfErr};
ghost use Rattle.slab.specs.Slab.{get};
ghost use Rattle.word_ops.specs.Worlds.{Value};
ghost use Rattle.egraph.specs.Graph.{IsGraph, AreMade, read_through, HasRow, LacksRow, IsInserted, HasConstant, LacksConstant};
ghost use Rattle.egraph.specs.Sorts.{IsOfSort, KeepsSorts, FitOperator, AreOfOneSort};
ghost use Rattle.egraph.specs.Joined.{IsMerged, Clash};
ghost use Rattle.egraph.specs.Values.{KeepsValues, ExtendsValues, JoinedHaveOneValue};
ghost use Rattle.egraph.specs.Faults.{FaultIs, NamesLowClass};

use crate::class_constants::constant_of;
use crate::class_lists::Lists;
use crate::faults::MergeFault;
use crate::growing::add_row;
use crate::joining::join_classes;
use crate::row_index::{RowIndex, find_class};
use crate::rows::{Row, read_all};
use crate::tables::Tables;
use crate::twins::next_twins;
use items::NoMemory;
use slab::Slab;
use std::alloc::Global;
use std::marker::Model;
use word_terms::Operator;

/// Rows in the order in which they came, until a merge; the order after a merge isn't promised. Rows name present
/// classes. A class that a call takes may be any class ever made, and a class that a call gives is a present one.
#[derive(Drop)]
pub struct Egraph<O: Operator> {
    tables: Tables<O>,
    order: Vec<usize>,
    alloc: Global,
}

impl<O: Operator> Model for Egraph<O> {
    ghost use Rattle.egraph.specs.Graph.{Graph};
    ghost use Rattle.egraph.specs.Tables.{rows_in, FitTables};

    ghost Value = { Graph O };

    ghost view = { λ g. record { rows = rows_in g.tables.rows g.order.items; current = g.tables.current.items } };

    ghost invariant = { λ g.
        FitTables O.signature g.tables.rows g.tables.index
        g.tables.own g.tables.uses g.tables.members g.tables.constants.items g.tables.current.items g.order.items };
}

impl<O: Operator> Egraph<O> {
    /// No rows and no classes, for which no memory is taken.
    pub fn new(alloc: Global) -> Egraph<O>
        ensures value { result ≡ record { rows = []; current = [] } }
        ensures graph { IsGraph O.signature result }
    {
        Egraph {
            tables: Tables {
                rows: Slab::new(alloc),
                index: RowIndex::new(alloc),
                own: Lists::new(alloc),
                uses: Lists::new(alloc),
                members: Lists::new(alloc),
                constants: Vec::new(alloc),
                current: Vec::new(alloc),
            },
            order: Vec::new(alloc),
            alloc,
        }
    }

    /// The number of classes ever made.
    pub fn made(&self) -> u32
        ensures value { result ≡ length self.now.current }
        ensures graph { IsGraph O.signature self.now }
    {
        self.tables.current.len() as u32
    }

    /// The class that this one is in at present.
    pub fn now(&self, class: u32) -> u32
        requires made { class < length self.now.current }
        ensures present { result ≡ slice_index self.now.current class }
    {
        self.tables.current[class as usize]
    }

    /// The number of rows.
    pub fn rows(&self) -> u32
        ensures value { result ≡ length self.now.rows }
        ensures graph { IsGraph O.signature self.now }
    {
        self.order.len() as u32
    }

    /// The row at a place, from 0.
    pub fn row(&self, at: u32) -> &Row<O>
        requires { at < length self.now.rows }
        ensures row { slice_get self.now.rows at ≡ Some result.now }
    {
        &self.tables.rows[self.order[at as usize]]
    }

    /// The class of the row with this operator and these operands.
    pub fn class_of(&self, op: O, operands: &[u32]) -> Option<u32>
        requires made { AreMade self.now.current operands.now }
        ensures row { MatchOption result
            (LacksRow self.now.rows op (read_through self.now operands.now))
            (HasRow self.now.rows op (read_through self.now operands.now)) }
    {
        find_class(
            &self.tables.rows,
            &self.tables.index,
            &self.tables.current,
            op,
            operands,
        )
    }

    /// The constant that the class has.
    pub fn constant_of(&self, class: u32) -> Option<u64>
        requires made { class < length self.now.current }
        ensures constant { MatchOption result
            (LacksConstant O.signature self.now.rows (slice_index self.now.current class))
            (HasConstant O.signature self.now.rows (slice_index self.now.current class)) }
    {
        constant_of(&self.tables.constants, self.tables.current[class as usize])
    }

    /// The class of the row with this operator and these operands, which is put at the end, with a class of its own,
    /// where there is none.
    pub fn insert(&mut self, op: O, operands: &[u32]) -> Result<u32, NoMemory>
        requires arity { length operands.now ≡ O.signature.arity op }
        requires made { AreMade self.old.current operands.now }
        requires sorts { FitOperator O.signature self.old op operands.now }
        requires few { length self.old.current < 2 ^ 31 }
        ensures ok { IfOk result (λ class. IsInserted self.old op operands.now class self.new) }
        ensures values { OnOk result (ExtendsValues Value self.old self.new) }
        ensures keeps_sorts { KeepsSorts O.signature self.old self.new }
        ensures sort { IfOk result (λ class. IsOfSort O.signature self.new class (O.signature.sort op)) }
        ensures err { OnErr result (self.new ≡ self.old) }
        ensures graph { IsGraph O.signature self.new }
    {
        let found = find_class(
            &self.tables.rows,
            &self.tables.index,
            &self.tables.current,
            op,
            operands,
        );
        if let Some(class) = found {
            return Ok(class);
        }
        // a constant is a word by its type, which a row must say of its operator
        let _constant = op.constant();
        let present = read_all(self.alloc, &self.tables.current, operands)?;
        let class = self.tables.current.len() as u32;
        self.order.reserve(1)?;
        let place = add_row(&mut self.tables, op, present)?;
        self.order.push(place)?;
        Ok(class)
    }

    /// Joins the classes a and b, and whatever congruence then joins. Of two classes that are joined, the one that
    /// fewer rows name, as their class or as an operand, is renamed, and walking over these rows is what the join
    /// costs; a merge that drops a row also costs a walk over the order of the rows.
    pub fn merge(self, a: u32, b: u32) -> Result<Egraph<O>, MergeFault>
        requires a_made { a < length self.current }
        requires b_made { b < length self.current }
        requires one_sort { AreOfOneSort O.signature self a b }
        ensures merged { IfOk result (IsMerged self a b) }
        ensures values { IfOk result (KeepsValues Value self a b) }
        ensures keeps_sorts { IfOk result (KeepsSorts O.signature self) }
        ensures joined_values { JoinedHaveOneValue Value self a b }
        ensures no_clash { OnOk result ((class x y : ℕ) → ¬ Clash O.signature self a b class x y) }
        ensures graph { IfOk result (IsGraph O.signature) }
        ensures fault { IfErr result (FaultIs O.signature self a b) }
        ensures low { IfErr result NamesLowClass }
    {
        let mut tables = self.tables;
        let order = self.order;
        let alloc = self.alloc;
        let mut waiting = Vec::new(alloc);
        let mut dropped = false;
        let x = tables.current[a as usize];
        let y = tables.current[b as usize];
        if let Err(fault) = join_classes(alloc, &mut tables, &mut waiting, x, y) {
            return Err(fault);
        }
        while let Some((first, second)) = next_twins(
            &tables.rows,
            &mut tables.index,
            &mut waiting,
        )? {
            let x = tables.rows[first].class;
            let y = tables.rows[second].class;
            if let Err(fault) = join_classes(alloc, &mut tables, &mut waiting, x, y) {
                return Err(fault);
            }
            let _ = tables.rows.remove(second);
            dropped = true;
        }
        let order = without_dropped(alloc, &tables.rows, order, dropped)?;
        Ok(Egraph {
            tables,
            order,
            alloc,
        })
    }
}

/// The keys that have a row, where some row may have been dropped.
fn without_dropped<O: Operator>(
    alloc: Global,
    rows: &Slab<Row<O>>,
    order: Vec<usize>,
    dropped: bool,
) -> Result<Vec<usize>, NoMemory>
    requires { IsFalse dropped → All (λ place. IsSome (get rows.now place)) order.items }
    ensures { IfOk result (λ kept. kept.items ≡ filter (λ place. is_some (get rows.now place)) order.items) }
{
    if !dropped {
        return Ok(order);
    }
    let mut kept = Vec::new(alloc);
    for place in order.iter() {
        if rows.contains(*place) {
            kept.push(*place)?;
        }
    }
    Ok(kept)
}

// From which cycle on launches of a row have variables, and of which classes it is said where they are seen.
ghost use Rattle.std.specs.Prelude.{◌≡◌, ◌<◌, ◌^◌, length, map, IfOk};
ghost use Rattle.graph_meaning.specs.WellFormed.{IsLaunchGraph};
ghost use Rattle.machine_table.specs.Tables.{IsTable};
ghost use Rattle.cycle_encoding.specs.Coming as coming;
ghost use Rattle.cycle_encoding.specs.Coming.{start_needs};
ghost use Rattle.cycle_encoding.specs.Encodings.{IsScope};
ghost use Rattle.cycle_encoding.specs.Variables.{row_numbers};
ghost use Rattle.cycle_encoding.specs.Scoped as scoped;
ghost use Rattle.cycle_encoding.specs.CycleFormula.{allocation_in, first_cycle_in, wants_in, wide_scope};

use crate::coming::{Rows, earliest_cycles};
use crate::operands::{There, awaited, needs};
use crate::wanting::wanted;
use crate::{Encoding, Facts};
use items::{Items, NoMemory};
use machine_table::{InstrKind, Table};
use schedule_meaning::{Allocation, class_at};
use std::alloc::Global;
use std::marker::Model;

/// By an encoding's scope: the first cycle of each row's launches, and the classes that it speaks of.
#[derive(Drop)]
pub struct Scope {
    encoding: Encoding,
    firsts: Vec<Option<u32>>,
    wants: Vec<bool>,
}

impl Model for Scope {
    ghost use Rattle.cycle_encoding.specs.CycleFormula.{Scope as ScopeOf};

    ghost Value = { ScopeOf };

    ghost view = { λ a. record { encoding = a.encoding; firsts = a.firsts.items; wants = a.wants.items } };
}

impl Scope {
    /// Every launch, and every class that launches make.
    fn wide(alloc: Global) -> Scope
        ensures { result ≡ wide_scope }
    {
        Scope {
            encoding: Encoding::Wide,
            firsts: Vec::new(alloc),
            wants: Vec::new(alloc),
        }
    }

    /// What has variables in the encoding: once for a graph and a table, for any number of cycles. The wide one has
    /// every launch and class, and looks at none of these tables; the others have launches that can start by their
    /// cycle and whose word is wanted, and wanted classes.
    pub fn of(
        alloc: Global,
        encoding: Encoding,
        facts: &Facts,
        table: &Table,
    ) -> Result<Scope, NoMemory>
        requires table { IsTable table.now }
        requires graph { IsLaunchGraph facts.now }
        ensures { IfOk result (IsScope encoding facts.now table.now) }
    {
        if let Encoding::Wide = encoding {
            return Ok(Scope::wide(alloc));
        }
        let allocation = encoding.allocation();
        let lasting = needs(alloc, facts, There::Always)?;
        let wants = wanted(alloc, facts, &lasting)?;
        let awaited = awaited(alloc, facts, allocation)?;
        let rows = Rows {
            facts,
            table,
            allocation,
        };
        let come = earliest_cycles(alloc, &rows, &awaited)?;
        let firsts = first_cycles(alloc, &rows, &awaited, &come, &wants)?;
        Ok(Scope {
            encoding,
            firsts,
            wants,
        })
    }

    /// The encoding.
    pub fn encoding(&self) -> Encoding
        ensures { result ≡ self.now.encoding }
    {
        self.encoding
    }

    /// How long the launches of the schedules that it asks for keep their registers.
    pub fn allocation(&self) -> Allocation
        ensures { result ≡ allocation_in self.now }
    {
        self.encoding.allocation()
    }

    /// The cycle from which launches of the row have variables, if any have.
    pub fn first(&self, row: u32) -> Option<u32>
        ensures { result ≡ first_cycle_in self.now row }
    {
        match self.encoding {
            Encoding::Wide => Some(0),
            Encoding::Narrow | Encoding::Pinned | Encoding::Live => match self
                .firsts
                .get(row as usize)
            {
                Some(first) => *first,
                None => None,
            },
        }
    }

    /// Whether it is said of the class where it is seen, if launches alone make it.
    pub fn wants(&self, class: u32) -> bool
        ensures { result ≡ wants_in self.now class }
    {
        match self.encoding {
            Encoding::Wide => true,
            Encoding::Narrow | Encoding::Pinned | Encoding::Live => match self
                .wants
                .get(class as usize)
            {
                Some(wants) => *wants,
                None => false,
            },
        }
    }
}

/// For each row's number the cycle from which its launches have variables, if any have.
#[tactic(auto, using(crate::proofs::Tables::table_more))]
fn first_cycles(
    alloc: Global,
    rows: &Rows,
    needs: &[Items<u32>],
    come: &[Option<u32>],
    marks: &[bool],
) -> Result<Vec<Option<u32>>, NoMemory>
    requires rows { length rows.now.facts.now.rows < 2 ^ 30 }
    requires needs { needs.now ≡ map (start_needs rows.now.facts.now rows.now.allocation)
        (row_numbers rows.now.facts.now) }
    ensures { IfOk result (λ firsts. firsts.items ≡ map (scoped.first_cycle rows.now.facts.now rows.now.allocation
        come.now marks.now) (row_numbers rows.now.facts.now)) }
{
    let mut firsts = Vec::new(alloc);
    for row in 0..rows.facts.row_numbers() {
        let awaited = needs[row as usize].as_slice();
        let first = first_cycle(rows, awaited, come, marks, row);
        firsts.push(first)?;
    }
    Ok(firsts)
}

fn first_cycle(
    rows: &Rows,
    needs: &[u32],
    come: &[Option<u32>],
    marks: &[bool],
    row: u32,
) -> Option<u32>
    requires needs { needs.now ≡ start_needs rows.now.facts.now rows.now.allocation row }
    ensures { result ≡ scoped.first_cycle rows.now.facts.now rows.now.allocation come.now marks.now row }
{
    if is_spoken_of(rows.facts, marks, row) {
        latest(come, needs)
    } else {
        None
    }
}

/// Whether the row is a store, the branch, or of a marked class.
fn is_spoken_of(facts: &Facts, marks: &[bool], row: u32) -> bool
    ensures { result ≡ scoped.is_spoken_of facts.now marks.now row }
{
    match facts.instr_at(row) {
        Some(InstrKind::Store(_) | InstrKind::Beq) => true,
        _ => match marks.get(class_at(facts.graph(), row) as usize) {
            Some(marked) => *marked,
            None => false,
        },
    }
}

/// The last of the cycles by which the classes have come, if all have.
fn latest(come: &[Option<u32>], classes: &[u32]) -> Option<u32>
    ensures { result ≡ coming.last_come come.now classes.now }
{
    let mut latest = 0;
    for class in classes {
        match come.get(*class as usize) {
            Some(Some(first)) => {
                if latest < *first {
                    latest = *first;
                }
            }
            _ => return None,
        }
    }
    Some(latest)
}

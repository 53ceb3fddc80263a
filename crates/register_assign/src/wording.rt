// The words of launches that stand in word order, and the places of the targets.
ghost use Rattle.std.specs.Prelude.{◌≡◌, ◌<◌, ◌^◌, ◌++◌, ◌∷◌, [], length, slice_index, IfOk, OnOk};
ghost use Rattle.std.specs.Option.{option_map_or};
ghost use Rattle.register_assign.specs.Listings as listings;
ghost use Rattle.register_assign.specs.Places.{places};

use crate::listings::{Item, Where};
use crate::registers::Ordered;
use alpha_encode::{Instr, Second};
use graph_meaning::{LaunchGraph, SetClass};
use items::{Items, NoMemory};
use schedule_meaning::{Launch, copied_at, operand_class};
use std::alloc::Global;
use word_ops::{Op, Operate, WordOp};

// What stands for a row that can't be launched.
const NO_INSTR: Instr = Instr::Operate {
    op: Operate::Bis,
    ra: 31,
    second: Second::Reg(31),
    rc: 31,
};

/// The low 16 bits of the class's constant, with sign.
fn displacement(graph: &LaunchGraph, class: u32) -> i16
    ensures { result ≡ listings.displacement_of graph.now class }
{
    match graph.constant_of(class) {
        Some(constant) => ((constant % 65536) as u16).cast_signed(),
        None => 0,
    }
}

fn displacement_at(graph: &LaunchGraph, operands: &[u32], at: usize) -> i16
    ensures { result ≡ listings.displacement_of graph.now (slice_index operands.now at) }
{
    displacement(graph, operand_class(operands, at))
}

/// The guard's class; 0 where there is no guard.
fn branch_class(graph: &LaunchGraph) -> u32
    ensures { result ≡ option_map_or (λ guard. guard.class) graph.now.guard 0 }
{
    match graph.guard {
        Some(guard) => guard.class,
        None => 0,
    }
}

impl<'a> Ordered<'a> {
    /// The register from which the launch at a place reads a class's word.
    fn reg(&self, place: usize, launch: Launch, class: u32) -> u8
        ensures { result ≡ listings.reg self.now.graph.now self.now.table.now self.now.allocation
            self.now.launches.now place launch class }
    {
        self.register_by(Some(launch), class)
    }

    /// The register that the operand at a place of the row's operands is read from.
    fn reg_at(&self, place: usize, launch: Launch, operands: &[u32], at: usize) -> u8
        ensures { result ≡ listings.reg self.now.graph.now self.now.table.now self.now.allocation
            self.now.launches.now place launch (slice_index operands.now at) }
    {
        self.register_by(Some(launch), operand_class(operands, at))
    }

    fn operate_instr(&self, place: usize, launch: Launch, op: Operate, operands: &[u32]) -> Instr
        requires { place < length self.now.launches.now }
        ensures { result ≡ listings.operate_instr self.now.graph.now self.now.table.now self.now.allocation
            self.now.launches.now place launch op operands.now }
    {
        let rc = self.register_at(place);
        if operands.len() == 0 {
            return Instr::Operate {
                op,
                ra: 31,
                second: Second::Reg(31),
                rc,
            };
        }
        if operands.len() == 1 {
            return Instr::Operate {
                op,
                ra: 31,
                second: self.second_for(launch, operands[0]),
                rc,
            };
        }
        Instr::Operate {
            op,
            ra: self.reg(place, launch, operands[0]),
            second: self.second_for(launch, operands[1]),
            rc,
        }
    }

    fn word_instr(&self, place: usize, launch: Launch, op: WordOp, operands: &[u32]) -> Instr
        requires { place < length self.now.launches.now }
        ensures { result ≡ listings.word_instr self.now.graph.now self.now.table.now self.now.allocation
            self.now.launches.now place launch op operands.now }
    {
        match op {
            WordOp::Lda => Instr::Lda {
                ra: self.register_at(place),
                rb: self.reg_at(place, launch, operands, 0),
                disp: displacement_at(self.graph, operands, 1),
            },
            WordOp::Ldah => Instr::Ldah {
                ra: self.register_at(place),
                rb: self.reg_at(place, launch, operands, 0),
                disp: displacement_at(self.graph, operands, 1),
            },
            WordOp::Operate(op) => self.operate_instr(place, launch, op, operands),
            _ => NO_INSTR,
        }
    }

    fn row_instr(&self, place: usize, launch: Launch, op: Op, operands: &[u32]) -> Instr
        requires { place < length self.now.launches.now }
        ensures { result ≡ listings.row_instr self.now.graph.now self.now.table.now self.now.allocation
            self.now.launches.now place launch op operands.now }
    {
        match op {
            Op::Word(op) => self.word_instr(place, launch, op, operands),
            Op::Select(access) => Instr::Load {
                access,
                ra: self.register_at(place),
                rb: self.reg_at(place, launch, operands, 1),
                disp: 0,
            },
            Op::Load(access) => Instr::Load {
                access,
                ra: self.register_at(place),
                rb: self.reg_at(place, launch, operands, 1),
                disp: displacement_at(self.graph, operands, 2),
            },
            Op::Store(access) => Instr::Store {
                access,
                ra: self.reg_at(place, launch, operands, 2),
                rb: self.reg_at(place, launch, operands, 1),
                disp: 0,
            },
            Op::Put(access) => Instr::Store {
                access,
                ra: self.reg_at(place, launch, operands, 3),
                rb: self.reg_at(place, launch, operands, 1),
                disp: displacement_at(self.graph, operands, 2),
            },
            _ => NO_INSTR,
        }
    }

    /// The instruction of a row's launch, or of the branch, which leads to one word behind the last.
    fn plain_instr(&self, place: usize, launch: Launch) -> Instr
        requires place { place < length self.now.launches.now }
        requires few { length self.now.launches.now < 2 ^ 29 }
        ensures { result ≡ listings.plain_instr self.now.graph.now self.now.table.now self.now.allocation
            self.now.launches.now place launch }
    {
        match self.graph.rows.as_slice().get(launch.row as usize) {
            Some(row) => self.row_instr(place, launch, row.op, row.operands.as_slice()),
            None => Instr::Beq {
                ra: self.reg(place, launch, branch_class(self.graph)),
                disp: (self.launches.len() - place) as i32,
            },
        }
    }

    fn copy_instr(&self, place: usize, launch: Launch, class: u32) -> Instr
        requires { place < length self.now.launches.now }
        ensures { result ≡ listings.copy_instr self.now.graph.now self.now.table.now self.now.allocation
            self.now.launches.now place launch class }
    {
        Instr::Operate {
            op: Operate::Bis,
            ra: 31,
            second: self.second_for(launch, class),
            rc: self.register_at(place),
        }
    }

    /// The instruction of the launch at a place.
    fn instr_of(&self, place: usize, launch: Launch) -> Instr
        requires place { place < length self.now.launches.now }
        requires few { length self.now.launches.now < 2 ^ 29 }
        ensures { result ≡ listings.instr_of self.now.graph.now self.now.table.now self.now.allocation
            self.now.launches.now place launch }
    {
        match copied_at(self.graph, launch.row) {
            Some(class) => self.copy_instr(place, launch, class),
            None => self.plain_instr(place, launch),
        }
    }

    #[tactic(auto, using(crate::proofs::Listed::items_more))]
    pub(crate) fn items_of(&self, alloc: Global) -> Result<Items<Item>, NoMemory>
        requires { length self.now.launches.now < 2 ^ 29 }
        ensures { IfOk result (λ items. items
            ≡ listings.items_of self.now.graph.now self.now.table.now self.now.allocation self.now.launches.now) }
    {
        let mut items = Items::new(alloc);
        for (place, launch) in self.launches.iter().enumerate() {
            items.push(Item {
                instr: self.instr_of(place, *launch),
                cycle: launch.cycle,
                slot: launch.slot,
            })?;
        }
        Ok(items)
    }

    /// The register that the target is in at the end.
    fn target_place(&self, set: &SetClass) -> u8
        ensures { result ≡ listings.target_place self.now.graph.now self.now.table.now self.now.allocation
            self.now.launches.now set.now }
    {
        match set.pin {
            Some(pin) => pin,
            None => self.register_by(None, set.class),
        }
    }

    /// Puts the set's place at the end; the memory has none.
    fn push_place(&self, wheres: &mut Items<Where>, set: &SetClass) -> Result<(), NoMemory>
        ensures { OnOk result (wheres.new ≡ wheres.old
            ++ places self.now.graph.now self.now.table.now self.now.allocation self.now.launches.now
            (set.now ∷ [])) }
    {
        if set.is_memory() {
            return Ok(());
        }
        wheres.push(Where {
            name: set.name.copy()?,
            reg: self.target_place(set),
        })
    }

    #[tactic(auto, using(crate::proofs::Listed::places_more))]
    pub(crate) fn wheres_of(&self, alloc: Global) -> Result<Items<Where>, NoMemory>
        ensures { IfOk result (λ wheres. wheres
            ≡ listings.wheres_of self.now.graph.now self.now.table.now self.now.allocation self.now.launches.now) }
    {
        let mut wheres = Items::new(alloc);
        for set in self.graph.sets.as_slice() {
            self.push_place(&mut wheres, set)?;
        }
        Ok(wheres)
    }
}

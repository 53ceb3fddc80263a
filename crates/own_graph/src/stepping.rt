// The rows of words, one after another.
ghost use Rattle.std.specs.Prelude.{◌≡◌, ◌<◌, ◌^◌, [], ◌∷◌, ◌++◌, if◌then◌else◌, length, IfOk, IfSome, OnOk};
ghost use Rattle.alpha_encode.specs.Codes.{is_unary};
ghost use Rattle.alpha_encode.specs.Formats.{IsSecond, IsWellFormed};
ghost use Rattle.code_check.specs.Terms.{sign_extended};
ghost use Rattle.code_lift.specs.LiftingView.{lifting_view};
ghost use Rattle.own_graph.specs.Own as own_graphs;
ghost use Rattle.own_graph.specs.OwnView.{AreGiven, IsGiven, own_view};
ghost use Rattle.own_graph.specs.Rows.{HasRoom};

use crate::operands::{Part, number};
use crate::rows::{place_applied, place_row};
use alpha_encode::{Instr, Second};
use code_lift::{Lifting, Value, counts};
use graph_meaning::LaunchRow;
use items::NoMemory;
use std::alloc::Global;
use word_ops::{Access, Op, Operate, WordOp};

fn load_op(access: Access, disp: i16) -> Op
    ensures { result ≡ own_graphs.load_op access disp }
{
    if disp == 0 {
        return Op::Select(access);
    }
    Op::Load(access)
}

fn store_op(access: Access, disp: i16) -> Op
    ensures { result ≡ own_graphs.store_op access disp }
{
    if disp == 0 {
        return Op::Store(access);
    }
    Op::Put(access)
}

/// The operator of what an instruction writes.
fn own_op(instr: Instr) -> Op
    ensures { result ≡ own_graphs.own_op instr }
{
    match instr {
        Instr::Operate { op, .. } => Op::Word(WordOp::Operate(op)),
        Instr::Lda { .. } => Op::Word(WordOp::Lda),
        Instr::Ldah { .. } => Op::Word(WordOp::Ldah),
        Instr::Load { access, disp, .. } => load_op(access, disp),
        Instr::Store { access, disp, .. } => store_op(access, disp),
        Instr::Ldq { disp, .. } => load_op(Access::Quad, disp),
        Instr::Stq { disp, .. } => store_op(Access::Quad, disp),
        Instr::Beq { .. } => Op::Entry,
    }
}

fn displacement(disp: i16) -> Part
    ensures { result ≡ own_graphs.number (sign_extended disp) }
{
    number(i64::from(disp).cast_unsigned())
}

/// The part of a value, by the classes of what words write.
pub(crate) fn value_part(values: &[u32], value: Value) -> Part
    requires { IsGiven (length values.now) value }
    ensures { result ≡ own_graphs.value_part values.now value }
{
    match value {
        Value::Entry(register) => Part::Leaf(Op::Input(register)),
        Value::Zero => number(0),
        Value::Let(at) => Part::Class(values[at as usize]),
    }
}

/// The part of a memory: that of a let, or that at entry.
pub(crate) fn memory_part(values: &[u32], memory: Option<u32>) -> Part
    requires { IfSome memory (λ n. n < length values.now) }
    ensures { result ≡ own_graphs.memory_part values.now memory }
{
    match memory {
        None => Part::Leaf(Op::Entry),
        Some(at) => Part::Class(values[at as usize]),
    }
}

/// The rows behind some words, and the class of what each word that counts writes.
#[derive(Drop)]
pub(crate) struct Own {
    pub rows: Vec<LaunchRow>,
    pub values: Vec<u32>,
}

impl Own {
    /// The memory at entry, and behind it the inputs.
    pub fn new(alloc: Global, inputs: &[u8]) -> Result<Own, NoMemory>
        requires { length inputs.now < 2 ^ 16 }
        ensures { IfOk result (λ o. own_view o ≡ own_graphs.own_start inputs.now) }
    {
        let mut rows = Vec::new(alloc);
        place_row(alloc, &mut rows, Op::Entry, &[])?;
        for register in inputs {
            place_row(alloc, &mut rows, Op::Input(*register), &[])?;
        }
        Ok(Own {
            rows,
            values: Vec::new(alloc),
        })
    }

    /// The part of what a register has behind words of which this is known.
    pub fn register_part(&self, lifting: &Lifting, register: u8) -> Part
        requires low { register < 32 }
        requires given { AreGiven (length self.now.values.items) (lifting_view lifting.now) }
        ensures { result ≡ own_graphs.register_part (lifting_view lifting.now) self.now.values.items register }
    {
        value_part(&self.values, lifting.value(register))
    }

    fn second_part(&self, lifting: &Lifting, second: Second) -> Part
        requires second { IsSecond second }
        requires given { AreGiven (length self.now.values.items) (lifting_view lifting.now) }
        ensures { result ≡ own_graphs.second_part (lifting_view lifting.now) self.now.values.items second }
    {
        match second {
            Second::Reg(register) => self.register_part(lifting, register),
            Second::Literal(literal) => number(u64::from(literal)),
        }
    }

    fn operate_parts(
        &self,
        alloc: Global,
        lifting: &Lifting,
        op: Operate,
        ra: u8,
        second: Second,
    ) -> Result<Vec<Part>, NoMemory>
        requires ra { ra < 32 }
        requires second { IsSecond second }
        requires given { AreGiven (length self.now.values.items) (lifting_view lifting.now) }
        ensures { IfOk result (λ parts. parts.items ≡ (if is_unary op
            then own_graphs.second_part (lifting_view lifting.now) self.now.values.items second ∷ []
            else own_graphs.register_part (lifting_view lifting.now) self.now.values.items ra
            ∷ own_graphs.second_part (lifting_view lifting.now) self.now.values.items second ∷ [])) }
    {
        let b = self.second_part(lifting, second);
        if op.arity() == 1 {
            return Ok(vec![in alloc; b]?);
        }
        Ok(vec![in alloc; self.register_part(lifting, ra), b]?)
    }

    /// Memory, base and displacement. A displacement of 0 isn't written.
    fn load_parts(
        &self,
        alloc: Global,
        lifting: &Lifting,
        rb: u8,
        disp: i16,
    ) -> Result<Vec<Part>, NoMemory>
        requires rb { rb < 32 }
        requires given { AreGiven (length self.now.values.items) (lifting_view lifting.now) }
        ensures { IfOk result (λ parts. parts.items
            ≡ own_graphs.load_parts (lifting_view lifting.now) self.now.values.items rb disp) }
    {
        let memory = memory_part(&self.values, lifting.memory);
        let base = self.register_part(lifting, rb);
        if disp == 0 {
            return Ok(vec![in alloc; memory, base]?);
        }
        Ok(vec![in alloc; memory, base, displacement(disp)]?)
    }

    fn store_parts(
        &self,
        alloc: Global,
        lifting: &Lifting,
        ra: u8,
        rb: u8,
        disp: i16,
    ) -> Result<Vec<Part>, NoMemory>
        requires ra { ra < 32 }
        requires rb { rb < 32 }
        requires given { AreGiven (length self.now.values.items) (lifting_view lifting.now) }
        ensures { IfOk result (λ parts. parts.items
            ≡ own_graphs.load_parts (lifting_view lifting.now) self.now.values.items rb disp
            ++ own_graphs.register_part (lifting_view lifting.now) self.now.values.items ra ∷ []) }
    {
        let mut parts = self.load_parts(alloc, lifting, rb, disp)?;
        parts.push(self.register_part(lifting, ra))?;
        Ok(parts)
    }

    fn sum_parts(
        &self,
        alloc: Global,
        lifting: &Lifting,
        rb: u8,
        disp: i16,
    ) -> Result<Vec<Part>, NoMemory>
        requires rb { rb < 32 }
        requires given { AreGiven (length self.now.values.items) (lifting_view lifting.now) }
        ensures { IfOk result (λ parts. parts.items
            ≡ own_graphs.register_part (lifting_view lifting.now) self.now.values.items rb
            ∷ own_graphs.number (sign_extended disp) ∷ []) }
    {
        Ok(vec![in alloc; self.register_part(lifting, rb), displacement(disp)]?)
    }

    /// The operands of what an instruction writes.
    fn parts(&self, alloc: Global, lifting: &Lifting, instr: Instr) -> Result<Vec<Part>, NoMemory>
        requires instr { IsWellFormed instr }
        requires given { AreGiven (length self.now.values.items) (lifting_view lifting.now) }
        ensures { IfOk result (λ parts. parts.items
            ≡ own_graphs.operand_parts (lifting_view lifting.now) self.now.values.items instr) }
    {
        match instr {
            Instr::Operate { op, ra, second, .. } => {
                self.operate_parts(alloc, lifting, op, ra, second)
            }
            Instr::Lda { rb, disp, .. } => self.sum_parts(alloc, lifting, rb, disp),
            Instr::Ldah { rb, disp, .. } => self.sum_parts(alloc, lifting, rb, disp),
            Instr::Load { rb, disp, .. } => self.load_parts(alloc, lifting, rb, disp),
            Instr::Store { ra, rb, disp, .. } => self.store_parts(alloc, lifting, ra, rb, disp),
            Instr::Ldq { rb, disp, .. } => self.load_parts(alloc, lifting, rb, disp),
            Instr::Stq { ra, rb, disp } => self.store_parts(alloc, lifting, ra, rb, disp),
            Instr::Beq { .. } => Ok(Vec::new(alloc)),
        }
    }

    /// Adds what an instruction writes, if it can be seen, behind words of which this is known.
    pub fn step(&mut self, alloc: Global, lifting: &Lifting, instr: Instr) -> Result<(), NoMemory>
        requires instr { IsWellFormed instr }
        requires given { AreGiven (length self.old.values.items) (lifting_view lifting.now) }
        requires room { HasRoom 5 self.old.rows.items }
        ensures { OnOk result (own_view self.new
            ≡ own_graphs.own_step (lifting_view lifting.now) instr (own_view self.old)) }
    {
        if !counts(instr) {
            return Ok(());
        }
        let parts = self.parts(alloc, lifting, instr)?;
        let class = place_applied(alloc, &mut self.rows, own_op(instr), &parts)?;
        self.values.push(class)?;
        Ok(())
    }
}

// What is known behind some words of a lift: the latest values, the lets, and the addresses on which words may trap.
ghost use Rattle.std.specs.Prelude.{◌≡◌, ◌+◌, ◌<◌, ◌≤◌, ◌^◌, ◌∷◌, [], if◌then◌else◌, false, length, decimal, slice_index_or, All, IfOk, IfSome, OnOk, option_map};
ghost use Rattle.std.specs.List.{list_any};
ghost use Rattle.alpha_encode.specs.Formats.{IsSecond, IsWellFormed};
ghost use Rattle.code_check.specs.Terms as check_terms;
ghost use Rattle.code_lift.specs.Lifted as lifts;
ghost use Rattle.code_lift.specs.LiftingView.{lifting_view};
ghost use Rattle.code_lift.specs.WellFormed.{IsPlainWord};
ghost use Rattle.register_assign.specs.Obeys as obeys;
ghost use Rattle.word_terms.specs.Building.{read_of, written_of};
ghost use Rattle.word_terms.specs.View.{tree_of};

use crate::terms::{high_word, low_word, memory_term, sum_term, value_term};
use alpha_encode::{Instr, Second, decode};
use goal_meaning::Let;
use items::NoMemory;
use itoa::Buffer;
use std::alloc::Global;
use text_core::Name;
use word_ops::{Access, Op, Operate};
use word_terms::{Term, constant, operate_1, operate_2, read, written};

/// A value that a register may have: that of a register at entry, 0, or that of a let.
#[derive(Clone, Copy)]
pub enum Value {
    Entry(u8),
    Zero,
    Let(u32),
}

/// An address that is to be a multiple of 2^power: that of a value and a displacement, which is 0 where it is such a
/// multiple itself.
#[derive(Clone, Copy)]
pub struct Address {
    pub value: Value,
    pub displacement: u64,
    pub power: u8,
}

/// What is known behind some words: the value of each register, the let that is the memory, which registers are inputs,
/// the lets, and the addresses on which words may trap, each once.
#[derive(Drop)]
pub struct Lifting {
    pub latest: [Value; 32],
    pub memory: Option<u32>,
    pub is_read: [bool; 32],
    pub lets: Vec<Let>,
    pub addresses: Vec<Address>,
}

/// The register that the instruction writes.
fn register_of(instr: Instr) -> Option<u8>
    requires { IsWellFormed instr }
    ensures written { result ≡ obeys.writes instr }
    ensures low { IfSome result (λ register. register < 32) }
{
    match instr {
        Instr::Operate { rc, .. } => Some(rc),
        Instr::Lda { ra, .. }
        | Instr::Ldah { ra, .. }
        | Instr::Load { ra, .. }
        | Instr::Ldq { ra, .. } => Some(ra),
        Instr::Store { .. } | Instr::Stq { .. } | Instr::Beq { .. } => None,
    }
}

/// The register below 31 that the instruction writes.
pub fn register_written(instr: Instr) -> Option<u8>
    requires { IsWellFormed instr }
    ensures written { result ≡ lifts.register_written instr }
    ensures low { IfSome result (λ register. register < 32) }
{
    let Some(register) = register_of(instr) else {
        return None;
    };
    if register == 31 {
        return None;
    }
    Some(register)
}

pub fn stores(instr: Instr) -> bool
    ensures { result ≡ obeys.stores instr }
{
    match instr {
        Instr::Store { .. } | Instr::Stq { .. } => true,
        _ => false,
    }
}

/// Whether the instruction writes a register below 31 or memory.
pub fn counts(instr: Instr) -> bool
    requires { IsWellFormed instr }
    ensures { result ≡ lifts.counts instr }
{
    stores(instr) || register_written(instr).is_some()
}

impl Lifting {
    pub fn new(alloc: Global) -> Lifting
        ensures { lifting_view result ≡ lifts.at_start }
    {
        let mut latest = [Value::Zero; 32];
        for register in 0..31usize {
            latest[register] = Value::Entry(register as u8);
        }
        Lifting {
            latest,
            memory: None,
            is_read: [false; 32],
            lets: Vec::new(alloc),
            addresses: Vec::new(alloc),
        }
    }

    /// The latest value of the register.
    pub fn value(&self, register: u8) -> Value
        requires { register < 32 }
        ensures { result ≡ lifts.latest_of (lifting_view self.now) register }
    {
        self.latest[usize::from(register)]
    }

    fn register_term(&self, alloc: Global, register: u8) -> Term<Op>
        requires { register < 32 }
        ensures { tree_of result ≡ lifts.register_term (lifting_view self.now) register }
    {
        value_term(alloc, self.value(register))
    }

    fn second_term(&self, alloc: Global, second: Second) -> Term<Op>
        requires { IsSecond second }
        ensures { tree_of result ≡ check_terms.second_term second (lifts.register_term (lifting_view self.now)) }
    {
        match second {
            Second::Reg(register) => self.register_term(alloc, register),
            Second::Literal(number) => constant(alloc, u64::from(number)),
        }
    }

    fn operate_term(
        &self,
        alloc: Global,
        op: Operate,
        ra: u8,
        second: Second,
    ) -> Result<Term<Op>, NoMemory>
        requires ra { ra < 32 }
        requires second { IsSecond second }
        ensures { IfOk result (λ t. tree_of t ≡ check_terms.operate_term op
            (lifts.register_term (lifting_view self.now) ra)
            (check_terms.second_term second (lifts.register_term (lifting_view self.now)))) }
    {
        let b = self.second_term(alloc, second);
        if op.arity() == 1 {
            return operate_1(alloc, op, b);
        }
        operate_2(alloc, op, self.register_term(alloc, ra), b)
    }

    /// The sum of a register's value with a word.
    fn sum(&self, alloc: Global, register: u8, word: u64) -> Result<Term<Op>, NoMemory>
        requires { register < 32 }
        ensures { IfOk result (λ t. tree_of t
            ≡ lifts.sum_term (lifts.register_term (lifting_view self.now) register) word) }
    {
        sum_term(alloc, self.register_term(alloc, register), word)
    }

    fn loaded(&self, alloc: Global, access: Access, rb: u8, disp: i16) -> Result<Term<Op>, NoMemory>
        requires { rb < 32 }
        ensures { IfOk result (λ t. tree_of t ≡ read_of access (lifts.memory_term (lifting_view self.now))
            (lifts.displaced_term (lifting_view self.now) rb disp)) }
    {
        let address = self.sum(alloc, rb, low_word(disp))?;
        read(alloc, access, memory_term(alloc, self.memory), address)
    }

    fn stored(
        &self,
        alloc: Global,
        access: Access,
        ra: u8,
        rb: u8,
        disp: i16,
    ) -> Result<Term<Op>, NoMemory>
        requires ra { ra < 32 }
        requires rb { rb < 32 }
        ensures { IfOk result (λ t. tree_of t ≡ written_of access (lifts.memory_term (lifting_view self.now))
            (lifts.displaced_term (lifting_view self.now) rb disp) (lifts.register_term (lifting_view self.now) ra)) }
    {
        let address = self.sum(alloc, rb, low_word(disp))?;
        let value = self.register_term(alloc, ra);
        written(
            alloc,
            access,
            memory_term(alloc, self.memory),
            address,
            value,
        )
    }

    /// What the instruction writes.
    fn term(&self, alloc: Global, instr: Instr) -> Result<Term<Op>, NoMemory>
        requires { IsWellFormed instr }
        ensures { IfOk result (λ t. tree_of t ≡ lifts.lifted_term instr (lifting_view self.now)) }
    {
        match instr {
            Instr::Operate { op, ra, second, .. } => self.operate_term(alloc, op, ra, second),
            Instr::Lda { rb, disp, .. } => self.sum(alloc, rb, low_word(disp)),
            Instr::Ldah { rb, disp, .. } => self.sum(alloc, rb, high_word(disp)),
            Instr::Load {
                access,
                rb,
                disp,
                ..
            } => self.loaded(alloc, access, rb, disp),
            Instr::Ldq { rb, disp, .. } => self.loaded(alloc, Access::Quad, rb, disp),
            Instr::Store {
                access,
                ra,
                rb,
                disp,
            } => self.stored(alloc, access, ra, rb, disp),
            Instr::Stq { ra, rb, disp } => self.stored(alloc, Access::Quad, ra, rb, disp),
            Instr::Beq { .. } => Ok(constant(alloc, 0)),
        }
    }

    /// The address on which the instruction may trap.
    fn trapping_address(&self, instr: Instr) -> Option<Address>
        requires { IsWellFormed instr }
        ensures { result ≡ lifts.trapping_address instr (lifting_view self.now) }
    {
        match instr {
            Instr::Load {
                access,
                ra,
                rb,
                disp,
            } if ra != 31 => multiple_from(self.value(rb), access.alignment(), disp),
            Instr::Store {
                access,
                rb,
                disp,
                ..
            } => multiple_from(self.value(rb), access.alignment(), disp),
            Instr::Ldq { ra, rb, disp } if ra != 31 => multiple_from(self.value(rb), 3, disp),
            Instr::Stq { rb, disp, .. } => multiple_from(self.value(rb), 3, disp),
            _ => None,
        }
    }

    /// Behind the instruction of this index, where it writes something that can be seen.
    pub fn step(&mut self, alloc: Global, at: usize, instr: Instr) -> Result<(), NoMemory>
        requires instr { IsWellFormed instr }
        requires few { length self.old.lets.items < 2 ^ 32 }
        ensures step { OnOk result (lifting_view self.new ≡ lifts.lift_step at instr (lifting_view self.old)) }
        ensures few { OnOk result (length self.new.lets.items ≤ length self.old.lets.items + 1) }
    {
        if !counts(instr) {
            return Ok(());
        }
        let number = self.lets.len() as u32;
        let value = self.term(alloc, instr)?;
        let name = numbered(alloc, b't', at as u64)?;
        let address = self.trapping_address(instr);
        add_address(&mut self.addresses, address)?;
        note_reads(&self.latest, &mut self.is_read, instr);
        self.lets.push(Let { name, value })?;
        write_value(
            &mut self.latest,
            Value::Let(number),
            register_written(instr),
        );
        self.memory = memory_behind(instr, number, self.memory);
        Ok(())
    }

    /// Whether a word wrote the register.
    pub fn has_let(&self, register: u8) -> bool
        requires { register < 32 }
        ensures { result ≡ lifts.has_let (lifting_view self.now) register }
    {
        matches!(self.value(register), Value::Let(_))
    }

    /// Whether the register is an input.
    pub fn is_input(&self, register: u8) -> bool
        requires { register < 32 }
        ensures { result ≡ slice_index_or self.now.is_read register false }
    {
        self.is_read[usize::from(register)]
    }
}

/// The address that the instruction asks to be a multiple, of 2 to this power, of the base register's latest value.
fn multiple_from(latest: Value, power: u8, disp: i16) -> Option<Address>
    requires { power < 4 }
    ensures { result ≡ option_map (lifts.multiple_from latest (check_terms.sign_extended disp))
        (check_terms.needed_alignment power) }
{
    if power == 0 {
        return None;
    }
    let word = low_word(disp);
    let displacement = if word % (1 << power) == 0 { 0 } else { word };
    Some(Address {
        value: latest,
        displacement,
        power,
    })
}

fn is_same_value(a: Value, b: Value) -> bool
    ensures { result ≡ lifts.is_same_value a b }
{
    match a {
        Value::Entry(register) => match b {
            Value::Entry(other) => register == other,
            Value::Zero | Value::Let(_) => false,
        },
        Value::Zero => match b {
            Value::Zero => true,
            Value::Entry(_) | Value::Let(_) => false,
        },
        Value::Let(number) => match b {
            Value::Let(other) => number == other,
            Value::Entry(_) | Value::Zero => false,
        },
    }
}

fn is_same_address(a: Address, b: Address) -> bool
    ensures { result ≡ lifts.is_same_address a b }
{
    let is_near = a.displacement == b.displacement && a.power == b.power;
    is_same_value(a.value, b.value) && is_near
}

fn is_known(addresses: &[Address], address: Address) -> bool
    ensures { result ≡ list_any (lifts.is_same_address address) addresses.now }
{
    for other in addresses {
        if is_same_address(address, *other) {
            return true;
        }
    }
    false
}

/// Adds the address, where it isn't there already.
fn add_address(addresses: &mut Vec<Address>, address: Option<Address>) -> Result<(), NoMemory>
    ensures { OnOk result (addresses.new.items ≡ lifts.with_address addresses.old.items address) }
{
    let Some(address) = address else {
        return Ok(());
    };
    if is_known(addresses, address) {
        return Ok(());
    }
    addresses.push(address)?;
    Ok(())
}

/// A register that is read before any word wrote it becomes an input.
fn note_read(latest: &[Value], is_read: &mut [bool], register: u8)
    requires low { register < 32 }
    requires values { length latest.now ≡ 32 }
    requires flags { length is_read.old ≡ 32 }
    ensures { is_read.new ≡ lifts.read_also (register ∷ []) latest.now is_read.old }
{
    let at = usize::from(register);
    if let Value::Entry(_) = latest[at] {
        is_read[at] = true;
    }
}

/// So do all that the instruction reads.
fn note_reads(latest: &[Value], is_read: &mut [bool], instr: Instr)
    requires instr { IsWellFormed instr }
    requires values { length latest.now ≡ 32 }
    requires flags { length is_read.old ≡ 32 }
    ensures { is_read.new ≡ lifts.read_also (obeys.reads instr) latest.now is_read.old }
{
    match instr {
        Instr::Operate { op, ra, second, .. } => {
            if op.arity() != 1 {
                note_read(latest, is_read, ra);
            }
            if let Second::Reg(register) = second {
                note_read(latest, is_read, register);
            }
        }
        Instr::Lda { rb, .. }
        | Instr::Ldah { rb, .. }
        | Instr::Load { rb, .. }
        | Instr::Ldq { rb, .. } => note_read(latest, is_read, rb),
        Instr::Store { ra, rb, .. } | Instr::Stq { ra, rb, .. } => {
            note_read(latest, is_read, ra);
            note_read(latest, is_read, rb);
        }
        Instr::Beq { ra, .. } => note_read(latest, is_read, ra),
    }
}

/// The register's latest value is this one from now on, where there is a register.
fn write_value(latest: &mut [Value], value: Value, register: Option<u8>)
    requires low { IfSome register (λ r. r < 32) }
    requires values { length latest.old ≡ 32 }
    ensures { latest.new ≡ lifts.latest_with latest.old value register }
{
    if let Some(register) = register {
        latest[usize::from(register)] = value;
    }
}

/// The let that is the memory behind an instruction which is the let of this number.
fn memory_behind(instr: Instr, number: u32, memory: Option<u32>) -> Option<u32>
    ensures { result ≡ (if obeys.stores instr then Some number else memory) }
{
    if stores(instr) {
        return Some(number);
    }
    memory
}

/// A letter and a number in decimal.
pub(crate) fn numbered(alloc: Global, letter: u8, number: u64) -> Result<Name, NoMemory>
    ensures { IfOk result (λ name. name ≡ letter ∷ decimal number) }
{
    let mut bytes = vec![in alloc; letter]?;
    bytes.extend_from_slice(Buffer::new().format(number).as_bytes())?;
    Name::new(alloc, &bytes)
}

/// What is known behind words of which each is an instruction.
#[tactic(auto, using(crate::proofs::WordByWord::never_none))]
pub fn lifted(alloc: Global, words: &[u32]) -> Result<Lifting, NoMemory>
    requires plain { All IsPlainWord words.now }
    requires few { length words.now ≤ 2 ^ 32 }
    ensures { IfOk result (λ l. lifting_view l ≡ lifts.lifted words.now) }
{
    let mut lifting = Lifting::new(alloc);
    for at in 0..words.len() {
        let Some(instr) = decode(words[at]) else {
            unreachable!();
        };
        lifting.step(alloc, at, instr)?;
    }
    Ok(lifting)
}

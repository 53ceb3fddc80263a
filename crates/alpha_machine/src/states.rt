// The state of the machine, and what each kind of instruction does to it.
ghost use Rattle.std.specs.Prelude.{◌≡◌, ◌≢◌, ◌<◌, slice_index, All, OnOk, OnErr};
ghost use Rattle.alpha_encode.specs.Formats.{IsWellFormed, IsSecond};
ghost use Rattle.alpha_encode.specs.declared.instructions.Instr.TheVariants as instructions;
ghost use Rattle.word_ops.specs.Words.{IsWord};
ghost use Rattle.alpha_machine.specs.States.{IsState};
ghost use Rattle.alpha_machine.specs.Steps as steps;

use crate::values::{address, is_multiple, operate_result};
use alpha_encode::{Instr, Second};
use items::NoMemory;
use std::marker::Model;
use word_ops::{Access, Mem, Operate};

/// 32 registers, of which register 31 is always 0, a memory, and the address of the next word, the pc.
#[derive(Drop)]
pub struct State {
    regs: [u64; 32],
    memory: Mem,
    pc: u64,
}

impl Model for State {
    ghost use Rattle.alpha_machine.specs.States.{MachineState, IsState, machine_state_code};

    ghost Value = { MachineState };

    ghost coded = { machine_state_code };

    ghost view = { λ s. record { registers = s.regs; memory = s.memory; pc = s.pc } };

    ghost invariant = { λ s. IsState (record { registers = s.regs; memory = s.memory; pc = s.pc }) };
}

impl State {
    /// A state at the first word.
    pub fn new(regs: [u64; 32], memory: Mem) -> State
        requires { slice_index regs 31 ≡ 0 }
        ensures { result ≡ record { registers = regs; memory = memory; pc = 0 } }
    {
        memory.holds_words();
        are_words(&regs);
        State {
            regs,
            memory,
            pc: 0,
        }
    }

    pub fn register(&self, register: u8) -> u64
        requires { register < 32 }
        ensures state { IsState self.now }
        ensures value { result ≡ slice_index self.now.registers register }
    {
        self.regs[register as usize]
    }

    pub fn memory(&self) -> &Mem
        ensures state { IsState self.now }
        ensures value { result.now ≡ self.now.memory }
    {
        &self.memory
    }

    /// The address of the next word.
    pub fn pc(&self) -> u64
        ensures state { IsState self.now }
        ensures value { result ≡ self.now.pc }
    {
        self.pc
    }

    /// Whether the instruction traps. A load to register 31 is a prefetch, which never does.
    pub(crate) fn traps(&self, instr: Instr) -> bool
        requires { IsWellFormed instr }
        ensures { result ≡ steps.traps instr self.now }
    {
        match instr {
            Instr::Load {
                access,
                ra,
                rb,
                disp,
            } => !self.is_aligned(access.alignment(), rb, disp) && ra != 31,
            Instr::Store {
                access,
                rb,
                disp,
                ..
            } => !self.is_aligned(access.alignment(), rb, disp),
            Instr::Ldq { ra, rb, disp } => !self.is_aligned(3, rb, disp) && ra != 31,
            Instr::Stq { rb, disp, .. } => !self.is_aligned(3, rb, disp),
            _ => false,
        }
    }

    /// Does what the instruction does, where it doesn't trap. Only a store that leaves a word other than 0 takes memory.
    pub(crate) fn execute(&mut self, instr: Instr) -> Result<(), NoMemory>
        requires { IsWellFormed instr }
        ensures ok { OnOk result (self.new ≡ steps.step instr self.old) }
        ensures err { OnErr result ((self.new ≡ self.old) × steps.TakesMemory instr self.old) }
    {
        match instr {
            Instr::Operate { op, ra, second, rc } => self.operate(op, ra, second, rc),
            Instr::Lda { ra, rb, disp } => {
                let value = address(self.register(rb), 1, i64::from(disp));
                self.write(ra, value);
            }
            Instr::Ldah { ra, rb, disp } => {
                let value = address(self.register(rb), 65536, i64::from(disp));
                self.write(ra, value);
            }
            Instr::Load {
                access,
                ra,
                rb,
                disp,
            } => self.load(access, ra, rb, disp),
            Instr::Store {
                access,
                ra,
                rb,
                disp,
            } => return self.store(access, ra, rb, disp),
            Instr::Ldq { ra, rb, disp } => self.load(Access::Quad, ra, rb, disp),
            Instr::Stq { ra, rb, disp } => return self.store(Access::Quad, ra, rb, disp),
            Instr::Beq { ra, disp } => self.branch(ra, disp),
        }
        Ok(())
    }

    fn operate(&mut self, op: Operate, ra: u8, second: Second, rc: u8)
        requires ra { ra < 32 }
        requires second { IsSecond second }
        requires rc { rc < 32 }
        ensures { self.new ≡ steps.step (instructions.Operate op ra second rc) self.old }
    {
        let second = self.second(second);
        let value = operate_result(op, self.register(ra), second);
        self.write(rc, value);
    }

    fn load(&mut self, access: Access, ra: u8, rb: u8, disp: i16)
        requires ra { ra < 32 }
        requires rb { rb < 32 }
        ensures { self.new ≡ steps.with_loaded access ra rb disp self.old }
    {
        let value = access.load(&self.memory, self.place_of(rb, disp));
        self.write(ra, value);
    }

    fn store(&mut self, access: Access, ra: u8, rb: u8, disp: i16) -> Result<(), NoMemory>
        requires ra { ra < 32 }
        requires rb { rb < 32 }
        ensures ok { OnOk result (self.new ≡ steps.with_stored access ra rb disp self.old) }
        ensures err { OnErr result ((self.new ≡ self.old) × steps.LeavesWord access ra rb disp self.old) }
    {
        let address = self.place_of(rb, disp);
        let value = self.register(ra);
        access.store(&mut self.memory, address, value)?;
        self.pc = self.next_pc();
        Ok(())
    }

    // A branch counts from the word after it.
    fn branch(&mut self, ra: u8, disp: i32)
        requires { ra < 32 }
        ensures { self.new ≡ steps.step (instructions.Beq ra disp) self.old }
    {
        let next = self.next_pc();
        self.pc = if self.register(ra) == 0 {
            address(next, 4, i64::from(disp))
        } else {
            next
        };
    }

    // The address of a load or a store.
    fn place_of(&self, rb: u8, disp: i16) -> u64
        requires { rb < 32 }
        ensures { result ≡ steps.place_of self.now rb disp }
    {
        address(self.register(rb), 1, i64::from(disp))
    }

    // The address is a multiple of 2 to this power.
    fn is_aligned(&self, power: u8, rb: u8, disp: i16) -> bool
        requires power { power < 64 }
        requires rb { rb < 32 }
        ensures { result ≡ steps.is_multiple power (steps.place_of self.now rb disp) }
    {
        is_multiple(power, self.place_of(rb, disp))
    }

    fn second(&self, second: Second) -> u64
        requires { IsSecond second }
        ensures { result ≡ steps.second_value second self.now.registers }
    {
        match second {
            Second::Reg(register) => self.register(register),
            Second::Literal(literal) => u64::from(literal),
        }
    }

    // Register 31 stays 0.
    fn write(&mut self, register: u8, value: u64)
        requires { register < 32 }
        ensures { self.new ≡ steps.with_register self.old register value }
    {
        if register != 31 {
            self.regs[register as usize] = value;
        }
        self.pc = self.next_pc();
    }

    fn next_pc(&self) -> u64
        ensures { result ≡ steps.next_pc self.now.pc }
    {
        self.pc.wrapping_add(4)
    }
}

/// Does nothing. Its clause says that registers hold words.
fn are_words(registers: &[u64])
    ensures { All IsWord registers.now }
{}

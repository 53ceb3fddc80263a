// An instruction's text.
ghost use Rattle.std.specs.Prelude.{◌≡◌, ◌++◌, IfOk, OnOk, decimal};
ghost use Rattle.std.specs.Fmt.{signed_decimal};
ghost use Rattle.alpha_encode.specs.Texts as texts;

use crate::instructions::{Instr, Second};
use items::NoMemory;
use itoa::Buffer;
use std::alloc::Global;
use word_ops::{Access, Operate};

/// The instruction as an assembler writes it, with register numbers and decimal displacements: `lda $1, 300($31)`.
pub fn text(alloc: Global, instr: Instr) -> Result<Vec<u8>, NoMemory>
    ensures { IfOk result (λ text. text.items ≡ texts.text_of instr) }
{
    let mut text = Vec::new(alloc);
    match instr {
        Instr::Operate { op, ra, second, rc } => push_operate(&mut text, op, ra, second, rc)?,
        Instr::Lda { ra, rb, disp } => push_memory(&mut text, b"lda ", ra, rb, disp)?,
        Instr::Ldah { ra, rb, disp } => push_memory(&mut text, b"ldah ", ra, rb, disp)?,
        Instr::Load {
            access,
            ra,
            rb,
            disp,
        } => push_memory(&mut text, load_mnemonic(access), ra, rb, disp)?,
        Instr::Store {
            access,
            ra,
            rb,
            disp,
        } => push_memory(&mut text, store_mnemonic(access), ra, rb, disp)?,
        Instr::Ldq { ra, rb, disp } => push_memory(&mut text, b"ldq ", ra, rb, disp)?,
        Instr::Stq { ra, rb, disp } => push_memory(&mut text, b"stq ", ra, rb, disp)?,
        Instr::Beq { ra, disp } => push_branch(&mut text, ra, disp)?,
    }
    Ok(text)
}

fn load_mnemonic(access: Access) -> &'static [u8]
    ensures { result.now ≡ texts.load_mnemonic access }
{
    match access {
        Access::Quad => b"ldq_u ",
        Access::Byte => b"ldbu ",
        Access::Word => b"ldwu ",
        Access::Long => b"ldl ",
    }
}

fn store_mnemonic(access: Access) -> &'static [u8]
    ensures { result.now ≡ texts.store_mnemonic access }
{
    match access {
        Access::Quad => b"stq_u ",
        Access::Byte => b"stb ",
        Access::Word => b"stw ",
        Access::Long => b"stl ",
    }
}

fn push_operate(
    text: &mut Vec<u8>,
    op: Operate,
    ra: u8,
    second: Second,
    rc: u8,
) -> Result<(), NoMemory>
    ensures { OnOk result (text.new.items ≡ text.old.items ++ texts.operate_text op ra second rc) }
{
    text.extend_from_slice(op.name())?;
    text.extend_from_slice(b" ")?;
    if op.arity() != 1 {
        push_register(text, ra)?;
        text.extend_from_slice(b", ")?;
    }
    push_second(text, second)?;
    text.extend_from_slice(b", ")?;
    push_register(text, rc)
}

fn push_memory(text: &mut Vec<u8>, name: &[u8], ra: u8, rb: u8, disp: i16) -> Result<(), NoMemory>
    ensures { OnOk result (text.new.items ≡ text.old.items ++ texts.memory_text name.now ra rb disp) }
{
    text.extend_from_slice(name)?;
    push_register(text, ra)?;
    text.extend_from_slice(b", ")?;
    text.extend_from_slice(Buffer::new().format(disp).as_bytes())?;
    text.extend_from_slice(b"(")?;
    push_register(text, rb)?;
    text.extend_from_slice(b")")
}

fn push_branch(text: &mut Vec<u8>, ra: u8, disp: i32) -> Result<(), NoMemory>
    ensures { OnOk result (text.new.items ≡ text.old.items ++ texts.branch_text ra disp) }
{
    text.extend_from_slice(b"beq ")?;
    push_register(text, ra)?;
    text.extend_from_slice(b", ")?;
    text.extend_from_slice(Buffer::new().format(disp).as_bytes())
}

fn push_second(text: &mut Vec<u8>, second: Second) -> Result<(), NoMemory>
    ensures { OnOk result (text.new.items ≡ text.old.items ++ texts.second_text second) }
{
    match second {
        Second::Reg(register) => push_register(text, register),
        Second::Literal(literal) => text.extend_from_slice(
            Buffer::new().format(literal).as_bytes(),
        ),
    }
}

fn push_register(text: &mut Vec<u8>, register: u8) -> Result<(), NoMemory>
    ensures { OnOk result (text.new.items ≡ text.old.items ++ texts.register register) }
{
    text.extend_from_slice(b"$")?;
    text.extend_from_slice(Buffer::new().format(register).as_bytes())
}

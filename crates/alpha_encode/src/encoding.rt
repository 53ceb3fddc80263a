// From an instruction to its word.
ghost use Rattle.std.specs.Prelude.{◌≡◌, ◌<◌, ◌^◌};
ghost use Rattle.word_ops.specs.Operates.{code_of};
ghost use Rattle.alpha_encode.specs.Formats.{IsWellFormed, IsSecond, FitsBits, encoded, operate_word, second_bits, memory_word, branch_word};
ghost use Rattle.alpha_encode.specs.Decoded.{decoded};

use crate::codes::{BEQ, LDA, LDAH, LDQ, STQ, load_opcode, store_opcode};
use crate::instructions::{Instr, Second};
use word_ops::Operate;

/// The instruction's word.
pub fn encode(instr: Instr) -> u32
    requires { IsWellFormed instr }
    ensures word { result ≡ encoded instr }
    ensures back { decoded result ≡ Some instr }
{
    match instr {
        Instr::Operate { op, ra, second, rc } => operate(op, ra, second, rc),
        Instr::Lda { ra, rb, disp } => memory(LDA, ra, rb, disp),
        Instr::Ldah { ra, rb, disp } => memory(LDAH, ra, rb, disp),
        Instr::Load {
            access,
            ra,
            rb,
            disp,
        } => memory(load_opcode(access), ra, rb, disp),
        Instr::Store {
            access,
            ra,
            rb,
            disp,
        } => memory(store_opcode(access), ra, rb, disp),
        Instr::Ldq { ra, rb, disp } => memory(LDQ, ra, rb, disp),
        Instr::Stq { ra, rb, disp } => memory(STQ, ra, rb, disp),
        Instr::Beq { ra, disp } => branch(BEQ, ra, disp),
    }
}

fn operate(op: Operate, ra: u8, second: Second, rc: u8) -> u32
    requires ra_below { ra < 32 }
    requires second_fits { IsSecond second }
    requires rc_below { rc < 32 }
    ensures { result ≡ operate_word (code_of op) ra (second_bits second) rc }
{
    let (opcode, function) = op.code();
    (opcode << 26)
        + (u32::from(ra) << 21)
        + (second_operand(second) << 12)
        + (function << 5)
        + u32::from(rc)
}

// Bits 20 to 12.
fn second_operand(second: Second) -> u32
    requires { IsSecond second }
    ensures bits { result ≡ second_bits second }
    ensures fits { result < 2 ^ 9 }
{
    match second {
        Second::Reg(rb) => u32::from(rb) << 4,
        Second::Literal(literal) => (u32::from(literal) << 1) + 1,
    }
}

fn memory(opcode: u32, ra: u8, rb: u8, disp: i16) -> u32
    requires opcode_below { opcode < 64 }
    requires ra_below { ra < 32 }
    requires rb_below { rb < 32 }
    ensures { result ≡ memory_word opcode ra rb disp }
{
    (opcode << 26) + (u32::from(ra) << 21) + (u32::from(rb) << 16) + u32::from(disp.cast_unsigned())
}

fn branch(opcode: u32, ra: u8, disp: i32) -> u32
    requires opcode_below { opcode < 64 }
    requires ra_below { ra < 32 }
    requires disp_fits { FitsBits 21 disp }
    ensures { result ≡ branch_word opcode ra disp }
{
    (opcode << 26) + (u32::from(ra) << 21) + disp.cast_unsigned() % (1 << 21)
}

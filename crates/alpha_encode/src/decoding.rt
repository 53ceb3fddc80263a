// From a word to its instruction.
ghost use Rattle.std.specs.Prelude.{◌≡◌, ◌≢◌, ◌<◌, IfSome, IfNone};
ghost use Rattle.alpha_encode.specs.Formats.{IsWellFormed, encoded};
ghost use Rattle.alpha_encode.specs.Decoded as decoding;
ghost use Rattle.alpha_encode.specs.declared.instructions.Instr.{Instr as Instruction};

use crate::codes::{BEQ, LDA, LDAH, LDBU, LDL, LDQ, LDQ_U, LDWU, STB, STL, STQ, STQ_U, STW};
use crate::instructions::{Instr, Second};
use word_ops::{Access, Operate};

/// The instruction of a word, or `None` where no instruction has that word.
pub fn decode(word: u32) -> Option<Instr>
    ensures fields { result ≡ decoding.decoded word }
    ensures some { IfSome result (λ instr. IsWellFormed instr × (encoded instr ≡ word)) }
    ensures none { IfNone result ((instr : Instruction) → IsWellFormed instr → encoded instr ≢ word) }
{
    let ra = register(word, 21);
    let rb = register(word, 16);
    let disp = displacement(word);
    match field(word, 26, 6) {
        LDA => Some(Instr::Lda { ra, rb, disp }),
        LDAH => Some(Instr::Ldah { ra, rb, disp }),
        LDQ_U => load(word, Access::Quad),
        STQ_U => store(word, Access::Quad),
        LDBU => load(word, Access::Byte),
        LDWU => load(word, Access::Word),
        LDL => load(word, Access::Long),
        STB => store(word, Access::Byte),
        STW => store(word, Access::Word),
        STL => store(word, Access::Long),
        LDQ => Some(Instr::Ldq { ra, rb, disp }),
        STQ => Some(Instr::Stq { ra, rb, disp }),
        BEQ => Some(Instr::Beq {
            ra,
            disp: branch_displacement(word),
        }),
        opcode => operate(word, opcode),
    }
}

fn load(word: u32, access: Access) -> Option<Instr>
    ensures { result ≡ decoding.load_in access word }
{
    Some(Instr::Load {
        access,
        ra: register(word, 21),
        rb: register(word, 16),
        disp: displacement(word),
    })
}

fn store(word: u32, access: Access) -> Option<Instr>
    ensures { result ≡ decoding.store_in access word }
{
    Some(Instr::Store {
        access,
        ra: register(word, 21),
        rb: register(word, 16),
        disp: displacement(word),
    })
}

fn operate(word: u32, opcode: u32) -> Option<Instr>
    requires { opcode ≡ decoding.opcode word }
    ensures { result ≡ decoding.operate word }
{
    let op = Operate::of_code(opcode, field(word, 5, 7))?;
    let ra = register(word, 21);
    // An operate of one operand doesn't read Ra, which must then be 31.
    if op.arity() == 1 && ra != 31 {
        return None;
    }
    let second = second(word)?;
    let rc = register(word, 0);
    Some(Instr::Operate { op, ra, second, rc })
}

fn second(word: u32) -> Option<Second>
    ensures { result ≡ decoding.second word }
{
    if field(word, 12, 1) == 1 {
        Some(Second::Literal(field(word, 13, 8) as u8))
    } else if field(word, 13, 3) == 0 {
        Some(Second::Reg(register(word, 16)))
    } else {
        None
    }
}

fn register(word: u32, low: u32) -> u8
    requires { low < 32 }
    ensures { result ≡ decoding.field word low 5 }
{
    field(word, low, 5) as u8
}

fn displacement(word: u32) -> i16
    ensures { result ≡ decoding.displacement word }
{
    (field(word, 0, 16) as u16).cast_signed()
}

// The 21 bits are brought to 32 by repeating their sign.
fn branch_displacement(word: u32) -> i32
    ensures { result ≡ decoding.branch_displacement word }
{
    let bits = field(word, 0, 21);
    if bits < 1 << 20 {
        bits.cast_signed()
    } else {
        (bits + (u32::MAX - 0x1f_ffff)).cast_signed()
    }
}

// The field of `width` bits whose lowest bit is `low`.
fn field(word: u32, low: u32, width: u32) -> u32
    requires low_below { low < 32 }
    requires width_below { width < 32 }
    ensures value { result ≡ decoding.field word low width }
{
    (word >> low) % (1 << width)
}

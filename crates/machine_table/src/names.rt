// The names of instructions, and their order.
ghost use Rattle.std.specs.Prelude.{◌≡◌, ◌↔◌, Some, find, bytes_eq};
ghost use Rattle.machine_table.specs.InstrOrder as order;
ghost use Rattle.machine_table.specs.declared.tables.InstrKind.{InstrKind as Instr};

use crate::tables::InstrKind;
use word_ops::{Access, Operate, WordOp};

/// The instructions that are no operates, in their order.
const OTHERS: [InstrKind; 11] = [
    InstrKind::Lda,
    InstrKind::Ldah,
    InstrKind::Load(Access::Quad),
    InstrKind::Store(Access::Quad),
    InstrKind::Load(Access::Byte),
    InstrKind::Load(Access::Word),
    InstrKind::Load(Access::Long),
    InstrKind::Store(Access::Byte),
    InstrKind::Store(Access::Word),
    InstrKind::Store(Access::Long),
    InstrKind::Beq,
];

/// The instruction's name in its text.
pub fn instr_name(instr: InstrKind) -> &'static [u8]
    ensures { result.now ≡ order.instr_name instr }
{
    match instr {
        InstrKind::Operate(operate) => operate.name(),
        InstrKind::Lda => b"lda",
        InstrKind::Ldah => b"ldah",
        InstrKind::Load(Access::Quad) => b"ldq_u",
        InstrKind::Store(Access::Quad) => b"stq_u",
        InstrKind::Load(Access::Byte) => b"ldbu",
        InstrKind::Load(Access::Word) => b"ldwu",
        InstrKind::Load(Access::Long) => b"ldl",
        InstrKind::Store(Access::Byte) => b"stb",
        InstrKind::Store(Access::Word) => b"stw",
        InstrKind::Store(Access::Long) => b"stl",
        InstrKind::Beq => b"beq",
    }
}

/// The instruction's number in the order of instructions.
pub fn instr_number(instr: InstrKind) -> u32
    ensures { result ≡ order.kind_number instr }
{
    match instr {
        InstrKind::Operate(operate) => operate.place(),
        InstrKind::Lda => 55,
        InstrKind::Ldah => 56,
        InstrKind::Load(Access::Quad) => 57,
        InstrKind::Store(Access::Quad) => 58,
        InstrKind::Load(Access::Byte) => 59,
        InstrKind::Load(Access::Word) => 60,
        InstrKind::Load(Access::Long) => 61,
        InstrKind::Store(Access::Byte) => 62,
        InstrKind::Store(Access::Word) => 63,
        InstrKind::Store(Access::Long) => 64,
        InstrKind::Beq => 65,
    }
}

/// The instruction of this name. It looks at each instruction in turn.
pub fn instr_of(name: &[u8]) -> Option<InstrKind>
    ensures exact { result ≡ order.instr_named name.now }
    ensures found { (instr : Instr) → (result ≡ Some instr) ↔ (order.instr_name instr ≡ name.now) }
{
    match Operate::of_name(name) {
        Some(operate) => Some(InstrKind::Operate(operate)),
        None => other_named(&OTHERS, name),
    }
}

// The first of these instructions that has the name.
fn other_named(among: &[InstrKind], name: &[u8]) -> Option<InstrKind>
    ensures { result ≡ find (λ instr. bytes_eq (order.instr_name instr) name.now) among.now }
{
    among
        .iter()
        .copied()
        .find(|instr| instr_name(*instr) == name)
}

/// The operate that computes an operator, or `None` for the operators that are no operates.
pub fn operate_kind(op: WordOp) -> Option<InstrKind>
    ensures { result ≡ order.operate_kind op }
{
    match op {
        WordOp::Operate(operate) => Some(InstrKind::Operate(operate)),
        _ => None,
    }
}

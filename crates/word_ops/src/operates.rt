// The operates of the Alpha, in one table.
ghost use Rattle.std.specs.Prelude.{◌≡◌, find, bytes_eq, map};
ghost use Rattle.word_ops.specs.Operates.{row_of, operates, operate_place, code_of, has_code};

/// An instruction that computes a word from words, in the order of opcodes and function codes.
#[derive(Clone, Copy, PartialEq, Eq)]
pub enum Operate {
    Addl,
    S4addl,
    Subl,
    S4subl,
    Cmpbge,
    S8addl,
    S8subl,
    Cmpult,
    Addq,
    S4addq,
    Subq,
    S4subq,
    Cmpeq,
    S8addq,
    S8subq,
    Cmpule,
    Cmplt,
    Cmple,
    And,
    Bic,
    Bis,
    Ornot,
    Xor,
    Eqv,
    Mskbl,
    Extbl,
    Insbl,
    Mskwl,
    Extwl,
    Inswl,
    Mskll,
    Extll,
    Insll,
    Zap,
    Zapnot,
    Mskql,
    Srl,
    Extql,
    Sll,
    Insql,
    Sra,
    Mskwh,
    Inswh,
    Extwh,
    Msklh,
    Inslh,
    Extlh,
    Mskqh,
    Insqh,
    Extqh,
    Mull,
    Mulq,
    Umulh,
    Sextb,
    Sextw,
}

/// Which pipes of the Alpha 21264 take an operate.
#[derive(Clone, Copy, PartialEq, Eq)]
pub enum Pipes {
    /// Each of the four.
    Any,
    /// The two that shift.
    Shifters,
    /// The one that multiplies.
    Multiplier,
}

/// What one operate is: its name, its opcode and function code, its number of operands, and its pipes.
#[derive(Clone, Copy)]
pub struct OperateRow {
    pub operate: Operate,
    name: &'static [u8],
    opcode: u32,
    function: u32,
    arity: usize,
    pipes: Pipes,
}

/// Every operate, in the order of the enum. Source: Alpha Architecture Handbook, version 4, the table of opcodes and
/// function codes; Alpha 21264 Hardware Reference Manual, the pipes of each class of instructions.
#[rattlefmt::skip]
pub const OPERATES: [OperateRow; 55] = [
    OperateRow { operate: Operate::Addl, name: b"addl", opcode: 0x10, function: 0x00, arity: 2, pipes: Pipes::Any },
    OperateRow { operate: Operate::S4addl, name: b"s4addl", opcode: 0x10, function: 0x02, arity: 2, pipes: Pipes::Any },
    OperateRow { operate: Operate::Subl, name: b"subl", opcode: 0x10, function: 0x09, arity: 2, pipes: Pipes::Any },
    OperateRow { operate: Operate::S4subl, name: b"s4subl", opcode: 0x10, function: 0x0b, arity: 2, pipes: Pipes::Any },
    OperateRow { operate: Operate::Cmpbge, name: b"cmpbge", opcode: 0x10, function: 0x0f, arity: 2, pipes: Pipes::Any },
    OperateRow { operate: Operate::S8addl, name: b"s8addl", opcode: 0x10, function: 0x12, arity: 2, pipes: Pipes::Any },
    OperateRow { operate: Operate::S8subl, name: b"s8subl", opcode: 0x10, function: 0x1b, arity: 2, pipes: Pipes::Any },
    OperateRow { operate: Operate::Cmpult, name: b"cmpult", opcode: 0x10, function: 0x1d, arity: 2, pipes: Pipes::Any },
    OperateRow { operate: Operate::Addq, name: b"addq", opcode: 0x10, function: 0x20, arity: 2, pipes: Pipes::Any },
    OperateRow { operate: Operate::S4addq, name: b"s4addq", opcode: 0x10, function: 0x22, arity: 2, pipes: Pipes::Any },
    OperateRow { operate: Operate::Subq, name: b"subq", opcode: 0x10, function: 0x29, arity: 2, pipes: Pipes::Any },
    OperateRow { operate: Operate::S4subq, name: b"s4subq", opcode: 0x10, function: 0x2b, arity: 2, pipes: Pipes::Any },
    OperateRow { operate: Operate::Cmpeq, name: b"cmpeq", opcode: 0x10, function: 0x2d, arity: 2, pipes: Pipes::Any },
    OperateRow { operate: Operate::S8addq, name: b"s8addq", opcode: 0x10, function: 0x32, arity: 2, pipes: Pipes::Any },
    OperateRow { operate: Operate::S8subq, name: b"s8subq", opcode: 0x10, function: 0x3b, arity: 2, pipes: Pipes::Any },
    OperateRow { operate: Operate::Cmpule, name: b"cmpule", opcode: 0x10, function: 0x3d, arity: 2, pipes: Pipes::Any },
    OperateRow { operate: Operate::Cmplt, name: b"cmplt", opcode: 0x10, function: 0x4d, arity: 2, pipes: Pipes::Any },
    OperateRow { operate: Operate::Cmple, name: b"cmple", opcode: 0x10, function: 0x6d, arity: 2, pipes: Pipes::Any },
    OperateRow { operate: Operate::And, name: b"and", opcode: 0x11, function: 0x00, arity: 2, pipes: Pipes::Any },
    OperateRow { operate: Operate::Bic, name: b"bic", opcode: 0x11, function: 0x08, arity: 2, pipes: Pipes::Any },
    OperateRow { operate: Operate::Bis, name: b"bis", opcode: 0x11, function: 0x20, arity: 2, pipes: Pipes::Any },
    OperateRow { operate: Operate::Ornot, name: b"ornot", opcode: 0x11, function: 0x28, arity: 2, pipes: Pipes::Any },
    OperateRow { operate: Operate::Xor, name: b"xor", opcode: 0x11, function: 0x40, arity: 2, pipes: Pipes::Any },
    OperateRow { operate: Operate::Eqv, name: b"eqv", opcode: 0x11, function: 0x48, arity: 2, pipes: Pipes::Any },
    OperateRow { operate: Operate::Mskbl, name: b"mskbl", opcode: 0x12, function: 0x02, arity: 2, pipes: Pipes::Shifters },
    OperateRow { operate: Operate::Extbl, name: b"extbl", opcode: 0x12, function: 0x06, arity: 2, pipes: Pipes::Shifters },
    OperateRow { operate: Operate::Insbl, name: b"insbl", opcode: 0x12, function: 0x0b, arity: 2, pipes: Pipes::Shifters },
    OperateRow { operate: Operate::Mskwl, name: b"mskwl", opcode: 0x12, function: 0x12, arity: 2, pipes: Pipes::Shifters },
    OperateRow { operate: Operate::Extwl, name: b"extwl", opcode: 0x12, function: 0x16, arity: 2, pipes: Pipes::Shifters },
    OperateRow { operate: Operate::Inswl, name: b"inswl", opcode: 0x12, function: 0x1b, arity: 2, pipes: Pipes::Shifters },
    OperateRow { operate: Operate::Mskll, name: b"mskll", opcode: 0x12, function: 0x22, arity: 2, pipes: Pipes::Shifters },
    OperateRow { operate: Operate::Extll, name: b"extll", opcode: 0x12, function: 0x26, arity: 2, pipes: Pipes::Shifters },
    OperateRow { operate: Operate::Insll, name: b"insll", opcode: 0x12, function: 0x2b, arity: 2, pipes: Pipes::Shifters },
    OperateRow { operate: Operate::Zap, name: b"zap", opcode: 0x12, function: 0x30, arity: 2, pipes: Pipes::Shifters },
    OperateRow { operate: Operate::Zapnot, name: b"zapnot", opcode: 0x12, function: 0x31, arity: 2, pipes: Pipes::Shifters },
    OperateRow { operate: Operate::Mskql, name: b"mskql", opcode: 0x12, function: 0x32, arity: 2, pipes: Pipes::Shifters },
    OperateRow { operate: Operate::Srl, name: b"srl", opcode: 0x12, function: 0x34, arity: 2, pipes: Pipes::Shifters },
    OperateRow { operate: Operate::Extql, name: b"extql", opcode: 0x12, function: 0x36, arity: 2, pipes: Pipes::Shifters },
    OperateRow { operate: Operate::Sll, name: b"sll", opcode: 0x12, function: 0x39, arity: 2, pipes: Pipes::Shifters },
    OperateRow { operate: Operate::Insql, name: b"insql", opcode: 0x12, function: 0x3b, arity: 2, pipes: Pipes::Shifters },
    OperateRow { operate: Operate::Sra, name: b"sra", opcode: 0x12, function: 0x3c, arity: 2, pipes: Pipes::Shifters },
    OperateRow { operate: Operate::Mskwh, name: b"mskwh", opcode: 0x12, function: 0x52, arity: 2, pipes: Pipes::Shifters },
    OperateRow { operate: Operate::Inswh, name: b"inswh", opcode: 0x12, function: 0x57, arity: 2, pipes: Pipes::Shifters },
    OperateRow { operate: Operate::Extwh, name: b"extwh", opcode: 0x12, function: 0x5a, arity: 2, pipes: Pipes::Shifters },
    OperateRow { operate: Operate::Msklh, name: b"msklh", opcode: 0x12, function: 0x62, arity: 2, pipes: Pipes::Shifters },
    OperateRow { operate: Operate::Inslh, name: b"inslh", opcode: 0x12, function: 0x67, arity: 2, pipes: Pipes::Shifters },
    OperateRow { operate: Operate::Extlh, name: b"extlh", opcode: 0x12, function: 0x6a, arity: 2, pipes: Pipes::Shifters },
    OperateRow { operate: Operate::Mskqh, name: b"mskqh", opcode: 0x12, function: 0x72, arity: 2, pipes: Pipes::Shifters },
    OperateRow { operate: Operate::Insqh, name: b"insqh", opcode: 0x12, function: 0x77, arity: 2, pipes: Pipes::Shifters },
    OperateRow { operate: Operate::Extqh, name: b"extqh", opcode: 0x12, function: 0x7a, arity: 2, pipes: Pipes::Shifters },
    OperateRow { operate: Operate::Mull, name: b"mull", opcode: 0x13, function: 0x00, arity: 2, pipes: Pipes::Multiplier },
    OperateRow { operate: Operate::Mulq, name: b"mulq", opcode: 0x13, function: 0x20, arity: 2, pipes: Pipes::Multiplier },
    OperateRow { operate: Operate::Umulh, name: b"umulh", opcode: 0x13, function: 0x30, arity: 2, pipes: Pipes::Multiplier },
    OperateRow { operate: Operate::Sextb, name: b"sextb", opcode: 0x1c, function: 0x00, arity: 1, pipes: Pipes::Shifters },
    OperateRow { operate: Operate::Sextw, name: b"sextw", opcode: 0x1c, function: 0x01, arity: 1, pipes: Pipes::Shifters },
];

impl Operate {
    /// The operate's place among the operates, from 0.
    pub fn place(self) -> u32
        ensures { result ≡ operate_place self }
    {
        self as u32
    }

    /// Its name in a text, in lower case.
    pub fn name(self) -> &'static [u8]
        ensures { result.now ≡ (row_of self).name }
    {
        OPERATES[self as usize].name
    }

    /// Its opcode, of 6 bits, and its function code, of 7.
    pub fn code(self) -> (u32, u32)
        ensures { result ≡ code_of self }
    {
        let row = &OPERATES[self as usize];
        (row.opcode, row.function)
    }

    /// The number of operands, 1 or 2. One operand is the second of an instruction.
    pub fn arity(self) -> usize
        ensures { result ≡ (row_of self).arity }
    {
        OPERATES[self as usize].arity
    }

    /// The pipes that take it.
    pub fn pipes(self) -> Pipes
        ensures { result ≡ (row_of self).pipes }
    {
        OPERATES[self as usize].pipes
    }

    /// The operate of that name, if there is one. It looks at each operate in turn.
    pub fn of_name(name: &[u8]) -> Option<Operate>
        ensures { result ≡ find (λ operate. bytes_eq (row_of operate).name name.now) operates }
    {
        named(&OPERATES, name)
    }

    /// The operate of that opcode and function code, if there is one. It looks at each operate in turn.
    pub fn of_code(opcode: u32, function: u32) -> Option<Operate>
        ensures { result ≡ find (has_code opcode function) operates }
    {
        coded(&OPERATES, opcode, function)
    }
}

// The first of these operates that has the opcode and the function code.
fn coded(rows: &[OperateRow], opcode: u32, function: u32) -> Option<Operate>
    ensures { result ≡ find (has_code opcode function) (map (λ row. row.operate) rows.now) }
{
    rows.iter()
        .map(|row| row.operate)
        .find(|operate| operate.code() == (opcode, function))
}

// The first of these operates that has the name.
fn named(rows: &[OperateRow], name: &[u8]) -> Option<Operate>
    ensures { result ≡ find (λ operate. bytes_eq (row_of operate).name name.now) (map (λ row. row.operate) rows.now) }
{
    rows.iter()
        .map(|row| row.operate)
        .find(|operate| operate.name() == name)
}

// The words of a line as those of a row.
ghost use Rattle.std.specs.Prelude.{◌≡◌, ◌<◌, ◌≤◌, ◌^◌, ℕ, List, length, drop, decimal as decimal_of, IfOk, IfSome, IfNone, MatchOption, find, bytes_eq};
ghost use Rattle.word_ops.specs.declared.sorts.Op.{Op as Operator};
ghost use Rattle.text_core.specs.Lines.{line_at};
ghost use Rattle.launch_graph.specs.RowLines.{IsRowLine, op_word};
ghost use Rattle.launch_graph.specs.RowReading.{IsHead, head_of, IsOpBefore, HasNoOp, IsArgument, AreNumbers, IsOnlyRow};
ghost use Rattle.launch_graph.specs.declared.row_lines.LineOp.{LineOp as OpOfLine};
ghost use Rattle.launch_graph.specs.declared.row_lines.RowLine.{RowLine as Row};

use crate::row_lines::{self, LineOp, RowLine};
use items::{Items, NoMemory};
use std::alloc::Global;
use text_core::{Name, TextLines, decimal, is_name, same};
use word_ops::{Access, Op, op_of};

/// What a word tells that stands in the place of an operator: an operator without an argument, one with an argument, or
/// none.
#[derive(Clone, Copy)]
pub enum Head {
    Plain(Op),
    Takes(Argument),
    Unknown,
}

/// What the argument of an operator is to be.
#[derive(Clone, Copy)]
pub enum Argument {
    Register,
    Constant,
    Name,
}

/// The operators that take no argument on a line, beside those on words.
const ALONE: [Op; 17] = [
    Op::Entry,
    Op::Select(Access::Quad),
    Op::Store(Access::Quad),
    Op::Load(Access::Quad),
    Op::Put(Access::Quad),
    Op::Select(Access::Byte),
    Op::Select(Access::Word),
    Op::Select(Access::Long),
    Op::Store(Access::Byte),
    Op::Store(Access::Word),
    Op::Store(Access::Long),
    Op::Load(Access::Byte),
    Op::Load(Access::Word),
    Op::Load(Access::Long),
    Op::Put(Access::Byte),
    Op::Put(Access::Word),
    Op::Put(Access::Long),
];

/// The number that a word is, below a limit.
pub(crate) fn below(word: &[u8], limit: u32) -> Option<u32>
    ensures some { IfSome result (λ n. (word.now ≡ decimal_of n) × (n < limit)) }
    ensures none { IfNone result ((n : ℕ) → n < limit → word.now ≡ decimal_of n → ⊥) }
{
    let number = decimal(word)?;
    if number < u64::from(limit) {
        Some(number as u32)
    } else {
        None
    }
}

/// The first of these operators that the word names.
fn alone(among: &[Op], word: &[u8]) -> Option<Op>
    ensures { result ≡ find (λ op. bytes_eq (op_word op) word.now) among.now }
{
    among
        .iter()
        .copied()
        .find(|op| row_lines::op_word(*op) == word)
}

/// What a word tells as the word of an operator.
fn op_head(word: &[u8]) -> Head
    ensures is { IsHead word.now result }
    ensures each { (op : Operator) → word.now ≡ op_word op → result ≡ head_of op }
{
    if let Some(op) = alone(&ALONE, word) {
        return Head::Plain(op);
    }
    if same(word, b"input") {
        return Head::Takes(Argument::Register);
    }
    if same(word, b"const") {
        return Head::Takes(Argument::Constant);
    }
    if same(word, b"use") {
        return Head::Takes(Argument::Name);
    }
    match op_of(word) {
        Some(op) => Head::Plain(Op::Word(op)),
        None => Head::Unknown,
    }
}

/// The operator with the argument that a word is.
fn with_argument(alloc: Global, argument: Argument, word: &[u8]) -> Result<Option<LineOp>, NoMemory>
    ensures { IfOk result (λ found. MatchOption found ((op : OpOfLine) → IsArgument word.now argument op → ⊥)
        (IsArgument word.now argument)) }
{
    match argument {
        Argument::Register => match below(word, 31) {
            Some(register) => Ok(Some(LineOp::Plain(Op::Input(register as u8)))),
            None => Ok(None),
        },
        Argument::Constant => match decimal(word) {
            Some(number) => Ok(Some(LineOp::Plain(Op::Constant(number)))),
            None => Ok(None),
        },
        Argument::Name => {
            if is_name(word) {
                Ok(Some(LineOp::Use(Name::new(alloc, word)?)))
            } else {
                Ok(None)
            }
        }
    }
}

/// The operator behind a line's first word, and the number of the word where its operands begin.
fn line_op(
    alloc: Global,
    text: &TextLines<'_>,
    line: u32,
) -> Result<Option<(LineOp, u32)>, NoMemory>
    requires line { line < length text.now }
    requires words { 1 < length (line_at text.now line).words }
    ensures { IfOk result (λ found. MatchOption found (HasNoOp (line_at text.now line).words)
        (λ p. IsOpBefore (line_at text.now line).words p.0 p.1)) }
{
    let word = text.word(line, 1);
    match op_head(word) {
        Head::Plain(op) => Ok(Some((LineOp::Plain(op), 2))),
        Head::Unknown => Ok(Some((LineOp::Unknown(Name::new(alloc, word)?), 2))),
        Head::Takes(argument) => {
            if text.words(line) < 3 {
                return Ok(None);
            }
            match with_argument(alloc, argument, text.word(line, 2))? {
                Some(op) => Ok(Some((op, 3))),
                None => Ok(None),
            }
        }
    }
}

/// The numbers that the words from one on are.
fn numbers(
    alloc: Global,
    text: &TextLines<'_>,
    line: u32,
    from: u32,
) -> Result<Option<Items<u32>>, NoMemory>
    requires line { line < length text.now }
    requires from { from ≤ length (line_at text.now line).words }
    ensures { IfOk result (λ found. MatchOption found
        ((ns : List ℕ) → AreNumbers (2 ^ 31) (drop from (line_at text.now line).words) ns → ⊥)
        (AreNumbers (2 ^ 31) (drop from (line_at text.now line).words))) }
{
    let mut numbers = Items::new(alloc);
    for at in from..text.words(line) {
        match below(text.word(line, at), 1 << 31) {
            Some(number) => numbers.push(number)?,
            None => return Ok(None),
        }
    }
    Ok(Some(numbers))
}

/// The row that the words of a line are, where they have the form of one.
pub(crate) fn row_line(
    alloc: Global,
    text: &TextLines<'_>,
    line: u32,
) -> Result<Option<RowLine>, NoMemory>
    requires { line < length text.now }
    ensures { IfOk result (λ found. MatchOption found ((row : Row) → IsRowLine (line_at text.now line).words row → ⊥)
        (IsOnlyRow (line_at text.now line).words)) }
{
    if text.words(line) < 2 {
        return Ok(None);
    }
    let Some(class) = below(text.word(line, 0), 1 << 31) else {
        return Ok(None);
    };
    let Some((op, from)) = line_op(alloc, text, line)? else {
        return Ok(None);
    };
    let Some(operands) = numbers(alloc, text, line, from)? else {
        return Ok(None);
    };
    Ok(Some(RowLine {
        class,
        op,
        operands,
    }))
}

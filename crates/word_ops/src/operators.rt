// The operators on words.
ghost use Rattle.std.specs.Prelude.{◌≡◌, length, slice_index};
ghost use Rattle.word_ops.specs.Operators.{arity_of, number_of, operate_value, value_at, value_of};

use crate::arithmetic::*;
use crate::bitwise::*;
use crate::bytes::*;
use crate::comparison::*;
use crate::operates::Operate;

/// An operator on words: an operate of the Alpha, or one of six operators of terms.
/// `Lda` and `Ldah` take the displacement as a second word, of which the low 16 bits count.
#[derive(Clone, Copy)]
pub enum WordOp {
    Operate(Operate),
    Neg,
    Not,
    Selectb,
    Storeb,
    Lda,
    Ldah,
}

/// The operators that are no operates, in the order of the enum.
pub(crate) const OTHERS: [WordOp; 6] = [
    WordOp::Neg,
    WordOp::Not,
    WordOp::Selectb,
    WordOp::Storeb,
    WordOp::Lda,
    WordOp::Ldah,
];

/// The operator's number: the operates in their order, then the others.
pub fn number(op: WordOp) -> u32
    ensures { result ≡ number_of op }
{
    match op {
        WordOp::Operate(operate) => operate.place(),
        WordOp::Neg => 55,
        WordOp::Not => 56,
        WordOp::Selectb => 57,
        WordOp::Storeb => 58,
        WordOp::Lda => 59,
        WordOp::Ldah => 60,
    }
}

/// The number of operands, 1 to 3.
pub fn arity(op: WordOp) -> usize
    ensures { result ≡ arity_of op }
{
    match op {
        WordOp::Operate(operate) => operate.arity(),
        WordOp::Neg | WordOp::Not => 1,
        WordOp::Storeb => 3,
        WordOp::Selectb | WordOp::Lda | WordOp::Ldah => 2,
    }
}

/// The operator's value on its operands.
#[tactic(auto, unfolding(crate::specs::Operators::value_at))]
pub fn apply(op: WordOp, values: &[u64]) -> u64
    requires { length values.now ≡ arity_of op }
    ensures { result ≡ value_of op values.now }
{
    let (a, b, c) = (operand(values, 0), operand(values, 1), operand(values, 2));
    match op {
        WordOp::Operate(operate) => operate_on(operate, a, b),
        WordOp::Neg => neg(a),
        WordOp::Not => not(a),
        WordOp::Selectb => selectb(a, b),
        WordOp::Storeb => storeb(a, b, c),
        WordOp::Lda => lda(a, b),
        WordOp::Ldah => ldah(a, b),
    }
}

// Operand `at`, or 0 where there is none.
fn operand(values: &[u64], at: usize) -> u64
    ensures { result ≡ slice_index values.now at }
{
    if at < values.len() { values[at] } else { 0 }
}

#[tactic(auto, unfolding(crate::specs::Operators::operate_value))]
fn operate_on(operate: Operate, a: u64, b: u64) -> u64
    ensures { result ≡ operate_value operate a b }
{
    match operate {
        Operate::Addl => sign_extended(32, addq(a, b)),
        Operate::S4addl => sign_extended(32, s4addq(a, b)),
        Operate::Subl => sign_extended(32, subq(a, b)),
        Operate::S4subl => sign_extended(32, s4subq(a, b)),
        Operate::Cmpbge => cmpbge(a, b),
        Operate::S8addl => sign_extended(32, s8addq(a, b)),
        Operate::S8subl => sign_extended(32, s8subq(a, b)),
        Operate::Cmpult => cmpult(a, b),
        Operate::Addq => addq(a, b),
        Operate::S4addq => s4addq(a, b),
        Operate::Subq => subq(a, b),
        Operate::S4subq => s4subq(a, b),
        Operate::Cmpeq => cmpeq(a, b),
        Operate::S8addq => s8addq(a, b),
        Operate::S8subq => s8subq(a, b),
        Operate::Cmpule => cmpule(a, b),
        Operate::Cmplt => cmplt(a, b),
        Operate::Cmple => cmple(a, b),
        Operate::And => and(a, b),
        Operate::Bic => bic(a, b),
        Operate::Bis => bis(a, b),
        Operate::Ornot => ornot(a, b),
        Operate::Xor => xor(a, b),
        Operate::Eqv => eqv(a, b),
        Operate::Mskbl => msk_low(1, a, b),
        Operate::Extbl => ext_low(1, a, b),
        Operate::Insbl => ins_low(1, a, b),
        Operate::Mskwl => msk_low(2, a, b),
        Operate::Extwl => ext_low(2, a, b),
        Operate::Inswl => ins_low(2, a, b),
        Operate::Mskll => msk_low(4, a, b),
        Operate::Extll => ext_low(4, a, b),
        Operate::Insll => ins_low(4, a, b),
        Operate::Zap => zap(a, b),
        Operate::Zapnot => zapnot(a, b),
        Operate::Mskql => msk_low(8, a, b),
        Operate::Srl => srl(a, b),
        Operate::Extql => ext_low(8, a, b),
        Operate::Sll => sll(a, b),
        Operate::Insql => ins_low(8, a, b),
        Operate::Sra => sra(a, b),
        Operate::Mskwh => msk_high(2, a, b),
        Operate::Inswh => ins_high(2, a, b),
        Operate::Extwh => ext_high(2, a, b),
        Operate::Msklh => msk_high(4, a, b),
        Operate::Inslh => ins_high(4, a, b),
        Operate::Extlh => ext_high(4, a, b),
        Operate::Mskqh => msk_high(8, a, b),
        Operate::Insqh => ins_high(8, a, b),
        Operate::Extqh => ext_high(8, a, b),
        Operate::Mull => sign_extended(32, mulq(a, b)),
        Operate::Mulq => mulq(a, b),
        Operate::Umulh => umulh(a, b),
        Operate::Sextb => sextb(a),
        Operate::Sextw => sextw(a),
    }
}

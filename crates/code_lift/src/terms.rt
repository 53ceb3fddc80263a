// The terms of what the words of a lift write, over its latest values.
ghost use Rattle.std.specs.Prelude.{◌≡◌, IfOk};
ghost use Rattle.code_check.specs.Terms.{sign_extended};
ghost use Rattle.code_lift.specs.Lifted as lifts;
ghost use Rattle.word_terms.specs.View.{tree_of};

use crate::lifting::Value;
use items::NoMemory;
use std::alloc::Global;
use word_ops::{Op, Operate};
use word_terms::{Term, application, constant, operate_2, variable};

/// The term of a value.
pub(crate) fn value_term(alloc: Global, value: Value) -> Term<Op>
    ensures { tree_of result ≡ lifts.value_term value }
{
    match value {
        Value::Entry(register) => application(Op::Input(register), Vec::new(alloc)),
        Value::Zero => constant(alloc, 0),
        Value::Let(number) => variable(number),
    }
}

/// The memory of a let's number, or that at entry.
pub(crate) fn memory_term(alloc: Global, memory: Option<u32>) -> Term<Op>
    ensures { tree_of result ≡ lifts.memory_value memory }
{
    match memory {
        Some(at) => variable(at),
        None => application(Op::Entry, Vec::new(alloc)),
    }
}

/// The sum with a word. It is the base alone where the word is 0.
pub(crate) fn sum_term(alloc: Global, base: Term<Op>, word: u64) -> Result<Term<Op>, NoMemory>
    ensures { IfOk result (λ t. tree_of t ≡ lifts.sum_term (tree_of base) word) }
{
    if word == 0 {
        return Ok(base);
    }
    operate_2(alloc, Operate::Addq, base, constant(alloc, word))
}

/// The word of a displacement, with its sign extended.
pub(crate) fn low_word(disp: i16) -> u64
    ensures { result ≡ sign_extended disp }
{
    i64::from(disp).cast_unsigned()
}

/// What `ldah` adds for a displacement.
pub(crate) fn high_word(disp: i16) -> u64
    ensures { result ≡ lifts.high_word disp }
{
    (i64::from(disp) * 65536).cast_unsigned()
}

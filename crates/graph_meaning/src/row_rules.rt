// What a row says of its class: the greatest power of 2 of which the class is a multiple, if its operands are multiples
// of certain powers.
ghost use Rattle.std.specs.Prelude.{◌≡◌, ◌<◌, ◌≤◌, ◌+◌, ◌%◌, ◌==◌, All, None, if◌then◌else◌, length, min, slice_index, slice_index_or};
ghost use Rattle.std.specs.Option.{option_map_or};
ghost use Rattle.word_ops.specs.Meanings.{constant_in};
ghost use Rattle.graph_meaning.specs.Multiples as shown;
ghost use Rattle.graph_meaning.specs.Raising as raising;

use word_ops::{Op, Operate, WordOp};

/// What a row says of its class, by what stands of its operands and by their constants.
pub(crate) fn said(powers: &[u8], constants: &[Option<u64>], op: Op, operands: &[u32]) -> u8
    requires powers { All (λ n. n ≤ 3) powers.now }
    requires size { length constants.now ≡ length powers.now }
    requires below { All (λ c. c < length powers.now) operands.now }
    ensures { result
        ≡ raising.said op (λ c. slice_index_or constants.now c None) (slice_index powers.now) operands.now }
{
    match operands {
        [] => zeros_of(op),
        [x] => negated(op, powers[*x as usize]),
        [x, y] => pair_multiple(
            op,
            constants[*y as usize],
            powers[*x as usize],
            powers[*y as usize],
        ),
        _ => 0,
    }
}

fn zeros_of(op: Op) -> u8
    ensures { result ≡ option_map_or shown.low_zeros (constant_in op) 0 }
{
    match op {
        Op::Constant(constant) => low_zeros(constant),
        _ => 0,
    }
}

fn negated(op: Op, a: u8) -> u8
    ensures { result ≡ raising.negated op a }
{
    match op {
        Op::Word(WordOp::Neg) => a,
        _ => 0,
    }
}

fn low_zeros(word: u64) -> u8
    ensures { result ≡ shown.low_zeros word }
{
    if word % 8 == 0 {
        3
    } else if word % 4 == 0 {
        2
    } else if word % 2 == 0 {
        1
    } else {
        0
    }
}

pub(crate) fn low_ones(word: u64) -> u8
    ensures { result ≡ shown.low_ones word }
{
    if word % 8 == 7 {
        3
    } else if word % 4 == 3 {
        2
    } else if word % 2 == 1 {
        1
    } else {
        0
    }
}

/// What an operator of two operands says.
fn pair_multiple(op: Op, constant: Option<u64>, a: u8, b: u8) -> u8
    requires a { a ≤ 3 }
    requires b { b ≤ 3 }
    ensures { result ≡ shown.pair_multiple op constant a b }
{
    match op {
        Op::Word(WordOp::Operate(op)) => operate_multiple(op, constant, a, b),
        Op::Word(WordOp::Lda) => a.min(b),
        Op::Word(WordOp::Ldah) => a,
        _ => 0,
    }
}

fn operate_multiple(op: Operate, constant: Option<u64>, a: u8, b: u8) -> u8
    requires a { a ≤ 3 }
    requires b { b ≤ 3 }
    ensures { result ≡ shown.operate_multiple op constant a b }
{
    match op {
        Operate::Addq | Operate::Subq | Operate::Bis | Operate::Xor => a.min(b),
        Operate::And => a.max(b),
        Operate::S4addq | Operate::S4subq => (a + 2).min(b),
        Operate::S8addq | Operate::S8subq => (a + 3).min(b),
        Operate::Mulq => (a + b).min(3),
        Operate::Bic => match constant {
            Some(mask) => a.max(low_ones(mask)),
            None => 0,
        },
        Operate::Zapnot => match constant {
            Some(mask) => by_parity(mask, 3, a),
            None => 0,
        },
        Operate::Zap => match constant {
            Some(mask) => by_parity(mask, a, 3),
            None => 0,
        },
        Operate::Sll => match constant {
            Some(distance) => shifted(a, distance),
            None => 0,
        },
        _ => 0,
    }
}

fn by_parity(word: u64, even: u8, odd: u8) -> u8
    ensures { result ≡ (if word % 2 == 0 then even else odd) }
{
    if word % 2 == 0 { even } else { odd }
}

fn shifted(a: u8, distance: u64) -> u8
    requires { a ≤ 3 }
    ensures { result ≡ min 3 (a + distance % 64) }
{
    let distance = (distance % 64) as u8;
    (a + distance).min(3)
}

/// The power of 2 of which the address of an operator's instruction has to be a multiple: its exponent, 0 to 2.
pub(crate) fn alignment_of_op(op: Op) -> u8
    ensures { result ≡ shown.alignment_of_op op }
{
    match op {
        Op::Select(access) | Op::Store(access) | Op::Load(access) | Op::Put(access) => {
            access.alignment()
        }
        _ => 0,
    }
}

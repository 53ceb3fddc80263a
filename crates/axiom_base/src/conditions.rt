// The conditions of the computed rules, and the constants that they give.
ghost use Rattle.std.specs.Prelude.{◌≡◌, ◌↔◌, ℕ, ◌+◌, ◌-◌, ◌*◌, ◌%◌, ◌<◌, ◌≤◌, ◌^◌, List, [], ◌∷◌, length, slice_index, IfSome, IsTrue, MatchOption};
ghost use Rattle.word_ops.specs.Words.{IsWord};
ghost use Rattle.word_ops.specs.Values.{inverted};
ghost use Rattle.word_ops.specs.Operators.{value_of, arity_of};
ghost use Rattle.word_ops.specs.Worlds.{World};
ghost use Rattle.axiom_base.specs.Conditions as rules;
ghost use Rattle.axiom_base.specs.Conditions.{Condition, IsCalc, IsByteMask, constants_of, given_of};
ghost use Rattle.axiom_base.specs.Rewrites.{IsTrueIn};
ghost use Rattle.axiom_base.specs.Computed.{calc_rewrite};
ghost use Rattle.axiom_base.specs.declared.kinds.Calc.TheVariants.{C1, C2, C5, C17, C34, C36, C37};
ghost use Rattle.word_ops.specs.declared.operators.WordOp.TheVariants.{Operate as Operator};
ghost use Rattle.axiom_base.specs.declared.kinds.Given.{Given as Constants};

use crate::computed_laws::computed_rules_are_true;
use crate::kinds::{Calc, Given, gives_two};
use word_ops::{Operate, WordOp, apply};

/// The constants that the rule's constants give, or `None` where they don't meet its condition.
pub fn calc(kind: Calc, values: &[u64]) -> Option<Given>
    requires { length values.now ≡ constants_of kind }
    ensures exact { MatchOption result
        ((given : Constants) → ¬ IsCalc kind values.now given)
        (IsCalc kind values.now) }
    ensures true_rule { IfSome result (λ given. (world : World) (names : ℕ → List ℕ) →
        IsTrueIn world names (calc_rewrite kind values.now given)) }
{
    computed_rules_are_true();
    given(kind, values)
}

fn given(kind: Calc, values: &[u64]) -> Option<Given>
    requires { length values.now ≡ constants_of kind }
    ensures { MatchOption result
        ((given : Constants) → ¬ IsCalc kind values.now given)
        (IsCalc kind values.now) }
{
    let c = values[0];
    if gives_two(kind) {
        return two_given(kind, c);
    }
    match one_given(kind, c, second(values)) {
        Some(e) => Some(Given { e, f: 0 }),
        None => None,
    }
}

// The second word, or 0 where there is none.
fn second(values: &[u64]) -> u64
    ensures { result ≡ slice_index values.now 1 }
{
    match values.get(1) {
        Some(d) => *d,
        None => 0,
    }
}

fn one_given(kind: Calc, c: u64, d: u64) -> Option<u64>
    requires { given_of kind ≡ 1 }
    ensures { MatchOption result ((e : ℕ) → IsWord e → ¬ Condition kind c d e 0) (λ e. Condition kind c d e 0) }
{
    match kind {
        Calc::C1 | Calc::C3 => displacement(c),
        Calc::C2 | Calc::C4 => high_displacement(c),
        Calc::C5 => high_part(c),
        Calc::C6 => exponent(c, 1),
        Calc::C7 => exponent(c.checked_add(1)?, 2),
        Calc::C8 => exponent(c.checked_sub(1)?, 1),
        Calc::C9 => full_bytes(c),
        Calc::C10 | Calc::C11 => far(c, c),
        Calc::C12 => far(apply(WordOp::Operate(Operate::Subq), &[d, c]), d),
        Calc::C13 | Calc::C14 | Calc::C15 => inverted_byte(c),
        Calc::C16 => plain_mask(c),
        Calc::C17 => high_displacement_of_sum(c),
        Calc::C18 => byte_distance(c, d, (1 << 8) - 1),
        Calc::C19 => byte_distance(c, d, (1 << 16) - 1),
        Calc::C20 => byte_distance(c, d, (1 << 32) - 1),
        Calc::C22 => odd_quotient(c, 3),
        Calc::C23 => odd_quotient(c, 5),
        Calc::C24 => odd_quotient(c, 7),
        Calc::C25 => odd_quotient(c, 9),
        Calc::C26 => without_bytes(Operate::Mskbl, c, d),
        Calc::C27 => without_bytes(Operate::Mskwl, c, d),
        Calc::C28 => without_bytes(Operate::Mskll, c, d),
        Calc::C29 => byte_distance(c, d, 1),
        Calc::C30 => byte_distance(c, d, 3),
        Calc::C31 => byte_distance(c, d, 15),
        Calc::C34 => negated(c),
        Calc::C36 => without_low_part(c),
        Calc::C37 => with_high_ones(c),
        Calc::C21 | Calc::C32 | Calc::C33 | Calc::C35 => None,
    }
}

fn two_given(kind: Calc, c: u64) -> Option<Given>
    requires { given_of kind ≡ 2 }
    ensures { (d : ℕ) → MatchOption result
        ((e f : ℕ) → IsWord e → IsWord f → ¬ Condition kind c d e f)
        (λ given. Condition kind c d given.e given.f) }
{
    match kind {
        Calc::C21 => odd_times_power(c),
        Calc::C32 => odd_times_power_below(c),
        Calc::C33 => odd_times_power_above(c),
        Calc::C35 => hard_constant(c),
        _ => None,
    }
}

fn is_displacement(c: u64) -> bool
    ensures { IsTrue result ↔ rules.IsDisplacement c }
{
    c < 1 << 15 || c > u64::MAX - (1 << 15)
}

fn displacement(c: u64) -> Option<u64>
    ensures { MatchOption result ((e : ℕ) → ¬ Condition C1 c 0 e 0) (λ e. Condition C1 c 0 e 0) }
{
    if c != 0 && is_displacement(c) {
        Some(c)
    } else {
        None
    }
}

// The displacement, not 0, of which the word is 65536 times the value.
fn high_displacement(c: u64) -> Option<u64>
    ensures { MatchOption result ((e : ℕ) → IsWord e → ¬ Condition C2 c 0 e 0) (λ e. Condition C2 c 0 e 0) }
{
    let high = c / 65536;
    let e = if high < 1 << 47 {
        high
    } else {
        high + (u64::MAX - ((1 << 48) - 1))
    };
    if c % 65536 == 0 && e != 0 && is_displacement(e) {
        Some(e)
    } else {
        None
    }
}

// The word less its sign-extended low 16 bits, for a word that is no displacement and whose low 16 bits aren't 0.
fn without_low_part(c: u64) -> Option<u64>
    ensures { MatchOption result (¬ rules.HasTwoParts c) (λ e. Condition C36 c 0 e 0) }
{
    if is_displacement(c) || c % 65536 == 0 {
        return None;
    }
    let low = apply(WordOp::Operate(Operate::Sextw), &[c]);
    Some(apply(WordOp::Operate(Operate::Subq), &[c, low]))
}

// The same, if it is 65536 times a displacement.
fn high_part(c: u64) -> Option<u64>
    ensures { MatchOption result ((e : ℕ) → ¬ Condition C5 c 0 e 0) (λ e. Condition C5 c 0 e 0) }
{
    let e = without_low_part(c)?;
    match high_displacement(e) {
        Some(_) => Some(e),
        None => None,
    }
}

// That displacement.
fn high_displacement_of_sum(c: u64) -> Option<u64>
    ensures { MatchOption result ((e : ℕ) → IsWord e → ¬ Condition C17 c 0 e 0) (λ e. Condition C17 c 0 e 0) }
{
    let rest = without_low_part(c)?;
    high_displacement(rest)
}

// The exponent of a power of two, which is at least this one.
fn exponent(n: u64, least: u64) -> Option<u64>
    requires { least ≤ 64 }
    ensures { MatchOption result
        ((e : ℕ) → n ≡ 2 ^ e → least ≤ e → e < 64 → ⊥)
        (λ e. (n ≡ 2 ^ e) × (least ≤ e) × (e < 64)) }
{
    for e in least..64 {
        if n == 1 << e {
            return Some(e);
        }
    }
    None
}

// One bit for each byte of the word: 1 where the byte is 255; `None` unless every other byte is 0.
fn full_bytes(c: u64) -> Option<u64>
    ensures { MatchOption result ((e : ℕ) → ¬ IsByteMask c e) (IsByteMask c) }
{
    let mut e: u64 = 0;
    for i in 0..8u32 {
        match (c >> (8 * i)) % 256 {
            0 => {}
            255 => e += 1 << i,
            _ => return None,
        }
    }
    Some(e)
}

fn far(difference: u64, e: u64) -> Option<u64>
    ensures { MatchOption result (rules.IsFar difference → ⊥) (λ found. rules.IsFar difference × (found ≡ e)) }
{
    if 8 <= difference && difference <= u64::MAX - 7 {
        Some(e)
    } else {
        None
    }
}

// The word with every bit changed, if that is at most 255.
fn inverted_byte(c: u64) -> Option<u64>
    ensures { MatchOption result
        ((e : ℕ) → e ≡ inverted c → e ≤ 255 → ⊥)
        (λ e. (e ≡ inverted c) × (e ≤ 255)) }
{
    let e = u64::MAX - c;
    if e <= 255 { Some(e) } else { None }
}

fn is_high(c: u64) -> bool
    ensures { IsTrue result ↔ rules.IsHigh c }
{
    c == 0 || high_displacement(c).is_some()
}

fn plain_mask(c: u64) -> Option<u64>
    ensures { MatchOption result ((e : ℕ) → ¬ rules.IsPlainMask c e) (rules.IsPlainMask c) }
{
    if is_displacement(c) || is_high(c) {
        return None;
    }
    full_bytes(c)
}

fn is_made(c: u64) -> bool
    ensures { IsTrue result ↔ rules.IsMade c }
{
    if c == 0 {
        return false;
    }
    if is_displacement(c) || is_high(c) {
        return true;
    }
    if high_part(c).is_some() {
        return true;
    }
    plain_mask(c).is_some()
}

// How many bytes the shift by c bits is, if it is one by bytes and the mask is this one.
fn byte_distance(c: u64, d: u64, mask: u64) -> Option<u64>
    ensures { MatchOption result
        ((e : ℕ) → rules.IsByteDistance c e → d ≡ mask → ⊥)
        (λ e. rules.IsByteDistance c e × (d ≡ mask)) }
{
    if c % 8 == 0 && c < 64 && d == mask {
        Some(c / 8)
    } else {
        None
    }
}

// The word without the bytes that a mask operator clears at this offset.
fn without_bytes(op: Operate, c: u64, d: u64) -> Option<u64>
    requires { arity_of (Operator op) ≡ 2 }
    ensures { MatchOption result
        (8 ≤ d)
        (λ e. (d < 8) × (e ≡ value_of (Operator op) (c ∷ d ∷ []))) }
{
    if d < 8 {
        Some(apply(WordOp::Operate(op), &[c, d]))
    } else {
        None
    }
}

// The odd number, at least 3, of which the word is this multiple.
fn odd_quotient(c: u64, factor: u64) -> Option<u64>
    requires { 1 ≤ factor }
    ensures { MatchOption result
        ((e : ℕ) → c ≡ factor * e → ¬ rules.IsOddFactor e)
        (λ e. (c ≡ factor * e) × rules.IsOddFactor e) }
{
    let e = c / factor;
    if c % factor == 0 && e % 2 == 1 && e >= 3 {
        Some(e)
    } else {
        None
    }
}

// The odd number and the power of two, whose product is this word.
fn odd_times_power(c: u64) -> Option<Given>
    ensures { MatchOption result
        ((e f : ℕ) → ¬ rules.IsOddTimesPower c e f)
        (λ given. rules.IsOddTimesPower c given.e given.f) }
{
    if c % 2 == 1 {
        return None;
    }
    twice_odd_times_power(c / 2)
}

// The same for the number below an odd one.
fn odd_times_power_below(c: u64) -> Option<Given>
    ensures { MatchOption result
        ((e f : ℕ) → c % 2 ≡ 1 → ¬ rules.IsOddTimesPower (c - 1) e f)
        (λ given. (c % 2 ≡ 1) × rules.IsOddTimesPower (c - 1) given.e given.f) }
{
    if c % 2 == 0 {
        return None;
    }
    twice_odd_times_power(c / 2)
}

// The same for the number above an odd one, which may be no word.
fn odd_times_power_above(c: u64) -> Option<Given>
    ensures { MatchOption result
        ((e f : ℕ) → c % 2 ≡ 1 → ¬ rules.IsOddTimesPower (c + 1) e f)
        (λ given. (c % 2 ≡ 1) × rules.IsOddTimesPower (c + 1) given.e given.f) }
{
    if c % 2 == 0 {
        return None;
    }
    twice_odd_times_power(c / 2 + 1)
}

// The odd number and the power of two, whose product is twice this word.
fn twice_odd_times_power(half: u64) -> Option<Given>
    ensures { MatchOption result
        ((e f : ℕ) → ¬ rules.IsOddTimesPower (2 * half) e f)
        (λ given. rules.IsOddTimesPower (2 * half) given.e given.f) }
{
    if half == 0 {
        return None;
    }
    let zeros = half.trailing_zeros();
    let e = half >> zeros;
    if e < 3 {
        return None;
    }
    let f = u64::from(zeros) + 1;
    Some(Given { e, f })
}

// The odd number and the power of two, for an even word that no other rule makes.
fn hard_constant(c: u64) -> Option<Given>
    ensures { MatchOption result
        ((e f : ℕ) → c % 2 ≡ 0 → (¬ rules.IsMade c) → ¬ rules.IsSignedOddTimesPower c e f)
        (λ given. (c % 2 ≡ 0) × (¬ rules.IsMade c) × rules.IsSignedOddTimesPower c given.e given.f) }
{
    if c % 2 == 1 || is_made(c) {
        return None;
    }
    signed_odd_times_power(c)
}

// The odd number and the power of two, whose product is this word, as signed words.
fn signed_odd_times_power(c: u64) -> Option<Given>
    ensures { MatchOption result
        ((e f : ℕ) → ¬ rules.IsSignedOddTimesPower c e f)
        (λ given. rules.IsSignedOddTimesPower c given.e given.f) }
{
    if c == 0 {
        return None;
    }
    let f = u64::from(c.trailing_zeros());
    let e = apply(WordOp::Operate(Operate::Sra), &[c, f]);
    Some(Given { e, f })
}

fn negated(c: u64) -> Option<u64>
    ensures { MatchOption result ((e : ℕ) → ¬ Condition C34 c 0 e 0) (λ e. Condition C34 c 0 e 0) }
{
    if 1 << 63 < c && c < u64::MAX {
        Some(u64::MAX - c + 1)
    } else {
        None
    }
}

// The word with its high 32 bits set, where they are 0 and neither `lda` nor `ldah` and `lda` make the word.
fn with_high_ones(c: u64) -> Option<u64>
    ensures { MatchOption result ((e : ℕ) → ¬ Condition C37 c 0 e 0) (λ e. Condition C37 c 0 e 0) }
{
    if (1 << 31) - (1 << 15) <= c && c < 1 << 32 {
        Some(c + (u64::MAX - ((1 << 32) - 1)))
    } else {
        None
    }
}

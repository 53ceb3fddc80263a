// Numbers of a text, in decimal or in hexadecimal.
ghost use Rattle.std.specs.Prelude.{◌≡◌, ◌≤◌, ◌^◌, ◌<◌, ℕ, IfSome, IfNone, ◌∷◌, length};
ghost use Rattle.std.specs.Prelude as std;
ghost use Rattle.std.specs.Str.Parse.{AllDigits, digits_value};
ghost use Rattle.text_core.specs.Numbers.{IsNumber, IsBelowLimit};

/// How many hexadecimal digits a number may have.
const MOST_DIGITS: usize = 16;

/// The value of digits in a base, where it is below 2 ^ 64.
fn value(digits: &[u8], base: u32) -> Option<u64>
    requires low { 2 ≤ base }
    requires high { base ≤ 36 }
    ensures some { IfSome result (λ n. IsBelowLimit base digits.now × (n ≡ digits_value base digits.now)) }
    ensures none { IfNone result (IsBelowLimit base digits.now → ⊥) }
{
    let mut number = 0u64;
    for byte in digits {
        let digit = char::from(*byte).to_digit(base)?;
        number = number
            .checked_mul(u64::from(base))?
            .checked_add(u64::from(digit))?;
    }
    Some(number)
}

/// The number that `0x` and the digits write, where they write one.
fn hexadecimal(digits: &[u8]) -> Option<u64>
    ensures some { IfSome result (λ n. IsNumber (48 ∷ 120 ∷ digits.now) n) }
    ensures none { IfNone result ((n : ℕ) → IsNumber (48 ∷ 120 ∷ digits.now) n → ⊥) }
{
    if digits.is_empty() {
        return None;
    }
    if digits.len() > MOST_DIGITS {
        return None;
    }
    value(digits, 16)
}

/// The number that the bytes of an atom write, where they write one.
pub(crate) fn number(bytes: &[u8]) -> Option<u64>
    requires { 0 < length bytes.now }
    ensures some { IfSome result (λ n. IsNumber bytes.now n) }
    ensures none { IfNone result ((n : ℕ) → IsNumber bytes.now n → ⊥) }
{
    match bytes.strip_prefix(b"0x") {
        Some(digits) => hexadecimal(digits),
        None => value(bytes, 10),
    }
}

/// The number that a word of a line writes: decimal digits without a needless zero, below 2 ^ 64.
pub fn decimal(word: &[u8]) -> Option<u64>
    ensures some { IfSome result (λ n. (word.now ≡ std.decimal n) × (n < 2 ^ 64)) }
    ensures none { IfNone result ((n : ℕ) → n < 2 ^ 64 → word.now ≡ std.decimal n → ⊥) }
{
    if word.is_empty() {
        return None;
    }
    if word[0] == b'0' && word.len() > 1 {
        return None;
    }
    value(word, 10)
}

// Words of a text as numbers and literals.
ghost use Rattle.std.specs.Prelude.{◌≡◌, ◌^◌, ◌<◌, ◌≤◌, ◌↔◌, ℕ, IfSome, IfNone, IsTrue, codes};
ghost use Rattle.std.specs.Prelude as std;
ghost use Rattle.cnf_core.specs.declared.literal.Lit.{Lit as Literal};
ghost use Rattle.refutation_check.specs.LineWords.{IsSmall, IsId, IsIdLiteral, literal_word};

use cnf_core::Lit;
use text_core::decimal;

/// Whether the word is the zero that ends literals and hints.
pub(crate) fn is_zero(word: &[u8]) -> bool
    ensures { IsTrue result ↔ (word.now ≡ codes "0") }
{
    word == b"0".as_slice()
}

/// The number that a word is.
pub(crate) fn number(word: &[u8]) -> Option<u32>
    ensures some { IfSome result (λ n. (word.now ≡ std.decimal n) × IsSmall n) }
    ensures none { IfNone result ((n : ℕ) → IsSmall n → word.now ≡ std.decimal n → ⊥) }
{
    let value = decimal(word)?;
    if value < 1 << 31 {
        Some(value as u32)
    } else {
        None
    }
}

/// The number that a word is, where it isn't 0.
pub(crate) fn id(word: &[u8]) -> Option<u32>
    ensures some { IfSome result (λ n. (word.now ≡ std.decimal n) × IsId n) }
    ensures none { IfNone result ((n : ℕ) → IsId n → word.now ≡ std.decimal n → ⊥) }
{
    match number(word) {
        Some(0) => None,
        other => other,
    }
}

/// The literal that a word is.
pub(crate) fn literal(word: &[u8]) -> Option<Lit>
    ensures some { IfSome result (λ l. (word.now ≡ literal_word l) × IsIdLiteral l) }
    ensures none { IfNone result ((l : Literal) → IsIdLiteral l → word.now ≡ literal_word l → ⊥) }
{
    match word.strip_prefix(b"-") {
        Some(digits) => signed(digits, false),
        None => signed(word, true),
    }
}

fn signed(digits: &[u8], positive: bool) -> Option<Lit>
    ensures some { IfSome result (λ l. (digits.now ≡ std.decimal l.var) × IsIdLiteral l × (l.positive ≡ positive)) }
    ensures none { IfNone result ((n : ℕ) → IsId n → digits.now ≡ std.decimal n → ⊥) }
{
    let var = id(digits)?;
    Some(Lit { var, positive })
}

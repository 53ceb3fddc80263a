// What an operator type says of itself.
ghost use Rattle.std.specs.Prelude.{◌≡◌, ℕ, ◌<◌, ◌≤◌, List, [], Some};
ghost use Rattle.word_ops.specs.Worlds.{Value, World, IsWorld, IsValue, word};
ghost use Rattle.word_ops.specs.declared.sorts.Sort.TheVariants as sorts;
ghost use Rattle.word_terms.specs.Signature.{Signature, Meaning, AreOperandsOf, HasWordConstant};

use word_ops::Sort;

/// The operators of terms and graphs.
///
/// `signature` says how an operator is used, `meaning` what it gives. The laws stand below the functions.
pub trait Operator: Copy {
    ghost signature: { Signature Self };

    ghost meaning: { Meaning Self };

    /// How many operands the operator takes, at most 4.
    fn arity(self) -> usize
        ensures { result ≡ signature.arity self };

    /// Whether it gives a word or a memory.
    fn sort(self) -> Sort
        ensures { result ≡ signature.sort self };

    /// What it takes as operand `at`, from 0.
    fn operand_sort(self, at: usize) -> Sort
        requires { at < signature.arity self }
        ensures { result ≡ signature.operand_sort self at };

    /// The constant that it is, if it is one.
    fn constant(self) -> Option<u64>
        ensures { result ≡ signature.constant self };

    /// Two operators are the same where their keys are.
    fn key(self) -> (u8, u64)
        ensures { result ≡ signature.key self };

    /// Does nothing. Its clause is a law: what an operator gives is of its sort and in range where its operands are.
    fn gives_its_sort()
        ensures in_range { (world : World) (names : ℕ → List ℕ) (op : Self) (vs : List Value) →
            IsWorld world → HasWordConstant signature op → AreOperandsOf signature op vs →
            IsValue (signature.sort op) (meaning world names op vs) };

    ghost takes_at_most_four: { (op : Self) → signature.arity op ≤ 4 };

    ghost key_is_own: { (op other : Self) → signature.key op ≡ signature.key other → op ≡ other };

    ghost constant_takes_none: { (op : Self) (n : ℕ) → signature.constant op ≡ Some n → signature.arity op ≡ 0 };

    ghost constant_is_word: { (op : Self) (n : ℕ) → signature.constant op ≡ Some n → signature.sort op ≡ sorts.Word };

    ghost constant_means: { (op : Self) (n : ℕ) → signature.constant op ≡ Some n →
        (world : World) (names : ℕ → List ℕ) → meaning world names op [] ≡ word n };

    ghost constant_is_own: { (op other : Self) (n : ℕ) →
        signature.constant op ≡ Some n → signature.constant other ≡ Some n → op ≡ other };
}

// Laws of the definitions, as contracts of functions that do nothing.
ghost use Rattle.std.specs.Prelude.{◌≡◌, ◌≢◌, ◌<◌, ◌≤◌, ◌+◌, ◌-◌, ◌/◌, ◌%◌, ◌^◌, ◌↔◌, min, ℕ, List, All, Contains, Some, slice_get};
ghost use Rattle.std.specs.Int.{bit_at};
ghost use Rattle.word_ops.specs.Words.{IsWord};
ghost use Rattle.word_ops.specs.Values as value;
ghost use Rattle.word_ops.specs.Operators.{operators, number_of, value_of};
ghost use Rattle.word_ops.specs.Names.{name_of};
ghost use Rattle.word_ops.specs.Memory.{Memory, IsMemory, loaded, stored, word_at, put_word};
ghost use Rattle.word_ops.specs.Worlds.{Value, World, IsWorld, IsValue};
ghost use Rattle.word_ops.specs.Meanings.{meaning, sort_of, AreOperands, IsInRange};
ghost use Rattle.word_ops.specs.declared.operators.WordOp.{WordOp as Operator};
ghost use Rattle.word_ops.specs.declared.sorts.Access.{Access as AccessOf};
ghost use Rattle.word_ops.specs.declared.sorts.Op.{Op as TermOperator};

/// Each operator is in the list of all of them, at its number and nowhere else, and has a name of its own.
pub fn operators_are_listed()
    ensures each { (op : Operator) → Contains operators op }
    ensures numbers { (op : Operator) (n : ℕ) → (slice_get operators n ≡ Some op) ↔ (n ≡ number_of op) }
    ensures names { (op other : Operator) → name_of op ≡ name_of other → op ≡ other }
{}

/// What an operator gives is in range if its operands are.
pub fn meanings_are_in_range()
    ensures words { (op : Operator) (vs : List ℕ) → All IsWord vs → IsWord (value_of op vs) }
    ensures values { (world : World) (names : ℕ → List ℕ) (op : TermOperator) (vs : List Value) →
        IsWorld world → IsInRange op → AreOperands op vs → IsValue (sort_of op) (meaning world names op vs) }
{}

/// After a write to a memory, the place holds the word, and every other place what it held before; of two writes to one
/// place the second counts; and what is written is a memory again. What an access reads is a word, and where it writes
/// one it leaves a memory. Two memories are equal if each place holds the same word in both.
pub fn memories_hold_words()
    ensures put { (m : Memory) (place v : ℕ) → word_at (put_word m place v) place ≡ v }
    ensures others { (m : Memory) (place v other : ℕ) → other ≢ place →
        word_at (put_word m place v) other ≡ word_at m other }
    ensures again { (m : Memory) (place v w : ℕ) →
        put_word (put_word m place v) place w ≡ put_word m place w }
    ensures is_memory { (m : Memory) (place v : ℕ) → IsMemory m → place < 2 ^ 61 → IsWord v →
        IsMemory (put_word m place v) }
    ensures loaded { (access : AccessOf) (m : Memory) (a : ℕ) → IsMemory m → IsWord (loaded access m a) }
    ensures stored { (access : AccessOf) (m : Memory) (a v : ℕ) → IsMemory m → IsWord a → IsWord v
        → IsMemory (stored access m a v) }
    ensures equal { (m n : Memory) → IsMemory m → IsMemory n →
        ((place : ℕ) → word_at m place ≡ word_at n place) → m ≡ n }
{}

/// Which bits a shift, a sign extension and a mask of bytes give; and `storeb`, a byte put into a word, in terms of the
/// operators that mask and insert a byte.
pub fn words_have_bits()
    ensures shifted_left { (a b i : ℕ) → i < 64 → b % 64 ≤ i →
        bit_at (value.sll a b) i ≡ bit_at a (i - b % 64) }
    ensures shifted_right { (a b i : ℕ) → i < 64 → bit_at (value.sra a b) i ≡ bit_at a (min (i + b % 64) 63) }
    ensures sign_extended { (sign a i : ℕ) → sign < 64 → i < 64 →
        bit_at (value.sign_extended (sign + 1) a) i ≡ bit_at a (min i sign) }
    ensures byte_mask { (mask i : ℕ) → i < 64 → bit_at (value.byte_mask mask) i ≡ bit_at mask (i / 8) }
    ensures stored_byte { (x y z : ℕ) →
        value.storeb x y z ≡ value.bis (value.msk_low 1 x y) (value.ins_low 1 z y) }
{}

// Laws of the definitions, as the contract of a function that does nothing.
ghost use Rattle.std.specs.Prelude.{◌≡◌, ℕ, ◌<◌, ◌^◌, Some};
ghost use Rattle.alpha_encode.specs.Formats.{IsWellFormed, encoded};
ghost use Rattle.alpha_encode.specs.Decoded.{decoded};
ghost use Rattle.alpha_encode.specs.declared.instructions.Instr.{Instr as Instruction};

/// Instructions and their words are one to one.
pub fn words_and_instructions()
    ensures back { (instr : Instruction) → IsWellFormed instr → decoded (encoded instr) ≡ Some instr }
    ensures forth { (word : ℕ) (instr : Instruction) → word < 2 ^ 32 → decoded word ≡ Some instr
        → IsWellFormed instr × (encoded instr ≡ word) }
    ensures own_word { (a b : Instruction) → IsWellFormed a → IsWellFormed b → encoded a ≡ encoded b → a ≡ b }
{}

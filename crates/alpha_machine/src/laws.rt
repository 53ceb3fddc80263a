// Laws of the definitions, as contracts of functions that do nothing.
ghost use Rattle.std.specs.Prelude.{◌≡◌, ◌+◌, ◌/◌, ◌%◌, ◌^◌, ◌≤◌, ℕ, List, Some, IsSomeAnd, IsTrue, IsFalse, length, suc};
ghost use Rattle.std.specs.Int.{cast_signed, w16};
ghost use Rattle.word_ops.specs.Values.{lda, ldah};
ghost use Rattle.alpha_encode.specs.declared.instructions.Instr.{Instr};
ghost use Rattle.alpha_machine.specs.States.{MachineState};
ghost use Rattle.alpha_machine.specs.Steps.{address, step, traps};
ghost use Rattle.alpha_machine.specs.Runs.{after, fetched, stepped};

/// The operators `lda` and `ldah` give, for a base and a word, the address that the instructions compute from the base
/// and the word's low 16 bits, sign-extended, as their displacement.
pub fn displacements_are_low_bits()
    ensures low { (x k : ℕ) → address x 1 (cast_signed w16 (k % 2 ^ 16)) ≡ lda x k }
    ensures high { (x k : ℕ) → address x 65536 (cast_signed w16 (k % 2 ^ 16)) ≡ ldah x k }
{}

/// After m steps and then n more, the state is that after m + n steps. The last of n + 1 steps is one step from the
/// state after n. A step does what the instruction at pc does; a state whose pc is past the words, or whose instruction
/// traps, stays as it is.
pub fn steps_add_up()
    ensures sums { (m n : ℕ) (instrs : List Instr) (s : MachineState)
        → after (m + n) instrs s ≡ after n instrs (after m instrs s) }
    ensures last { (n : ℕ) (instrs : List Instr) (s : MachineState)
        → after (suc n) instrs s ≡ stepped instrs (after n instrs s) }
    ensures steps { (instrs : List Instr) (s : MachineState) (i : Instr)
        → fetched instrs s ≡ Some i → IsFalse (traps i s) → stepped instrs s ≡ step i s }
    ensures stays { (n : ℕ) (instrs : List Instr) (s : MachineState)
        → length instrs ≤ s.pc / 4 → after n instrs s ≡ s }
    ensures trapped { (n : ℕ) (instrs : List Instr) (s : MachineState)
        → IsSomeAnd (fetched instrs s) (λ i. IsTrue (traps i s)) → after n instrs s ≡ s }
{}

// What some chains are, by the definitions.
ghost use Rattle.std.specs.Prelude.{◌≡◌};
ghost use Rattle.word_ops.specs.declared.operates.Operate.TheVariants.{Addq, Bis, S4addq, Subq, Xor};
ghost use Rattle.saturation.specs.GoalTerms.{input_term};
ghost use Rattle.generated_goals.specs.Generated.{applied, chain};

/// The chains of three and of four operates.
pub fn worked_chains()
    ensures three { chain 3 3 ≡ applied Xor (applied Bis (applied Subq (input_term 9))) }
    ensures four { chain 4 4 ≡ applied Bis (applied Addq (applied Subq (applied S4addq (input_term 9)))) }
{}

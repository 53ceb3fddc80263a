// What the definitions say of worked procs.
ghost use Rattle.std.specs.Prelude.{◌≡◌, ◌∷◌, [], ◌*◌, codes, length, map};
ghost use Rattle.alpha_encode.specs.Formats.{encoded};
ghost use Rattle.proc_goal.specs.declared.procs.Target.TheVariants.{Block as BlockAt, Done};
ghost use Rattle.proc_link.specs.Blocks.{block_steps};
ghost use Rattle.proc_link.specs.Follows.{begun};
ghost use Rattle.proc_link.specs.Linked.{linked, starts_of};
ghost use Rattle.proc_link.specs.Worked.{copy_block, copy_listing, copy_memory, copy_proc, exchange_proc, step_block, step_listing, with_registers};
ghost use Rattle.word_ops.specs.Memory.{word_at};

use word_ops::memories_hold_words;

/// A block that counts up a register, and a loop that copies words: their words, of which the last one of the loop leads
/// back to its first, and where they start and end. Then two registers that are exchanged in one step, since both new
/// values are those of the old state.
pub fn worked_links()
    ensures step_words { map encoded (linked (step_block ∷ []) (step_listing ∷ [])) ≡ 1107309584 ∷ 3890216960 ∷ [] }
    ensures step_starts { starts_of (step_listing ∷ []) ≡ 0 ∷ [] }
    ensures copy_words { map encoded (linked (copy_block ∷ []) (copy_listing ∷ []))
        ≡ 1108476832 ∷ 3825205253 ∷ 741343232 ∷ 1107366928 ∷ 1009844224 ∷ 1109464081 ∷ 3892314105 ∷ [] }
    ensures copy_end { 4 * length (linked (copy_block ∷ []) (copy_listing ∷ [])) ≡ 28 }
    ensures exchanged_p { (block_steps 1 exchange_proc (begun exchange_proc (with_registers 3 4 5 copy_memory))).words
        (codes "p") ≡ 4 }
    ensures exchanged_q { (block_steps 1 exchange_proc (begun exchange_proc (with_registers 3 4 5 copy_memory))).words
        (codes "q") ≡ 3 }
    ensures exchanged_at { (block_steps 1 exchange_proc (begun exchange_proc (with_registers 3 4 5 copy_memory))).at
        ≡ Done }
{}

/// The loop copies two words in two steps of the block machine, and the third step leaves it.
#[tactic(auto, unfolding(word_ops::specs::Operators::value_at, word_ops::specs::Operators::operate_value, word_ops::specs::Values::addq, word_ops::specs::Values::cmpult))]
pub fn worked_steps()
    ensures p { (block_steps 3 copy_proc (begun copy_proc (with_registers 64 128 80 copy_memory))).words (codes "p") ≡ 80 }
    ensures q { (block_steps 3 copy_proc (begun copy_proc (with_registers 64 128 80 copy_memory))).words (codes "q") ≡ 144 }
    ensures first { word_at (block_steps 3 copy_proc (begun copy_proc (with_registers 64 128 80 copy_memory))).memory 16
        ≡ 9 }
    ensures second { word_at (block_steps 3 copy_proc (begun copy_proc (with_registers 64 128 80 copy_memory))).memory 17
        ≡ 5 }
    ensures goes_on { (block_steps 2 copy_proc (begun copy_proc (with_registers 64 128 80 copy_memory))).at ≡ BlockAt 0 }
    ensures ends { (block_steps 3 copy_proc (begun copy_proc (with_registers 64 128 80 copy_memory))).at ≡ Done }
{
    memories_hold_words();
}

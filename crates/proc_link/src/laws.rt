// What holds of all linked words. The call does nothing: its clause is a law.
ghost use Rattle.std.specs.Prelude.{◌≡◌, ℕ, List, Some, map};
ghost use Rattle.alpha_encode.specs.Decoded.{decoded};
ghost use Rattle.proc_goal.specs.Views.{ProcTree};
ghost use Rattle.proc_goal.specs.WellFormed.{IsProc};
ghost use Rattle.proc_link.specs.Follows.{AreListings, FollowBlocks};
ghost use Rattle.proc_link.specs.Linked.{all_instrs, linked, starts_of};
ghost use Rattle.register_assign.specs.declared.listings.Listing.{Listing as ListingOf};

use alpha_machine::steps_add_up;
use goal_meaning::goals_without_lets_are_expanded;
use proc_goal::goals_of_procs_are_well_formed;
use word_ops::{meanings_are_in_range, memories_hold_words};

/// Words that are the linked instructions do what the blocks say: n steps of the block machine are at most 193 n steps of
/// the words, which leave all registers alone but the variables' and those of the pool.
pub fn linked_words_follow_the_blocks()
    ensures { (p : ProcTree) (listings : List ListingOf) (words : List ℕ) → IsProc p → AreListings p listings
        → map decoded words ≡ map Some (linked p.blocks (all_instrs listings))
        → FollowBlocks p words (starts_of (all_instrs listings)) }
{
    goals_of_procs_are_well_formed();
    goals_without_lets_are_expanded();
    steps_add_up();
    meanings_are_in_range();
    memories_hold_words();
}

// Listings of blocks, linked.
ghost use Rattle.std.specs.Prelude.{◌≡◌, ◌++◌, ◌∷◌, [], ◌+◌, ◌<◌, ◌^◌, IfOk, OnOk, Some, length, map};
ghost use Rattle.alpha_encode.specs.Decoded.{decoded};
ghost use Rattle.alpha_encode.specs.Formats.{IsWellFormed, encoded};
ghost use Rattle.alpha_encode.specs.declared.instructions.Instr.TheVariants as instructions;
ghost use Rattle.proc_goal.specs.Views.{block_view, proc_view};
ghost use Rattle.proc_goal.specs.WellFormed.{IsProc};
ghost use Rattle.proc_link.specs.Blocks as blocks;
ghost use Rattle.proc_link.specs.Follows.{AreListings, FollowBlocks};
ghost use Rattle.proc_link.specs.Linked as format;
ghost use Rattle.proc_link.specs.Linked.{all_instrs, led_from, linked, starts_of};
ghost use Rattle.proc_link.specs.Placed.{AreListingPlaces, CanBeLinked};
ghost use Rattle.register_assign.specs.Assigned.{HaveWords};
ghost use Rattle.register_assign.specs.Outcomes.{instrs_of};

use crate::laws::linked_words_follow_the_blocks;
use crate::links::Linked;
use crate::places::{Places, lay_out, place};
use alpha_encode::{Instr, encode, words_and_instructions};
use goal_meaning::goals_without_lets_are_expanded;
use items::{Items, NoMemory};
use proc_goal::{Block, Proc, Target, goals_of_procs_are_well_formed};
use register_assign::{Item, Listing};
use std::alloc::Global;

/// A branch's displacement counts from the word behind it.
fn displacement(from: u32, to: u32) -> i32
    requires from { from < 2 ^ 20 }
    requires to { to < 2 ^ 20 }
    ensures { result ≡ format.displacement_between from to }
{
    to as i32 - (from as i32 + 1)
}

/// The instruction, where a branch that stands at a place leads to another place.
fn led(instr: Instr, from: u32, to: u32) -> Instr
    requires from { from < 2 ^ 20 }
    requires to { to < 2 ^ 20 }
    ensures { result ≡ format.led (format.displacement_between from to) instr }
{
    match instr {
        Instr::Beq { ra, .. } => Instr::Beq {
            ra,
            disp: displacement(from, to),
        },
        other => other,
    }
}

/// Where a block leads to when its guard is 0.
fn other(block: &Block) -> Target
    ensures { result ≡ blocks.other_of (block_view block.now) }
{
    match &block.when {
        Some(when) => when.other,
        None => block.go,
    }
}

/// The word of an instruction that stands at a place, where a branch leads to another place.
fn led_word(instr: Instr, from: u32, to: u32) -> u32
    requires word { IsWellFormed instr }
    requires from { from < 2 ^ 20 }
    requires to { to < 2 ^ 20 }
    ensures { result ≡ encoded (format.led (format.displacement_between from to) instr) }
{
    encode(led(instr, from, to))
}

/// Appends the words of a listing whose first word stands at a place, with its branch to another place.
fn put_listing(words: &mut Vec<u32>, from: u32, to: u32, items: &[Item]) -> Result<(), NoMemory>
    requires words { HaveWords items.now }
    requires from { from + length items.now < 2 ^ 20 }
    requires to { to < 2 ^ 20 }
    ensures { OnOk result (words.new.items ≡ words.old.items ++ map encoded (led_from from to (instrs_of items.now))) }
{
    for (at, item) in items.iter().enumerate() {
        words.push(led_word(item.instr, from + at as u32, to))?;
    }
    Ok(())
}

/// Appends the words of one block, of which the first stands at a place: its listing, with its branch to `other`, and a
/// branch to `go` that is always taken.
fn put_block(
    words: &mut Vec<u32>,
    from: u32,
    other: u32,
    go: u32,
    items: &[Item],
) -> Result<(), NoMemory>
    requires words { HaveWords items.now }
    requires from { from + length items.now < 2 ^ 20 }
    requires other { other < 2 ^ 20 }
    requires go { go < 2 ^ 20 }
    ensures { OnOk result (words.new.items ≡ words.old.items ++ map encoded (led_from from other (instrs_of items.now)
        ++ instructions.Beq 31 (format.displacement_between (from + length items.now) go) ∷ [])) }
{
    put_listing(words, from, other, items)?;
    let at = from + items.len() as u32;
    let closing = Instr::Beq { ra: 31, disp: 0 };
    words.push(led_word(closing, at, go))?;
    Ok(())
}

/// Appends the words of each block, of which each has its listing and its places.
fn put_blocks(
    words: &mut Vec<u32>,
    blocks: &[Block],
    listings: &[Listing],
    places: &Places,
) -> Result<(), NoMemory>
    requires can { CanBeLinked (map block_view blocks.now) listings.now }
    requires places { AreListingPlaces (all_instrs listings.now) places.now }
    ensures { OnOk result (words.new.items ≡ words.old.items
        ++ map encoded (linked (map block_view blocks.now) (all_instrs listings.now))) }
{
    for (at, block) in blocks.iter().enumerate() {
        let from = place(places, Target::Block(at as u32));
        let to = place(places, other(block));
        let go = place(places, block.go);
        put_block(words, from, to, go, listings[at].items.as_slice())?;
    }
    Ok(())
}

/// The blocks' words in one list: each block's listing, whose branch leads to where the block goes when its guard is 0,
/// and a branch to where it goes else. Its cost is linear in the number of words.
pub fn link(alloc: Global, proc: &Proc, listings: &[Listing]) -> Result<Linked, NoMemory>
    requires proc { IsProc (proc_view proc.now) }
    requires listings { AreListings (proc_view proc.now) listings.now }
    ensures words { IfOk result (λ l. l.words
        ≡ map encoded (linked (proc_view proc.now).blocks (all_instrs listings.now))) }
    ensures decode { IfOk result (λ l. map decoded l.words
        ≡ map Some (linked (proc_view proc.now).blocks (all_instrs listings.now))) }
    ensures starts { IfOk result (λ l. l.starts ≡ starts_of (all_instrs listings.now)) }

    // From any registers and memory, n steps of the block machine are at most 193 n steps of the words, which leave all
    // registers alone but the variables' and those of the pool.
    ensures follow { IfOk result (λ l. FollowBlocks (proc_view proc.now) l.words l.starts) }
{
    words_and_instructions();
    linked_words_follow_the_blocks();
    goals_of_procs_are_well_formed();
    goals_without_lets_are_expanded();
    let places = lay_out(alloc, listings)?;
    let mut words = Vec::new(alloc);
    put_blocks(&mut words, proc.blocks.as_slice(), listings, &places)?;
    Ok(Linked {
        words: Items::from(words),
        starts: places.starts,
    })
}

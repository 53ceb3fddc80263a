// The lines of linked words.
ghost use Rattle.std.specs.Prelude.{◌≡◌, ◌++◌, OnOk, length, map};
ghost use Rattle.proc_goal.specs.Views.{block_view, proc_view};
ghost use Rattle.proc_link.specs.LinkedLines as format;
ghost use Rattle.text_core.specs.LineTexts.{lines_text};

use crate::links::Linked;
use answer_texts::put_codes;
use items::NoMemory;
use proc_goal::{Block, Proc};
use std::alloc::Global;
use text_core::{put, put_number, put_numbered, put_word};

/// The line `block NAME START` of each block, in order.
fn put_starts(text: &mut Vec<u8>, blocks: &[Block], starts: &[u32]) -> Result<(), NoMemory>
    requires { length starts.now ≡ length blocks.now }
    ensures { OnOk result (text.new.items
        ≡ text.old.items ++ lines_text (format.block_lines (map block_view blocks.now) starts.now)) }
{
    for (at, block) in blocks.iter().enumerate() {
        put(text, b"block")?;
        put_word(text, block.name.bytes())?;
        put_number(text, u64::from(starts[at]))?;
        put(text, b"\n")?;
    }
    Ok(())
}

/// Appends the words of a proc, and where its blocks start.
pub(crate) fn put_linked(
    alloc: Global,
    text: &mut Vec<u8>,
    proc: &Proc,
    linked: &Linked,
) -> Result<(), NoMemory>
    requires { length linked.now.starts ≡ length proc.now.blocks }
    ensures { OnOk result (text.new.items
        ≡ text.old.items ++ lines_text (format.linked_lines (proc_view proc.now) linked.now.words linked.now.starts)) }
{
    put_numbered(text, b"linked", linked.words.len() as u64)?;
    put_codes(alloc, text, linked.words.as_slice())?;
    put_starts(text, proc.blocks.as_slice(), linked.starts.as_slice())
}

// The lines of a schedule: its launches, its words, and the places of the targets.
ghost use Rattle.std.specs.Prelude.{◌≡◌, ◌++◌, OnOk, IfSome, map, option_copied};
ghost use Rattle.alpha_encode.specs.Formats.{IsWellFormed};
ghost use Rattle.launch_graph.specs.GraphLines.{pin_words};
ghost use Rattle.launch_graph.specs.LineParts.{words_behind};
ghost use Rattle.text_core.specs.LineTexts.{line_text, lines_text};
ghost use Rattle.answer_texts.specs.AnswerLines as format;

use crate::hexadecimal::put_hex;
use alpha_encode::{Instr, decode};
use graph_meaning::LaunchGraph;
use items::NoMemory;
use machine_table::{Slot, Table};
use register_assign::Where;
use schedule_meaning::{Launch, pin_of};
use std::alloc::Global;
use text_core::{put, put_number, put_word};

/// The name of a slot, and nothing for one that isn't there.
pub(crate) fn name_among(slots: &[Slot], slot: u32) -> &[u8]
    ensures { result.now ≡ format.name_among slots.now slot }
{
    match slots.get(slot as usize) {
        Some(slot) => slot.name.bytes(),
        None => b"",
    }
}

#[tactic(auto, using(crate::proofs::PrintPieces::launch_text))]
fn put_launch(
    text: &mut Vec<u8>,
    table: &Table,
    graph: &LaunchGraph,
    launch: Launch,
) -> Result<(), NoMemory>
    ensures { OnOk result
        (text.new.items ≡ text.old.items ++ line_text (format.launch_words table.now graph.now launch)) }
{
    put(text, b"launch")?;
    put_number(text, u64::from(launch.cycle))?;
    put_word(text, name_among(table.slots.as_slice(), launch.slot))?;
    put_number(text, u64::from(launch.row))?;
    if let Some(register) = pin_of(graph, launch.to) {
        put_number(text, u64::from(register))?;
    }
    put(text, b"\n")
}

/// The launches of a schedule of the graph, and nothing where there is no graph.
#[tactic(auto, using(crate::proofs::PrintPieces::line_more))]
pub(crate) fn put_launches(
    text: &mut Vec<u8>,
    table: &Table,
    graph: Option<&LaunchGraph>,
    launches: &[Launch],
) -> Result<(), NoMemory>
    ensures { OnOk result (text.new.items
        ≡ text.old.items ++ lines_text (format.launches_part table.now (option_copied graph.entry) launches.now)) }
{
    if let Some(graph) = graph {
        for launch in launches {
            put_launch(text, table, graph, *launch)?;
        }
    }
    Ok(())
}

/// The text of an instruction with a space before it, and nothing for a word that is none.
#[tactic(auto, using(crate::proofs::PrintPieces::instr_behind))]
fn put_instr(alloc: Global, text: &mut Vec<u8>, instr: Option<Instr>) -> Result<(), NoMemory>
    requires { IfSome instr IsWellFormed }
    ensures { OnOk result (text.new.items ≡ text.old.items ++ words_behind (format.text_words instr)) }
{
    if let Some(instr) = instr {
        put_word(text, &alpha_encode::text(alloc, instr)?)?;
    }
    Ok(())
}

/// The line of a word: its number, and the text of the instruction that it is.
#[tactic(auto, using(crate::proofs::PrintPieces::word_text))]
fn put_code(alloc: Global, text: &mut Vec<u8>, word: u32) -> Result<(), NoMemory>
    ensures { OnOk result (text.new.items ≡ text.old.items ++ line_text (format.word_words word)) }
{
    put(text, b"word ")?;
    put_hex(text, word)?;
    put_instr(alloc, text, decode(word))?;
    put(text, b"\n")
}

/// Appends the lines of words, each its number and the text of the instruction that it is.
#[tactic(auto, using(crate::proofs::PrintPieces::line_more))]
pub fn put_codes(alloc: Global, text: &mut Vec<u8>, words: &[u32]) -> Result<(), NoMemory>
    ensures { OnOk result (text.new.items ≡ text.old.items ++ lines_text (map format.word_words words.now)) }
{
    for word in words {
        put_code(alloc, text, *word)?;
    }
    Ok(())
}

#[tactic(auto, using(crate::proofs::PrintPieces::line_more))]
pub(crate) fn put_wheres(text: &mut Vec<u8>, wheres: &[Where]) -> Result<(), NoMemory>
    ensures { OnOk result (text.new.items ≡ text.old.items ++ lines_text (map format.where_words wheres.now)) }
{
    for place in wheres {
        put(text, b"where")?;
        put_word(text, place.name.bytes())?;
        put_number(text, u64::from(place.reg))?;
        put(text, b"\n")?;
    }
    Ok(())
}

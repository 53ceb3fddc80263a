// The lines of a table.
ghost use Rattle.std.specs.Prelude.{◌≡◌, ◌++◌, OnOk, map};
ghost use Rattle.launch_graph.specs.LineParts.{words_behind};
ghost use Rattle.text_core.specs.LineTexts.{line_text, lines_text};
ghost use Rattle.answer_texts.specs.AnswerLines as format;

use crate::line_printing::put_pair;
use crate::schedule_printing::name_among;
use items::NoMemory;
use machine_table::{Slot, Table, Use, instr_name};
use text_core::{put, put_number, put_numbered, put_word};

#[tactic(auto, using(crate::proofs::PrintPieces::line_more))]
fn put_slots(text: &mut Vec<u8>, slots: &[Slot]) -> Result<(), NoMemory>
    ensures { OnOk result (text.new.items ≡ text.old.items ++ lines_text (map format.slot_words slots.now)) }
{
    for slot in slots {
        put(text, b"slot")?;
        put_word(text, slot.name.bytes())?;
        put_number(text, u64::from(slot.cluster))?;
        put(text, b"\n")?;
    }
    Ok(())
}

/// The names of slots, each with a space before it.
#[tactic(auto, using(crate::proofs::PrintPieces::word_more))]
fn put_slot_names(text: &mut Vec<u8>, slots: &[Slot], used: &[u32]) -> Result<(), NoMemory>
    ensures { OnOk result
        (text.new.items ≡ text.old.items ++ words_behind (map (format.name_among slots.now) used.now)) }
{
    for slot in used {
        put_word(text, name_among(slots, *slot))?;
    }
    Ok(())
}

#[tactic(auto, using(crate::proofs::PrintPieces::inst_text))]
fn put_inst(text: &mut Vec<u8>, slots: &[Slot], one: &Use) -> Result<(), NoMemory>
    ensures { OnOk result (text.new.items ≡ text.old.items ++ line_text (format.inst_words slots.now one.now)) }
{
    put(text, b"inst")?;
    put_word(text, instr_name(one.instr))?;
    put_number(text, u64::from(one.latency))?;
    put_slot_names(text, slots, one.slots.as_slice())?;
    put(text, b"\n")
}

#[tactic(auto, using(crate::proofs::PrintPieces::line_more))]
fn put_insts(text: &mut Vec<u8>, slots: &[Slot], uses: &[Use]) -> Result<(), NoMemory>
    ensures { OnOk result
        (text.new.items ≡ text.old.items ++ lines_text (map (format.inst_words slots.now) uses.now)) }
{
    for one in uses {
        put_inst(text, slots, one)?;
    }
    Ok(())
}

/// The table of the Alpha 21264 is told by its name, one of the text's own by its slots, its delay between clusters and
/// its instructions.
#[tactic(auto, using(crate::proofs::PrintPieces::own_text))]
pub(crate) fn put_table(text: &mut Vec<u8>, table: &Table, builtin: bool) -> Result<(), NoMemory>
    ensures { OnOk result (text.new.items ≡ text.old.items ++ lines_text (format.table_lines table.now builtin)) }
{
    if builtin {
        return put_pair(text, b"table", b"ev6");
    }
    put_pair(text, b"table", b"own")?;
    put_slots(text, table.slots.as_slice())?;
    put_numbered(text, b"cross", u64::from(table.cross))?;
    put_insts(text, table.slots.as_slice(), table.uses.as_slice())
}

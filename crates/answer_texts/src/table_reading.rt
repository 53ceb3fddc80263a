// The table of an answer: the built-in one, or one of its own.
ghost use Rattle.std.specs.Prelude.{◌≡◌, ◌<◌, ◌≤◌, ◌+◌, ◌++◌, ◌∷◌, [], ◌↔◌, ℕ, List, length, take, IfOk, IfErr, IfSome, IfNone, IsTrue, MatchOption, All, AllPairs, drop, map, ◌≢◌, OnOk, ◌^◌};
ghost use Rattle.text_core.specs.Faults.{IsFaultBy};
ghost use Rattle.text_core.specs.Lines.{line_at};
ghost use Rattle.machine_table.specs.InstrOrder.{kind_number};
ghost use Rattle.machine_table.specs.Reading.{AreSlotNumbers};
ghost use Rattle.machine_table.specs.declared.tables.Slot.{Slot as SlotOf};
ghost use Rattle.machine_table.specs.declared.tables.Use.{Use as UseOf};
ghost use Rattle.answer_texts.specs.AnswerLines.{slot_words, inst_words, name_among};
ghost use Rattle.answer_texts.specs.AnswerParts.{AreNamedSlots, AreTableUses, OwnFault, OwnPart, SlotsFault, SlotsPart, TableFault, TablePart, UsesFault, UsesPart, IsCross, IsTableLine};
ghost use Rattle.answer_texts.specs.LineParts.{IsOneLine, IsNoLine};

use crate::line_reading::{bad_line, below, cross_line, table_line};
use crate::parts::TableLine;
use items::{Items, NoMemory};
use machine_table::{InstrKind, Slot, Table, Use, ev6, instr_number, instr_of};
use std::alloc::Global;
use text_core::{Name, TextFault, TextLines, begins_with, is_name, same};

/// The most slots of a table.
const MOST_SLOTS: usize = 8;

/// The place of the first slot of this name.
pub(crate) fn slot_named(slots: &[Slot], name: &[u8]) -> Option<usize>
    ensures some { IfSome result (λ at. (at < length slots.now) × (name_among slots.now at ≡ name.now)) }
    ensures first { IfSome result (λ at. All (λ (s : SlotOf). s.name ≡ name.now → ⊥) (take at slots.now)) }
    ensures none { IfNone result (All (λ (s : SlotOf). s.name ≡ name.now → ⊥) slots.now) }
{
    slots.iter().position(|slot| same(slot.name.bytes(), name))
}

/// The slot of a line, where it may stand behind these.
fn slot_line(
    alloc: Global,
    text: &TextLines<'_>,
    line: u32,
    before: &[Slot],
) -> Result<Option<Slot>, NoMemory>
    requires line { line < length text.now }
    requires before { AreNamedSlots before.now }
    ensures { IfOk result (λ found. MatchOption found
        ((s : SlotOf) → (line_at text.now line).words ≡ slot_words s → AreNamedSlots (before.now ++ s ∷ []) → ⊥)
        (λ s. ((line_at text.now line).words ≡ slot_words s) × AreNamedSlots (before.now ++ s ∷ []))) }
{
    if text.words(line) != 3 || before.len() == MOST_SLOTS || !begins_with(text, line, b"slot") {
        return Ok(None);
    }
    let name = text.word(line, 1);
    if !is_name(name) || slot_named(before, name).is_some() {
        return Ok(None);
    }
    let Some(cluster) = below(text.word(line, 2), 4) else {
        return Ok(None);
    };
    Ok(Some(Slot {
        name: Name::new(alloc, name)?,
        cluster: cluster as u8,
    }))
}

/// The slots from a line on, and the line behind them.
fn read_slots(
    alloc: Global,
    text: &TextLines<'_>,
    from: u32,
) -> Result<(Items<Slot>, u32), TextFault>
    requires { from ≤ length text.now }
    ensures ok { IfOk result (λ p. SlotsPart text.now from p.1 p.0) }
    ensures fault { IfErr result (IsFaultBy (SlotsFault text.now from)) }
{
    let mut slots = Items::new(alloc);
    for line in from..text.count() {
        if !begins_with(text, line, b"slot") {
            return Ok((slots, line));
        }
        match slot_line(alloc, text, line, slots.as_slice())? {
            Some(slot) => slots.push(slot)?,
            None => return Err(bad_line(text, line)),
        }
    }
    Ok((slots, text.count()))
}

/// The delay between clusters, at a line behind these slots.
fn read_cross(text: &TextLines<'_>, from: u32, slots: &[Slot]) -> Result<u32, TextFault>
    requires { from ≤ length text.now }
    ensures ok { IfOk result (IsOneLine (IsCross slots.now) text.now from (from + 1)) }
    ensures fault { IfErr result (IsFaultBy (IsNoLine (IsCross slots.now) text.now from)) }
    ensures few { OnOk result (length text.now < 2 ^ 29) }
{
    if from == text.count() {
        return Err(bad_line(text, from));
    }
    match cross_line(text, from, slots) {
        Some(cross) => Ok(cross),
        None => Err(bad_line(text, from)),
    }
}

/// The places of the slots whose names stand behind the first three words of a line, each once.
fn slots_named(
    alloc: Global,
    text: &TextLines<'_>,
    line: u32,
    slots: &[Slot],
) -> Result<Option<Items<u32>>, NoMemory>
    requires line { line < length text.now }
    requires few { length slots.now ≤ 8 }
    requires names { AllPairs (λ (s r : SlotOf). s.name ≢ r.name) slots.now }
    ensures { IfOk result (λ found. MatchOption found
        ((used : List ℕ) → drop 3 (line_at text.now line).words ≡ map (name_among slots.now) used
        → AreSlotNumbers slots.now used → ⊥)
        (λ used. (drop 3 (line_at text.now line).words ≡ map (name_among slots.now) used)
        × AreSlotNumbers slots.now used)) }
{
    let mut named = Items::new(alloc);
    for at in 3..text.words(line) {
        let Some(slot) = slot_named(slots, text.word(line, at)) else {
            return Ok(None);
        };
        let slot = slot as u32;
        if named.as_slice().contains(&slot) {
            return Ok(None);
        }
        named.push(slot)?;
    }
    Ok(Some(named))
}

/// Whether an instruction comes behind each of these, which are in the order of their numbers.
fn comes_behind(before: &[Use], instr: InstrKind) -> bool
    requires { AllPairs (λ (u v : UseOf). kind_number u.instr < kind_number v.instr) before.now }
    ensures { IsTrue result ↔ All (λ (u : UseOf). kind_number u.instr < kind_number instr) before.now }
{
    match before.last() {
        Some(last) => instr_number(last.instr) < instr_number(instr),
        None => true,
    }
}

/// The instruction of a line, where it may stand behind these.
fn inst_line(
    alloc: Global,
    text: &TextLines<'_>,
    line: u32,
    slots: &[Slot],
    cross: u32,
    before: &[Use],
) -> Result<Option<Use>, NoMemory>
    requires line { line < length text.now }
    requires before { AreTableUses slots.now cross before.now }
    ensures { IfOk result (λ found. MatchOption found
        ((u : UseOf) → (line_at text.now line).words ≡ inst_words slots.now u
        → AreTableUses slots.now cross (before.now ++ u ∷ []) → ⊥)
        (λ u. ((line_at text.now line).words ≡ inst_words slots.now u)
        × AreTableUses slots.now cross (before.now ++ u ∷ []))) }
{
    if text.words(line) < 4 || !begins_with(text, line, b"inst") {
        return Ok(None);
    }
    let Some(instr) = instr_of(text.word(line, 1)) else {
        return Ok(None);
    };
    if !comes_behind(before, instr) {
        return Ok(None);
    }
    let Some(latency) = below(text.word(line, 2), 17) else {
        return Ok(None);
    };
    if latency == 0 {
        return Ok(None);
    }
    let Some(named) = slots_named(alloc, text, line, slots)? else {
        return Ok(None);
    };
    Ok(Some(Use {
        instr,
        latency: latency as u32,
        slots: named,
    }))
}

/// The instructions from a line on, and the line behind them.
fn read_uses(
    alloc: Global,
    text: &TextLines<'_>,
    from: u32,
    slots: &[Slot],
    cross: u32,
) -> Result<(Items<Use>, u32), TextFault>
    requires from { from ≤ length text.now }
    requires none { AreTableUses slots.now cross [] }
    ensures ok { IfOk result (λ p. UsesPart text.now slots.now cross from p.1 p.0) }
    ensures fault { IfErr result (IsFaultBy (UsesFault text.now slots.now cross from)) }
{
    let mut uses = Items::new(alloc);
    for line in from..text.count() {
        if !begins_with(text, line, b"inst") {
            return Ok((uses, line));
        }
        match inst_line(alloc, text, line, slots, cross, uses.as_slice())? {
            Some(one) => uses.push(one)?,
            None => return Err(bad_line(text, line)),
        }
    }
    Ok((uses, text.count()))
}

/// A table of the text's own from the line behind `table own` on, and the line behind it.
fn read_own(alloc: Global, text: &TextLines<'_>, from: u32) -> Result<(Table, u32), TextFault>
    requires { from ≤ length text.now }
    ensures ok { IfOk result (λ p. OwnPart text.now from p.1 p.0) }
    ensures fault { IfErr result (IsFaultBy (OwnFault text.now from)) }
{
    let (slots, middle) = read_slots(alloc, text, from)?;
    let cross = read_cross(text, middle, slots.as_slice())?;
    let (uses, next) = read_uses(alloc, text, middle + 1, slots.as_slice(), cross)?;
    Ok((Table { slots, cross, uses }, next))
}

/// The first line of a table.
fn read_table_line(text: &TextLines<'_>, from: u32) -> Result<TableLine, TextFault>
    requires { from ≤ length text.now }
    ensures ok { IfOk result (IsOneLine IsTableLine text.now from (from + 1)) }
    ensures fault { IfErr result (IsFaultBy (IsNoLine IsTableLine text.now from)) }
    ensures few { OnOk result (length text.now < 2 ^ 29) }
{
    if from == text.count() {
        return Err(bad_line(text, from));
    }
    match table_line(text, from) {
        Some(first) => Ok(first),
        None => Err(bad_line(text, from)),
    }
}

/// The table from a line on, whether it is the built-in one, and the line behind it.
pub(crate) fn read_table(
    alloc: Global,
    text: &TextLines<'_>,
    from: u32,
) -> Result<(Table, bool, u32), TextFault>
    requires { from ≤ length text.now }
    ensures ok { IfOk result (λ p. TablePart text.now from p.2 (p.0, p.1)) }
    ensures fault { IfErr result (IsFaultBy (TableFault text.now from)) }
{
    match read_table_line(text, from)? {
        TableLine::BuiltIn => Ok((ev6(alloc)?, true, from + 1)),
        TableLine::Own => {
            let (table, next) = read_own(alloc, text, from + 1)?;
            Ok((table, false, next))
        }
    }
}

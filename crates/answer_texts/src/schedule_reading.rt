// The lines of a schedule: its launches, its words, and the places of the targets.
ghost use Rattle.std.specs.Prelude.{◌≡◌, ◌≤◌, ◌<◌, ◌∷◌, ◌^◌, ◌↔◌, ℕ, [], length, All, IfOk, IfErr, IfNone, IfSome, IsTrue, MatchOption, Some, drop, option_and_then, slice_get, take};
ghost use Rattle.text_core.specs.Faults.{IsFaultBy};
ghost use Rattle.text_core.specs.Lines.{line_at};
ghost use Rattle.graph_meaning.specs.declared.graphs.SetClass.{SetClass as SetOf};
ghost use Rattle.launch_graph.specs.GraphLines.{pin_words};
ghost use Rattle.register_assign.specs.declared.listings.Where.{Where as WhereOf};
ghost use Rattle.schedule_meaning.specs.Launches.{pin_of};
ghost use Rattle.schedule_meaning.specs.declared.schedules.Launch.{Launch as LaunchOf};
ghost use Rattle.schedule_meaning.specs.declared.schedules.To.{To as ToOf};
ghost use Rattle.schedule_meaning.specs.declared.schedules.To.TheVariants.{Set as SetTo};
ghost use Rattle.answer_texts.specs.AnswerLines.{launch_words, name_among, where_words};
ghost use Rattle.answer_texts.specs.AnswerParts.{AreLaunches, AreWherePlaces, CodesFault, CodesPart, IsDestination, LaunchesFault, LaunchesPart, PlacesFault, PlacesPart};

use crate::line_reading::{LIMIT, bad_line, below};
use crate::table_reading::slot_named;
use crate::word_lines::word_line;
use graph_meaning::{LaunchGraph, SetClass};
use items::{Items, NoMemory};
use machine_table::{Slot, Table};
use register_assign::Where;
use schedule_meaning::{Launch, To};
use std::alloc::Global;
use text_core::{Name, TextFault, TextLines, begins_with, has_form, is_name};

/// The number of the first slot of this name, where it is below the limit of numbers.
fn slot_number(slots: &[Slot], name: &[u8]) -> Option<u32>
    ensures some { IfSome result (λ at. (at < length slots.now) × (at < 2 ^ 31) × (name_among slots.now at ≡ name.now)) }
    ensures none { IfNone result ((at : ℕ) → at < length slots.now → at < 2 ^ 31 → name_among slots.now at ≡ name.now → ⊥) }
{
    let at = slot_named(slots, name)? as u64;
    if at < LIMIT { Some(at as u32) } else { None }
}

/// The number of the first set that is pinned to the register, where it is below the limit of numbers.
fn set_number(graph: &LaunchGraph, register: u8) -> Option<u32>
    ensures some { IfSome result (λ at. (at < 2 ^ 31) × (pin_of graph.now (SetTo at) ≡ Some register)) }
    ensures none { IfNone result ((at : ℕ) → at < 2 ^ 31 → pin_of graph.now (SetTo at) ≡ Some register → ⊥) }
{
    let sets = graph.sets.as_slice();
    let at = sets.iter().position(|set| set.pin == Some(register))? as u64;
    if at < LIMIT { Some(at as u32) } else { None }
}

/// Where the launch of a line goes: to the pool where the line ends behind the row, and else to the set that is pinned
/// to the register behind it.
fn destination(text: &TextLines<'_>, line: u32, graph: &LaunchGraph) -> Option<To>
    requires line { line < length text.now }
    requires long { 4 ≤ length (line_at text.now line).words }
    ensures { MatchOption result
        ((to : ToOf) → drop 4 (line_at text.now line).words ≡ pin_words (pin_of graph.now to)
        → IsDestination graph.now to → ⊥)
        (λ to. (drop 4 (line_at text.now line).words ≡ pin_words (pin_of graph.now to)) × IsDestination graph.now to) }
{
    if text.words(line) == 4 {
        return Some(To::Pool);
    }
    if text.words(line) != 5 {
        return None;
    }
    let register = below(text.word(line, 4), 31)?;
    match set_number(graph, register as u8) {
        Some(set) => Some(To::Set(set)),
        None => None,
    }
}

/// The launch of a line. Where it tells a register, that is the pin of a set of the graph, and the launch goes there.
fn launch_line(
    text: &TextLines<'_>,
    line: u32,
    table: &Table,
    graph: &LaunchGraph,
) -> Option<Launch>
    requires { line < length text.now }
    ensures { MatchOption result
        ((l : LaunchOf) → (line_at text.now line).words ≡ launch_words table.now graph.now l
        → AreLaunches table.now graph.now (l ∷ []) → ⊥)
        (λ l. ((line_at text.now line).words ≡ launch_words table.now graph.now l)
        × AreLaunches table.now graph.now (l ∷ [])) }
{
    if text.words(line) < 4 || !begins_with(text, line, b"launch") {
        return None;
    }
    let cycle = below(text.word(line, 1), LIMIT)?;
    let slot = slot_number(table.slots.as_slice(), text.word(line, 2))?;
    let row = below(text.word(line, 3), LIMIT)?;
    let to = destination(text, line, graph)?;
    Some(Launch {
        cycle: cycle as u32,
        slot,
        row: row as u32,
        to,
    })
}

/// The launches of the graph from a line on, and the line behind them.
pub(crate) fn read_launches(
    alloc: Global,
    text: &TextLines<'_>,
    table: &Table,
    graph: &LaunchGraph,
    from: u32,
) -> Result<(Items<Launch>, u32), TextFault>
    requires { from ≤ length text.now }
    ensures ok { IfOk result (λ p. LaunchesPart text.now table.now graph.now from p.1 p.0) }
    ensures fault { IfErr result (IsFaultBy (LaunchesFault text.now table.now graph.now from)) }
{
    let mut launches = Items::new(alloc);
    for line in from..text.count() {
        if !begins_with(text, line, b"launch") {
            return Ok((launches, line));
        }
        match launch_line(text, line, table, graph) {
            Some(launch) => launches.push(launch)?,
            None => return Err(bad_line(text, line)),
        }
    }
    Ok((launches, text.count()))
}

/// The words of the machine from a line on, and the line behind them.
pub(crate) fn read_codes(
    alloc: Global,
    text: &TextLines<'_>,
    from: u32,
) -> Result<(Items<u32>, u32), TextFault>
    requires { from ≤ length text.now }
    ensures ok { IfOk result (λ p. CodesPart text.now from p.1 p.0) }
    ensures fault { IfErr result (IsFaultBy (CodesFault text.now from)) }
{
    let mut words = Items::new(alloc);
    for line in from..text.count() {
        if !begins_with(text, line, b"word") {
            return Ok((words, line));
        }
        match word_line(alloc, text, line)? {
            Some(word) => words.push(word)?,
            None => return Err(bad_line(text, line)),
        }
    }
    Ok((words, text.count()))
}

/// The place of a target.
fn where_line(alloc: Global, text: &TextLines<'_>, line: u32) -> Result<Option<Where>, NoMemory>
    requires { line < length text.now }
    ensures { IfOk result (λ found. MatchOption found
        ((w : WhereOf) → (line_at text.now line).words ≡ where_words w → AreWherePlaces (w ∷ []) → ⊥)
        (λ w. ((line_at text.now line).words ≡ where_words w) × AreWherePlaces (w ∷ []))) }
{
    if !has_form(text, line, b"where", 3) {
        return Ok(None);
    }
    let name = text.word(line, 1);
    if !is_name(name) {
        return Ok(None);
    }
    let Some(register) = below(text.word(line, 2), 32) else {
        return Ok(None);
    };
    Ok(Some(Where {
        name: Name::new(alloc, name)?,
        reg: register as u8,
    }))
}

/// The places of targets from a line on, and the line behind them.
pub(crate) fn read_places(
    alloc: Global,
    text: &TextLines<'_>,
    from: u32,
) -> Result<(Items<Where>, u32), TextFault>
    requires { from ≤ length text.now }
    ensures ok { IfOk result (λ p. PlacesPart text.now from p.1 p.0) }
    ensures fault { IfErr result (IsFaultBy (PlacesFault text.now from)) }
{
    let mut places = Items::new(alloc);
    for line in from..text.count() {
        if !begins_with(text, line, b"where") {
            return Ok((places, line));
        }
        match where_line(alloc, text, line)? {
            Some(place) => places.push(place)?,
            None => return Err(bad_line(text, line)),
        }
    }
    Ok((places, text.count()))
}

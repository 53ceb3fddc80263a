// Whether each target is where it is wanted at the end.
ghost use Rattle.std.specs.Prelude.{◌≡◌, ◌↔◌, IsTrue, IfSome, count_by, slice_get};
ghost use Rattle.schedule_meaning.specs.Launches as launches;
ghost use Rattle.schedule_meaning.specs.Fits as rules;

use crate::operands::is_zero_class;
use crate::readers::{has_input, is_given};
use crate::schedules::{Launch, To};
use graph_meaning::{InputClass, LaunchGraph, SetClass};
use machine_table::Table;

fn goes_to(number: usize, launch: Launch) -> bool
    ensures { result ≡ launches.goes_to number launch }
{
    match launch.to {
        To::Pool => false,
        To::Set(set) => set as usize == number,
    }
}

/// How many launches go to the set of this number.
fn launches_to(list: &[Launch], number: usize) -> usize
    ensures { result ≡ count_by (launches.goes_to number) list.now }
{
    let mut count = 0;
    for launch in list {
        if goes_to(number, *launch) {
            count += 1;
        }
    }
    count
}

fn is_input_in(input: &InputClass, class: u32, register: u8) -> bool
    ensures { IsTrue result ↔ ((input.now.class ≡ class) × (input.now.reg ≡ register)) }
{
    input.class == class && input.reg == register
}

/// Some input of the class is in the register at entry.
fn has_input_in(graph: &LaunchGraph, class: u32, register: u8) -> bool
    ensures { IsTrue result ↔ launches.HasInput graph.now class (λ r. r ≡ register) }
{
    for input in graph.inputs.as_slice() {
        if is_input_in(input, class, register) {
            return true;
        }
    }
    false
}

/// The pin holds the class's word at the end, where so many launches go to its set.
fn is_in_its_pin(graph: &LaunchGraph, launched: usize, class: u32, pin: u8) -> bool
    ensures { IsTrue result ↔ rules.IsInItsPin graph.now launched class pin }
{
    launched == 1 || (launched == 0 && has_input_in(graph, class, pin))
}

fn is_in_some_register(graph: &LaunchGraph, table: &Table, list: &[Launch], class: u32) -> bool
    ensures { IsTrue result ↔ rules.IsInSomeRegister graph.now list.now class }
{
    if has_input(graph, list, None, class) {
        return true;
    }
    if is_zero_class(graph, class) {
        return true;
    }
    is_given(graph, table, list, None, class)
}

fn is_reached(
    graph: &LaunchGraph,
    table: &Table,
    list: &[Launch],
    number: usize,
    set: &SetClass,
) -> bool
    ensures { IsTrue result ↔ rules.IsReached graph.now list.now number set.now }
{
    if set.is_memory() {
        return true;
    }
    match set.pin {
        Some(pin) => is_in_its_pin(graph, launches_to(list, number), set.class, pin),
        None => is_in_some_register(graph, table, list, set.class),
    }
}

fn is_reached_at(graph: &LaunchGraph, table: &Table, list: &[Launch], number: usize) -> bool
    ensures { IsTrue result ↔ IfSome (slice_get graph.now.sets number) (rules.IsReached graph.now list.now number) }
{
    match graph.sets.as_slice().get(number) {
        Some(set) => is_reached(graph, table, list, number, set),
        None => true,
    }
}

pub(crate) fn are_reached(graph: &LaunchGraph, table: &Table, list: &[Launch]) -> bool
    ensures { IsTrue result ↔ rules.AreReached graph.now list.now }
{
    for number in 0..graph.sets.len() {
        if !is_reached_at(graph, table, list, number) {
            return false;
        }
    }
    true
}

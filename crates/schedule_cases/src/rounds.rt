// Rounds of matching over goals, and goals that are made from a number.
ghost use Rattle.std.specs.Prelude.{◌<◌, ◌≤◌, ◌^◌, Contains, length};
ghost use Rattle.goal_meaning.specs.Views.{goal_view, input_view};
ghost use Rattle.goal_meaning.specs.WellFormed.{IsInput};

use axiom_library::Library;
use case_files::{Trouble, Words, faulty, put, put_number, put_numbers, split_line};
use case_inputs::library_in;
use goal_reader::{Goal, Input, read, read_inputs_are_well_formed};
use graph_meaning::{LaunchGraph, Stop};
use items::NoMemory;
use launch_graph::print;
use saturation::{
    SaturateFault, Saturated, StartFault, grown_graphs_can_be_launched, rules, saturate, start,
    to_launch,
};
use std::alloc::Global;
use text_core::TextFault;

/// Why a text gives no graph.
#[derive(Clone, Copy)]
enum Refused {
    Text(TextFault),
    Clash(u64, u64),
    Memory,
}

impl From<TextFault> for Refused {
    fn from(fault: TextFault) -> Refused {
        Refused::Text(fault)
    }
}

impl From<NoMemory> for Refused {
    fn from(_: NoMemory) -> Refused {
        Refused::Memory
    }
}

impl From<StartFault> for Refused {
    fn from(fault: StartFault) -> Refused {
        match fault {
            StartFault::NoWorld { a, b, .. } => Refused::Clash(a, b),
            StartFault::Memory => Refused::Memory,
        }
    }
}

impl From<SaturateFault> for Refused {
    fn from(fault: SaturateFault) -> Refused {
        match fault {
            SaturateFault::NoWorld { a, b, .. } => Refused::Clash(a, b),
            SaturateFault::Memory => Refused::Memory,
        }
    }
}

/// A goal of an input after rounds.
fn grown_goal(
    alloc: Global,
    input: &Input,
    goal: &Goal,
    rounds: u32,
    nodes: u32,
    library: Library,
) -> Result<Saturated, Refused>
    requires input { IsInput (input_view input.now) }
    requires goal { Contains (input_view input.now).goals (goal_view goal.now) }
    requires rounds { rounds ≤ 16 }
    requires nodes { nodes ≤ 4096 }
{
    let rules = rules(alloc, input, library)?;
    let graph = start(alloc, goal)?;
    Ok(saturate(alloc, graph, &rules, rounds, nodes)?)
}

/// The first goal of the text after rounds.
fn grown(
    alloc: Global,
    text: &[u8],
    rounds: u32,
    nodes: u32,
    library: Library,
) -> Result<Saturated, Refused>
    requires text { length text.now < 2 ^ 29 }
    requires rounds { rounds ≤ 16 }
    requires nodes { nodes ≤ 4096 }
{
    read_inputs_are_well_formed();
    let input = read(alloc, text)?;
    let Some(goal) = input.goals.as_slice().first() else {
        return Err(Refused::Memory);
    };
    grown_goal(alloc, &input, goal, rounds, nodes, library)
}

/// Input: a line `ROUNDS NODES FAMILY..` and a text. Answers with the rows, rounds and stop of its first goal's graph
/// after at most ROUNDS rounds and with the limit NODES on rows, with the rules of the families' library, or with the
/// two constants that met.
pub(crate) fn rounds(alloc: Global, input: &[u8]) -> Result<Vec<u8>, Trouble>
    requires { length input.now ≤ 2 ^ 24 }
{
    let (head, text) = split_line(input);
    let mut words = Words { rest: head };
    let (rounds, nodes) = (words.small()?, words.small()?);
    if rounds > 16 || nodes > 4096 {
        return Err(Trouble::Unread);
    }
    let library = library_in(&mut words)?;
    let mut report = Vec::new(alloc);
    match grown(alloc, text, rounds, nodes, library) {
        Ok(grown) => {
            put(&mut report, b"rows")?;
            put_number(&mut report, u64::from(grown.graph.rows()))?;
            put(&mut report, b" rounds")?;
            put_number(&mut report, u64::from(grown.rounds))?;
            let stop = match grown.stop {
                Stop::Quiet => b" quiet\n".as_slice(),
                Stop::Rounds => b" rounds\n".as_slice(),
                Stop::Full => b" full\n".as_slice(),
            };
            put(&mut report, stop)?;
        }
        Err(Refused::Clash(a, b)) => {
            put_numbers(&mut report, b"clash", &[a.min(b), a.max(b)])?;
        }
        Err(Refused::Text(fault)) => return faulty(alloc, fault),
        Err(Refused::Memory) => return Err(Trouble::Memory),
    }
    Ok(report)
}

/// The graph of a goal after no round.
fn first_graph(alloc: Global, input: &Input, goal: &Goal) -> Result<LaunchGraph, Refused>
    requires input { IsInput (input_view input.now) }
    requires goal { Contains (input_view input.now).goals (goal_view goal.now) }
{
    grown_graphs_can_be_launched();
    let none = Library::none();
    let rules = rules(alloc, input, none)?;
    let graph = start(alloc, goal)?;
    let grown = saturate(alloc, graph, &rules, 0, 512)?;
    Ok(to_launch(alloc, &grown, goal, input)?)
}

/// The lines of the first goal's graph after no round.
fn launch(alloc: Global, text: &[u8]) -> Result<Vec<u8>, Refused>
    requires text { length text.now < 2 ^ 29 }
{
    read_inputs_are_well_formed();
    let input = read(alloc, text)?;
    let Some(goal) = input.goals.as_slice().first() else {
        return Err(Refused::Memory);
    };
    let launched = first_graph(alloc, &input, goal)?;
    Ok(print(alloc, &launched)?)
}

/// The lines of the graph of a text's first goal after no round.
pub(crate) fn launched(alloc: Global, input: &[u8]) -> Result<Vec<u8>, Trouble>
    requires { length input.now ≤ 2 ^ 24 }
{
    launch(alloc, input).ok().ok_or(Trouble::Unread)
}

/// The text of the goal of so many operators.
pub(crate) fn generated(alloc: Global, input: &[u8]) -> Result<Vec<u8>, Trouble> {
    let size = Words { rest: input }.small()?;
    if size < 1 || 20 < size {
        return Err(Trouble::Unread);
    }
    let made: Input = generated_goals::generated(alloc, size)?;
    Ok(goal_reader::print(alloc, &made)?)
}

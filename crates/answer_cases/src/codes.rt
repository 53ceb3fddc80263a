// Codes that are checked against their goals.
ghost use Rattle.std.specs.Prelude.{◌<◌, ◌≤◌, ◌^◌, All, length};
ghost use Rattle.code_check.specs.Codes.{IsCodeOf};
ghost use Rattle.goal_meaning.specs.Views.{input_view};
ghost use Rattle.goal_meaning.specs.WellFormed.{IsInput};

use axiom_library::Library;
use case_files::{Trouble, Words, faulty, put, put_line, put_number, put_numbers, split_line};
use case_inputs::library_in;
use code_check::{Checked, Part, Verified, read, verify, verify_text};
use goal_meaning::Goal;
use graph_meaning::Stop;
use std::alloc::Global;

/// The line of a code that isn't known to be its goal. Its last words say what is compared of the two.
fn put_unknown(
    report: &mut Vec<u8>,
    goal: &Goal,
    rounds: u32,
    stop: Stop,
    part: Part,
) -> Result<(), Trouble> {
    let stop = match stop {
        Stop::Quiet => b" stop quiet ".as_slice(),
        Stop::Rounds => b" stop rounds ".as_slice(),
        Stop::Full => b" stop full ".as_slice(),
    };
    put(report, b"unknown ")?;
    put(report, goal.name.bytes())?;
    put(report, b" rounds")?;
    put_number(report, u64::from(rounds))?;
    put(report, stop)?;
    match part {
        Part::Trap(at) => put_numbers(report, b"trap", &[u64::from(at)]),
        Part::Guard => put(report, b"guard\n"),
        Part::Exit => put(report, b"exit\n"),
        Part::Memory => put(report, b"memory\n"),
        Part::Set(set) => {
            let sets = goal.sets.as_slice();
            let set = sets.get(set as usize).ok_or(Trouble::Unread)?;
            put_line(report, &[b"set", set.name.bytes()])
        }
    }
}

/// The line of a code.
fn put_verified(report: &mut Vec<u8>, goal: &Goal, verified: Verified) -> Result<(), Trouble> {
    match verified {
        Verified::Yes => put_line(report, &[b"yes", goal.name.bytes()]),
        Verified::Unknown { rounds, stop, part } => put_unknown(report, goal, rounds, stop, part),
        Verified::NoWorld { a, b, .. } => {
            put(report, b"noworld ")?;
            put_numbers(report, goal.name.bytes(), &[a, b])
        }
    }
}

/// The lines of codes that are checked one by one.
fn one_by_one(
    alloc: Global,
    checked: &Checked,
    rounds: u32,
    nodes: u32,
    library: Library,
) -> Result<Vec<u8>, Trouble>
    requires input { IsInput (input_view checked.now.input) }
    requires codes { All (IsCodeOf (input_view checked.now.input)) checked.now.codes }
    requires rounds { rounds ≤ 16 }
    requires nodes { (1 ≤ nodes) × (nodes ≤ 4096) }
{
    let mut report = Vec::new(alloc);
    for code in checked.codes.as_slice() {
        let verified = verify(alloc, &checked.input, code, rounds, nodes, library)?;
        let goals = checked.input.goals.as_slice();
        let goal = goals.get(code.goal as usize).ok_or(Trouble::Unread)?;
        put_verified(&mut report, goal, verified)?;
    }
    Ok(report)
}

/// Input: a line `ROUNDS NODES FAMILY..`, and a text of goals and codes. Answers with a line for each code, checked with at
/// most ROUNDS rounds, with the limit NODES on rows and with the rules of the families' library, and a line `status N`: 8 where some goal holds in no world, else 1
/// where some code isn't known to be its goal, else 0; or with the text's first fault. The codes are checked all at once
/// and one by one, and a line `differs` comes first where these have other lines.
pub(crate) fn verified(alloc: Global, input: &[u8]) -> Result<Vec<u8>, Trouble>
    requires { length input.now ≤ 2 ^ 24 }
{
    let (head, text) = split_line(input);
    let mut words = Words { rest: head };
    let (rounds, nodes) = (words.small()?, words.small()?);
    if rounds > 16 || nodes == 0 || nodes > 4096 {
        return Err(Trouble::Unread);
    }
    let library = library_in(&mut words)?;
    let checked = match read(alloc, text) {
        Ok(checked) => checked,
        Err(fault) => return faulty(alloc, fault),
    };
    let lines = one_by_one(alloc, &checked, rounds, nodes, library)?;
    let told = match verify_text(alloc, text, rounds, nodes, library) {
        Ok(told) => told,
        Err(fault) => return faulty(alloc, fault),
    };
    let mut report = Vec::new(alloc);
    if told.bytes.as_slice() != lines.as_slice() {
        put(&mut report, b"differs\n")?;
    }
    put(&mut report, told.bytes.as_slice())?;
    let status = if told.noworld {
        8
    } else {
        u64::from(told.unknown)
    };
    put_numbers(&mut report, b"status", &[status])?;
    Ok(report)
}

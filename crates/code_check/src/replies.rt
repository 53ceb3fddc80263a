// What is printed for the codes of a text.
ghost use Rattle.std.specs.Prelude.{◌≡◌, ◌++◌, ◌∷◌, [], ◌<◌, ◌≤◌, ◌^◌, ℕ, All, IfOk, IfErr, OnOk, codes as bytes_of, length};
ghost use Rattle.text_core.specs.Faults.{IsFaultBy, RefusesUnlessMemory};
ghost use Rattle.text_core.specs.LineTexts.{line_text};
ghost use Rattle.text_core.specs.declared.faults.Kind.{Kind as FaultKind};
ghost use Rattle.goal_meaning.specs.Views.{goal_view, input_view};
ghost use Rattle.goal_meaning.specs.WellFormed.{IsInput};
ghost use Rattle.code_check.specs.CodeGrammar.{IsFirstCodesFault};
ghost use Rattle.code_check.specs.Codes.{IsCodeOf};
ghost use Rattle.code_check.specs.Replies as format;
ghost use Rattle.code_check.specs.Replies.{AreSaid, CanBeSaid, IsPartOf, IsTold};
ghost use Rattle.code_check.specs.declared.codes.Verified.TheVariants as answers;

use crate::codes::{Code, Part, Verified};
use crate::reading::read;
use crate::verifying::verify_by_rules;
use axiom_library::Library;
use goal_meaning::{Goal, Input};
use graph_meaning::Stop;
use items::{Items, NoMemory};
use saturation::rules;
use std::alloc::Global;
use text_core::{TextFault, put, put_number, put_word};

/// The lines of the codes of a text, and whether some code isn't known to be its goal, and some goal holds in no world.
#[derive(Drop)]
pub struct Told {
    pub bytes: Items<u8>,
    pub unknown: bool,
    pub noworld: bool,
}

fn stop_name(stop: Stop) -> &'static [u8]
    ensures { result.now ≡ format.stop_name stop }
{
    match stop {
        Stop::Quiet => b"quiet",
        Stop::Rounds => b"rounds",
        Stop::Full => b"full",
    }
}

/// Appends the last word of a line.
fn put_last(text: &mut Vec<u8>, word: &[u8]) -> Result<(), NoMemory>
    ensures { OnOk result (text.new.items ≡ text.old.items ++ (bytes_of " " ++ line_text (word.now ∷ []))) }
{
    put_word(text, word)?;
    put(text, b"\n")
}

fn put_part(text: &mut Vec<u8>, goal: &Goal, part: Part) -> Result<(), NoMemory>
    requires part { IsPartOf (goal_view goal.now) part }
    ensures { OnOk result (text.new.items ≡ text.old.items ++ (bytes_of " "
        ++ line_text (format.part_words (goal_view goal.now) part))) }
{
    match part {
        Part::Trap(at) => {
            put_word(text, b"trap")?;
            put_number(text, u64::from(at))?;
            put(text, b"\n")
        }
        Part::Guard => put_last(text, b"guard"),
        Part::Exit => put_last(text, b"exit"),
        Part::Set(set) => {
            put_word(text, b"set")?;
            put_last(text, goal.sets.as_slice()[set as usize].name.bytes())
        }
        Part::Memory => put_last(text, b"memory"),
    }
}

fn put_unknown(
    text: &mut Vec<u8>,
    goal: &Goal,
    rounds: u32,
    stop: Stop,
    part: Part,
) -> Result<(), NoMemory>
    requires part { IsPartOf (goal_view goal.now) part }
    ensures { OnOk result (text.new.items
        ≡ text.old.items ++ line_text (format.reply_words (goal_view goal.now) (answers.Unknown rounds stop part))) }
{
    put(text, b"unknown")?;
    put_word(text, goal.name.bytes())?;
    put_word(text, b"rounds")?;
    put_number(text, u64::from(rounds))?;
    put_word(text, b"stop")?;
    put_word(text, stop_name(stop))?;
    put_part(text, goal, part)
}

fn put_reply(text: &mut Vec<u8>, goal: &Goal, answer: Verified) -> Result<(), NoMemory>
    requires said { CanBeSaid (goal_view goal.now) answer }
    ensures { OnOk result (text.new.items ≡ text.old.items ++ line_text (format.reply_words (goal_view goal.now) answer)) }
{
    match answer {
        Verified::Yes => {
            put(text, b"yes")?;
            put_last(text, goal.name.bytes())
        }
        Verified::Unknown { rounds, stop, part } => put_unknown(text, goal, rounds, stop, part),
        Verified::NoWorld { a, b, .. } => {
            put(text, b"noworld")?;
            put_word(text, goal.name.bytes())?;
            put_number(text, a)?;
            put_number(text, b)?;
            put(text, b"\n")
        }
    }
}

/// A line for each code of an input. The rules are made once.
fn tell(
    alloc: Global,
    input: &Input,
    codes: &[Code],
    rounds: u32,
    nodes: u32,
    library: Library,
) -> Result<Told, NoMemory>
    requires input { IsInput (input_view input.now) }
    requires codes { All (IsCodeOf (input_view input.now)) codes.now }
    requires rounds { rounds ≤ 16 }
    requires nodes { nodes ≤ 4096 }
    ensures said { IfOk result (λ told. AreSaid (input_view input.now) rounds nodes library codes.now told.bytes
        told.unknown told.noworld) }
{
    let rules = rules(alloc, input, library)?;
    let mut bytes = Vec::new(alloc);
    let mut unknown = false;
    let mut noworld = false;
    for index in 0..codes.len() {
        let code = &codes[index];
        let answer = verify_by_rules(alloc, input, &rules, code, rounds, nodes)?;
        let at = code.goal;
        let goal = &input.goals.as_slice()[at as usize];
        put_reply(&mut bytes, goal, answer)?;
        match answer {
            Verified::Yes => {}
            Verified::Unknown { .. } => unknown = true,
            Verified::NoWorld { .. } => noworld = true,
        }
    }
    Ok(Told {
        bytes: Items::from(bytes),
        unknown,
        noworld,
    })
}

/// A line for each code of a text.
pub fn verify_text(
    alloc: Global,
    bytes: &[u8],
    rounds: u32,
    nodes: u32,
    library: Library,
) -> Result<Told, TextFault>
    requires small { length bytes.now < 2 ^ 29 }
    requires rounds { rounds ≤ 16 }
    requires nodes { (1 ≤ nodes) × (nodes ≤ 4096) }

    // Each code has a line with an answer that is right.
    ensures told { IfOk result (λ told. IsTold bytes.now rounds nodes library told.bytes told.unknown told.noworld) }

    // A fault is the text's first one, and where there is one, it is answered.
    ensures fault { IfErr result (IsFaultBy (IsFirstCodesFault bytes.now)) }
    ensures refused { (place : ℕ) (kind : FaultKind) → IsFirstCodesFault bytes.now place kind
        → RefusesUnlessMemory place kind result }
{
    let checked = read(alloc, bytes)?;
    let codes = checked.codes.as_slice();
    let told = tell(alloc, &checked.input, codes, rounds, nodes, library)?;
    Ok(told)
}

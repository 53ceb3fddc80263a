// Options, and their values.
ghost use Rattle.std.specs.Prelude.{◌≡◌, ◌≤◌, ◌<◌, ◌^◌, All, IfSome, IfNone, length, map, slice_index, take};
ghost use Rattle.axiom_library.specs.Libraries.{no_library};
ghost use Rattle.text_core.specs.Limits.{most_goals};
ghost use Rattle.schedule_meaning.specs.Limits.{most_cycles};
ghost use Rattle.denali_run.specs.MatchedGoals.{IsSettings};
ghost use Rattle.denali_cli.specs.Commands.{HasValuesInRange};
ghost use Rattle.denali_cli.specs.OptionValues as values;
ghost use Rattle.denali_cli.specs.PlainForms as plain;

use crate::commands::Command;
use axiom_library::{Library, family_named};
use denali_run::{Allocation, Pick, Settings};
use schedule_meaning::MOST_CYCLES;
use text_core::decimal;

/// The greatest values of the options.
pub(crate) const MOST_ROUNDS: u32 = 16;

pub(crate) const MOST_NODES: u32 = 4096;

pub(crate) const MOST_CONFLICTS: u32 = 1_000_000;

pub(crate) const MOST_SIZE: u32 = 20;

pub(crate) const MOST_GOALS: u32 = text_core::MOST_GOALS as u32;

/// How many rounds are done at most, and up to how many rows, where no option says so.
const DEFAULT_ROUNDS: u32 = 4;

const DEFAULT_NODES: u32 = 512;

/// How many operators a generated goal has where no option says so.
pub(crate) const DEFAULT_SIZE: u32 = 10;

/// Which goal of an answer, and how many cycles, where no option says so.
const DEFAULT_GOAL: u32 = 1;

pub(crate) const DEFAULT_CYCLES: u32 = 8;

/// How many conflicts the solver may take for each number of cycles where no option says so.
pub(crate) const DEFAULT_CONFLICTS: u32 = 20_000;

/// The options that words have set.
#[derive(Clone, Copy)]
pub(crate) struct Options {
    pub(crate) rounds: Option<u32>,
    pub(crate) nodes: Option<u32>,
    pub(crate) cycles: Option<u32>,
    pub(crate) conflicts: Option<u32>,
    pub(crate) pick: Option<Pick>,
    pub(crate) library: Option<Library>,
    pub(crate) least: bool,
    pub(crate) live: bool,
}

/// The number that a word is, within two bounds.
pub(crate) fn value_in(low: u32, high: u32, word: &str) -> Option<u32>
    ensures value { result ≡ values.number_within low high word.now }
    ensures within { IfSome result (λ n. (low ≤ n) × (n ≤ high)) }
{
    let number = decimal(word.as_bytes())?;
    if number < u64::from(low) {
        return None;
    }
    if u64::from(high) < number {
        return None;
    }
    Some(number as u32)
}

pub(crate) fn pick_of(word: &str) -> Option<Pick>
    ensures { result ≡ values.pick_value word.now }
{
    if word == "first" {
        Some(Pick::First)
    } else if word == "last" {
        Some(Pick::Last)
    } else if word == "busy" {
        Some(Pick::Busy)
    } else if word == "activity" {
        Some(Pick::Activity)
    } else {
        None
    }
}

/// The place of the first comma.
fn comma_in(bytes: &[u8]) -> Option<usize>
    ensures some { IfSome result (λ at. (at < length bytes.now) × (slice_index bytes.now at ≡ 44)) }
    ensures first { IfSome result (λ at. All (λ b. b ≡ 44 → ⊥) (take at bytes.now)) }
    ensures none { IfNone result (All (λ b. b ≡ 44 → ⊥) bytes.now) }
{
    bytes.iter().position(|b| *b == b',')
}

/// The library with one more family, by its name. None where it has the family.
fn with_named(library: Library, name: &[u8]) -> Option<Library>
    ensures { result ≡ values.with_named library name.now }
{
    let family = family_named(name)?;
    if library.has(family) {
        return None;
    }
    Some(library.with(family))
}

/// The library of the families that are named, with commas between them, each once.
fn library_named(names: &[u8]) -> Option<Library>
    ensures { result ≡ values.library_of_names no_library (values.parts_of names.now) }
{
    let mut library = Library::none();
    let mut rest = names;
    while let Some(at) = comma_in(rest) {
        library = with_named(library, &rest[..at])?;
        rest = &rest[at + 1..];
    }
    with_named(library, rest)
}

pub(crate) fn library_of(word: &str) -> Option<Library>
    ensures { result ≡ values.library_value word.now }
{
    if word == "none" {
        Some(Library::none())
    } else if word == "all" {
        Some(Library::all())
    } else {
        library_named(word.as_bytes())
    }
}

/// The value for an option that wasn't set before.
fn once<A: Copy>(before: Option<A>, value: Option<A>) -> Option<A>
    ensures { result ≡ plain.once before value }
{
    match before {
        None => value,
        Some(_) => None,
    }
}

/// The options with one more set, if it may be set to this value.
fn with_option(options: Options, name: &str, value: &str) -> Option<Options>
    requires { values.AreInRange options }
    ensures value { result ≡ plain.set_option options name.now value.now }
    ensures within { IfSome result values.AreInRange }
{
    let mut options = options;
    if name == "--rounds" {
        options.rounds = Some(once(options.rounds, value_in(0, MOST_ROUNDS, value))?);
    } else if name == "--nodes" {
        options.nodes = Some(once(options.nodes, value_in(1, MOST_NODES, value))?);
    } else if name == "--cycles" {
        options.cycles = Some(once(options.cycles, value_in(0, MOST_CYCLES, value))?);
    } else if name == "--conflicts" {
        options.conflicts = Some(once(options.conflicts, value_in(1, MOST_CONFLICTS, value))?);
    } else if name == "--pick" {
        options.pick = Some(once(options.pick, pick_of(value))?);
    } else if name == "--library" {
        options.library = Some(once(options.library, library_of(value))?);
    } else {
        return None;
    }
    Some(options)
}

pub(crate) fn is_least(name: &str) -> bool
    ensures { result ≡ plain.is_least name.now }
{
    name == "--least"
}

/// Whether the word is a flag.
fn is_flag(name: &str) -> bool
    ensures { result ≡ plain.is_flag name.now }
{
    is_least(name) || name == "--live"
}

/// The options with the flag set, which wasn't set before.
fn with_flag(options: Options, name: &str) -> Option<Options>
    requires { values.AreInRange options }
    ensures value { result ≡ plain.set_flag options name.now }
    ensures within { IfSome result values.AreInRange }
{
    let mut options = options;
    if is_least(name) {
        if options.least {
            return None;
        }
        options.least = true;
    } else {
        if options.live {
            return None;
        }
        options.live = true;
    }
    Some(options)
}

/// The options that the words set: flags, and pairs of an option and its value, each once.
pub(crate) fn options_of(words: &[&str]) -> Option<Options>
    ensures value { result ≡ plain.set_options values.no_options (map (λ word. word.now) words.now) }
    ensures within { IfSome result values.AreInRange }
{
    let mut options = no_options();
    let mut at = 0;
    while at < words.len() {
        let name = words[at];
        if is_flag(name) {
            options = with_flag(options, name)?;
            at += 1;
        } else {
            if at + 1 == words.len() {
                return None;
            }
            let value = words[at + 1];
            options = with_option(options, name, value)?;
            at += 2;
        }
    }
    Some(options)
}

/// The size that the words of `gen` set.
pub(crate) fn size_in(words: &[&str]) -> Option<u32>
    ensures value { result ≡ plain.size_in (map (λ word. word.now) words.now) }
    ensures within { IfSome result (λ n. (1 ≤ n) × (n ≤ 20)) }
{
    match words {
        [] => Some(DEFAULT_SIZE),
        [name, value] if *name == "--size" => value_in(1, MOST_SIZE, value),
        _ => None,
    }
}

/// No option is set.
fn no_options() -> Options
    ensures value { result ≡ values.no_options }
    ensures within { values.AreInRange result }
{
    Options {
        rounds: None,
        nodes: None,
        cycles: None,
        conflicts: None,
        pick: None,
        library: None,
        least: false,
        live: false,
    }
}

/// Where an option isn't set, its default stands: 4 rounds, 512 rows, 8 cycles, 20,000 conflicts, the free variable with
/// the least number, and the command's own library.
pub(crate) fn settings_of(options: Options, library: Library) -> Settings
    requires { values.AreInRange options }
    ensures value { result ≡ values.settings_of library options }
    ensures within { IsSettings result }
{
    Settings {
        rounds: options.rounds.unwrap_or(DEFAULT_ROUNDS),
        nodes: options.nodes.unwrap_or(DEFAULT_NODES),
        cycles: options.cycles.unwrap_or(DEFAULT_CYCLES),
        conflicts: options.conflicts.unwrap_or(DEFAULT_CONFLICTS),
        pick: options.pick.unwrap_or(Pick::First),
        library: options.library.unwrap_or(library),
        allocation: if options.live {
            Allocation::Live
        } else {
            Allocation::Block
        },
    }
}

/// The command of `solve` with these options.
pub(crate) fn solve_of(options: Options) -> Command
    requires { values.AreInRange options }
    ensures value { result ≡ plain.solve_of options }
    ensures within { HasValuesInRange result }
{
    let settings = settings_of(options, Library::none());
    if options.least {
        Command::SolveLeast(settings)
    } else {
        Command::Solve(settings)
    }
}

/// The command of `improve` with these options. Given words come without axioms, so its own library has all families but
/// one; registers go by live ranges; and its own pick is by activity.
pub(crate) fn improve_of(options: Options) -> Command
    requires { values.AreInRange options }
    ensures value { result ≡ plain.improve_of options }
    ensures within { HasValuesInRange result }
{
    let mut options = options;
    options.live = true;
    options.pick = Some(options.pick.unwrap_or(Pick::Activity));
    let settings = settings_of(options, Library::all());
    if options.least {
        Command::ImproveLeast(settings)
    } else {
        Command::Improve(settings)
    }
}

/// The command of `verify` with what is set of its options.
pub(crate) fn verify_with(
    rounds: Option<u32>,
    nodes: Option<u32>,
    library: Option<Library>,
) -> Command
    requires rounds { IfSome rounds (λ n. n ≤ 16) }
    requires nodes { IfSome nodes (λ n. (1 ≤ n) × (n ≤ 4096)) }
    ensures value { result ≡ plain.verify_with rounds nodes library }
    ensures within { HasValuesInRange result }
{
    Command::Verify {
        rounds: rounds.unwrap_or(DEFAULT_ROUNDS),
        nodes: nodes.unwrap_or(DEFAULT_NODES),
        library: library.unwrap_or(Library::none()),
    }
}

/// The command of `cnf` with what is set of its two options.
pub(crate) fn cnf_of(goal: Option<u32>, cycles: Option<u32>) -> Command
    requires goal { IfSome goal (λ n. (1 ≤ n) × (n ≤ most_goals)) }
    requires cycles { IfSome cycles (λ n. n ≤ most_cycles) }
    ensures value { result ≡ plain.cnf_of goal cycles }
    ensures within { HasValuesInRange result }
{
    Command::Cnf {
        goal: goal.unwrap_or(DEFAULT_GOAL),
        cycles: cycles.unwrap_or(DEFAULT_CYCLES),
    }
}

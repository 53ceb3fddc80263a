// The words after the program's name.
ghost use Rattle.std.specs.Prelude.{◌≡◌, IfOk, IfSome, Some, map};
ghost use Rattle.std.specs.declared.result.Result.TheVariants as results;
ghost use Rattle.denali_cli.specs.Commands.{Command as CommandOf, HasValuesInRange};
ghost use Rattle.denali_cli.specs.OptionValues.{AreInRange};
ghost use Rattle.denali_cli.specs.PlainForms as plain;
ghost use Rattle.denali_cli.specs.PlainForms.{plain_command};
ghost use Rattle.denali_cli.specs.Said.{asked_by};

use crate::commands::Command;
use crate::options::{
    DEFAULT_CONFLICTS, DEFAULT_CYCLES, MOST_GOALS, Options, cnf_of, improve_of, is_least,
    options_of, settings_of, size_in, solve_of, value_in, verify_with,
};
use crate::spelling::spelled;
use axiom_library::Library;
use items::NoMemory;
use schedule_meaning::MOST_CYCLES;
use std::alloc::Global;

/// A command without options, where no word follows it.
fn alone(command: Command, words: &[&str]) -> Option<Command>
    requires { HasValuesInRange command }
    ensures value { result ≡ plain.alone command (map (λ word. word.now) words.now) }
    ensures within { IfSome result HasValuesInRange }
{
    if words.is_empty() {
        Some(command)
    } else {
        None
    }
}

/// The command of `proc` with these options, which are those of `solve` without `--least`.
fn proc_of(options: Options) -> Option<Command>
    requires { AreInRange options }
    ensures value { result ≡ plain.proc_of options }
    ensures within { IfSome result HasValuesInRange }
{
    if options.least {
        return None;
    }
    Some(Command::Proc(settings_of(options, Library::none())))
}

/// The command of `check` with these words behind it: none, or `--least`.
fn check_of(words: &[&str]) -> Option<Command>
    ensures value { result ≡ plain.check_of (map (λ word. word.now) words.now) }
    ensures within { IfSome result HasValuesInRange }
{
    match words {
        [] => Some(Command::Check),
        [name] if is_least(name) => Some(Command::CheckLeast),
        _ => None,
    }
}

/// The command of `cnf` with one of its options.
fn cnf_with_one(name: &str, value: &str) -> Option<Command>
    ensures value { result ≡ plain.cnf_with_one name.now value.now }
    ensures within { IfSome result HasValuesInRange }
{
    if name == "--goal" {
        let goal = value_in(1, MOST_GOALS, value)?;
        Some(cnf_of(Some(goal), None))
    } else if name == "--cycles" {
        let cycles = value_in(0, MOST_CYCLES, value)?;
        Some(cnf_of(None, Some(cycles)))
    } else {
        None
    }
}

/// The command of `cnf` with both options, which have these values.
fn cnf_with_both(goal: &str, cycles: &str) -> Option<Command>
    ensures value { result ≡ plain.cnf_with_both goal.now cycles.now }
    ensures within { IfSome result HasValuesInRange }
{
    let goal = value_in(1, MOST_GOALS, goal)?;
    let cycles = value_in(0, MOST_CYCLES, cycles)?;
    Some(cnf_of(Some(goal), Some(cycles)))
}

/// The command of `cnf` with two options.
fn cnf_with_two(name: &str, value: &str, other: &str, more: &str) -> Option<Command>
    ensures value { result ≡ plain.cnf_with_two name.now value.now other.now more.now }
    ensures within { IfSome result HasValuesInRange }
{
    if name == "--goal" {
        if other != "--cycles" {
            return None;
        }
        cnf_with_both(value, more)
    } else if name == "--cycles" {
        if other != "--goal" {
            return None;
        }
        cnf_with_both(more, value)
    } else {
        None
    }
}

/// The command of `cnf` with an option, its value, and these words behind them.
fn cnf_with_more(name: &str, value: &str, words: &[&str]) -> Option<Command>
    ensures value { result ≡ plain.cnf_with_more name.now value.now (map (λ word. word.now) words.now) }
    ensures within { IfSome result HasValuesInRange }
{
    match words {
        [] => cnf_with_one(name, value),
        [other, more] => cnf_with_two(name, value, other, more),
        _ => None,
    }
}

/// The command of `cnf` with these words behind it.
fn cnf_in(words: &[&str]) -> Option<Command>
    ensures value { result ≡ plain.plain_cnf (map (λ word. word.now) words.now) }
    ensures within { IfSome result HasValuesInRange }
{
    let Some((name, words)) = words.split_first() else {
        return Some(cnf_of(None, None));
    };
    let (value, words) = words.split_first()?;
    cnf_with_more(name, value, words)
}

/// The command of `verify` with these options, which are those of rounds and rules.
fn verify_of(options: Options) -> Option<Command>
    requires { AreInRange options }
    ensures value { result ≡ plain.verify_of options }
    ensures within { IfSome result HasValuesInRange }
{
    if options.cycles.is_some() || options.conflicts.is_some() {
        return None;
    }
    if options.pick.is_some() || options.least || options.live {
        return None;
    }
    Some(verify_with(options.rounds, options.nodes, options.library))
}

/// The command of `cycles` with these options, which are the most cycles and the conflicts for each.
fn cycles_of(options: Options) -> Option<Command>
    requires { AreInRange options }
    ensures value { result ≡ plain.cycles_of options }
    ensures within { IfSome result HasValuesInRange }
{
    if options.rounds.is_some() || options.nodes.is_some() {
        return None;
    }
    if options.pick.is_some() || options.library.is_some() {
        return None;
    }
    if options.least || options.live {
        return None;
    }
    Some(Command::Cycles {
        cycles: options.cycles.unwrap_or(DEFAULT_CYCLES),
        conflicts: options.conflicts.unwrap_or(DEFAULT_CONFLICTS),
    })
}

/// The command of `improve` with these options, which are those of `solve` without `--live`.
fn plain_improve(options: Options) -> Option<Command>
    requires { AreInRange options }
    ensures value { result ≡ plain.plain_improve options }
    ensures within { IfSome result HasValuesInRange }
{
    if options.live {
        return None;
    }
    Some(improve_of(options))
}

/// The command on machine words that the words name, in plain form.
fn on_machine_words(name: &str, words: &[&str]) -> Option<Command>
    ensures value { result ≡ plain.plain_on_words name.now (map (λ word. word.now) words.now) }
    ensures within { IfSome result HasValuesInRange }
{
    if name == "lift" {
        alone(Command::Lift, words)
    } else if name == "improve" {
        let options = options_of(words)?;
        plain_improve(options)
    } else if name == "cycles" {
        let options = options_of(words)?;
        cycles_of(options)
    } else {
        None
    }
}

/// The command of words in plain form.
fn in_plain_form(words: &[&str]) -> Option<Command>
    ensures value { result ≡ plain_command (map (λ word. word.now) words.now) }
    ensures within { IfSome result HasValuesInRange }
{
    let (name, words) = words.split_first()?;
    if *name == "solve" {
        let options = options_of(words)?;
        Some(solve_of(options))
    } else if *name == "proc" {
        let options = options_of(words)?;
        proc_of(options)
    } else if *name == "check" {
        check_of(words)
    } else if *name == "trim" {
        alone(Command::Trim, words)
    } else if *name == "verify" {
        let options = options_of(words)?;
        verify_of(options)
    } else if *name == "run" {
        alone(Command::Run, words)
    } else if *name == "gen" {
        let size = size_in(words)?;
        Some(Command::Gen(size))
    } else if *name == "cnf" {
        cnf_in(words)
    } else {
        on_machine_words(name, words)
    }
}

/// The command that the words ask for. Words in plain form need no memory.
pub(crate) fn asked<'a>(alloc: Global, words: &'a [&'a str]) -> Result<Option<Command>, NoMemory>
    ensures value { IfOk result (λ command. command ≡ asked_by words.now) }
    ensures within { IfOk result (λ command. IfSome command HasValuesInRange) }
    ensures plain { (command : CommandOf) → plain_command (map (λ word. word.now) words.now) ≡ Some command
        → result ≡ results.Ok (Some command) }
{
    match in_plain_form(words) {
        Some(command) => Ok(Some(command)),
        None => spelled(alloc, words),
    }
}

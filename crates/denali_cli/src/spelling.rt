// Words in any spelling, by `clap`.
ghost use Rattle.std.specs.Prelude.{◌≡◌, ◌≤◌, ◌<◌, ◌^◌, IfOk, IfSome, false, map, codes, ◌∷◌, []};
ghost use Rattle.std.specs.Option.{option_and_then};
ghost use Rattle.clap.specs.Words.{app_of, first_of, found_of, new_app, rows_of, subcommand_rows_of, with_rule};
ghost use Rattle.clap.specs.declared.builder.command.Command.TheViews.{out-Command as fields_of};
ghost use Rattle.denali_cli.specs.Commands.{HasValuesInRange};
ghost use Rattle.denali_cli.specs.OptionValues as values;
ghost use Rattle.denali_cli.specs.Spellings as spec;

use crate::commands::Command;
use crate::options::{
    DEFAULT_CONFLICTS, DEFAULT_CYCLES, DEFAULT_SIZE, MOST_CONFLICTS, MOST_GOALS, MOST_NODES,
    MOST_ROUNDS, MOST_SIZE, Options, cnf_of, improve_of, library_of, pick_of, settings_of,
    solve_of, value_in, verify_with,
};
use axiom_library::Library;
use clap::error::ErrorKind;
use clap::{Arg, ArgAction, ArgMatches, Command as Parser};
use denali_run::Pick;
use items::NoMemory;
use schedule_meaning::MOST_CYCLES;
use std::alloc::{AllocError, Global};

/// The command with one more option, `--name VALUE`.
fn with_argument<'a>(
    alloc: Global,
    command: Parser<'a>,
    name: &'a str,
) -> Result<Parser<'a>, NoMemory>
    ensures rule { IfOk result (λ c. app_of c ≡ with_rule (app_of command.entry) (spec.option_rule name.entry.now)) }
    ensures local { IfOk result (λ c. (fields_of c).has_globals ≡ (fields_of command.entry).has_globals) }
{
    command.arg(Arg::new(alloc, name).long(name).action(ArgAction::Set))
}

/// The command with a flag, `--name`.
fn with_flag<'a>(alloc: Global, command: Parser<'a>, name: &'a str) -> Result<Parser<'a>, NoMemory>
    ensures rule { IfOk result (λ c. app_of c ≡ with_rule (app_of command.entry) (spec.flag_rule name.entry.now)) }
    ensures local { IfOk result (λ c. (fields_of c).has_globals ≡ (fields_of command.entry).has_globals) }
{
    command.arg(Arg::new(alloc, name).long(name).action(ArgAction::SetTrue))
}

/// A command that solves goals, with its options that have a value.
fn solving_parser<'a>(alloc: Global, name: &'a str) -> Result<Parser<'a>, NoMemory>
    ensures app { IfOk result (λ c. app_of c ≡ spec.solving_app name.entry.now) }
    ensures local { IfOk result (λ c. (fields_of c).has_globals ≡ false) }
{
    let parser = Parser::new(alloc, name);
    let parser = with_argument(alloc, parser, "rounds")?;
    let parser = with_argument(alloc, parser, "nodes")?;
    let parser = with_argument(alloc, parser, "cycles")?;
    let parser = with_argument(alloc, parser, "conflicts")?;
    let parser = with_argument(alloc, parser, "pick")?;
    with_argument(alloc, parser, "library")
}

/// `verify` with its options.
fn verify_parser<'a>(alloc: Global) -> Result<Parser<'a>, NoMemory>
    ensures app { IfOk result (λ c. app_of c ≡ spec.verify_app) }
    ensures local { IfOk result (λ c. (fields_of c).has_globals ≡ false) }
{
    let verify = with_argument(alloc, Parser::new(alloc, "verify"), "rounds")?;
    let verify = with_argument(alloc, verify, "nodes")?;
    with_argument(alloc, verify, "library")
}

/// `solve` with its options and flags.
fn solve_parser<'a>(alloc: Global) -> Result<Parser<'a>, NoMemory>
    ensures app { IfOk result (λ c. app_of c ≡ spec.solve_app) }
    ensures local { IfOk result (λ c. (fields_of c).has_globals ≡ false) }
{
    let parser = with_flag(alloc, solving_parser(alloc, "solve")?, "least")?;
    with_flag(alloc, parser, "live")
}

/// `proc` with its options and its flag.
fn proc_parser<'a>(alloc: Global) -> Result<Parser<'a>, NoMemory>
    ensures app { IfOk result (λ c. app_of c ≡ spec.proc_app) }
    ensures local { IfOk result (λ c. (fields_of c).has_globals ≡ false) }
{
    with_flag(alloc, solving_parser(alloc, "proc")?, "live")
}

/// The program with the commands on goals, for words without its name.
fn solving_commands<'a>(alloc: Global) -> Result<Parser<'a>, NoMemory>
    ensures { IfOk result (λ c. app_of c
        ≡ spec.with_commands (spec.of_words (new_app (codes "denali")))
        (spec.solve_app ∷ spec.proc_app ∷ [])) }
{
    let solve = solve_parser(alloc)?;
    let proc = proc_parser(alloc)?;
    Parser::new(alloc, "denali")
        .no_binary_name(true)
        .subcommand_required(true)
        .subcommand(solve)?
        .subcommand(proc)
}

/// `cnf` with its options.
fn cnf_parser<'a>(alloc: Global) -> Result<Parser<'a>, NoMemory>
    ensures app { IfOk result (λ c. app_of c ≡ spec.cnf_app) }
    ensures local { IfOk result (λ c. (fields_of c).has_globals ≡ false) }
{
    let parser = with_argument(alloc, Parser::new(alloc, "cnf"), "goal")?;
    with_argument(alloc, parser, "cycles")
}

/// The program with the commands on goals and answers.
fn first_commands<'a>(alloc: Global) -> Result<Parser<'a>, NoMemory>
    ensures { IfOk result (λ c. app_of c
        ≡ spec.with_commands (spec.of_words (new_app (codes "denali")))
        (spec.solve_app ∷ spec.proc_app ∷ spec.check_app ∷ new_app (codes "trim") ∷ [])) }
{
    let first = solving_commands(alloc)?;
    let check = with_flag(alloc, Parser::new(alloc, "check"), "least")?;
    first
        .subcommand(check)?
        .subcommand(Parser::new(alloc, "trim"))
}

/// The program with the commands on goals, answers and codes.
fn checking_commands<'a>(alloc: Global) -> Result<Parser<'a>, NoMemory>
    ensures { IfOk result (λ c. app_of c
        ≡ spec.with_commands (spec.of_words (new_app (codes "denali")))
        (spec.solve_app ∷ spec.proc_app ∷ spec.check_app ∷ new_app (codes "trim") ∷ spec.verify_app
        ∷ new_app (codes "run") ∷ [])) }
{
    let first = first_commands(alloc)?;
    let verifier = verify_parser(alloc)?;
    first
        .subcommand(verifier)?
        .subcommand(Parser::new(alloc, "run"))
}

/// `cycles` with its options.
fn cycles_parser<'a>(alloc: Global) -> Result<Parser<'a>, NoMemory>
    ensures app { IfOk result (λ c. app_of c ≡ spec.cycles_app) }
    ensures local { IfOk result (λ c. (fields_of c).has_globals ≡ false) }
{
    let parser = with_argument(alloc, Parser::new(alloc, "cycles"), "cycles")?;
    with_argument(alloc, parser, "conflicts")
}

/// The program with its commands but those on machine words.
fn writing_commands<'a>(alloc: Global) -> Result<Parser<'a>, NoMemory>
    ensures { IfOk result (λ c. app_of c
        ≡ spec.with_commands (spec.of_words (new_app (codes "denali")))
        (spec.solve_app ∷ spec.proc_app ∷ spec.check_app ∷ new_app (codes "trim") ∷ spec.verify_app
        ∷ new_app (codes "run") ∷ spec.gen_app ∷ spec.cnf_app ∷ [])) }
{
    let first = checking_commands(alloc)?;
    let generator = with_argument(alloc, Parser::new(alloc, "gen"), "size")?;
    let clauses = cnf_parser(alloc)?;
    first.subcommand(generator)?.subcommand(clauses)
}

/// The program with its commands but `cycles`.
fn improving_commands<'a>(alloc: Global) -> Result<Parser<'a>, NoMemory>
    ensures { IfOk result (λ c. app_of c
        ≡ spec.with_commands (spec.of_words (new_app (codes "denali")))
        (spec.solve_app ∷ spec.proc_app ∷ spec.check_app ∷ new_app (codes "trim") ∷ spec.verify_app
        ∷ new_app (codes "run") ∷ spec.gen_app ∷ spec.cnf_app ∷ new_app (codes "lift") ∷ spec.improve_app ∷ [])) }
{
    let first = writing_commands(alloc)?;
    let improver = with_flag(alloc, solving_parser(alloc, "improve")?, "least")?;
    first
        .subcommand(Parser::new(alloc, "lift"))?
        .subcommand(improver)
}

/// The program with all its commands.
fn program<'a>(alloc: Global) -> Result<Parser<'a>, NoMemory>
    ensures { IfOk result (λ c. app_of c ≡ spec.program) }
{
    let first = improving_commands(alloc)?;
    let counter = cycles_parser(alloc)?;
    first.subcommand(counter)
}

/// The number that an option is given, within two bounds.
fn number_given(matches: &ArgMatches<'_>, name: &str, low: u32, high: u32) -> Option<Option<u32>>
    ensures value { result ≡ spec.value_given (values.number_within low high)
        (first_of name.now (rows_of (found_of matches.now))) }
    ensures within { IfSome result (λ given. IfSome given (λ n. (low ≤ n) × (n ≤ high))) }
{
    let Some(word) = matches.get_str(name) else {
        return Some(None);
    };
    let number = value_in(low, high, word)?;
    Some(Some(number))
}

fn pick_given(matches: &ArgMatches<'_>, name: &str) -> Option<Option<Pick>>
    ensures { result ≡ spec.value_given values.pick_value (first_of name.now (rows_of (found_of matches.now))) }
{
    let Some(word) = matches.get_str(name) else {
        return Some(None);
    };
    let pick = pick_of(word)?;
    Some(Some(pick))
}

fn library_given(matches: &ArgMatches<'_>, name: &str) -> Option<Option<Library>>
    ensures { result ≡ spec.value_given values.library_value (first_of name.now (rows_of (found_of matches.now))) }
{
    let Some(word) = matches.get_str(name) else {
        return Some(None);
    };
    let library = library_of(word)?;
    Some(Some(library))
}

/// Whether the flag is given.
fn has_flag(matches: &ArgMatches<'_>, name: &str) -> bool
    ensures { result ≡ spec.has_flag name.now (rows_of (found_of matches.now)) }
{
    match matches.get_str(name) {
        Some(word) => word == "true",
        None => false,
    }
}

/// The options of `solve` that are given.
fn options_in(matches: &ArgMatches<'_>) -> Option<Options>
    ensures value { result ≡ spec.options_in (rows_of (found_of matches.now)) }
    ensures within { IfSome result values.AreInRange }
{
    let rounds = number_given(matches, "rounds", 0, MOST_ROUNDS)?;
    let nodes = number_given(matches, "nodes", 1, MOST_NODES)?;
    let cycles = number_given(matches, "cycles", 0, MOST_CYCLES)?;
    let conflicts = number_given(matches, "conflicts", 1, MOST_CONFLICTS)?;
    let pick = pick_given(matches, "pick")?;
    let library = library_given(matches, "library")?;
    let least = has_flag(matches, "least");
    let live = has_flag(matches, "live");
    Some(Options {
        rounds,
        nodes,
        cycles,
        conflicts,
        pick,
        library,
        least,
        live,
    })
}

/// The command of `solve` with the options that are given.
fn solve_in(matches: &ArgMatches<'_>) -> Option<Command>
    ensures value { result ≡ spec.solve_in (rows_of (found_of matches.now)) }
    ensures within { IfSome result HasValuesInRange }
{
    let options = options_in(matches)?;
    Some(solve_of(options))
}

/// The command of `proc` with the options that are given.
fn proc_in(matches: &ArgMatches<'_>) -> Option<Command>
    ensures value { result ≡ spec.proc_in (rows_of (found_of matches.now)) }
    ensures within { IfSome result HasValuesInRange }
{
    let options = options_in(matches)?;
    Some(Command::Proc(settings_of(options, Library::none())))
}

/// The command of `check` with the flag, or without it.
fn check_in(matches: &ArgMatches<'_>) -> Command
    ensures value { result ≡ spec.check_in (rows_of (found_of matches.now)) }
    ensures within { HasValuesInRange result }
{
    if has_flag(matches, "least") {
        Command::CheckLeast
    } else {
        Command::Check
    }
}

/// The command of `verify` with the options that are given.
fn verify_in(matches: &ArgMatches<'_>) -> Option<Command>
    ensures value { result ≡ spec.verify_in (rows_of (found_of matches.now)) }
    ensures within { IfSome result HasValuesInRange }
{
    let rounds = number_given(matches, "rounds", 0, MOST_ROUNDS)?;
    let nodes = number_given(matches, "nodes", 1, MOST_NODES)?;
    let library = library_given(matches, "library")?;
    Some(verify_with(rounds, nodes, library))
}

/// The command of `gen` with the size that is given.
fn gen_in(matches: &ArgMatches<'_>) -> Option<Command>
    ensures value { result ≡ spec.gen_in (rows_of (found_of matches.now)) }
    ensures within { IfSome result HasValuesInRange }
{
    let size = number_given(matches, "size", 1, MOST_SIZE)?;
    Some(Command::Gen(size.unwrap_or(DEFAULT_SIZE)))
}

/// The command of `cnf` with the options that are given.
fn cnf_in(matches: &ArgMatches<'_>) -> Option<Command>
    ensures value { result ≡ spec.cnf_in (rows_of (found_of matches.now)) }
    ensures within { IfSome result HasValuesInRange }
{
    let goal = number_given(matches, "goal", 1, MOST_GOALS)?;
    let cycles = number_given(matches, "cycles", 0, MOST_CYCLES)?;
    Some(cnf_of(goal, cycles))
}

/// The command of `improve` with the options that are given.
fn improve_in(matches: &ArgMatches<'_>) -> Option<Command>
    ensures value { result ≡ spec.improve_in (rows_of (found_of matches.now)) }
    ensures within { IfSome result HasValuesInRange }
{
    let options = options_in(matches)?;
    Some(improve_of(options))
}

/// The command of `cycles` with the options that are given.
fn cycles_in(matches: &ArgMatches<'_>) -> Option<Command>
    ensures value { result ≡ spec.cycles_in (rows_of (found_of matches.now)) }
    ensures within { IfSome result HasValuesInRange }
{
    let cycles = number_given(matches, "cycles", 0, MOST_CYCLES)?;
    let conflicts = number_given(matches, "conflicts", 1, MOST_CONFLICTS)?;
    Some(Command::Cycles {
        cycles: cycles.unwrap_or(DEFAULT_CYCLES),
        conflicts: conflicts.unwrap_or(DEFAULT_CONFLICTS),
    })
}

/// The command on machine words of this name with the options that are given.
fn command_on_words(name: &str, matches: &ArgMatches<'_>) -> Option<Command>
    ensures value { result ≡ spec.command_on_words name.now (rows_of (found_of matches.now)) }
    ensures within { IfSome result HasValuesInRange }
{
    if name == "lift" {
        Some(Command::Lift)
    } else if name == "improve" {
        improve_in(matches)
    } else if name == "cycles" {
        cycles_in(matches)
    } else {
        None
    }
}

/// The command of this name with the options that are given.
fn command_named(name: &str, matches: &ArgMatches<'_>) -> Option<Command>
    ensures value { result ≡ spec.command_named name.now (rows_of (found_of matches.now)) }
    ensures within { IfSome result HasValuesInRange }
{
    if name == "solve" {
        solve_in(matches)
    } else if name == "proc" {
        proc_in(matches)
    } else if name == "check" {
        Some(check_in(matches))
    } else if name == "trim" {
        Some(Command::Trim)
    } else if name == "verify" {
        verify_in(matches)
    } else if name == "run" {
        Some(Command::Run)
    } else if name == "gen" {
        gen_in(matches)
    } else if name == "cnf" {
        cnf_in(matches)
    } else {
        command_on_words(name, matches)
    }
}

/// The command that the matches name.
fn command_in(matches: &ArgMatches<'_>) -> Option<Command>
    ensures value { result ≡ option_and_then spec.command_in (subcommand_rows_of matches.now) }
    ensures within { IfSome result HasValuesInRange }
{
    let (name, matches) = matches.subcommand()?;
    command_named(name, matches)
}

/// The command that the words ask for as `clap` reads them.
pub(crate) fn spelled<'a>(alloc: Global, words: &'a [&'a str]) -> Result<Option<Command>, NoMemory>
    ensures value { IfOk result (λ command. command ≡ spec.spelled_command (map (λ word. word.now) words.now)) }
    ensures within { IfOk result (λ command. IfSome command HasValuesInRange) }
{
    match program(alloc)?.try_get_matches_from(words) {
        Ok(matches) => Ok(command_in(&matches)),
        Err(error) => {
            if error.kind() == ErrorKind::OutOfMemory {
                Err(AllocError)
            } else {
                Ok(None)
            }
        }
    }
}

//! Runs cases of texts and of words: numbers, tokens, trees and lines; goals, terms, procs, tables and launch graphs,
//! which are read and printed again; values of operators, memories, instruction words and programs; and streams.
#![tactic(auto)]

mod graphs;
mod machine;
mod procs;
mod streams;
mod subjects;
mod tables;
mod terms;
mod texts;
mod tokens;
mod worlds;

use std::process::ExitCode;
use subjects::Subject;

fn main(rt: HostRuntime) -> ExitCode {
    case_files::run::<Subject>(&rt)
}

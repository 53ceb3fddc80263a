//! Runs cases of answers and of commands: the texts of answers, judged and trimmed; codes that are checked against
//! their goals; and the top call, among its calls the examples, the book and the families of axioms.
//!
//! A file NAME.goal is one case, and so is NAME.proc: `solve` or `proc` without options answers it as the file
//! NAME.answer says. A file FAMILY.axioms is one case too: it is what the family's name writes.
#![tactic(auto)]

mod calls;
mod codes;
mod examples;
mod failing;
mod fewer;
mod linked;
mod solved;
mod states;
mod subjects;
mod texts;
mod trimming;

use std::process::ExitCode;
use subjects::Subject;

fn main(rt: HostRuntime) -> ExitCode {
    case_files::run::<Subject>(&rt)
}

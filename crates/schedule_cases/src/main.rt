//! Runs cases of equalities and of schedules: rules, E-graphs, matches and rounds of them; schedules, their listings,
//! the formulas that ask for them, and the solver and the checker of refutations.
#![tactic(auto)]

mod building;
mod clauses;
mod equalities;
mod formulas;
mod launches;
mod rounds;
mod schedules;
mod scripts;
mod searches;
mod subjects;

use std::process::ExitCode;
use subjects::Subject;

fn main(rt: HostRuntime) -> ExitCode {
    case_files::run::<Subject>(&rt)
}

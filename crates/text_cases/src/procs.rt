// The texts of procs, and of their goals: what is read is printed again.
ghost use Rattle.std.specs.Prelude.{◌≤◌, ◌^◌, length};

use case_files::{Trouble, faulty, put};
use proc_goal::{input_of, print, read};
use std::alloc::Global;

/// The canonical text of a proc, a line `goals`, and the canonical text of its goals; or the fault of the text.
pub(crate) fn procs(alloc: Global, input: &[u8]) -> Result<Vec<u8>, Trouble>
    requires { length input.now ≤ 2 ^ 24 }
{
    let proc = match read(alloc, input) {
        Ok(proc) => proc,
        Err(fault) => return faulty(alloc, fault),
    };
    let mut report = print(alloc, &proc)?;
    put(&mut report, b"goals\n")?;
    let goals = input_of(alloc, &proc)?;
    put(&mut report, &goal_reader::print(alloc, &goals)?)?;
    Ok(report)
}

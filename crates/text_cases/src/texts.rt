// The texts of goals: what is read is printed again.
ghost use Rattle.std.specs.Prelude.{◌≤◌, ◌^◌, length};

use case_files::{Trouble, faulty};
use std::alloc::Global;

/// The canonical text of goals, or the fault of the text.
pub(crate) fn goals(alloc: Global, input: &[u8]) -> Result<Vec<u8>, Trouble>
    requires { length input.now ≤ 2 ^ 24 }
{
    match goal_reader::read(alloc, input) {
        Ok(read) => Ok(goal_reader::print(alloc, &read)?),
        Err(fault) => faulty(alloc, fault),
    }
}

// What a program of cases can be asked.
ghost use Rattle.std.specs.Prelude.{◌≤◌, ◌^◌, length};

use crate::reports::Trouble;
use std::alloc::Global;

/// What the cases of a file ask: one of a program's subjects.
pub trait Subject: Copy {
    /// The subject of this name.
    fn named(name: &[u8]) -> Option<Self>;

    /// What the subject answers to an input.
    fn answer(self, alloc: Global, input: &[u8]) -> Result<Vec<u8>, Trouble>
        requires { length input.now ≤ 2 ^ 24 };

    /// What a file whose name ends like this is, if it is one case.
    fn whole_file(_ending: &str) -> Option<Whole<Self>> {
        None
    }
}

/// A file that is one case.
#[derive(Clone, Copy)]
pub enum Whole<S> {
    /// It is the subject's input, and what is wanted lies beside it, in the file whose name ends with `.answer`.
    Input(S),
    /// It is what is wanted of the subject for the file's own name.
    Wanted(S),
}

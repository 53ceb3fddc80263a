// Which row is launched when and where, and what a row reads.
ghost use Rattle.std.specs.Prelude.{◌≡◌};
ghost use Rattle.schedule_meaning.specs.Groups.{group_number};

use items::Items;

/// The most cycles of a schedule that is asked for.
pub const MOST_CYCLES: u32 = 24;

/// Where the word of a launch goes: to a register of its own from the pool, or to the register to which the set of this
/// number is pinned. The pool comes first.
#[derive(Clone, Copy, PartialEq, Eq, PartialOrd, Ord)]
pub enum To {
    Pool,
    Set(u32),
}

/// A row in a slot in a cycle, each counted from 0. The row one past the last is the branch, and behind it each pinned
/// set has the row of its copy. Launches are ordered by cycle, then by slot, then by row, then by where they go.
#[derive(Clone, Copy, PartialEq, Eq, PartialOrd, Ord)]
pub struct Launch {
    pub cycle: u32,
    pub slot: u32,
    pub row: u32,
    pub to: To,
}

/// How long a launch keeps its register of the pool.
#[derive(Clone, Copy, PartialEq, Eq)]
pub enum Allocation {
    /// To the end of the block.
    Block,
    /// As long as its class is needed.
    Live,
}

/// The launches of a graph, in any order.
#[derive(Drop)]
pub struct Schedule {
    pub launches: Items<Launch>,
}

/// A part of a cycle. The words of its launches stand part by part, and within a part by slot.
#[derive(Clone, Copy, PartialEq, Eq)]
pub enum Group {
    /// Operates, copies, and loads that need not wait.
    Free,
    Branch,
    /// Loads that wait for the branch.
    HeldLoad,
    Store,
    /// What overwrites an input.
    Overwriting,
}

impl Group {
    /// From 0 to 4, in the order in which the parts stand.
    pub fn number(self) -> u8
        ensures { result ≡ group_number self }
    {
        match self {
            Group::Free => 0,
            Group::Branch => 1,
            Group::HeldLoad => 2,
            Group::Store => 3,
            Group::Overwriting => 4,
        }
    }
}

/// The class of a word operand, and whether it is the second operand of an operate, which may be a literal.
#[derive(Clone, Copy)]
pub struct Operand {
    pub class: u32,
    pub second: bool,
}

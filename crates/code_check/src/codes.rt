// Codes and what is said of them.
use goal_meaning::Input;
use graph_meaning::Stop;
use items::Items;

/// The register in which a code leaves a target, the one of this number among the goal's.
#[derive(Clone, Copy)]
pub struct At {
    pub set: u32,
    pub reg: u8,
}

/// Words that are to be a goal, the one of this number among the input's.
#[derive(Drop)]
pub struct Code {
    pub goal: u32,
    pub words: Items<u32>,
    pub places: Items<At>,
}

/// An input and codes for its goals.
#[derive(Drop)]
pub struct Checked {
    pub input: Input,
    pub codes: Items<Code>,
}

/// What is compared of a code and its goal.
#[derive(Clone, Copy)]
pub enum Part {
    /// The address of the word of this number, where the word may trap.
    Trap(u32),
    Guard,
    Exit,
    Set(u32),
    Memory,
}

/// What a check of a code says.
#[derive(Clone, Copy)]
pub enum Verified {
    /// The words have the goal's outcome in each world in which axioms and assumptions hold.
    Yes,
    /// This part isn't known to be the same after these rounds.
    Unknown { rounds: u32, stop: Stop, part: Part },
    /// The different constants `a` and `b` are equal, so axioms and assumptions hold in no world.
    NoWorld { class: u32, a: u64, b: u64 },
}

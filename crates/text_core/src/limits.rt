// How many of everything a text may have: the numbers of `specs/Limits`.

/// Lists that stand inside one another.
pub const MOST_NESTING: usize = 64;

/// Goals of a text, and of an answer.
pub const MOST_GOALS: usize = 64;

/// Operators that a text declares.
pub const MOST_DECLARED: usize = 16;

/// Axioms of a text.
pub const MOST_AXIOMS: usize = 64;

/// Variables of an axiom.
pub const MOST_VARIABLES: usize = 8;

/// Inputs of a goal, and variables of a proc.
pub const MOST_INPUTS: usize = 16;

/// Assumptions of a goal.
pub const MOST_ASSUMES: usize = 16;

/// Sets of a goal, and of a block of a proc.
pub const MOST_SETS: usize = 16;

/// Blocks of a proc.
pub const MOST_BLOCKS: usize = 64;

/// Codes of a text of goals and codes.
pub const MOST_CODES: usize = 64;

/// Words of a code.
pub const MOST_CODE_WORDS: usize = 4096;

/// Words of a program that is run.
pub const MOST_WORDS: usize = 4096;

/// Places of memory that a program is given.
pub const MOST_PLACES: usize = 4096;

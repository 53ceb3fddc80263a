// What is said behind an answer.
use answer_texts::AnswerText;
use cnf_core::Lines;
use items::Items;

/// What is said of a schedule with so many launches.
#[derive(Drop)]
pub enum Tail {
    /// No schedule has fewer, which the lines show. Without launches there are no lines.
    Least {
        launches: u32,
        lines: Lines,
    },
    /// One with fewer was looked for until the budget was spent, which the lemmas show.
    Spent {
        launches: u32,
        lines: Lines,
    },
    /// The clauses for one launch fewer are too large: they would have so many variables and clauses.
    Size {
        launches: u32,
        vars: u64,
        clauses: u64,
    },
}

/// The first line of what is said of a schedule.
#[derive(Clone, Copy)]
pub(crate) enum TailLine {
    Least {
        launches: u32,
        count: u32,
    },
    Spent {
        launches: u32,
        count: u32,
    },
    Size {
        launches: u32,
        vars: u64,
        clauses: u64,
    },
}

/// An answer, and for each of its goals what is said behind it, if something is: of the goals that are scheduled.
#[derive(Drop)]
pub struct Tailed {
    pub answer: AnswerText,
    pub said: Items<Option<Tail>>,
}

// What the program can do, and what it reads for that.
ghost use Rattle.std.specs.Prelude.{◌≡◌, ◌≤◌};
ghost use Rattle.denali_cli.specs.Formats as specs;

use axiom_library::Library;
use denali_run::Settings;

/// What words ask for.
#[derive(Clone, Copy)]
pub(crate) enum Command {
    /// Answers a text of goals.
    Solve(Settings),
    /// Answers a text of goals with schedules of the fewest launches.
    SolveLeast(Settings),
    /// Answers a text of a proc, and links its blocks.
    Proc(Settings),
    /// Tests what an answer claims.
    Check,
    /// Tests what an answer claims, and what is said behind it of the numbers of launches.
    CheckLeast,
    /// Trims the refutations of an answer.
    Trim,
    /// Checks codes against their goals, in so many rounds and up to so many rows, with the rules of a library beside
    /// those of the text.
    Verify {
        rounds: u32,
        nodes: u32,
        library: Library,
    },
    /// Runs the program of a text.
    Run,
    /// Solves the goal that is made from a number of operators.
    Gen(u32),
    /// Writes the clauses for so many cycles of the goal of a number in an answer, counted from 1.
    Cnf {
        goal: u32,
        cycles: u32,
    },
    /// Writes the goals of machine words.
    Lift,
    /// Answers machine words with words that do the same in the fewest cycles.
    Improve(Settings),
    /// The same with the fewest launches.
    ImproveLeast(Settings),
    /// Tells in how many cycles machine words can be done, of so many at most and with so many conflicts for each.
    Cycles {
        cycles: u32,
        conflicts: u32,
    },
}

/// What a text is that a command reads.
#[derive(Clone, Copy)]
pub(crate) enum Format {
    Goals,
    Proc,
    Answer,
    /// An answer, and behind it what is said of the numbers of launches.
    TailedAnswer,
    /// Goals and codes for them.
    Codes,
    Program,
    /// Machine words, and which registers count behind them.
    Lifts,
}

impl Command {
    /// The format of the text that it reads, if it reads.
    pub(crate) fn format(self) -> Option<Format>
        ensures { result ≡ specs.format_of self }
    {
        match self {
            Command::Solve(_) | Command::SolveLeast(_) => Some(Format::Goals),
            Command::Proc(_) => Some(Format::Proc),
            Command::Check | Command::Trim | Command::Cnf { .. } => Some(Format::Answer),
            Command::CheckLeast => Some(Format::TailedAnswer),
            Command::Verify { .. } => Some(Format::Codes),
            Command::Run => Some(Format::Program),
            Command::Gen(_) => None,
            Command::Lift
            | Command::Improve(_)
            | Command::ImproveLeast(_)
            | Command::Cycles { .. } => Some(Format::Lifts),
        }
    }
}

impl Format {
    /// The most bytes of a text that is read. An answer may be long.
    pub(crate) fn limit(self) -> u32
        ensures value { result ≡ specs.limit self }
        ensures small { result ≤ 268435456 }
    {
        match self {
            Format::Goals | Format::Proc | Format::Codes | Format::Program | Format::Lifts =>
                1048576,
            Format::Answer | Format::TailedAnswer => 268435456,
        }
    }
}

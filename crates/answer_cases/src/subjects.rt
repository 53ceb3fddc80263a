// What these cases ask: the subjects by their names.
use crate::{calls, codes, examples, failing, fewer, linked, solved, texts, trimming};
use case_files::{Trouble, Whole};
use denali_run::check_text;
use least_launch::check_least_text;
use refute_trim::trim_text;
use std::alloc::Global;

/// What the cases of a file ask.
#[derive(Clone, Copy, PartialEq, Eq)]
pub(crate) enum Subject {
    Answers,
    /// The lines of the verdicts on an answer and the status, or the fault of the text.
    Verdicts,
    /// The same of an answer with lines behind it.
    LeastVerdicts,
    /// The answer with its refutations trimmed, or the line of the first rejected goal, and the status; or the fault of
    /// the text.
    Trims,
    TrimmedLines,
    Fewer,
    Commands,
    Failing,
    Solved,
    LeastSolved,
    Linked,
    Verify,
    /// What `solve` without options writes of goals.
    Goal,
    /// What `proc` without options writes of a proc.
    Proc,
    Family,
}

/// The name of each subject.
const NAMES: [(&str, Subject); 12] = [
    ("answers", Subject::Answers),
    ("verdicts", Subject::Verdicts),
    ("least-verdicts", Subject::LeastVerdicts),
    ("trims", Subject::Trims),
    ("trimmed-lines", Subject::TrimmedLines),
    ("fewer", Subject::Fewer),
    ("commands", Subject::Commands),
    ("failing", Subject::Failing),
    ("solved", Subject::Solved),
    ("least-solved", Subject::LeastSolved),
    ("linked", Subject::Linked),
    ("verify", Subject::Verify),
];

impl case_files::Subject for Subject {
    fn named(name: &[u8]) -> Option<Subject> {
        for (known, subject) in &NAMES {
            if known.as_bytes() == name {
                return Some(*subject);
            }
        }
        None
    }

    fn answer(self, alloc: Global, input: &[u8]) -> Result<Vec<u8>, Trouble> {
        match self {
            Subject::Answers => texts::answers(alloc, input),
            Subject::Verdicts => texts::reported(alloc, check_text(alloc, input)),
            Subject::LeastVerdicts => texts::reported(alloc, check_least_text(alloc, input)),
            Subject::Trims => texts::reported(alloc, trim_text(alloc, input)),
            Subject::TrimmedLines => trimming::trimmed_lines(alloc, input),
            Subject::Fewer => fewer::fewer(alloc, input),
            Subject::Commands => calls::commands(alloc, input),
            Subject::Failing => failing::failing(alloc, input),
            Subject::Solved => solved::solved(alloc, input),
            Subject::LeastSolved => solved::least_solved(alloc, input),
            Subject::Linked => linked::linked(alloc, input),
            Subject::Verify => codes::verified(alloc, input),
            Subject::Goal => calls::written_by(alloc, b"solve", input),
            Subject::Proc => calls::written_by(alloc, b"proc", input),
            Subject::Family => examples::family(alloc, input),
        }
    }

    fn whole_file(ending: &str) -> Option<Whole<Subject>> {
        match ending {
            "goal" => Some(Whole::Input(Subject::Goal)),
            "proc" => Some(Whole::Input(Subject::Proc)),
            "axioms" => Some(Whole::Wanted(Subject::Family)),
            _ => None,
        }
    }
}

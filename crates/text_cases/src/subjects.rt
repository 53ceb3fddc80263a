// What these cases ask: the subjects by their names.
use crate::{graphs, machine, procs, streams, tables, terms, texts, tokens, worlds};
use case_files::Trouble;
use std::alloc::Global;

/// What the cases of a file ask.
#[derive(Clone, Copy, PartialEq, Eq)]
pub(crate) enum Subject {
    Decimals,
    Tokens,
    Trees,
    Lines,
    Goals,
    Terms,
    Procs,
    Tables,
    Instructions,
    Graphs,
    Multiples,
    Operators,
    Memories,
    Words,
    Programs,
    Reads,
    Writes,
}

/// The name of each subject.
const NAMES: [(&str, Subject); 17] = [
    ("decimals", Subject::Decimals),
    ("tokens", Subject::Tokens),
    ("trees", Subject::Trees),
    ("lines", Subject::Lines),
    ("goals", Subject::Goals),
    ("terms", Subject::Terms),
    ("procs", Subject::Procs),
    ("tables", Subject::Tables),
    ("instructions", Subject::Instructions),
    ("graphs", Subject::Graphs),
    ("multiples", Subject::Multiples),
    ("operators", Subject::Operators),
    ("memories", Subject::Memories),
    ("words", Subject::Words),
    ("programs", Subject::Programs),
    ("reads", Subject::Reads),
    ("writes", Subject::Writes),
];

impl case_files::Subject for Subject {
    fn named(name: &[u8]) -> Option<Subject> {
        for (known, subject) in &NAMES {
            if known.as_bytes() == name {
                return Some(*subject);
            }
        }
        None
    }

    fn answer(self, alloc: Global, input: &[u8]) -> Result<Vec<u8>, Trouble> {
        match self {
            Subject::Decimals => tokens::decimals(alloc, input),
            Subject::Tokens => tokens::tokens(alloc, input),
            Subject::Trees => tokens::trees(alloc, input),
            Subject::Lines => tokens::lines(alloc, input),
            Subject::Goals => texts::goals(alloc, input),
            Subject::Terms => terms::terms(alloc, input),
            Subject::Procs => procs::procs(alloc, input),
            Subject::Tables => tables::tables(alloc, input),
            Subject::Instructions => tables::instructions(alloc, input),
            Subject::Graphs => graphs::graphs(alloc, input),
            Subject::Multiples => graphs::multiples(alloc, input),
            Subject::Operators => worlds::operators(alloc, input),
            Subject::Memories => worlds::memories(alloc, input),
            Subject::Words => machine::words(alloc, input),
            Subject::Programs => machine::programs(alloc, input),
            Subject::Reads => streams::reads(alloc, input),
            Subject::Writes => streams::writes(alloc, input),
        }
    }
}

// What these cases ask: the subjects by their names.
use crate::{clauses, equalities, formulas, rounds, schedules, scripts, searches};
use case_files::Trouble;
use cycle_encoding::Encoding;
use schedule_meaning::Allocation;
use std::alloc::Global;

/// What the cases of a file ask.
#[derive(Clone, Copy, PartialEq, Eq)]
pub(crate) enum Subject {
    Equations,
    Computed,
    Constants,
    Scripts,
    Rounds,
    Launched,
    Generated,
    Fits,
    LiveFits,
    Listings,
    LiveListings,
    Formulas,
    NarrowFormulas,
    PinnedFormulas,
    LiveFormulas,
    Counters,
    LineTexts,
    Refutations,
    Searches,
}

/// The name of each subject.
const NAMES: [(&str, Subject); 19] = [
    ("equations", Subject::Equations),
    ("computed", Subject::Computed),
    ("constants", Subject::Constants),
    ("scripts", Subject::Scripts),
    ("rounds", Subject::Rounds),
    ("launched", Subject::Launched),
    ("generated", Subject::Generated),
    ("fits", Subject::Fits),
    ("live-fits", Subject::LiveFits),
    ("listings", Subject::Listings),
    ("live-listings", Subject::LiveListings),
    ("formulas", Subject::Formulas),
    ("narrow-formulas", Subject::NarrowFormulas),
    ("pinned-formulas", Subject::PinnedFormulas),
    ("live-formulas", Subject::LiveFormulas),
    ("counters", Subject::Counters),
    ("line-texts", Subject::LineTexts),
    ("refutations", Subject::Refutations),
    ("searches", Subject::Searches),
];

impl case_files::Subject for Subject {
    fn named(name: &[u8]) -> Option<Subject> {
        for (known, subject) in &NAMES {
            if known.as_bytes() == name {
                return Some(*subject);
            }
        }
        None
    }

    fn answer(self, alloc: Global, input: &[u8]) -> Result<Vec<u8>, Trouble> {
        match self {
            Subject::Equations => equalities::equations(alloc, input),
            Subject::Computed => equalities::computed(alloc, input),
            Subject::Constants => equalities::constants(alloc, input),
            Subject::Scripts => scripts::scripts(alloc, input),
            Subject::Rounds => rounds::rounds(alloc, input),
            Subject::Launched => rounds::launched(alloc, input),
            Subject::Generated => rounds::generated(alloc, input),
            Subject::Fits => schedules::fits(alloc, Allocation::Block, input),
            Subject::LiveFits => schedules::fits(alloc, Allocation::Live, input),
            Subject::Listings => schedules::listings(alloc, Allocation::Block, input),
            Subject::LiveListings => schedules::listings(alloc, Allocation::Live, input),
            Subject::Formulas => formulas::formulas(alloc, input),
            Subject::NarrowFormulas => formulas::formulas_as(alloc, Encoding::Narrow, input),
            Subject::PinnedFormulas => formulas::formulas_as(alloc, Encoding::Pinned, input),
            Subject::LiveFormulas => formulas::formulas_as(alloc, Encoding::Live, input),
            Subject::Counters => clauses::counters(alloc, input),
            Subject::LineTexts => clauses::line_texts(alloc, input),
            Subject::Refutations => clauses::refutations(alloc, input),
            Subject::Searches => searches::searches(alloc, input),
        }
    }
}

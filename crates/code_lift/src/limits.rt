// How many of everything a text of lifts may have.

/// Lifts of a text.
pub(crate) const MOST_LIFTS: usize = 64;

/// Words of a lift.
pub(crate) const MOST_LIFT_WORDS: usize = 256;

// What is known of a formula to which a part is added.
use cycle_encoding::{Frame, OverwrittenVars, Sizes};
use schedule_meaning::Launch;
use slot_capacity::Capacity;

/// The counts of the formula of cycles, slots and values and of what memory adds to it, and how many of the variables that
/// memory adds are of what is held: those of cycles with a store come behind them, and those of the branch behind all.
#[derive(Clone, Copy)]
pub struct FirstSizes {
    pub cycle: Sizes,
    pub memory: Sizes,
    pub held: u64,
}

/// Over what a formula is, the counts of its first parts, the launches of its first variables, what is overwritten, and
/// what it says of due classes.
#[derive(Clone, Copy)]
pub struct Plan<'a> {
    pub frame: Frame<'a>,
    pub sizes: FirstSizes,
    pub launches: &'a [Launch],
    pub over: &'a OverwrittenVars,
    pub capacity: &'a Capacity,
}

// Lifts: machine words, and what of theirs counts.
use items::Items;
use machine_table::Table;
use text_core::Name;

/// Words without a branch, the registers whose values count afterwards, and those that other words for them may write,
/// where they are given.
#[derive(Drop)]
pub struct Lift {
    pub name: Name,
    pub words: Items<u32>,
    pub out: Items<u8>,
    pub pool: Option<Items<u8>>,
}

/// What a text of lifts says. `builtin` is true where the text has no machine form.
#[derive(Drop)]
pub struct Lifts {
    pub table: Table,
    pub builtin: bool,
    pub lifts: Items<Lift>,
}

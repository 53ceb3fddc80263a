// A program with what it begins with.

use items::Items;

/// The word that a register, 0 to 30, holds at first.
#[derive(Clone, Copy)]
pub struct RegisterWord {
    pub register: u8,
    pub word: u64,
}

/// The word that the place of an address holds at first. The place is the address divided by 8.
#[derive(Clone, Copy)]
pub struct PlaceWord {
    pub address: u64,
    pub word: u64,
}

/// A program: its instruction words, and what registers and places hold at first. All others hold 0.
#[derive(Drop)]
pub struct RunText {
    pub words: Items<u32>,
    pub registers: Items<RegisterWord>,
    pub places: Items<PlaceWord>,
}

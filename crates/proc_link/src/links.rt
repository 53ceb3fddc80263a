// Blocks linked into one list of words.
use items::Items;

/// The words of a proc's blocks, one behind the other, and the address of each block's first word, in bytes. The proc's
/// end is behind the last word.
#[derive(Drop)]
pub struct Linked {
    pub words: Items<u32>,
    pub starts: Items<u32>,
}

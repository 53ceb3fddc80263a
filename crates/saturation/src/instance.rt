// What a match asks for.
use items::Items;
use word_ops::Op;
use word_terms::Term;

/// A rewrite to apply: build `right` with its variables bound to `places`, and merge it with `class`. The classes may
/// be any that were ever made.
#[derive(Drop)]
pub struct Instance {
    pub right: Term<Op>,
    pub places: Items<u32>,
    pub class: u32,
}

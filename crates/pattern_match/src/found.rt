// What is found in a graph.
ghost use Rattle.std.specs.Prelude.{◌≡◌, IfOk};

use axiom_base::Given;
use items::{Items, NoMemory};
use std::alloc::Global;

/// A match of a rule: a class for each of the rule's variables, in the order of their numbers, and the class of its
/// left side. A match of a computed rule also has the constants that the rule's right side is made with; a match of
/// another rule has none.
#[derive(Drop)]
pub struct Match {
    pub classes: Items<u32>,
    pub class: u32,
    pub given: Option<Given>,
}

impl Match {
    /// The same match with these constants.
    pub(crate) fn with(&self, alloc: Global, given: Option<Given>) -> Result<Match, NoMemory>
        ensures { IfOk result (λ m. m ≡ record { classes = self.now.classes; class = self.now.class; given = given }) }
    {
        Ok(Match {
            classes: Items::from_slice(alloc, self.classes.as_slice())?,
            class: self.class,
            given,
        })
    }
}

/// A match of folding: the class of an application of an operator to constants, and the constant that this gives.
#[derive(Clone, Copy)]
pub struct Fold {
    pub class: u32,
    pub value: u64,
}

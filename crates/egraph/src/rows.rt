// Rows, and reading and moving the classes that they name.
ghost use Rattle.std.specs.Prelude.{◌≡◌, ◌↔◌, map, slice_index, IsTrue, IfOk};
ghost use Rattle.word_terms.specs.Signature.{HasWordConstant};
ghost use Rattle.egraph.specs.Graph.{Agree, AreMade};
ghost use Rattle.egraph.specs.Steps.{moved};

use items::{Items, NoMemory};
use std::alloc::Global;
use word_terms::{Operator, same_operator};

/// An operator applied to classes, and the class of what it gives.
#[derive(Drop)]
pub struct Row<O> {
    pub op: O,
    pub operands: Items<u32>,
    pub class: u32,
}

/// The classes that these are in at present.
pub(crate) fn read_all(
    alloc: Global,
    current: &[u32],
    classes: &[u32],
) -> Result<Vec<u32>, NoMemory>
    requires { AreMade current.now classes.now }
    ensures { IfOk result (λ present. present.items ≡ map (slice_index current.now) classes.now) }
{
    let mut present = Vec::new(alloc);
    for class in classes {
        present.push(current[*class as usize])?;
    }
    Ok(present)
}

/// Whether `present` are the classes that `classes` are in.
pub(crate) fn reads_as(present: &[u32], classes: &[u32], current: &[u32]) -> bool
    requires { AreMade current.now classes.now }
    ensures { IsTrue result ↔ (present.now ≡ map (slice_index current.now) classes.now) }
{
    if present.len() != classes.len() {
        return false;
    }
    for (at, class) in classes.iter().enumerate() {
        if present[at] != current[*class as usize] {
            return false;
        }
    }
    true
}

pub(crate) fn moved_class(class: u32, from: u32, to: u32) -> u32
    ensures { result ≡ moved from to class }
{
    if class == from { to } else { class }
}

/// Puts `to` in place of `from`.
pub(crate) fn move_all(classes: &mut [u32], from: u32, to: u32)
    ensures { classes.new ≡ map (moved from to) classes.old }
{
    for class in classes.iter_mut() {
        *class = moved_class(*class, from, to);
    }
}

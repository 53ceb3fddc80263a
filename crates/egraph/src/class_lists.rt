// A list of numbers for each class.
ghost use Rattle.egraph.specs.Keys.{listed_at};
ghost use Rattle.std.specs.Prelude.{◌≡◌, ◌≢◌, ◌<◌, ℕ, [], ◌∷◌, ◌++◌, length, OnOk, OnErr};

use items::{Items, NoMemory};
use std::alloc::Global;
use std::marker::Model;
use std::mem;

/// A list for each number from 0, empty at first.
#[derive(Drop)]
pub struct Lists {
    lists: Vec<Items<usize>>,
    alloc: Global,
}

impl Model for Lists {
    ghost use Rattle.std.specs.Prelude.{ℕ, List};

    ghost Value = { List (List ℕ) };

    ghost view = { λ a. a.lists.items };
}

impl Lists {
    pub fn new(alloc: Global) -> Lists
        ensures { (class : ℕ) → listed_at result class ≡ [] }
    {
        Lists {
            lists: Vec::new(alloc),
            alloc,
        }
    }

    /// The length of a list.
    pub fn count(&self, at: u32) -> usize
        ensures { result ≡ length (listed_at self.now at) }
    {
        match self.lists.get(at as usize) {
            Some(list) => list.len(),
            None => 0,
        }
    }

    /// Puts a number at the end of a list.
    pub fn add(&mut self, at: u32, number: usize) -> Result<(), NoMemory>
        ensures added { OnOk result (listed_at self.new at ≡ listed_at self.old at ++ number ∷ []) }
        ensures others { (class : ℕ) → class ≢ at → listed_at self.new class ≡ listed_at self.old class }
        ensures err { OnErr result ((class : ℕ) → listed_at self.new class ≡ listed_at self.old class) }
    {
        cover(self.alloc, &mut self.lists, at as usize)?;
        self.lists[at as usize].push(number)
    }

    /// Puts numbers at the end of a list.
    pub fn add_all(&mut self, at: u32, numbers: Vec<usize>) -> Result<(), NoMemory>
        ensures added { OnOk result (listed_at self.new at ≡ listed_at self.old at ++ numbers.items) }
        ensures others { OnOk result ((class : ℕ) → class ≢ at → listed_at self.new class ≡ listed_at self.old class) }
    {
        let mut numbers = numbers;
        let mut list = self.take(at);
        list.append(&mut numbers)?;
        cover(self.alloc, &mut self.lists, at as usize)?;
        self.lists[at as usize] = Items::from(list);
        Ok(())
    }

    /// Takes a list out, and leaves an empty one.
    pub fn take(&mut self, at: u32) -> Vec<usize>
        ensures taken { result.items ≡ listed_at self.old at }
        ensures empty { listed_at self.new at ≡ [] }
        ensures others { (class : ℕ) → class ≢ at → listed_at self.new class ≡ listed_at self.old class }
    {
        let empty = Items::new(self.alloc);
        match self.lists.get_mut(at as usize) {
            Some(list) => mem::replace(list, empty).into_vec(),
            None => empty.into_vec(),
        }
    }
}

/// Puts empty lists at the end until there is one at this place.
fn cover(alloc: Global, lists: &mut Vec<Items<usize>>, at: usize) -> Result<(), NoMemory>
    ensures same { (class : ℕ) → listed_at lists.new.items class ≡ listed_at lists.old.items class }
    ensures there { OnOk result (at < length lists.new.items) }
{
    while lists.len() <= at {
        lists.push(Items::new(alloc))?;
    }
    Ok(())
}

// A memory of words.
ghost use Rattle.std.specs.Prelude.{◌≡◌, ℕ, ◌<◌, ◌^◌, OnOk, OnErr, IfOk, IsOk, map as mapped};
ghost use Rattle.std.specs.List.Sorted.{IsStrictlyIncreasing};
ghost use Rattle.std.specs.FinMap as map;
ghost use Rattle.word_ops.specs.Memory as memory;

use items::NoMemory;
use std::alloc::Global;
use std::collections::BTreeMap;
use std::marker::Model;

/// A memory of 2 ^ 61 places, each of which holds a 64-bit word. A place is an address divided by 8. Only places that
/// don't hold 0 take room; `get` and `set` cost the logarithm of their number.
#[derive(Drop)]
pub struct Mem {
    words: BTreeMap<u64, u64>,
    alloc: Global,
}

impl Model for Mem {
    ghost use Rattle.std.specs.Prelude.{◌<◌, ◌^◌};
    ghost use Rattle.std.specs.FinMap as map;
    ghost use Rattle.std.specs.Coded.{coded_ℕ};
    ghost use Rattle.word_ops.specs.Memory as memory;

    ghost Value = { memory.Memory };

    ghost coded = { map.code coded_ℕ coded_ℕ };

    ghost view = { λ a. map.from_entries a.words.entries };

    ghost invariant = { λ a. memory.IsMemory (map.from_entries a.words.entries) };
}

impl Mem {
    /// A memory that holds 0 everywhere; it takes no room.
    pub fn new(alloc: Global) -> Mem
        ensures empty { result ≡ map.empty }
        ensures is_memory { memory.IsMemory result }
    {
        Mem {
            words: BTreeMap::new(alloc),
            alloc,
        }
    }

    /// Does nothing. Its clause says what each memory is.
    pub fn holds_words(&self)
        ensures is_memory { memory.IsMemory self.now }
    {
        let _words = &self.words;
    }

    pub fn get(&self, place: u64) -> u64
        requires { place < 2 ^ 61 }
        ensures is_memory { memory.IsMemory self.now }
        ensures word { result ≡ memory.word_at self.now place }
    {
        match self.words.get(&place) {
            Some(word) => *word,
            None => 0,
        }
    }

    /// Puts a word at a place.
    pub fn set(&mut self, place: u64, word: u64) -> Result<(), NoMemory>
        requires { place < 2 ^ 61 }
        ensures was_memory { memory.IsMemory self.old }
        ensures is_memory { memory.IsMemory self.new }
        ensures ok { OnOk result (self.new ≡ memory.put_word self.old place word) }
        ensures err { OnErr result (self.new ≡ self.old) }
        ensures zero { word ≡ 0 → IsOk result }
    {
        if word == 0 {
            self.words.remove(&place);
            return Ok(());
        }
        self.words.insert(place, word)?;
        Ok(())
    }

    pub fn copy(&self) -> Result<Mem, NoMemory>
        ensures is_memory { memory.IsMemory self.now }
        ensures same { IfOk result (λ copy. copy ≡ self.now) }
    {
        Ok(Mem {
            words: self.words.clone()?,
            alloc: self.alloc,
        })
    }

    /// The places that don't hold 0, rising, with their words.
    pub fn entries(&self) -> Result<Vec<(u64, u64)>, NoMemory>
        ensures is_memory { memory.IsMemory self.now }
        ensures listed { IfOk result (λ pairs. pairs.items ≡ map.entries self.now) }
        ensures rising { IfOk result (λ pairs. IsStrictlyIncreasing (mapped (λ pair. pair.0) pairs.items)) }
    {
        let mut pairs = Vec::with_capacity(self.alloc, self.words.len())?;
        for (place, word) in &self.words {
            pairs.push((*place, *word))?;
        }
        Ok(pairs)
    }
}

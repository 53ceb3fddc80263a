// The families that words ask for.
ghost use Rattle.std.specs.Prelude.{◌≡◌, IfOk, map};
ghost use Rattle.text_core.specs.Names.{is_among};
ghost use Rattle.axiom_texts.specs.Asked as meant;
ghost use Rattle.axiom_texts.specs.Asked.{families_asked_by, families_named};

use crate::names::written_named;
use axiom_library::Family;
use items::{Items, NoMemory};
use std::alloc::Global;

/// The families of these names. None where a word is no name.
fn all_named(alloc: Global, words: &[&str]) -> Result<Option<Items<Family>>, NoMemory>
    ensures { IfOk result (λ families. families ≡ families_named (map (λ word. word.now) words.now)) }
{
    let mut families = Items::new(alloc);
    for word in words {
        let Some(family) = written_named(word.as_bytes()) else {
            return Ok(None);
        };
        families.push(family)?;
    }
    Ok(Some(families))
}

/// Whether the word is one of these.
fn is_one_of(words: &[&str], word: &str) -> bool
    ensures { result ≡ is_among (map (λ other. other.now) words.now) word.now }
{
    for other in words {
        if *other == word {
            return true;
        }
    }
    false
}

/// Whether no two words are the same.
fn differ(words: &[&str]) -> bool
    ensures { result ≡ meant.differ (map (λ word. word.now) words.now) }
{
    for at in 0..words.len() {
        if is_one_of(&words[at + 1..], words[at]) {
            return false;
        }
    }
    true
}

/// The families that the words ask for, if they do. That each word is a name is seen first: so the words before the
/// first one that stands twice are few.
pub(crate) fn asked(alloc: Global, words: &[&str]) -> Result<Option<Items<Family>>, NoMemory>
    ensures { IfOk result (λ families. families ≡ families_asked_by words.now) }
{
    let families = all_named(alloc, words)?;
    if words.is_empty() || !differ(words) {
        return Ok(None);
    }
    Ok(families)
}

// The words of a listing.
ghost use Rattle.std.specs.Prelude.{◌≡◌, ◌<◌, ◌^◌, All, IfOk, map};
ghost use Rattle.alpha_encode.specs.Formats.{encoded};
ghost use Rattle.register_assign.specs.Assigned.{HaveWords};
ghost use Rattle.register_assign.specs.Outcomes.{AreWordsOf};

use crate::listings::Item;
use alpha_encode::encode;
use items::NoMemory;
use std::alloc::Global;

/// The word of each item, in order.
#[tactic(auto, using(crate::proofs::WordByWord::words_all, crate::proofs::WordByWord::encoded_all))]
pub fn words_of(alloc: Global, items: &[Item]) -> Result<Vec<u32>, NoMemory>
    requires { HaveWords items.now }
    ensures words { IfOk result (λ words. words.items ≡ map (λ a. encoded a.instr) items.now) }
    ensures low { IfOk result (λ words. All (λ word. word < 2 ^ 32) words.items) }
    ensures decode { IfOk result (λ words. AreWordsOf items.now words.items) }
{
    let mut words = Vec::new(alloc);
    for item in items {
        words.push(encode(item.instr))?;
    }
    Ok(words)
}

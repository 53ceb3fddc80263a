// The constants of classes.
ghost use Rattle.std.specs.Prelude.{ℕ, List, All, MatchOption, IfOk};
ghost use Rattle.word_terms.specs.Keys.{op_signature};
ghost use Rattle.egraph.specs.Graph.{IsGraph, HasClass};
ghost use Rattle.pattern_match.specs.Matches.{HaveConstants};

use egraph::{Egraph, rows_name_present_classes};
use items::NoMemory;
use std::alloc::Global;
use word_ops::Op;

/// The constant of each of the classes, or `None` where one has none.
pub(crate) fn constants_at(
    alloc: Global,
    graph: &Egraph<Op>,
    classes: &[u32],
) -> Result<Option<Vec<u64>>, NoMemory>
    requires graph { IsGraph op_signature graph.now }
    requires present { All (HasClass graph.now) classes.now }
    ensures exact { IfOk result (λ found. MatchOption found
        ((words : List ℕ) → ¬ HaveConstants graph.now classes.now words)
        (λ words. HaveConstants graph.now classes.now words.items)) }
{
    rows_name_present_classes::<Op>();
    let mut words = Vec::new(alloc);
    for class in classes {
        let Some(word) = graph.constant_of(*class) else {
            return Ok(None);
        };
        words.push(word)?;
    }
    Ok(Some(words))
}

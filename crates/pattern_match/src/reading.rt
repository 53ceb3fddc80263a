// The class of a pattern.
ghost use Rattle.std.specs.Prelude.{ℕ, ◌↔◌, IsTrue, MatchOption, IfOk};
ghost use Rattle.word_terms.specs.View.{tree_of};
ghost use Rattle.pattern_match.specs.Classes.{IsClass, CanFindClass};

use egraph::Egraph;
use items::NoMemory;
use std::alloc::Global;
use word_ops::Op;
use word_terms::Term;

/// The class of the pattern where its variables stand for these classes. Each operator costs a look-up.
pub fn class_of_pattern(
    alloc: Global,
    graph: &Egraph<Op>,
    pattern: &Term<Op>,
    places: &[u32],
) -> Result<Option<u32>, NoMemory>
    requires can { CanFindClass graph.now places.now (tree_of pattern.now) }
    ensures exact { IfOk result (λ found. MatchOption found
        ((c : ℕ) → IsClass graph.now places.now (tree_of pattern.now) c → ⊥)
        (IsClass graph.now places.now (tree_of pattern.now))) }
{
    match pattern {
        Term::Var(n) => Ok(Some(places[*n as usize])),
        Term::App(op, operands) => {
            let mut classes = Vec::new(alloc);
            for operand in operands {
                let Some(class) = class_of_pattern(alloc, graph, operand, places)? else {
                    return Ok(None);
                };
                classes.push(class)?;
            }
            Ok(graph.class_of(*op, &classes))
        }
    }
}

/// Whether the pattern has this class.
pub(crate) fn has_class(
    alloc: Global,
    graph: &Egraph<Op>,
    pattern: &Term<Op>,
    places: &[u32],
    class: u32,
) -> Result<bool, NoMemory>
    requires can { CanFindClass graph.now places.now (tree_of pattern.now) }
    ensures exact { IfOk result (λ has. IsTrue has ↔ IsClass graph.now places.now (tree_of pattern.now) class) }
{
    match class_of_pattern(alloc, graph, pattern, places)? {
        Some(found) => Ok(found == class),
        None => Ok(false),
    }
}

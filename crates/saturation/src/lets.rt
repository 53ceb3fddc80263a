// The lets of a goal in its graph after the rounds.
ghost use Rattle.std.specs.Prelude.{◌≡◌, ◌↔◌, ℕ, ◌<◌, [], List, map, length, get_or, All, IfOk};
ghost use Rattle.std.specs.List.{AllZip};
ghost use Rattle.word_terms.specs.Keys.{op_signature};
ghost use Rattle.word_terms.specs.Tree.{AreBelow, Tree, substituted};
ghost use Rattle.word_terms.specs.View.{tree_of};
ghost use Rattle.word_ops.specs.declared.sorts.Op.{Op as TermOperator};
ghost use Rattle.egraph.specs.Graph.{Graph, IsGraph};
ghost use Rattle.pattern_match.specs.Classes.{IsClass};
ghost use Rattle.goal_meaning.specs.Expanded.{expanded_terms, let_values};
ghost use Rattle.goal_meaning.specs.Views.{let_view};
ghost use Rattle.saturation.specs.OverLets.{AreLetsBelow, has_select_over};
ghost use Rattle.saturation.specs.StandsFor.{has_select};

use egraph::Egraph;
use goal_meaning::Let;
use items::NoMemory;
use pattern_match::class_of_pattern;
use std::alloc::Global;
use word_ops::Op;
use word_terms::{Term, terms_are_trees};

/// Does nothing. Its clause is a law: a term over the classes of lets has the class of the term without lets, and none
/// else.
pub fn lets_are_their_terms()
    ensures { (g : Graph TermOperator) (es : List (Tree TermOperator)) (lets : List ℕ) (t : Tree TermOperator) (c : ℕ) →
        IsGraph op_signature g → AllZip (IsClass g []) es lets → AreBelow (length lets) t →
        (IsClass g lets t c ↔ IsClass g [] (substituted es t) c) }
{}

/// The class of each let, in order. Each operator of a let costs a look-up.
pub fn let_classes(alloc: Global, graph: &Egraph<Op>, lets: &[Let]) -> Result<Vec<u32>, NoMemory>
    requires graph { IsGraph op_signature graph.now }
    requires below { AreLetsBelow (let_values (map let_view lets.now)) }
    requires there { All (λ (t : Tree TermOperator). (c : ℕ) × IsClass graph.now [] t c)
        (expanded_terms [] (let_values (map let_view lets.now))) }
    ensures { IfOk result (λ classes.
        AllZip (IsClass graph.now []) (expanded_terms [] (let_values (map let_view lets.now))) classes.items) }
{
    let mut classes = Vec::new(alloc);
    for one in lets {
        let class = class_of_pattern(alloc, graph, &one.value, &classes)?.unwrap();
        classes.push(class)?;
    }
    Ok(classes)
}

/// For each let, whether a select stands in what it stands for.
pub(crate) fn lets_read_memory(alloc: Global, lets: &[Let]) -> Result<Vec<bool>, NoMemory>
    ensures { IfOk result (λ reads.
        reads.items ≡ map has_select (expanded_terms [] (let_values (map let_view lets.now)))) }
{
    let mut reads = Vec::new(alloc);
    for one in lets {
        let reads_it = reads_memory(&one.value, &reads);
        reads.push(reads_it)?;
    }
    Ok(reads)
}

/// Whether a select stands in the term, or in what one of its lets stands for.
pub(crate) fn reads_memory(term: &Term<Op>, lets: &[bool]) -> bool
    ensures { result ≡ has_select_over lets.now (tree_of term.now) }
{
    terms_are_trees::<Op>();
    match term {
        Term::Var(n) => match lets.get(*n as usize) {
            Some(reads) => *reads,
            None => false,
        },
        Term::App(op, operands) => {
            if matches!(op, Op::Select(_)) {
                return true;
            }
            for operand in operands {
                if reads_memory(operand, lets) {
                    return true;
                }
            }
            false
        }
    }
}

// The second pass over a text of goals: its tokens as trees.
ghost use Rattle.std.specs.Prelude.{◌≡◌, ◌+◌, ◌<◌, ◌≤◌, ◌^◌, ℕ, List, [], ◌∷◌, ◌++◌, OnOk, IfOk, IfErr, map, length, take};
ghost use Rattle.text_core.specs.Limits.{most_nesting};
ghost use Rattle.text_core.specs.Building.{IsOpeningAt, IsParsedTo, IsStillOpen, depth_behind, frame_of, peak};
ghost use Rattle.text_core.specs.Faults.{IsFaultBy, GivesUnlessMemory, RefusesUnlessMemory};
ghost use Rattle.text_core.specs.Nesting.{IsFirstTreeFault};
ghost use Rattle.text_core.specs.Sexps.{all_of, sexp_tree, sexp_trees};
ghost use Rattle.text_core.specs.Trees as tree;
ghost use Rattle.text_core.specs.Trees.{SexpTrees, HasTrees};
ghost use Rattle.text_core.specs.declared.faults.Kind.{Kind};

use crate::limits::MOST_NESTING;
use crate::{Fault, Kind, Sexp, TextFault, Token, TokenKind};
use items::NoMemory;
use std::alloc::Global;
use std::mem::replace;

/// How many lists may stand inside one another.

/// A list that isn't closed yet: the place of its parenthesis, and the trees that stand before it at its level.
#[derive(Drop)]
struct OpenList {
    place: u32,
    before: Vec<Sexp>,
}

/// The lists that are open, outermost first, and the trees so far inside the innermost of them.
#[derive(Drop)]
struct Parser {
    outer: Vec<OpenList>,
    parts: Vec<Sexp>,
}

impl Parser {
    fn add(&mut self, tree: Sexp) -> Result<(), NoMemory>
        ensures outer { OnOk result (self.new.outer.items ≡ self.old.outer.items) }
        ensures parts { OnOk result (map sexp_tree self.new.parts.items
            ≡ map sexp_tree self.old.parts.items ++ sexp_tree tree ∷ []) }
    {
        self.parts.push(tree)?;
        Ok(())
    }

    fn enter(&mut self, alloc: Global, place: u32) -> Result<(), NoMemory>
        ensures outer { OnOk result (map frame_of self.new.outer.items ≡ map frame_of self.old.outer.items
            ++ (record { place = place; before = map sexp_tree self.old.parts.items }) ∷ []) }
        ensures parts { OnOk result (map sexp_tree self.new.parts.items ≡ []) }
    {
        let before = replace(&mut self.parts, Vec::new(alloc));
        self.outer.push(OpenList { place, before })?;
        Ok(())
    }

    fn leave(&mut self, list: OpenList) -> Result<(), NoMemory>
        ensures outer { OnOk result (self.new.outer.items ≡ self.old.outer.items) }
        ensures parts { OnOk result (map sexp_tree self.new.parts.items ≡ map sexp_tree list.before.items
            ++ tree.list list.place (all_of (map sexp_tree self.old.parts.items)) ∷ []) }
    {
        let OpenList { place, before } = list;
        let parts = replace(&mut self.parts, before);
        self.add(Sexp::List { place, parts })
    }

    /// Takes the token at a place of the list, which comes after those taken before.
    fn step(&mut self, alloc: Global, tokens: &[Token], at: usize) -> Result<(), TextFault>
        requires small { length tokens.now < 2 ^ 29 }
        requires within { at < length tokens.now }
        requires parsed { IsParsedTo tokens.now at self.old }
        ensures parsed { OnOk result (IsParsedTo tokens.now (at + 1) self.new) }
        ensures fault { IfErr result (IsFaultBy (IsFirstTreeFault tokens.now)) }
    {
        let token = tokens[at];
        match token.kind {
            TokenKind::Opening => {
                if self.outer.len() == MOST_NESTING {
                    let fault = fault_inside(tokens, at, self.outer[0].place);
                    return Err(TextFault::Fault(fault));
                }
                self.enter(alloc, token.place)?;
            }
            TokenKind::Closing => {
                let Some(list) = self.outer.pop() else {
                    return Err(TextFault::Fault(Fault {
                        place: token.place,
                        kind: Kind::Unopened,
                    }));
                };
                self.leave(list)?;
            }
            _ => self.add(Sexp::Atom(token))?,
        }
        Ok(())
    }
}

/// How many parentheses stand open behind a token, where so many did before it.
fn open_behind(kind: TokenKind, depth: usize) -> usize
    requires some { 0 < depth }
    requires small { depth < 2 ^ 30 }
    ensures { result ≡ depth_behind kind depth }
{
    match kind {
        TokenKind::Opening => depth + 1,
        TokenKind::Closing => depth - 1,
        _ => depth,
    }
}

/// The first fault where an opening parenthesis stands inside 64 others: the fault of this parenthesis, unless the
/// outermost of the 64 has no closing one.
fn fault_inside(tokens: &[Token], at: usize, outermost: u32) -> Fault
    requires small { length tokens.now < 2 ^ 29 }
    requires within { at < length tokens.now }
    requires opening { IsOpeningAt tokens.now at }
    requires nested { peak (take at tokens.now) ≤ most_nesting }
    requires inside { IsStillOpen tokens.now at outermost at MOST_NESTING }
    ensures { IsFirstTreeFault tokens.now result.place result.kind }
{
    let mut depth = MOST_NESTING;
    for index in at..tokens.len() {
        depth = open_behind(tokens[index].kind, depth);
        if depth == 0 {
            return Fault {
                place: tokens[at].place,
                kind: Kind::TooDeep,
            };
        }
    }
    Fault {
        place: outermost,
        kind: Kind::Unclosed,
    }
}

fn forest(alloc: Global, tokens: &[Token]) -> Result<Vec<Sexp>, TextFault>
    requires { length tokens.now < 2 ^ 29 }
    ensures trees { IfOk result (λ trees. HasTrees tokens.now (sexp_trees trees.items)) }
    ensures fault { IfErr result (IsFaultBy (IsFirstTreeFault tokens.now)) }
{
    let mut parser = Parser {
        outer: Vec::new(alloc),
        parts: Vec::new(alloc),
    };
    for at in 0..tokens.len() {
        parser.step(alloc, tokens, at)?;
    }
    if parser.outer.is_empty() {
        return Ok(parser.parts);
    }
    Err(TextFault::Fault(Fault {
        place: parser.outer[0].place,
        kind: Kind::Unclosed,
    }))
}

/// The trees of the tokens, in order. The cost is linear in the number of tokens.
pub fn tree(alloc: Global, tokens: &[Token]) -> Result<Vec<Sexp>, TextFault>
    requires { length tokens.now < 2 ^ 29 }

    // What is read is in the grammar, and what is in it is read.
    ensures trees { IfOk result (λ trees. HasTrees tokens.now (sexp_trees trees.items)) }
    ensures read { (trees : SexpTrees) → HasTrees tokens.now trees
        → GivesUnlessMemory (λ read. sexp_trees read.items ≡ trees) result }
    ensures few { IfOk result (λ trees. length trees.items ≤ length tokens.now) }

    // A fault is the first one, and where there is one it is answered.
    ensures fault { IfErr result (IsFaultBy (IsFirstTreeFault tokens.now)) }
    ensures refused { (place : ℕ) (kind : Kind) → IsFirstTreeFault tokens.now place kind
        → RefusesUnlessMemory place kind result }
{
    forest(alloc, tokens)
}

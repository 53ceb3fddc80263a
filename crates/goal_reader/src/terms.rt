// Reading terms.
ghost use Rattle.std.specs.Prelude.{◌≡◌, ◌≤◌, ◌↔◌, IsTrue, ℕ, length, IfOk, IfErr, Some};
ghost use Rattle.text_core.specs.Limits.{most_declared};
ghost use Rattle.word_terms.specs.Tree as tree;
ghost use Rattle.text_core.specs.Faults.{IsFirst, IsFaultBy, GivesUnlessMemory, RefusesUnlessMemory};
ghost use Rattle.text_core.specs.declared.faults.Kind.{Kind as FaultKind};
ghost use Rattle.word_ops.specs.declared.sorts.Op.{Op as Operator};
ghost use Rattle.word_terms.specs.Tree.{Tree};
ghost use Rattle.word_terms.specs.View.{tree_of};
ghost use Rattle.forms.specs.Forms.{sexp_form, is_list};
ghost use Rattle.forms.specs.Reading.{IsSexpOf};
ghost use Rattle.goal_reader.specs.Roles.{IsFaultAs, term as a_term, WritesTerm, IsApplicationForm, IsWanted, sort_in, sort_of_leaf};
ghost use Rattle.std.specs.Prelude.{true, false};

use crate::keywords::head;
use crate::scopes::{Named, Scope, leaf_of, operator};
use forms::{at, name, number, parts, place, sexps_are_forms};
use std::alloc::Global;
use text_core::{Kind, Sexp, TextFault};
use word_ops::{Op, Sort};
use word_terms::Term;

// Whether a sort is the wanted one, if one is wanted.
fn fits(wanted: Option<Sort>, sort: Sort) -> bool
    ensures { IsTrue result ↔ IsWanted wanted sort }
{
    match wanted {
        Some(wanted) => sort == wanted,
        None => true,
    }
}

// A term that is an atom.
fn atom(
    alloc: Global,
    form: &Sexp,
    text: &[u8],
    scope: &Scope,
    wanted: Option<Sort>,
) -> Result<Term<Op>, TextFault>
    requires of { IsSexpOf text.now form.now }
    requires atom { is_list (sexp_form text.now form.now) ≡ false }
    ensures term { IfOk result (λ t. WritesTerm scope.now wanted (sexp_form text.now form.now) (tree_of t)) }
    ensures fault { IfErr result (IsFaultBy (IsFirst (IsFaultAs (a_term scope.now wanted)
        (sexp_form text.now form.now)))) }
{
    sexps_are_forms();
    if let Some(value) = number(form) {
        if !fits(wanted, Sort::Word) {
            return Err(at(place(form), Kind::WrongSort));
        }
        return Ok(Term::App(Op::Constant(value), Vec::new(alloc)));
    }
    let Some(bytes) = name(form, text) else {
        return Err(at(place(form), Kind::BadForm));
    };
    let Some(named) = leaf_of(scope.leaves.as_slice(), bytes) else {
        return Err(at(place(form), Kind::UnknownName));
    };
    if !fits(wanted, sort_of(named)) {
        return Err(at(place(form), Kind::WrongSort));
    }
    match named {
        Named::Memory => Ok(Term::App(Op::Entry, Vec::new(alloc))),
        Named::Input(register) => Ok(Term::App(Op::Input(register), Vec::new(alloc))),
        Named::Let(n, _) => Ok(Term::Var(n)),
        Named::Variable(n) => Ok(Term::Var(n)),
        Named::Lacking => Err(at(place(form), Kind::BadAxiom)),
    }
}

fn sort_of(named: Named) -> Sort
    ensures { result ≡ sort_of_leaf named }
{
    match named {
        Named::Memory => Sort::Memory,
        Named::Let(_, sort) => sort,
        _ => Sort::Word,
    }
}

// The sort of a term that is an atom, where its name tells it.
fn sort_of_atom(form: &Sexp, text: &[u8], scope: &Scope) -> Option<Sort>
    requires of { IsSexpOf text.now form.now }
    requires atom { is_list (sexp_form text.now form.now) ≡ false }
    ensures { result ≡ sort_in scope.now (sexp_form text.now form.now) }
{
    sexps_are_forms();
    if let Some(_) = number(form) {
        return Some(Sort::Word);
    }
    match name(form, text) {
        Some(bytes) => match leaf_of(scope.leaves.as_slice(), bytes) {
            Some(named) => Some(sort_of(named)),
            None => None,
        },
        None => None,
    }
}

/// The sort of a term, where its own name or its operator tells it.
pub fn sort_told(form: &Sexp, text: &[u8], scope: &Scope) -> Option<Sort>
    requires of { IsSexpOf text.now form.now }
    requires few { length scope.now.declared ≤ most_declared }
    ensures { result ≡ sort_in scope.now (sexp_form text.now form.now) }
{
    sexps_are_forms();
    match form {
        Sexp::Atom(_) => sort_of_atom(form, text, scope),
        Sexp::List { .. } => match head(form, text) {
            Some(bytes) => match operator(scope.declared.as_slice(), bytes) {
                Some(op) => Some(op.sort()),
                None => None,
            },
            None => None,
        },
    }
}

// The operator of a term that is a list, and that has no fault of its own.
fn application(
    form: &Sexp,
    text: &[u8],
    scope: &Scope,
    wanted: Option<Sort>,
) -> Result<Op, TextFault>
    requires of { IsSexpOf text.now form.now }
    requires list { is_list (sexp_form text.now form.now) ≡ true }
    requires few { length scope.now.declared ≤ most_declared }
    ensures op { IfOk result (λ op. IsApplicationForm scope.now wanted (sexp_form text.now form.now) op) }
    ensures fault { IfErr result (IsFaultBy (IsFirst (IsFaultAs (a_term scope.now wanted)
        (sexp_form text.now form.now)))) }
{
    sexps_are_forms();
    let Some(parts) = parts(form) else {
        unreachable!();
    };
    let Some(head) = parts.first() else {
        return Err(at(place(form), Kind::BadForm));
    };
    let Some(bytes) = name(head, text) else {
        return Err(at(place(head), Kind::BadForm));
    };
    let Some(op) = operator(scope.declared.as_slice(), bytes) else {
        return Err(at(place(head), Kind::UnknownName));
    };
    if parts.len() != 1 + op.arity() {
        return Err(at(place(form), Kind::WrongArity));
    }
    if !fits(wanted, op.sort()) {
        return Err(at(place(form), Kind::WrongSort));
    }
    Ok(op)
}

fn read_term(
    alloc: Global,
    form: &Sexp,
    text: &[u8],
    scope: &Scope,
    wanted: Option<Sort>,
) -> Result<Term<Op>, TextFault>
    requires of { IsSexpOf text.now form.now }
    requires few { length scope.now.declared ≤ most_declared }
    ensures term { IfOk result (λ t. WritesTerm scope.now wanted (sexp_form text.now form.now) (tree_of t)) }
    ensures fault { IfErr result (IsFaultBy (IsFirst (IsFaultAs (a_term scope.now wanted)
        (sexp_form text.now form.now)))) }
{
    sexps_are_forms();
    match form {
        Sexp::Atom(_) => Ok(atom(alloc, form, text, scope, wanted)?),
        Sexp::List { parts, .. } => {
            let op = application(form, text, scope, wanted)?;
            let mut operands = Vec::new(alloc);
            let rest = &parts[1..];
            for (index, part) in rest.iter().enumerate() {
                let sort = op.operand_sort(index);
                let operand = read_term(alloc, part, text, scope, Some(sort))?;
                operands.push(operand)?;
            }
            Ok(Term::App(op, operands))
        }
    }
}

/// Reads a term, of a wanted sort if there is one. The cost is linear in the length of the text, beside the search for
/// names.
pub fn term(
    alloc: Global,
    form: &Sexp,
    text: &[u8],
    scope: &Scope,
    wanted: Option<Sort>,
) -> Result<Term<Op>, TextFault>
    requires of { IsSexpOf text.now form.now }
    requires few { length scope.now.declared ≤ most_declared }

    // What is read is in the grammar, and what is in it is read.
    ensures term { IfOk result (λ t. WritesTerm scope.now wanted (sexp_form text.now form.now) (tree_of t)) }
    ensures read { (t : Tree Operator) → WritesTerm scope.now wanted (sexp_form text.now form.now) t
        → GivesUnlessMemory (λ read. tree_of read ≡ t) result }

    // A fault is the first one, and where there is one it is answered.
    ensures fault { IfErr result (IsFaultBy (IsFirst (IsFaultAs (a_term scope.now wanted)
        (sexp_form text.now form.now)))) }
    ensures refused { (place : ℕ) (kind : FaultKind) → IsFirst (IsFaultAs (a_term scope.now wanted)
        (sexp_form text.now form.now)) place kind
        → RefusesUnlessMemory place kind result }
{
    read_term(alloc, form, text, scope, wanted)
}

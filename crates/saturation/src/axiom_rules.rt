// The rules of an input and a library.
ghost use Rattle.std.specs.Prelude.{◌≡◌, List, ◌++◌, map, All, IfOk, OnOk};
ghost use Rattle.word_terms.specs.View.{tree_of};
ghost use Rattle.axiom_base.specs.Schemes.{calc_kinds};
ghost use Rattle.axiom_library.specs.Asked.{asked_kinds};
ghost use Rattle.goal_meaning.specs.Views.{axiom_view, input_view};
ghost use Rattle.goal_meaning.specs.WellFormed.{IsAxiom, IsInput};
ghost use Rattle.goal_meaning.specs.declared.goals.DeclaredOp.{DeclaredOp};
ghost use Rattle.saturation.specs.GoalTerms as terms;
ghost use Rattle.saturation.specs.GoalTerms.{rule_of, rules_of};

use crate::rule_lists::Rules;
use axiom_base::{CALC_KINDS, Calc, Rule, equations};
use axiom_library::{
    Library, library_axioms, library_axioms_are_well_formed, library_equations, library_kinds,
};
use goal_meaning::{Axiom, Input};
use items::{Items, NoMemory};
use std::alloc::Global;
use word_ops::{Op, Sort};
use word_terms::{Term, subst, terms_are_trees, variable};

/// The equations, and the rules that join them: the axioms of the input as rules, in order, behind them what the
/// library asks for. In a rule, variables that the axiom's left side lacks are left out, and the others are numbered
/// from 0 in their old order.
pub fn rules(alloc: Global, input: &Input, library: Library) -> Result<Rules, NoMemory>
    requires input { IsInput (input_view input.now) }
    ensures rules { IfOk result (λ rules. rules ≡ rules_of library (input_view input.now)) }
{
    library_axioms_are_well_formed();
    let mut axioms = Vec::new(alloc);
    push_rules(alloc, input.axioms.as_slice(), &mut axioms)?;
    let asked = library_axioms(alloc, library)?;
    push_rules(alloc, asked.as_slice(), &mut axioms)?;
    let mut further = library_equations(alloc, library)?.into_vec();
    axioms.append(&mut further)?;
    Ok(Rules {
        equations: equations(alloc)?,
        axioms: Items::from(axioms),
        kinds: all_kinds(alloc, library)?,
    })
}

// The kinds of every text, and behind them those of the library.
fn all_kinds(alloc: Global, library: Library) -> Result<Items<Calc>, NoMemory>
    ensures { IfOk result (λ kinds. kinds ≡ calc_kinds ++ asked_kinds library) }
{
    let mut kinds = Vec::from_slice(alloc, &CALC_KINDS)?;
    let mut further = library_kinds(alloc, library)?.into_vec();
    kinds.append(&mut further)?;
    Ok(Items::from(kinds))
}

// The rules of the axioms, behind those that are there.
fn push_rules(alloc: Global, axioms: &[Axiom], rules: &mut Vec<Rule>) -> Result<(), NoMemory>
    requires { (declared : List DeclaredOp) × All (IsAxiom declared) (map axiom_view axioms.now) }
    ensures { OnOk result (rules.new.items ≡ rules.old.items ++ map rule_of (map axiom_view axioms.now)) }
{
    for axiom in axioms {
        rules.push(rule(alloc, axiom)?)?;
    }
    Ok(())
}

fn rule(alloc: Global, equation: &Axiom) -> Result<Rule, NoMemory>
    requires equation { (declared : List DeclaredOp) × IsAxiom declared (axiom_view equation.now) }
    ensures { IfOk result (λ rule. rule ≡ rule_of (axiom_view equation.now)) }
{
    let mut sorts = Vec::new(alloc);
    let mut numbered = Vec::new(alloc);
    for number in 0..equation.variables.len() as u32 {
        numbered.push(variable(sorts.len() as u32))?;
        if has_variable(&equation.left, number) {
            sorts.push(Sort::Word)?;
        }
    }
    let left = subst(alloc, &equation.left, &numbered)?;
    let right = subst(alloc, &equation.right, &numbered)?;
    Rule::over(alloc, &sorts, left, right)
}

fn has_variable(term: &Term<Op>, number: u32) -> bool
    ensures { result ≡ terms.has_variable number (tree_of term.now) }
{
    terms_are_trees::<Op>();
    match term {
        Term::Var(other) => *other == number,
        Term::App(_, operands) => {
            for operand in operands {
                if has_variable(operand, number) {
                    return true;
                }
            }
            false
        }
    }
}

// What a round asks for: the right side of each unmet match, over the classes of the match.
ghost use Rattle.std.specs.Prelude.{◌≡◌, [], ◌++◌, map, length, IfOk, OnOk};
ghost use Rattle.axiom_base.specs.Equations as rows;
ghost use Rattle.axiom_base.specs.Schemes.{calc_kinds};
ghost use Rattle.saturation.specs.Asking.{asked_of_each, asked_of_all, fold_asked, kind_asked, rule_asked};
ghost use Rattle.saturation.specs.Instances.{asked_of};

use crate::instance::Instance;
use crate::rule_lists::Rules;
use crate::searching::Unmet;
use axiom_base::{Calc, Given, Rule, calc_right};
use items::{Items, NoMemory};
use pattern_match::{Fold, Match};
use std::alloc::Global;
use word_ops::Op;
use word_terms::application;

/// What the unmet matches of all rules ask for.
pub(crate) fn ask(alloc: Global, rules: &Rules, unmet: &Unmet) -> Result<Vec<Instance>, NoMemory>
    requires by_equation { length unmet.now.equations.items ≡ length rows.equations }
    requires by_axiom { length unmet.now.axioms.items ≡ length rules.now.axioms }
    requires by_kind { length unmet.now.kinds.items ≡ length (calc_kinds ++ rules.now.kinds) }
    ensures asked { IfOk result (λ asked. map asked_of asked.items ≡ asked_of_all rules.now unmet.now) }
{
    let mut asked = Vec::new(alloc);
    ask_rules(alloc, rules.equations(), &unmet.equations, &mut asked)?;
    ask_rules(alloc, rules.axioms(), &unmet.axioms, &mut asked)?;
    ask_kinds(alloc, rules.kinds(), &unmet.kinds, &mut asked)?;
    ask_folds(alloc, unmet.folds.as_slice(), &mut asked)?;
    Ok(asked)
}

fn ask_rules(
    alloc: Global,
    rules: &[Rule],
    found: &[Items<Match>],
    asked: &mut Vec<Instance>,
) -> Result<(), NoMemory>
    requires { length found.now ≡ length rules.now }
    ensures { OnOk result (map asked_of asked.new.items
        ≡ map asked_of asked.old.items ++ asked_of_each rule_asked rules.now found.now) }
{
    for (at, rule) in rules.iter().enumerate() {
        ask_rule(alloc, rule, found[at].as_slice(), asked)?;
    }
    Ok(())
}

fn ask_rule(
    alloc: Global,
    rule: &Rule,
    found: &[Match],
    asked: &mut Vec<Instance>,
) -> Result<(), NoMemory>
    ensures { OnOk result (map asked_of asked.new.items
        ≡ map asked_of asked.old.items ++ map (rule_asked rule.now) found.now) }
{
    let right = rule.right();
    for one in found {
        asked.push(Instance {
            right: right.copy(alloc)?,
            places: Items::from_slice(alloc, one.classes.as_slice())?,
            class: one.class,
        })?;
    }
    Ok(())
}

fn ask_kinds(
    alloc: Global,
    kinds: &[Calc],
    found: &[Items<Match>],
    asked: &mut Vec<Instance>,
) -> Result<(), NoMemory>
    requires { length found.now ≡ length kinds.now }
    ensures { OnOk result (map asked_of asked.new.items
        ≡ map asked_of asked.old.items ++ asked_of_each kind_asked kinds.now found.now) }
{
    for (at, kind) in kinds.iter().enumerate() {
        ask_kind(alloc, *kind, found[at].as_slice(), asked)?;
    }
    Ok(())
}

fn ask_kind(
    alloc: Global,
    kind: Calc,
    found: &[Match],
    asked: &mut Vec<Instance>,
) -> Result<(), NoMemory>
    ensures { OnOk result (map asked_of asked.new.items
        ≡ map asked_of asked.old.items ++ map (kind_asked kind) found.now) }
{
    for one in found {
        let given = one.given.unwrap_or(Given { e: 0, f: 0 });
        asked.push(Instance {
            right: calc_right(alloc, kind, given)?,
            places: Items::from_slice(alloc, one.classes.as_slice())?,
            class: one.class,
        })?;
    }
    Ok(())
}

fn ask_folds(alloc: Global, found: &[Fold], asked: &mut Vec<Instance>) -> Result<(), NoMemory>
    ensures { OnOk result (map asked_of asked.new.items
        ≡ map asked_of asked.old.items ++ map fold_asked found.now) }
{
    for fold in found {
        asked.push(Instance {
            right: application(Op::Constant(fold.value), Vec::new(alloc)),
            places: Items::new(alloc),
            class: fold.class,
        })?;
    }
    Ok(())
}

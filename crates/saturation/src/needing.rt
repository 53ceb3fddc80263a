// What unmet matches need: the operators of their right sides, which are the most rows that a round adds.
ghost use Rattle.std.specs.Prelude.{◌≡◌, ◌+◌, ◌-◌, ◌*◌, ◌^◌, min, length, IfOk};
ghost use Rattle.saturation.specs.Trace.{operators_asked};
ghost use Rattle.saturation.specs.Asking.{asked_of_each, kind_asked, rule_asked};

use axiom_base::{Calc, Given, Rule, calc_right};
use items::{Items, NoMemory};
use pattern_match::{Match, operators};
use std::alloc::Global;

/// The number `before` and what the matches of these rules need.
pub(crate) fn with_rules(before: u64, rules: &[Rule], found: &[Items<Match>]) -> u64
    requires { length found.now ≡ length rules.now }
    ensures { result
        ≡ min (before + operators_asked (asked_of_each rule_asked rules.now found.now)) (2 ^ 64 - 1) }
{
    let mut need = before;
    for (at, rule) in rules.iter().enumerate() {
        need = with_matches(need, found[at].len(), operators(rule.right()));
    }
    need
}

/// The number `before` and what the matches of the computed rules need.
pub(crate) fn with_kinds(
    alloc: Global,
    before: u64,
    kinds: &[Calc],
    found: &[Items<Match>],
) -> Result<u64, NoMemory>
    requires { length found.now ≡ length kinds.now }
    ensures { IfOk result (λ need. need
        ≡ min (before + operators_asked (asked_of_each kind_asked kinds.now found.now)) (2 ^ 64 - 1)) }
{
    let mut need = before;
    for (at, kind) in kinds.iter().enumerate() {
        let right = calc_right(alloc, *kind, Given { e: 0, f: 0 })?;
        need = with_matches(need, found[at].len(), operators(&right));
    }
    Ok(need)
}

/// The number `before` and what `count` matches need, with `weight` operators each.
pub(crate) fn with_matches(before: u64, count: usize, weight: u64) -> u64
    ensures { result ≡ min (before + min (count * weight) (2 ^ 64 - 1)) (2 ^ 64 - 1) }
{
    before.saturating_add((count as u64).saturating_mul(weight))
}

// What is seen: in which cluster and cycle a class is readable.
ghost use Rattle.std.specs.Prelude.{◌≡◌, ◌+◌, ◌<◌, ◌≤◌, ◌^◌, [], ◌++◌, if◌then◌else◌, length, IfOk, OnOk};
ghost use Rattle.std.specs.Prelude.{option_to_list};
ghost use Rattle.cycle_encoding.specs.Framed.{IsFrame};
ghost use Rattle.cycle_encoding.specs.CycleFormula.{wants_in};
ghost use Rattle.cycle_encoding.specs.Steps as steps;
ghost use Rattle.cycle_encoding.specs.Facts.{is_unsafe_shown};
ghost use Rattle.cycle_encoding.specs.Families.{is_seen};
ghost use Rattle.cycle_encoding.specs.Shapes.{numbered, vars_of};
ghost use Rattle.cycle_encoding.specs.Steps.{AreSeenVars, cluster_seen, clusters_before, clusters_seen};

use crate::facts::next_class;
use crate::{Facts, Frame, Scope};
use cnf_core::Lit;
use items::NoMemory;
use machine_table::Table;
use std::alloc::Global;

/// A class is readable in a cluster at a cycle.
#[derive(Clone, Copy)]
pub struct Seen {
    pub class: u32,
    pub cluster: u8,
    pub cycle: u32,
}

/// Whether some slot has the cluster.
pub fn has_cluster(table: &Table, cluster: u8) -> bool
    ensures { result ≡ steps.has_cluster table.now cluster }
{
    table
        .slots
        .as_slice()
        .iter()
        .any(|slot| slot.cluster == cluster)
}

/// What is seen, with its variable.
#[derive(Clone, Copy)]
pub struct Sight {
    pub var: u32,
    pub thing: Seen,
}

/// What is seen, with its variables: that of the thing at a place is `first` + 1 and the place.
#[derive(Drop)]
pub struct SeenVars {
    pub first: u32,
    pub cycles: u32,
    pub seen: Vec<Seen>,
    pub starts: Vec<usize>,
}

/// All that may be seen in k cycles of the classes that the scope wants: by class, then by cluster, then by cycle.
pub fn seen_vars(alloc: Global, frame: &Frame, first: u32) -> Result<SeenVars, NoMemory>
    requires frame { IsFrame frame.now }
    ensures first { IfOk result (λ vars. vars.first ≡ first) }
    ensures cycles { IfOk result (λ vars. vars.cycles ≡ frame.now.k) }
    ensures seen { IfOk result (λ vars. AreSeenVars frame.now.facts.now (wants_in frame.now.scope.now)
        frame.now.table.now frame.now.k first vars.seen.items vars.starts.items) }
{
    let mut seen = Vec::new(alloc);
    let mut starts = Vec::new(alloc);
    for class in 0..next_class(frame.facts.graph()) {
        starts.push(seen.as_slice().len())?;
        push_class(&mut seen, frame, class)?;
    }
    Ok(SeenVars {
        first,
        cycles: frame.k,
        seen,
        starts,
    })
}

/// Whether the scope wants the class and launches have to make it: it is a word's, not safe and not the zero class.
pub fn is_shown(facts: &Facts, scope: &Scope, class: u32) -> bool
    ensures { result ≡ is_unsafe_shown facts.now (wants_in scope.now) class }
{
    scope.wants(class)
        && facts.is_word_class(class)
        && !facts.is_safe(class)
        && !facts.is_zero(class)
}

/// What is seen of a class, if it is shown.
fn push_class(seen: &mut Vec<Seen>, frame: &Frame, class: u32) -> Result<(), NoMemory>
    ensures { OnOk result (seen.new.items ≡ seen.old.items ++ (if is_unsafe_shown frame.now.facts.now
        (wants_in frame.now.scope.now) class then clusters_seen frame.now.table.now frame.now.k 4 class else [])) }
{
    if !is_shown(frame.facts, frame.scope, class) {
        return Ok(());
    }
    for cluster in 0..4u8 {
        if has_cluster(frame.table, cluster) {
            push_cluster(seen, frame.k, class, cluster)?;
        }
    }
    Ok(())
}

/// How many things are seen of a class in clusters with smaller numbers.
#[tactic(auto, using(crate::proofs::Before::cluster_size, crate::proofs::Before::no_cluster_size))]
fn seen_in_clusters(table: &Table, k: u32, _class: u32, cluster: u8) -> usize
    requires few { cluster ≤ 4 }
    ensures { result ≡ clusters_before table.now k _class cluster }
{
    let mut before = 0;
    for other in 0..cluster {
        if has_cluster(table, other) {
            before += k as usize;
        }
    }
    before
}

/// The variable of a class that is seen in a cluster and cycle, if it has one.
pub fn seen_var(vars: &SeenVars, frame: &Frame, class: u32, cluster: u8, cycle: u32) -> Option<Lit>
    requires few { vars.now.first + length vars.now.seen.items < 2 ^ 29 }
    requires vars { AreSeenVars frame.now.facts.now (wants_in frame.now.scope.now) frame.now.table.now vars.now.cycles
        vars.now.first vars.now.seen.items vars.now.starts.items }
    ensures { option_to_list result
        ≡ vars_of (is_seen class cluster cycle) (numbered vars.now.first vars.now.seen.items) }
{
    if !is_shown(frame.facts, frame.scope, class) {
        return None;
    }
    let starts = vars.starts.as_slice();
    if class as usize >= starts.len() {
        return None;
    }
    if cluster >= 4 {
        return None;
    }
    if !has_cluster(frame.table, cluster) {
        return None;
    }
    if cycle >= vars.cycles {
        return None;
    }
    let place = starts[class as usize]
        + seen_in_clusters(frame.table, vars.cycles, class, cluster)
        + cycle as usize;
    Some(Lit {
        var: vars.first + place as u32 + 1,
        positive: true,
    })
}

/// What is seen of a class in a cluster.
fn push_cluster(seen: &mut Vec<Seen>, k: u32, class: u32, cluster: u8) -> Result<(), NoMemory>
    ensures { OnOk result (seen.new.items ≡ seen.old.items ++ cluster_seen k class cluster) }
{
    for cycle in 0..k {
        seen.push(Seen {
            class,
            cluster,
            cycle,
        })?;
    }
    Ok(())
}

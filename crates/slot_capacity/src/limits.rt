// Which due classes are too many for the slots in which they can be launched.
ghost use Rattle.std.specs.Prelude.{◌≡◌, ◌≤◌, ◌<◌, ◌++◌, ◌∷◌, [], if◌then◌else◌, All, length, map, IfOk, OnOk};
ghost use Rattle.std.specs.List.{flat_map};
ghost use Rattle.schedule_meaning.specs.Limits.{most_cycles};
ghost use Rattle.machine_table.specs.Tables.{IsTable};
ghost use Rattle.graph_meaning.specs.WellFormed as classes;
ghost use Rattle.graph_meaning.specs.WellFormed.{IsLaunchGraph};
ghost use Rattle.cycle_encoding.specs.Framed.{IsFrame, over};
ghost use Rattle.cycle_encoding.specs.CycleFormula.{listed_in};
ghost use Rattle.slot_capacity.specs.Limits as specs;
ghost use Rattle.slot_capacity.specs.Limits.{capacity_in};
ghost use Rattle.slot_capacity.specs.Spans.{spans_of};
ghost use Rattle.slot_capacity.specs.MakersOf.{AreMakersOf, by_makers};
ghost use Rattle.slot_capacity.specs.LimitsSteps as steps;
ghost use Rattle.slot_capacity.specs.CapacityCounts.{IsSmall};
ghost use Rattle.slot_capacity.specs.CapacitySteps.{AreApart};

use crate::deadlines::{Deadline, deadlines};
use crate::groups::{belongs, groups};
use crate::makers::{Makers, find_makers};
use crate::sets::{is_marked, marked};
use crate::spans::Span;
use cycle_encoding::{Facts, Frame};
use items::{Items, NoMemory};
use schedule_meaning::Allocation;
use std::alloc::Global;

/// At most so many of these due classes can be launched up to a cycle.
#[derive(Drop)]
pub struct Limit {
    pub due: Items<Deadline>,
    pub cycle: u32,
    pub most: u32,
}

/// What a formula says of due classes: the limits, and the deadlines of the classes that these speak of, rising by
/// class.
#[derive(Drop)]
pub struct Capacity {
    pub counted: Items<Deadline>,
    pub limits: Items<Limit>,
}

/// Adds the deadline to the list, if it is to be kept.
fn push_if(list: &mut Vec<Deadline>, keep: bool, one: Deadline) -> Result<(), NoMemory>
    ensures { OnOk result (list.new.items ≡ list.old.items ++ (if keep then one ∷ [] else [])) }
{
    if keep {
        list.push(one)?;
    }
    Ok(())
}

/// Those whose first cycle is up to this one.
fn coming_by(alloc: Global, later: &[Deadline], cycle: u32) -> Result<Vec<Deadline>, NoMemory>
    ensures { IfOk result (λ coming. coming.items ≡ specs.coming_by cycle later.now) }
{
    let mut coming = Vec::new(alloc);
    for one in later {
        push_if(&mut coming, one.first <= cycle, *one)?;
    }
    Ok(coming)
}

/// The limit from cycle e to this one, if more classes can come than there are slots.
fn push_limit(
    alloc: Global,
    limits: &mut Vec<Limit>,
    group: &[u32],
    later: &[Deadline],
    span: Span,
) -> Result<(), NoMemory>
    requires group { length group.now ≤ 8 }
    requires from { span.first ≤ span.last }
    requires to { span.last ≤ most_cycles }
    ensures { OnOk result (limits.new.items ≡ limits.old.items ++ specs.limit_at group.now later.now span.first
        span.last) }
{
    let due = coming_by(alloc, later, span.last)?;
    let most = group.len() as u32 * (span.last + 1 - span.first);
    if due.len() <= most as usize {
        return Ok(());
    }
    limits.push(Limit {
        due: Items::from(due),
        cycle: span.last,
        most,
    })?;
    Ok(())
}

/// The greatest deadline.
fn last_of(deadlines: &[Deadline]) -> u32
    ensures { result ≡ specs.last_of deadlines.now }
{
    let mut last = 0;
    for one in deadlines {
        last = last.max(one.last);
    }
    last
}

/// The limits from a cycle on.
fn push_later(
    alloc: Global,
    limits: &mut Vec<Limit>,
    group: &[u32],
    later: &[Deadline],
    e: u32,
) -> Result<(), NoMemory>
    requires group { length group.now ≤ 8 }
    requires early { All (λ x. x.last ≤ most_cycles) later.now }
    ensures { OnOk result (limits.new.items ≡ limits.old.items ++ specs.later_limits group.now later.now e) }
{
    for cycle in e..last_of(later) + 1 {
        let span = Span {
            first: e,
            last: cycle,
        };
        push_limit(alloc, limits, group, later, span)?;
    }
    Ok(())
}

/// Those whose first cycle is this one or a later one.
fn from_cycle(alloc: Global, members: &[Deadline], e: u32) -> Result<Vec<Deadline>, NoMemory>
    ensures { IfOk result (λ later. later.items ≡ specs.from_cycle e members.now) }
{
    let mut later = Vec::new(alloc);
    for one in members {
        push_if(&mut later, e <= one.first, *one)?;
    }
    Ok(later)
}

/// Whether the cycle is the first of some.
fn is_first(members: &[Deadline], e: u32) -> bool
    ensures { result ≡ specs.is_first members.now e }
{
    members.iter().any(|one| one.first == e)
}

/// The due classes that belong to a group.
fn members(
    alloc: Global,
    makers: &Makers,
    deadlines: &[Deadline],
    group: &[u32],
) -> Result<Vec<Deadline>, NoMemory>
    requires table { IsTable makers.now.frame.table.now }
    requires makers { AreMakersOf makers.now }
    ensures { IfOk result (λ members. members.items ≡ steps.members_of makers.now.frame.facts.now
        makers.now.frame.table.now makers.now.spans.items deadlines.now group.now) }
{
    let mut members = Vec::new(alloc);
    for one in deadlines {
        let keep = belongs(makers, group, one.class);
        push_if(&mut members, keep, *one)?;
    }
    Ok(members)
}

/// The limits from a cycle on, if it is the first of some.
fn push_from(
    alloc: Global,
    limits: &mut Vec<Limit>,
    group: &[u32],
    members: &[Deadline],
    e: u32,
) -> Result<(), NoMemory>
    requires group { length group.now ≤ 8 }
    requires early { All (λ x. x.last ≤ most_cycles) members.now }
    ensures { OnOk result (limits.new.items ≡ limits.old.items ++ (if specs.is_first members.now e
        then specs.later_limits group.now (specs.from_cycle e members.now) e else [])) }
{
    if !is_first(members, e) {
        return Ok(());
    }
    let later = from_cycle(alloc, members, e)?;
    push_later(alloc, limits, group, &later, e)
}

/// The limits of a group's classes.
fn push_group(
    alloc: Global,
    limits: &mut Vec<Limit>,
    group: &[u32],
    members: &[Deadline],
    k: u32,
) -> Result<(), NoMemory>
    requires group { length group.now ≤ 8 }
    requires early { All (λ x. x.last ≤ most_cycles) members.now }
    ensures { OnOk result (limits.new.items ≡ limits.old.items ++ specs.member_limits k group.now members.now) }
{
    for e in 0..k {
        push_from(alloc, limits, group, members, e)?;
    }
    Ok(())
}

/// The limits of a group.
fn push_limits(
    alloc: Global,
    limits: &mut Vec<Limit>,
    makers: &Makers,
    deadlines: &[Deadline],
    group: &[u32],
) -> Result<(), NoMemory>
    requires table { IsTable makers.now.frame.table.now }
    requires makers { AreMakersOf makers.now }
    requires early { All (λ x. x.last ≤ most_cycles) deadlines.now }
    requires group { length group.now ≤ 8 }
    ensures { OnOk result (limits.new.items ≡ limits.old.items
        ++ by_makers makers.now specs.group_limits deadlines.now group.now) }
{
    let members = members(alloc, makers, deadlines, group)?;
    push_group(alloc, limits, group, &members, makers.frame.k)
}

/// All limits: by group, then by the cycle from which they count, then by that up to which.
fn limits(alloc: Global, makers: &Makers, deadlines: &[Deadline]) -> Result<Vec<Limit>, NoMemory>
    requires table { IsTable makers.now.frame.table.now }
    requires makers { AreMakersOf makers.now }
    requires early { All (λ x. x.last ≤ most_cycles) deadlines.now }
    ensures { IfOk result (λ limits. limits.items ≡ by_makers makers.now specs.all_limits deadlines.now) }
{
    let mut limits = Vec::new(alloc);
    let groups = groups(alloc, makers.frame.table)?;
    for group in groups.as_slice() {
        push_limits(alloc, &mut limits, makers, deadlines, group.as_slice())?;
    }
    Ok(limits)
}

/// Adds the classes of these deadlines to the list.
fn push_classes(classes: &mut Vec<u32>, due: &[Deadline]) -> Result<(), NoMemory>
    ensures { OnOk result (classes.new.items ≡ classes.old.items ++ map (λ x. x.class) due.now) }
{
    for one in due {
        classes.push(one.class)?;
    }
    Ok(())
}

/// The classes of which limits speak, in their order.
fn limited(alloc: Global, limits: &[Limit]) -> Result<Vec<u32>, NoMemory>
    ensures { IfOk result (λ classes. classes.items ≡ flat_map steps.classes_in limits.now) }
{
    let mut classes = Vec::new(alloc);
    for limit in limits {
        push_classes(&mut classes, limit.due.as_slice())?;
    }
    Ok(classes)
}

/// The deadlines of the classes of which some limit speaks.
fn counted(
    alloc: Global,
    facts: &Facts,
    limits: &[Limit],
    deadlines: &[Deadline],
) -> Result<Vec<Deadline>, NoMemory>
    requires graph { IsLaunchGraph facts.now }
    requires low { All (λ x. x.class < classes.next_class facts.now.rows) deadlines.now }
    ensures { IfOk result (λ counted. counted.items ≡ (specs.capacity_with deadlines.now limits.now).counted) }
{
    let marks = marked(alloc, facts, &limited(alloc, limits)?)?;
    let mut counted = Vec::new(alloc);
    for one in deadlines {
        push_if(&mut counted, is_marked(&marks, one.class), *one)?;
    }
    Ok(counted)
}

impl Capacity {
    /// What the formula of a scope says of due classes in k cycles: by live ranges alone anything.
    pub fn of(alloc: Global, frame: &Frame) -> Result<Capacity, NoMemory>
        requires frame { IsFrame frame.now }
        ensures value { IfOk result (λ c. c ≡ capacity_in frame.now.scope.now frame.now.facts.now frame.now.table.now
            frame.now.k) }
        ensures small { IfOk result (λ c. IsSmall c) }
        ensures apart { IfOk result (λ c. AreApart c.counted) }
    {
        find_capacity(alloc, frame)
    }
}

/// What the formula of a scope says of due classes.
fn find_capacity(alloc: Global, frame: &Frame) -> Result<Capacity, NoMemory>
    requires frame { IsFrame frame.now }
    ensures { IfOk result (λ c. c ≡ capacity_in frame.now.scope.now frame.now.facts.now frame.now.table.now frame.now.k) }
{
    match frame.scope.allocation() {
        Allocation::Block => Ok(Capacity {
            counted: Items::new(alloc),
            limits: Items::new(alloc),
        }),
        Allocation::Live => live_capacity(alloc, frame),
    }
}

/// The same by live ranges.
fn live_capacity(alloc: Global, frame: &Frame) -> Result<Capacity, NoMemory>
    requires frame { IsFrame frame.now }
    ensures { IfOk result (λ c. c ≡ specs.capacity_by frame.now.facts.now frame.now.table.now frame.now.k
        (spans_of frame.now.facts.now (over frame.now listed_in).launches)) }
{
    let makers = find_makers(alloc, frame)?;
    let deadlines = deadlines(alloc, &makers)?;
    let all = deadlines.as_slice();
    let limits = limits(alloc, &makers, all)?;
    let counted = counted(alloc, frame.facts, limits.as_slice(), all)?;
    Ok(of_parts(counted, limits))
}

/// Of these deadlines and limits.
fn of_parts(counted: Vec<Deadline>, limits: Vec<Limit>) -> Capacity
    ensures { result ≡ record { counted = counted.items; limits = limits.items } }
{
    Capacity {
        counted: Items::from(counted),
        limits: Items::from(limits),
    }
}

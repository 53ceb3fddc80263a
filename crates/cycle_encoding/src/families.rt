// The families of clauses of cycles, slots and values.
ghost use Rattle.std.specs.Prelude.{◌≡◌, ◌+◌, ◌<◌, ◌≤◌, ◌^◌, [], ◌∷◌, ◌++◌, if◌then◌else◌, length, map, IfOk, OnOk};
ghost use Rattle.std.specs.Prelude.{All, option_to_list};
ghost use Rattle.std.specs.List.{filter};
ghost use Rattle.cnf_core.specs.Formula.{IsLitOf};
ghost use Rattle.graph_meaning.specs.WellFormed.{IsLaunchGraph};
ghost use Rattle.schedule_meaning.specs.Launches as launches;
ghost use Rattle.schedule_meaning.specs.Launches.{gives};
ghost use Rattle.machine_table.specs.Tables as tables;
ghost use Rattle.cycle_encoding.specs.Facts.{IsTableOf};
ghost use Rattle.cycle_encoding.specs.Families.{makes};
ghost use Rattle.cycle_encoding.specs.FamilyVars.{overwritten_over, seen_over, targets_over};
ghost use Rattle.cycle_encoding.specs.FamilyVars.{AreCycleVars, last_over, launched_over, makers_over, operands_over};
ghost use Rattle.cycle_encoding.specs.Shapes.{negative, positive, vars_of};
ghost use Rattle.cycle_encoding.specs.Steps.{given_in, target_groups, is_ready};
ghost use Rattle.cycle_encoding.specs.Steps.{of_thing, put_at, sights, with_clauses};

use crate::buckets::{empty_lists, put_into};
use crate::facts::next_class;
use crate::needed::needed_operands;
use crate::overwriting::{OverwrittenVars, push_lost, reads_until};
use crate::seen::{SeenVars, Sight, seen_var};
use crate::{Facts, Frame, Made};
use cnf_core::{Cnf, Lit};
use graph_meaning::SetClass;
use items::{Items, NoMemory};
use machine_table::Table;
use schedule_meaning::{Launch, class_at, cluster_of, gives, gives_word, ready_in};
use std::alloc::Global;

/// The variables over which the clauses of cycles are: those of launches, the first ones, of what is seen, and of what
/// is overwritten.
#[derive(Drop)]
pub struct CycleVars<'a> {
    pub frame: Frame<'a>,
    pub launches: &'a [Launch],
    pub seen: SeenVars,
    pub over: OverwrittenVars,
}

/// The launches that give a class, with their variables.
pub fn giving(
    alloc: Global,
    facts: &Facts,
    launches: &[Launch],
    class: u32,
) -> Result<Vec<(u32, Launch)>, NoMemory>
    requires few { length launches.now < 2 ^ 29 }
    ensures { IfOk result (λ given. given.items ≡ given_in facts.now class launches.now) }
{
    let mut given = Vec::new(alloc);
    for (index, launch) in launches.iter().enumerate() {
        push_giving(&mut given, facts, class, index as u32 + 1, *launch)?;
    }
    Ok(given)
}

fn push_giving(
    given: &mut Vec<(u32, Launch)>,
    facts: &Facts,
    class: u32,
    var: u32,
    launch: Launch,
) -> Result<(), NoMemory>
    ensures { OnOk result (given.new.items
        ≡ given.old.items ++ (if gives facts.now class launch then (var, launch) ∷ [] else [])) }
{
    if gives(facts.graph(), class, launch, facts.instr_at(launch.row)) {
        given.push((var, launch))?;
    }
    Ok(())
}

/// Adds a clause for each target without a pin that has to be made.
pub fn add_targets(alloc: Global, cnf: &mut Cnf, vars: &CycleVars) -> Result<(), NoMemory>
    requires vars { AreCycleVars vars.now }
    requires exist { last_over vars.now ≤ cnf.old.vars }
    requires few { cnf.old.vars < 2 ^ 29 }
    requires room { length cnf.old.clauses + length (targets_over vars.now) < 2 ^ 30 }
    ensures { OnOk result (cnf.new ≡ with_clauses cnf.old (targets_over vars.now)) }
{
    for set in vars.frame.facts.graph().sets.as_slice() {
        add_target(alloc, cnf, vars, set)?;
    }
    Ok(())
}

fn add_target(
    alloc: Global,
    cnf: &mut Cnf,
    vars: &CycleVars,
    set: &SetClass,
) -> Result<(), NoMemory>
    requires vars { AreCycleVars vars.now }
    requires exist { last_over vars.now ≤ cnf.old.vars }
    requires few { cnf.old.vars < 2 ^ 29 }
    requires room { length cnf.old.clauses + length (target_groups vars.now.frame.facts.now vars.now.over.cycles
        (launched_over vars.now) (overwritten_over vars.now) (set.now ∷ [])) < 2 ^ 30 }
    ensures { OnOk result (cnf.new ≡ with_clauses cnf.old (target_groups vars.now.frame.facts.now vars.now.over.cycles
        (launched_over vars.now) (overwritten_over vars.now) (set.now ∷ []))) }
{
    if !vars.frame.facts.is_needed_target(set) {
        return Ok(());
    }
    let given = giving(alloc, vars.frame.facts, vars.launches, set.class)?;
    let mut clause = variables(alloc, &given)?;
    push_lost(
        &mut clause,
        vars.frame.facts,
        &vars.over,
        set.class,
        u64::from(vars.over.cycles),
    )?;
    cnf.add(&clause)
}

/// The variables of launches.
pub fn variables(alloc: Global, given: &[(u32, Launch)]) -> Result<Vec<Lit>, NoMemory>
    ensures { IfOk result (λ lits. lits.items ≡ map (λ p. positive p.0) given.now) }
{
    let mut lits = Vec::new(alloc);
    for (var, _) in given {
        lits.push(Lit {
            var: *var,
            positive: true,
        })?;
    }
    Ok(lits)
}

/// Adds a clause for each launch and each operand that it needs.
pub fn add_operands(alloc: Global, cnf: &mut Cnf, vars: &CycleVars) -> Result<(), NoMemory>
    requires vars { AreCycleVars vars.now }
    requires exist { last_over vars.now ≤ cnf.old.vars }
    requires few { cnf.old.vars < 2 ^ 29 }
    requires room { length cnf.old.clauses + length (operands_over vars.now) < 2 ^ 30 }
    ensures { OnOk result (cnf.new ≡ with_clauses cnf.old (operands_over vars.now)) }
{
    for (index, launch) in vars.launches.iter().enumerate() {
        let needed = needed_operands(alloc, vars.frame.facts, *launch)?;
        let made = Made {
            var: index as u32 + 1,
            launch: *launch,
        };
        add_sights(alloc, cnf, vars, &needed, made)?;
    }
    Ok(())
}

/// Adds a clause for each class: where the launch is made it sees the class, or some input's register of it isn't
/// overwritten yet.
fn add_sights(
    alloc: Global,
    cnf: &mut Cnf,
    vars: &CycleVars,
    needed: &[u32],
    made: Made,
) -> Result<(), NoMemory>
    requires var { 1 ≤ made.var }
    requires within { made.var ≤ vars.now.seen.first }
    requires vars { AreCycleVars vars.now }
    requires exist { last_over vars.now ≤ cnf.old.vars }
    requires few { cnf.old.vars < 2 ^ 29 }
    requires room { length cnf.old.clauses + length needed.now < 2 ^ 30 }
    ensures { OnOk result (cnf.new ≡ with_clauses cnf.old
        (of_thing made.var (sights vars.now.frame.facts.now
        (tables.cluster_of vars.now.frame.table.now made.launch.slot) made.launch.cycle
        (launches.reads_until vars.now.frame.facts.now made.launch) (seen_over vars.now) (overwritten_over vars.now)
        needed.now))) }
{
    let cluster = cluster_of(vars.frame.table, made.launch.slot);
    let until = reads_until(vars.frame.facts, made.launch);
    for class in needed {
        let sight = seen_var(&vars.seen, &vars.frame, *class, cluster, made.launch.cycle);
        let mut clause = implied_literal(alloc, made.var, sight)?;
        push_lost(&mut clause, vars.frame.facts, &vars.over, *class, until)?;
        cnf.add(&clause)?;
    }
    Ok(())
}

/// The clause that a variable implies a literal, or that it is false where there is none.
fn implied_literal(alloc: Global, var: u32, lit: Option<Lit>) -> Result<Vec<Lit>, NoMemory>
    ensures { IfOk result (λ clause. clause.items ≡ negative var ∷ option_to_list lit) }
{
    let mut clause = Vec::new(alloc);
    clause.push(Lit {
        var,
        positive: false,
    })?;
    match lit {
        Some(lit) => clause.push(lit)?,
        None => {}
    }
    Ok(clause)
}

/// Adds the clause that a variable implies a literal, or that it is false where there is none.
pub fn add_implied(cnf: &mut Cnf, var: u32, lit: Option<Lit>) -> Result<(), NoMemory>
    requires var { IsLitOf cnf.old.vars (negative var) }
    requires lit { All (IsLitOf cnf.old.vars) (option_to_list lit) }
    requires room { length cnf.old.clauses < 2 ^ 30 }
    ensures { OnOk result (cnf.new ≡ with_clauses cnf.old ((negative var ∷ option_to_list lit) ∷ [])) }
{
    let not = Lit {
        var,
        positive: false,
    };
    match lit {
        Some(lit) => cnf.add(&[not, lit]),
        None => cnf.add(&[not]),
    }
}

/// Adds for each thing that is seen the clause that it was made.
pub fn add_seen(alloc: Global, cnf: &mut Cnf, vars: &CycleVars) -> Result<(), NoMemory>
    requires vars { AreCycleVars vars.now }
    requires exist { vars.now.seen.first + length vars.now.seen.seen.items ≤ cnf.old.vars }
    requires few { cnf.old.vars < 2 ^ 29 }
    requires room { length cnf.old.clauses + length (makers_over vars.now) < 2 ^ 30 }
    ensures { OnOk result (cnf.new ≡ with_clauses cnf.old (makers_over vars.now)) }
{
    let makers = makers(alloc, vars.frame.facts, vars.launches)?;
    for (index, thing) in vars.seen.seen.as_slice().iter().enumerate() {
        let var = vars.seen.first + index as u32 + 1;
        let sight = Sight { var, thing: *thing };
        add_thing(alloc, cnf, vars, &makers, sight)?;
    }
    Ok(())
}

/// Adds the clause that what is seen was made.
fn add_thing(
    alloc: Global,
    cnf: &mut Cnf,
    vars: &CycleVars,
    makers: &[Items<(u32, Launch)>],
    sight: Sight,
) -> Result<(), NoMemory>
    requires var { IsLitOf cnf.old.vars (negative sight.var) }
    requires makers { IsTableOf (λ class. given_in vars.now.frame.facts.now class vars.now.launches.now) makers.now }
    requires exist { length vars.now.launches.now ≤ cnf.old.vars }
    requires few { cnf.old.vars < 2 ^ 29 }
    requires room { length cnf.old.clauses < 2 ^ 30 }
    ensures { OnOk result (cnf.new ≡ with_clauses cnf.old
        ((negative sight.var ∷ vars_of (makes vars.now.frame.facts.now vars.now.frame.table.now sight.thing)
        (launched_over vars.now)) ∷ [])) }
{
    match makers.get(sight.thing.class as usize) {
        Some(given) => add_sight(alloc, cnf, vars, given.as_slice(), sight),
        None => {
            let given = giving(alloc, vars.frame.facts, vars.launches, sight.thing.class)?;
            add_sight(alloc, cnf, vars, &given, sight)
        }
    }
}

/// For each class the launches that give it, in one pass over all launches.
fn makers(
    alloc: Global,
    facts: &Facts,
    launches: &[Launch],
) -> Result<Vec<Items<(u32, Launch)>>, NoMemory>
    requires graph { IsLaunchGraph facts.now }
    requires few { length launches.now < 2 ^ 29 }
    ensures { IfOk result (λ makers. IsTableOf (λ class. given_in facts.now class launches.now) makers.items) }
{
    let mut makers = empty_lists(alloc, next_class(facts.graph()))?;
    for (index, launch) in launches.iter().enumerate() {
        put_maker(&mut makers, facts, index as u32 + 1, *launch)?;
    }
    Ok(makers)
}

/// Puts a launch with its variable at the end of the list of its class, if it gives a word.
fn put_maker(
    makers: &mut Vec<Items<(u32, Launch)>>,
    facts: &Facts,
    var: u32,
    launch: Launch,
) -> Result<(), NoMemory>
    ensures { OnOk result (makers.new.items ≡ (if launches.launches facts.now launches.gives_word launch
        then put_at makers.old.items (launches.class_at facts.now launch.row) (var, launch) else makers.old.items)) }
{
    if gives_word(facts.instr_at(launch.row)) {
        put_into(makers, class_at(facts.graph(), launch.row), (var, launch))?;
    }
    Ok(())
}

/// Adds the clause that what is seen was made by one of the launches that give it.
fn add_sight(
    alloc: Global,
    cnf: &mut Cnf,
    vars: &CycleVars,
    given: &[(u32, Launch)],
    sight: Sight,
) -> Result<(), NoMemory>
    requires var { IsLitOf cnf.old.vars (negative sight.var) }
    requires given { given.now ≡ given_in vars.now.frame.facts.now sight.thing.class vars.now.launches.now }
    requires exist { length vars.now.launches.now ≤ cnf.old.vars }
    requires room { length cnf.old.clauses < 2 ^ 30 }
    ensures { OnOk result (cnf.new ≡ with_clauses cnf.old
        ((negative sight.var ∷ vars_of (makes vars.now.frame.facts.now vars.now.frame.table.now sight.thing)
        (launched_over vars.now)) ∷ [])) }
{
    let clause = sight_clause(alloc, &vars.frame, given, sight)?;
    cnf.add(&clause)
}

/// The clause that what is seen was made by one of these launches, that is ready where it is seen.
fn sight_clause(
    alloc: Global,
    frame: &Frame,
    given: &[(u32, Launch)],
    sight: Sight,
) -> Result<Vec<Lit>, NoMemory>
    ensures { IfOk result (λ clause. clause.items ≡ negative sight.var ∷ map (λ p. positive p.0)
        (filter (λ p. is_ready frame.now.facts.now frame.now.table.now sight.thing p.1) given.now)) }
{
    let mut clause = Vec::new(alloc);
    clause.push(Lit {
        var: sight.var,
        positive: false,
    })?;
    for (maker, launch) in given {
        if ready_in(
            frame.table,
            sight.thing.cluster,
            *launch,
            frame.facts.instr_at(launch.row),
        ) <= u64::from(sight.thing.cycle)
        {
            clause.push(Lit {
                var: *maker,
                positive: true,
            })?;
        }
    }
    Ok(clause)
}

// What a graph says of its classes and rows, in tables.
ghost use Rattle.std.specs.Prelude.{◌≡◌, ◌==◌, ◌+◌, ◌<◌, ◌≤◌, ◌^◌, ◌&&◌, ◌++◌, ◌∷◌, [], false, IfOk, OnOk, is_some};
ghost use Rattle.std.specs.Prelude.{if◌then◌else◌, length};
ghost use Rattle.word_ops.specs.Meanings as meanings;
ghost use Rattle.graph_meaning.specs.Graphs as graphs;
ghost use Rattle.graph_meaning.specs.WellFormed as wellformed;
ghost use Rattle.graph_meaning.specs.WellFormed.{IsLaunchGraph};
ghost use Rattle.schedule_meaning.specs.Launches as launches;
ghost use Rattle.schedule_meaning.specs.Readers.{operand_of};
ghost use Rattle.cycle_encoding.specs.Facts.{IsTableOf};
ghost use Rattle.cycle_encoding.specs.Wanting.{is_wanted_target};
ghost use Rattle.cycle_encoding.specs.Families as families;
ghost use Rattle.cycle_encoding.specs.Variables as variables;

use crate::marks::{filled, give_constant, mark};
use graph_meaning::{LaunchGraph, SetClass, graphs_are_consistent};
use items::NoMemory;
use machine_table::InstrKind;
use schedule_meaning::{To, instr_at, pin_of};
use std::alloc::{AllocError, Global};
use std::marker::Model;
use word_ops::{Op, Sort};

/// A graph whose classes and rows are looked up in constant time.
#[derive(Drop)]
pub struct Facts<'a> {
    graph: &'a LaunchGraph,
    constants: Vec<Option<u64>>,
    words: Vec<bool>,
    inputs: Vec<bool>,
    safe: Vec<bool>,
    pins: Vec<u32>,
    instrs: Vec<Option<InstrKind>>,
}

impl<'a> Model for Facts<'a> {
    ghost use Rattle.graph_meaning.specs.declared.graphs.LaunchGraph.{LaunchGraph as Graph};
    ghost use Rattle.cycle_encoding.specs.Facts.{AreFacts};

    ghost Value = { Graph };

    ghost view = { λ a. a.graph.now };

    ghost invariant = { λ a. AreFacts a.graph.now a.constants.items a.words.items a.inputs.items a.safe.items
        a.pins.items a.instrs.items };
}

impl<'a> Facts<'a> {
    pub fn new(alloc: Global, graph: &'a LaunchGraph) -> Result<Facts<'a>, NoMemory>
        requires { IsLaunchGraph graph.now }
        ensures { IfOk result (λ facts. facts ≡ graph.now) }
    {
        let classes = next_class(graph);
        Ok(Facts {
            graph,
            constants: constants(alloc, graph, classes)?,
            words: words(alloc, graph, classes)?,
            inputs: inputs(alloc, graph, classes)?,
            safe: safe(alloc, graph, classes)?,
            pins: pins(alloc, graph)?,
            instrs: instrs(alloc, graph)?,
        })
    }

    pub fn graph(&self) -> &LaunchGraph
        ensures { result.now ≡ self.now }
    {
        self.graph
    }

    /// The instruction of a row's number; that of the number one past the last row is the branch of a guard.
    pub fn instr_at(&self, row: u32) -> Option<InstrKind>
        ensures { result ≡ launches.instr_at self.now row }
    {
        match self.instrs.get(row as usize) {
            Some(instr) => *instr,
            None => instr_at(self.graph, row),
        }
    }

    fn constant_of(&self, class: u32) -> Option<u64>
        ensures { result ≡ graphs.constant_of self.now class }
    {
        match self.constants.get(class as usize) {
            Some(constant) => *constant,
            None => self.graph.constant_of(class),
        }
    }

    /// Whether the class is an input's.
    pub fn is_input(&self, class: u32) -> bool
        ensures { result ≡ variables.is_input self.now class }
    {
        match self.inputs.get(class as usize) {
            Some(is) => *is,
            None => self
                .graph
                .inputs
                .as_slice()
                .iter()
                .any(|input| input.class == class),
        }
    }

    /// Whether some row of the class gives a word.
    pub fn is_word_class(&self, class: u32) -> bool
        ensures { result ≡ variables.is_word_class self.now class }
    {
        match self.words.get(class as usize) {
            Some(is) => *is,
            None => self
                .graph
                .rows
                .as_slice()
                .iter()
                .any(|row| row.class == class && row.op.sort() == Sort::Word),
        }
    }

    pub fn is_zero(&self, class: u32) -> bool
        ensures { result ≡ graphs.is_zero_class self.now class }
    {
        match self.constant_of(class) {
            Some(constant) => constant == 0,
            None => false,
        }
    }

    /// Whether an operand needs no register: it is of the zero class, or a literal.
    pub fn is_free(&self, class: u32, second: bool) -> bool
        ensures { result ≡ families.is_free self.now (operand_of class second) }
    {
        match self.constant_of(class) {
            Some(constant) => constant == 0 || (second && constant <= 255),
            None => false,
        }
    }

    /// Whether an input of the class has a register that is no pin, so that nothing writes it.
    pub fn is_safe(&self, class: u32) -> bool
        ensures { result ≡ variables.is_safe self.now class }
    {
        match self.safe.get(class as usize) {
            Some(is) => *is,
            None => is_safe(self.graph, class),
        }
    }

    /// The numbers of the sets that have pins, in order: no more than there are registers.
    pub fn pins(&self) -> &[u32]
        ensures value { result.now ≡ variables.pinned_sets self.now }
        ensures few { length result.now ≤ 31 }
    {
        self.pins.as_slice()
    }

    /// How many numbers of rows there are: those of rows, of the branch, and of a copy for each set.
    pub fn row_numbers(&self) -> u32
        requires { length self.now.rows < 2 ^ 30 }
        ensures value { result ≡ length self.now.rows + 1 + length self.now.sets }
        ensures few { result < 2 ^ 31 }
    {
        self.graph.rows.len() as u32 + 1 + self.graph.sets.len() as u32
    }

    /// The same of a target without a pin.
    pub fn is_needed_target(&self, set: &SetClass) -> bool
        ensures { result ≡ families.is_made_target self.now set.now }
    {
        !set.is_memory()
            && set.pin.is_none()
            && !self.is_safe(set.class)
            && !self.is_zero(set.class)
    }

    /// Whether a target's class is wanted for itself: it is a word that isn't safe, or it has a pin.
    pub fn is_wanted_target(&self, set: &SetClass) -> bool
        ensures { result ≡ is_wanted_target self.now set.now }
    {
        (!set.is_memory() && !self.is_safe(set.class)) || set.pin.is_some()
    }
}

/// The number past the greatest class.
#[tactic(auto, using(crate::proofs::Tables::next_more))]
pub fn next_class(graph: &LaunchGraph) -> u32
    requires { IsLaunchGraph graph.now }
    ensures { result ≡ wellformed.next_class graph.now.rows }
{
    graphs_are_consistent();
    let mut next = 0;
    for row in graph.rows.as_slice() {
        if next <= row.class {
            next = row.class + 1;
        }
    }
    next
}

fn constants(alloc: Global, graph: &LaunchGraph, classes: u32) -> Result<Vec<Option<u64>>, NoMemory>
    ensures { IfOk result (λ table. IsTableOf (graphs.constant_of graph.now) table.items) }
{
    let mut table = filled(alloc, None, classes)?;
    for row in graph.rows.as_slice() {
        give_constant(&mut table, row.class, constant_in(row.op));
    }
    Ok(table)
}

/// The constant that an operator is, if it is one.
fn constant_in(op: Op) -> Option<u64>
    ensures { result ≡ meanings.constant_in op }
{
    match op {
        Op::Constant(constant) => Some(constant),
        _ => None,
    }
}

/// Whether an operator gives a word.
fn gives_word(op: Op) -> bool
    ensures { result ≡ variables.is_word (meanings.sort_of op) }
{
    match op.sort() {
        Sort::Word => true,
        Sort::Memory => false,
    }
}

fn words(alloc: Global, graph: &LaunchGraph, classes: u32) -> Result<Vec<bool>, NoMemory>
    ensures { IfOk result (λ table. IsTableOf (variables.is_word_class graph.now) table.items) }
{
    let mut table = filled(alloc, false, classes)?;
    for row in graph.rows.as_slice() {
        mark(&mut table, row.class, gives_word(row.op));
    }
    Ok(table)
}

fn inputs(alloc: Global, graph: &LaunchGraph, classes: u32) -> Result<Vec<bool>, NoMemory>
    ensures { IfOk result (λ table. IsTableOf (variables.is_input graph.now) table.items) }
{
    let mut table = filled(alloc, false, classes)?;
    for input in graph.inputs.as_slice() {
        mark(&mut table, input.class, true);
    }
    Ok(table)
}

#[tactic(auto, using(crate::proofs::Tables::table_more))]
fn instrs(alloc: Global, graph: &LaunchGraph) -> Result<Vec<Option<InstrKind>>, NoMemory>
    requires { length graph.now.rows < 2 ^ 30 }
    ensures { IfOk result (λ table. IsTableOf (launches.instr_at graph.now) table.items) }
{
    let mut table = Vec::new(alloc);
    let rows = graph.rows.len() as u32;
    for row in 0..rows + 1 {
        table.push(instr_at(graph, row))?;
    }
    Ok(table)
}

/// Whether some set is pinned to the register.
fn is_pin(graph: &LaunchGraph, register: u8) -> bool
    ensures { result ≡ variables.is_pin graph.now register }
{
    graph.sets.as_slice().iter().any(|set| match set.pin {
        Some(pin) => pin == register,
        None => false,
    })
}

fn is_safe(graph: &LaunchGraph, class: u32) -> bool
    ensures { result ≡ variables.is_safe graph.now class }
{
    graph
        .inputs
        .as_slice()
        .iter()
        .any(|input| input.class == class && !is_pin(graph, input.reg))
}

fn safe(alloc: Global, graph: &LaunchGraph, classes: u32) -> Result<Vec<bool>, NoMemory>
    ensures { IfOk result (λ table. IsTableOf (variables.is_safe graph.now) table.items) }
{
    let mut table = filled(alloc, false, classes)?;
    for input in graph.inputs.as_slice() {
        let passes = !is_pin(graph, input.reg);
        mark(&mut table, input.class, passes);
    }
    Ok(table)
}

/// The numbers of the sets that have pins. A graph whose sets can't be numbered with its rows is refused as one for
/// which there is no memory.
fn pins(alloc: Global, graph: &LaunchGraph) -> Result<Vec<u32>, NoMemory>
    requires { IsLaunchGraph graph.now }
    ensures are { IfOk result (λ pins. pins.items ≡ variables.pinned_sets graph.now) }
    ensures few { IfOk result (λ pins. length pins.items ≤ 31) }
    ensures sets { OnOk result (length graph.now.sets < 2 ^ 30) }
{
    if graph.sets.len() >= 1 << 30 {
        return Err(AllocError);
    }
    let mut pins = Vec::new(alloc);
    for set in 0..graph.sets.len() as u32 {
        if pin_of(graph, To::Set(set)).is_some() {
            pins.push(set)?;
        }
    }
    Ok(pins)
}

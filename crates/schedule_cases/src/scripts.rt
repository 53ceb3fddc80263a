// E-graphs that are made by a script, and what matches in them.
ghost use Rattle.std.specs.Prelude.{◌<◌, length};

use crate::building::{join, put_row};
use crate::equalities::kind_of;
use axiom_base::{Rule, equations};
use case_files::{Lines, Trouble, Words, put, put_line, put_numbers};
use egraph::{Egraph, MergeFault};
use pattern_match::{Match, calc_matches, calc_need, calc_unmet, folds, matches, need, unmet};
use std::alloc::Global;
use word_ops::{Access, Arity, Op, op_of};

/// A script's graph, what it has said, and whether inserts say nothing.
#[derive(Drop)]
struct Script {
    graph: Egraph<Op>,
    report: Vec<u8>,
    is_silent: bool,
}

/// The first of the classes that are one with a class.
fn first_of(graph: &Egraph<Op>, class: u32) -> u64 {
    if class >= graph.made() {
        return u64::MAX;
    }
    for other in 0..graph.made() {
        if graph.now(other) == graph.now(class) {
            return u64::from(other);
        }
    }
    u64::from(class)
}

/// The operator that a word names. `input` and `const` have a number behind them.
fn operator(name: &[u8], words: &mut Words<'_>) -> Result<Op, Trouble> {
    Ok(match name {
        b"memory" => Op::Entry,
        b"input" => Op::Input((words.small()? % 31) as u8),
        b"const" => Op::Constant(words.number()?),
        _ => match on_memory(name) {
            Some(op) => op,
            None => Op::Word(op_of(name).ok_or(Trouble::Unread)?),
        },
    })
}

/// The operator on a memory that has the name.
fn on_memory(name: &[u8]) -> Option<Op> {
    for access in [Access::Quad, Access::Byte, Access::Word, Access::Long] {
        if name == access.select_name() {
            return Some(Op::Select(access));
        }
        if name == access.store_name() {
            return Some(Op::Store(access));
        }
        if name == access.load_name() {
            return Some(Op::Load(access));
        }
        if name == access.put_name() {
            return Some(Op::Put(access));
        }
    }
    None
}

/// The classes that are left on a line.
fn classes(alloc: Global, words: &mut Words<'_>) -> Result<Vec<u32>, Trouble> {
    let mut classes = Vec::new(alloc);
    for _ in 0..4 {
        if words.rest.is_empty() {
            break;
        }
        classes.push(words.small()?)?;
    }
    Ok(classes)
}

/// Lines in the order of their bytes.
fn put_sorted(report: &mut Vec<u8>, mut lines: Vec<Vec<u8>>) -> Result<(), Trouble> {
    lines.sort()?;
    for line in &lines {
        put(report, line)?;
    }
    Ok(())
}

/// A line for each match: the first of the classes that are one with each of its classes.
fn put_matches(
    alloc: Global,
    graph: &Egraph<Op>,
    report: &mut Vec<u8>,
    found: &[Match],
) -> Result<(), Trouble> {
    let mut lines = Vec::new(alloc);
    for one in found {
        let mut numbers = Vec::new(alloc);
        for class in one.classes.as_slice() {
            numbers.push(first_of(graph, *class))?;
        }
        let mut line = Vec::new(alloc);
        put_numbers(&mut line, b"match", &numbers)?;
        lines.push(line)?;
    }
    put_sorted(report, lines)
}

/// A line for each fold, by the first of the classes that are one with its class.
fn put_folds(alloc: Global, script: &mut Script) -> Result<(), Trouble> {
    let mut lines = Vec::new(alloc);
    for fold in folds(alloc, &script.graph)?.as_slice() {
        let mut line = Vec::new(alloc);
        let class = first_of(&script.graph, fold.class);
        put_numbers(&mut line, b"fold", &[class, fold.value])?;
        lines.push(line)?;
    }
    put_sorted(&mut script.report, lines)
}

/// The number of rows, and a line for each class ever made: the first that is one with it, and its constant.
fn put_classes(graph: &Egraph<Op>, report: &mut Vec<u8>) -> Result<(), Trouble> {
    put_numbers(report, b"rows", &[u64::from(graph.rows())])?;
    for class in 0..graph.made() {
        let first = first_of(graph, class);
        match graph.constant_of(class) {
            Some(word) => put_numbers(report, b"class", &[first, word])?,
            None => put_numbers(report, b"class", &[first])?,
        }
    }
    Ok(())
}

/// What an equation matches, where `C` doesn't stand before the number, or else a computed rule.
fn put_found(
    alloc: Global,
    rules: &[Rule],
    script: &mut Script,
    verb: &[u8],
    rule: &[u8],
) -> Result<(), Trouble> {
    if let Some(number) = rule.strip_prefix(b"C") {
        let kind = kind_of(Words { rest: number }.small()?)?;
        if verb == b"need".as_slice() {
            let need = calc_need(alloc, &script.graph, kind)?;
            return put_numbers(&mut script.report, b"need", &[need]);
        }
        let found = if verb == b"unmet".as_slice() {
            calc_unmet(alloc, &script.graph, kind)?
        } else {
            calc_matches(alloc, &script.graph, kind)?
        };
        return put_matches(alloc, &script.graph, &mut script.report, found.as_slice());
    }
    let number = Words { rest: rule }.small()?;
    let at = number.wrapping_sub(1) as usize;
    let rule = rules.get(at).ok_or(Trouble::Unread)?;
    if verb == b"need".as_slice() {
        let need = need(alloc, &script.graph, rule)?;
        return put_numbers(&mut script.report, b"need", &[need]);
    }
    let found = if verb == b"unmet".as_slice() {
        unmet(alloc, &script.graph, rule)?
    } else {
        matches(alloc, &script.graph, rule)?
    };
    put_matches(alloc, &script.graph, &mut script.report, found.as_slice())
}

/// Inserts the row of a line, and says its class, but in a silent script. `use` has the number of a declared operator
/// behind it, which takes as many operands as the line has.
fn insert(
    alloc: Global,
    script: &mut Script,
    name: &[u8],
    words: &mut Words<'_>,
) -> Result<(), Trouble> {
    let class = if name == b"use".as_slice() {
        let index = words.small()?;
        let operands = classes(alloc, words)?;
        let arity = match operands.len() {
            1 => Arity::One,
            2 => Arity::Two,
            3 => Arity::Three,
            4 => Arity::Four,
            _ => return Err(Trouble::Unread),
        };
        let index = (index % 16) as u8;
        put_row(&mut script.graph, Op::Declared { index, arity }, &operands)?
    } else {
        let op = operator(name, words)?;
        let operands = classes(alloc, words)?;
        put_row(&mut script.graph, op, &operands)?
    };
    if script.is_silent {
        return Ok(());
    }
    let first = first_of(&script.graph, class);
    put_numbers(&mut script.report, b"is", &[first])
}

/// Does what a line asks, but for a merge.
fn ask(alloc: Global, rules: &[Rule], script: &mut Script, line: &[u8]) -> Result<(), Trouble> {
    let mut words = Words { rest: line };
    let verb = words.word()?;
    match verb {
        b"folds" => put_folds(alloc, script),
        b"classes" => put_classes(&script.graph, &mut script.report),
        b"rows" => {
            let rows = u64::from(script.graph.rows());
            put_numbers(&mut script.report, b"rows", &[rows])
        }
        b"silent" => {
            script.is_silent = true;
            Ok(())
        }
        b"matches" | b"unmet" | b"need" => {
            let rule = words.word()?;
            put_found(alloc, rules, script, verb, rule)
        }
        _ => insert(alloc, script, verb, &mut words),
    }
}

/// The script after a merge of the two classes of a line, or what it said where two constants met.
fn merged(script: Script, classes: &[u8]) -> Result<Result<Script, Vec<u8>>, Trouble> {
    let mut words = Words { rest: classes };
    let (a, b) = (words.small()?, words.small()?);
    let Script {
        graph,
        mut report,
        is_silent,
    } = script;
    match join(graph, a, b)? {
        Ok(graph) => Ok(Ok(Script {
            graph,
            report,
            is_silent,
        })),
        Err(MergeFault::NoWorld { a, b, .. }) => {
            put_numbers(&mut report, b"clash", &[a.min(b), a.max(b)])?;
            Ok(Err(report))
        }
        Err(MergeFault::Memory) => Err(Trouble::Memory),
    }
}

/// Input: lines that make an E-graph and ask of it. `OP CLASS..` inserts a row, as in the lines of a graph, and says
/// the class; `merge A B` joins two classes, and where two constants meet it says so and ends; `matches R`, `unmet R`
/// and `need R` ask of an equation by its number, or of a computed rule by `C` and its number; `folds` and `classes`
/// list these, and `rows` counts rows. A class is named by the first of the classes that are one with it. Behind a line
/// `silent` inserts say nothing.
pub(crate) fn scripts(alloc: Global, input: &[u8]) -> Result<Vec<u8>, Trouble> {
    let rules = equations(alloc)?;
    let mut script = Script {
        graph: Egraph::new(alloc),
        report: Vec::new(alloc),
        is_silent: false,
    };
    let mut lines = Lines { rest: input };
    for _ in 0..input.len() {
        let Some(line) = lines.next() else {
            break;
        };
        match line.strip_prefix(b"merge ") {
            Some(classes) => match merged(script, classes)? {
                Ok(next) => script = next,
                Err(report) => return Ok(report),
            },
            None => ask(alloc, rules.as_slice(), &mut script, line)?,
        }
    }
    let Script { report, .. } = script;
    Ok(report)
}

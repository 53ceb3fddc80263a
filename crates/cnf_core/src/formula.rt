// A formula in conjunctive normal form.
ghost use Rattle.std.specs.Prelude.{◌≡◌, ◌+◌, ◌-◌, ◌^◌, ◌<◌, ◌≤◌, ◌↔◌, [], ◌∷◌, ◌++◌, length, IsTrue, OnOk, OnErr, slice_get, Some};
ghost use Rattle.std.specs.List.{All};
ghost use Rattle.cnf_core.specs.Counter.{at_most_clauses, at_most_size, at_most_vars};
ghost use Rattle.cnf_core.specs.Formula.{Formula, IsLitOf, AreOver, Satisfies, assigned, clause_true};

use crate::counter::{at_most_vars, put_counter};
use crate::{Clauses, Lit};
use items::NoMemory;
use std::alloc::Global;
use std::marker::Model;

/// Variables, numbered from 1, and clauses over them, numbered from 1.
#[derive(Drop)]
pub struct Cnf {
    vars: u32,
    clauses: Clauses,
}

impl Model for Cnf {
    ghost use Rattle.cnf_core.specs.Counter.{at_most_clauses, at_most_size, at_most_vars};
    ghost use Rattle.cnf_core.specs.Formula.{Formula, IsFormula};

    ghost Value = { Formula };

    ghost view = { λ a. record { vars = a.vars; clauses = a.clauses } };

    ghost invariant = { λ a. IsFormula (record { vars = a.vars; clauses = a.clauses }) };
}

impl Cnf {
    /// No variable and no clause, for which no memory is taken.
    pub fn new(alloc: Global) -> Cnf
        ensures { result ≡ record { vars = 0; clauses = [] } }
    {
        Cnf {
            vars: 0,
            clauses: Clauses::new(alloc),
        }
    }

    /// Makes a variable, the next one.
    pub fn fresh(&mut self) -> u32
        requires { self.old.vars + 1 < 2 ^ 29 }
        ensures number { result ≡ self.old.vars + 1 }
        ensures after { self.new ≡ record self.old { vars = self.old.vars + 1 } }
    {
        self.vars += 1;
        self.vars
    }

    /// The number of variables.
    pub fn vars(&self) -> u32
        ensures value { result ≡ self.now.vars }
        ensures few { result < 2 ^ 29 }
        ensures exist { AreOver self.now.vars self.now.clauses }
    {
        self.vars
    }

    /// The number of clauses.
    pub fn clauses(&self) -> u32
        ensures value { result ≡ length self.now.clauses }
        ensures few { result ≤ 2 ^ 30 }
    {
        self.clauses.len() as u32
    }

    /// The clause with this id.
    pub fn clause(&self, id: u32) -> &[Lit]
        requires first { 1 ≤ id }
        requires last { id ≤ length self.now.clauses }
        ensures value { slice_get self.now.clauses (id - 1) ≡ Some result.now }
        ensures exist { All (IsLitOf self.now.vars) result.now }
    {
        self.clauses.get((id - 1) as usize)
    }

    /// Whether each literal is of a variable of the formula.
    pub fn has(&self, lits: &[Lit]) -> bool
        ensures { IsTrue result ↔ All (IsLitOf self.now.vars) lits.now }
    {
        lits.iter().all(|lit| 1 <= lit.var && lit.var <= self.vars)
    }

    /// Adds a clause.
    pub fn add(&mut self, lits: &[Lit]) -> Result<(), NoMemory>
        requires exist { All (IsLitOf self.old.vars) lits.now }
        requires room { length self.old.clauses < 2 ^ 30 }
        ensures ok { OnOk result (self.new ≡ record self.old { clauses = self.old.clauses ++ lits.now ∷ [] }) }
        ensures err { OnErr result (self.new ≡ self.old) }
    {
        self.clauses.push(lits)
    }

    /// Adds a counter up to `n` over the literals, its variables first, or nothing.
    pub(crate) fn add_counter(&mut self, lits: &[Lit], n: u32) -> Result<(), NoMemory>
        requires exist { All (IsLitOf self.old.vars) lits.now }
        requires short { length lits.now < 2 ^ 29 }
        requires vars { self.old.vars + at_most_vars n (length lits.now) < 2 ^ 29 }
        requires room { length self.old.clauses + at_most_size n (length lits.now) < 2 ^ 30 }
        ensures ok { OnOk result (self.new ≡ record {
          vars = self.old.vars + at_most_vars n (length lits.now);
          clauses = self.old.clauses ++ at_most_clauses self.old.vars n lits.now;
        }) }
        ensures err { OnErr result (self.new ≡ self.old) }
    {
        let count = self.clauses.len();
        if let Err(fault) = put_counter(&mut self.clauses, lits, self.vars, n) {
            self.clauses.truncate(count);
            return Err(fault);
        }
        self.vars += at_most_vars(n, lits.len()) as u32;
        Ok(())
    }
}

/// Whether these values, that of variable x at the place x - 1, satisfy each clause.
pub fn satisfied(cnf: &Cnf, values: &[bool]) -> bool
    requires { length values.now ≡ cnf.now.vars }
    ensures { IsTrue result ↔ Satisfies (assigned values.now) cnf.now.clauses }
{
    for index in 0..cnf.clauses() {
        if !clause_holds(cnf.clause(index + 1), values) {
            return false;
        }
    }
    true
}

fn clause_holds(clause: &[Lit], values: &[bool]) -> bool
    requires { All (IsLitOf (length values.now)) clause.now }
    ensures { result ≡ clause_true (assigned values.now) clause.now }
{
    for lit in clause {
        if values[(lit.var - 1) as usize] == lit.positive {
            return true;
        }
    }
    false
}

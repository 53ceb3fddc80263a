// The watched literals: two of each clause, and the clauses that watch a literal.
ghost use Rattle.std.specs.List.{All};
ghost use Rattle.std.specs.Prelude.{◌≡◌, ◌^◌, ◌<◌, ◌≤◌, [], ◌∷◌, ◌++◌, List, length, min, OnOk, IfOk, slice_index_or, slice_set};
ghost use Rattle.cnf_core.specs.declared.literal.Lit.{Lit as Literal};
ghost use Rattle.sat_core.specs.Watches.{no_watcher, list_of, watchers, watcher_with, with_blocker, with_watcher, pair_at, lits_at, exchanged, IsRemoved, IsMoved, IsAdded, AreWatched};
ghost use Rattle.sat_core.specs.Copies.{Copied};

use cnf_core::Lit;
use items::NoMemory;
use std::alloc::Global;
use std::marker::Model;

/// A clause that watches a literal, by its place. Where the blocker, one of its literals, is true, it needs no visit.
#[derive(Clone, Copy)]
pub(crate) struct Watcher {
    pub(crate) clause: u32,
    pub(crate) blocker: Lit,
    /// The clause has no literal but the blocker and the one that is watched here.
    pub(crate) binary: bool,
}

/// The watched literals of a clause: two different ones, or the same twice where it has no other.
#[derive(Clone, Copy)]
pub(crate) struct Pair {
    pub(crate) a: Lit,
    pub(crate) b: Lit,
    /// Where in the clause the search for another one begins: there the last one was found.
    pub(crate) saved: usize,
}

/// A literal in 32 bits.
#[derive(Drop)]
pub(crate) struct Packed {
    code: u32,
}

impl Model for Packed {
    ghost use Rattle.std.specs.Prelude.{◌/◌, ◌%◌, ◌==◌};
    ghost use Rattle.cnf_core.specs.declared.literal.Lit.{Lit};

    ghost Value = { Lit };

    ghost view = { λ a. record { var = a.code / 2; positive = a.code % 2 == 1 } };
}

impl Packed {
    pub(crate) fn of(lit: Lit) -> Packed
        requires { lit.var < 2 ^ 31 }
        ensures { result ≡ lit }
    {
        Packed {
            code: 2 * lit.var + lit.positive as u32,
        }
    }

    pub(crate) fn lit(&self) -> Lit
        ensures { result ≡ self.now }
    {
        Lit {
            var: self.code / 2,
            positive: self.code % 2 == 1,
        }
    }
}

/// A clause that was visited: its watched literals, and where its literals begin and end.
#[derive(Clone, Copy)]
pub(crate) struct Entry {
    pub(crate) pair: Pair,
    pub(crate) start: usize,
    pub(crate) end: usize,
}

/// The clauses that were visited, with a packed copy of their literals, so that a visit reads little memory.
#[derive(Drop)]
pub(crate) struct Table {
    entries: Vec<Entry>,
    literals: Vec<Packed>,
}

impl Model for Table {
    ghost use Rattle.std.specs.Prelude.{map};
    ghost use Rattle.std.specs.List.{All};
    ghost use Rattle.sat_core.specs.Copies.{Copies, copied_of, HasLiterals};

    ghost Value = { Copies };

    ghost view = { λ a. record { items = map (copied_of a.literals.items) a.entries.items } };

    ghost invariant = { λ a. All (HasLiterals a.literals.items) a.entries.items };
}

impl Table {
    fn new(alloc: Global) -> Table
        ensures { result ≡ record { items = [] } }
    {
        Table {
            entries: Vec::new(alloc),
            literals: Vec::new(alloc),
        }
    }

    pub(crate) fn len(&self) -> usize
        ensures { result ≡ length self.now.items }
    {
        self.entries.len()
    }

    /// The watched literals of the clause at a place.
    pub(crate) fn pair(&self, place: usize) -> Pair
        requires { place < length self.now.items }
        ensures { result ≡ pair_at self.now.items place }
    {
        self.entries[place].pair
    }

    /// The literals of the clause at a place.
    pub(crate) fn lits(&self, place: usize) -> &[Packed]
        requires { place < length self.now.items }
        ensures { result.now ≡ lits_at self.now.items place }
    {
        let entry = self.entries[place];
        &self.literals[entry.start..entry.end]
    }

    /// Gives the clause at a place other watched literals.
    fn exchange(&mut self, place: usize, pair: Pair)
        requires { place < length self.old.items }
        ensures { self.new.items ≡ exchanged self.old.items place pair }
    {
        self.entries[place].pair = pair;
    }

    /// Adds a clause at the end.
    fn push(&mut self, lits: &[Lit], pair: Pair) -> Result<(), NoMemory>
        requires { All (λ l. l.var < 2 ^ 31) lits.now }
        ensures { OnOk result (self.new.items ≡ self.old.items ++ record { pair = pair; lits = lits.now } ∷ []) }
    {
        let start = self.literals.len();
        pack(&mut self.literals, lits)?;
        let end = self.literals.len();
        self.entries.push(Entry { pair, start, end })?;
        Ok(())
    }
}

/// Puts literals at the end, packed.
fn pack(literals: &mut Vec<Packed>, lits: &[Lit]) -> Result<(), NoMemory>
    requires { All (λ l. l.var < 2 ^ 31) lits.now }
    ensures all { OnOk result (literals.new.items ≡ literals.old.items ++ lits.now) }
    ensures stay { length literals.old.items ≤ length literals.new.items }
{
    for lit in lits {
        literals.push(Packed::of(*lit))?;
    }
    Ok(())
}

/// The clauses that watch one literal, in any order.
#[derive(Drop)]
pub(crate) struct WatchList {
    watchers: Vec<Watcher>,
}

impl Model for WatchList {
    ghost use Rattle.std.specs.Prelude.{List};
    ghost use Rattle.sat_core.specs.declared.watches.Watcher.{Watcher};

    ghost Value = { List Watcher };

    ghost view = { λ a. a.watchers.items };
}

impl WatchList {
    pub(crate) fn len(&self) -> usize
        ensures { result ≡ length self.now }
    {
        self.watchers.len()
    }

    pub(crate) fn get(&self, place: usize) -> Watcher
        requires { place < length self.now }
        ensures { result ≡ slice_index_or self.now place no_watcher }
    {
        self.watchers[place]
    }

    /// Takes the watcher at a place out; the last one goes there.
    pub(crate) fn remove(&mut self, place: usize)
        requires { place < length self.old }
        ensures { IsRemoved self.old place self.new }
    {
        let _watcher = self.watchers.swap_remove(place);
    }
}

/// The lists of watchers by literal, the pairs of the clauses that were visited, and how many steps of the trail were
/// visited.
#[derive(Drop)]
pub(crate) struct Watches {
    pub(crate) lists: Vec<WatchList>,
    pub(crate) pairs: Table,
    pub(crate) qhead: usize,
}

/// The place of a literal's list.
pub(crate) fn list_place(lit: Lit) -> usize
    requires { 1 ≤ lit.var }
    ensures { result ≡ list_of lit }
{
    2 * (lit.var as usize - 1) + lit.positive as usize
}

impl Watches {
    /// No clause was visited, over this many variables.
    pub(crate) fn new(alloc: Global, vars: u32) -> Result<Watches, NoMemory>
        requires { vars < 2 ^ 31 }
        ensures { IfOk result (λ watches. (clauses : List (List Literal)) → AreWatched clauses vars [] watches) }
    {
        let mut lists = Vec::new(alloc);
        for _ in 0..2 * vars as usize {
            lists.push(WatchList {
                watchers: Vec::new(alloc),
            })?;
        }
        Ok(Watches {
            lists,
            pairs: Table::new(alloc),
            qhead: 0,
        })
    }

    /// Puts a watcher at the end of a list.
    pub(crate) fn watch(&mut self, list: usize, watcher: Watcher) -> Result<(), NoMemory>
        requires { list < length self.old.lists.items }
        ensures lists { OnOk result (self.new.lists.items ≡ with_watcher self.old.lists.items list watcher) }
        ensures pairs { OnOk result (self.new.pairs ≡ self.old.pairs) }
        ensures qhead { OnOk result (self.new.qhead ≡ self.old.qhead) }
    {
        self.lists[list].watchers.push(watcher)?;
        Ok(())
    }

    /// Gives the watcher at a place of a list another blocker.
    pub(crate) fn renew(&mut self, list: usize, place: usize, blocker: Lit)
        requires list { list < length self.old.lists.items }
        requires place { place < length (watchers self.old.lists.items list) }
        ensures lists { self.new.lists.items ≡ with_blocker self.old.lists.items list place blocker }
        ensures pairs { self.new.pairs ≡ self.old.pairs }
        ensures qhead { self.new.qhead ≡ self.old.qhead }
    {
        self.lists[list].watchers[place].blocker = blocker;
    }

    /// Adds a clause, the next one, with its watched literals.
    pub(crate) fn add(&mut self, lits: &[Lit], pair: Pair) -> Result<(), NoMemory>
        requires packed { All (λ l. l.var < 2 ^ 31) lits.now }
        requires few { length self.old.pairs.items < 2 ^ 31 }
        requires above_a { 1 ≤ pair.a.var }
        requires above_b { 1 ≤ pair.b.var }
        requires list_a { list_of pair.a < length self.old.lists.items }
        requires list_b { list_of pair.b < length self.old.lists.items }
        ensures { OnOk result (IsAdded lits.now pair self.old self.new) }
    {
        if pair.a != pair.b {
            let clause = self.pairs.len() as u32;
            let binary = lits.len() == 2;
            let first = Watcher {
                clause,
                blocker: pair.b,
                binary,
            };
            let second = Watcher {
                clause,
                blocker: pair.a,
                binary,
            };
            self.watch(list_place(pair.a), first)?;
            self.watch(list_place(pair.b), second)?;
        }
        self.pairs.push(lits, pair)?;
        Ok(())
    }

    /// Takes the watcher at a place of a list out, and puts its clause at the end of the list of a new watched literal.
    pub(crate) fn move_watch(
        &mut self,
        list: usize,
        place: usize,
        clause: u32,
        pair: Pair,
    ) -> Result<(), NoMemory>
        requires list { list < length self.old.lists.items }
        requires place { place < length (watchers self.old.lists.items list) }
        requires clause { clause < length self.old.pairs.items }
        requires above { 1 ≤ pair.b.var }
        requires new_list { list_of pair.b < length self.old.lists.items }
        ensures { OnOk result (IsMoved list place clause pair self.old self.new) }
    {
        self.lists[list].remove(place);
        self.pairs.exchange(clause as usize, pair);
        self.watch(
            list_place(pair.b),
            Watcher {
                clause,
                blocker: pair.a,
                binary: false,
            },
        )
    }
}

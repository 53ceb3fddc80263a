// What a graph has of one class.
ghost use Rattle.std.specs.Prelude.{◌≡◌};
ghost use Rattle.graph_meaning.specs.Graphs as graphs;
ghost use Rattle.graph_meaning.specs.Multiples as multiples;

use crate::graphs::{LaunchGraph, LaunchRow, SetClass};
use word_ops::{Op, WordOp};

impl LaunchGraph {
    /// The constant of a class, where it has one: that of its first row that is a constant. It looks at each row in
    /// turn.
    pub fn constant_of(&self, class: u32) -> Option<u64>
        ensures { result ≡ graphs.constant_of self.now class }
    {
        for row in self.rows.as_slice() {
            if row.class == class {
                if let Op::Constant(constant) = row.op {
                    return Some(constant);
                }
            }
        }
        None
    }

    /// The greatest power of 2, at most 8, of which the rows show the class to be a multiple: its exponent. It is 0
    /// where the graph has no row whose instruction wants multiples.
    pub fn multiple_of(&self, class: u32) -> u8
        ensures { result ≡ graphs.multiple_of self.now class }
    {
        match self.multiples.as_slice().get(class as usize) {
            Some(power) => *power,
            None => 0,
        }
    }

    /// Whether the sum of a base and a displacement is known to be a multiple of 2^power. It looks at each row in turn
    /// where what is known of the two doesn't tell.
    pub fn is_sum_multiple(&self, power: u8, base: u32, displacement: u32) -> bool
        ensures { result ≡ multiples.is_sum_multiple self.now power base displacement }
    {
        let both = self.multiple_of(base).min(self.multiple_of(displacement));
        power <= both || self.has_sum_row(power, base, displacement)
    }

    fn has_sum_row(&self, power: u8, base: u32, displacement: u32) -> bool
        ensures { result ≡ multiples.has_sum_row self.now power base displacement }
    {
        self.rows
            .as_slice()
            .iter()
            .any(|row| self.is_sum_row(power, base, displacement, row))
    }

    fn is_sum_row(&self, power: u8, base: u32, displacement: u32, row: &LaunchRow) -> bool
        ensures { result ≡ multiples.is_sum_row self.now power base displacement row.now }
    {
        matches!(row.op, Op::Word(WordOp::Lda))
            && row.operands.as_slice() == [base, displacement].as_slice()
            && power <= self.multiple_of(row.class)
    }

    /// Whether the class has the constant 0. It looks at each row in turn.
    pub fn is_zero_class(&self, class: u32) -> bool
        ensures { result ≡ graphs.is_zero_class self.now class }
    {
        match self.constant_of(class) {
            Some(constant) => constant == 0,
            None => false,
        }
    }

    /// Whether some input has the register.
    pub fn is_input_register(&self, register: u8) -> bool
        ensures { result ≡ graphs.is_input_register self.now register }
    {
        self.inputs
            .as_slice()
            .iter()
            .any(|input| input.reg == register)
    }

    /// The class of the memory target: that of the first set named M, or of the memory at entry.
    pub fn memory_target(&self) -> u32
        ensures { result ≡ graphs.memory_target self.now }
    {
        for set in self.sets.as_slice() {
            if set.is_memory() {
                return set.class;
            }
        }
        self.entry
    }
}

impl SetClass {
    /// Whether the target is the memory, and no word.
    pub fn is_memory(&self) -> bool
        ensures { result ≡ graphs.is_memory_name self.now.name }
    {
        self.name.bytes() == b"M".as_slice()
    }
}

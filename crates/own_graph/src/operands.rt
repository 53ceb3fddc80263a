// What a row is made from before its operands have classes.
ghost use Rattle.std.specs.Prelude.{◌≡◌};
ghost use Rattle.own_graph.specs.Own as own_graphs;

use word_ops::Op;

/// An operand: a class, or an operator without operands, which has a row of its own.
#[derive(Clone, Copy)]
pub(crate) enum Part {
    Class(u32),
    Leaf(Op),
}

pub(crate) fn number(word: u64) -> Part
    ensures { result ≡ own_graphs.number word }
{
    Part::Leaf(Op::Constant(word))
}

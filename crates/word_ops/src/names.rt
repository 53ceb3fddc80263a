// The operators' names.
ghost use Rattle.std.specs.Prelude.{◌≡◌, ◌↔◌, Some, find, bytes_eq};
ghost use Rattle.word_ops.specs.Names as names;
ghost use Rattle.word_ops.specs.Names.{name_of};
ghost use Rattle.word_ops.specs.declared.operators.WordOp.{WordOp as Operator};

use crate::operates::Operate;
use crate::operators::{OTHERS, WordOp};
use crate::sorts::Access;

/// The operator's name, in lower case.
pub fn op_name(op: WordOp) -> &'static [u8]
    ensures { result.now ≡ name_of op }
{
    match op {
        WordOp::Operate(operate) => operate.name(),
        WordOp::Neg => b"neg",
        WordOp::Not => b"not",
        WordOp::Selectb => b"selectb",
        WordOp::Storeb => b"storeb",
        WordOp::Lda => b"lda",
        WordOp::Ldah => b"ldah",
    }
}

/// The operator of that name. It looks at each operator in turn.
pub fn op_of(name: &[u8]) -> Option<WordOp>
    ensures found { (op : Operator) → (result ≡ Some op) ↔ (name_of op ≡ name.now) }
{
    match Operate::of_name(name) {
        Some(operate) => Some(WordOp::Operate(operate)),
        None => other_named(&OTHERS, name),
    }
}

// The first of these operators that has the name.
fn other_named(among: &[WordOp], name: &[u8]) -> Option<WordOp>
    ensures { result ≡ find (λ op. bytes_eq (name_of op) name.now) among.now }
{
    among.iter().copied().find(|op| op_name(*op) == name)
}

impl Access {
    /// The name of `Op::Select` with this access.
    pub fn select_name(self) -> &'static [u8]
        ensures { result.now ≡ names.select_name self }
    {
        match self {
            Access::Quad => b"select",
            Access::Byte => b"ldbu",
            Access::Word => b"ldwu",
            Access::Long => b"ldl",
        }
    }

    /// The name of `Op::Store` with this access.
    pub fn store_name(self) -> &'static [u8]
        ensures { result.now ≡ names.store_name self }
    {
        match self {
            Access::Quad => b"store",
            Access::Byte => b"stb",
            Access::Word => b"stw",
            Access::Long => b"stl",
        }
    }

    /// The name of `Op::Load` with this access.
    pub fn load_name(self) -> &'static [u8]
        ensures { result.now ≡ names.load_name self }
    {
        match self {
            Access::Quad => b"load",
            Access::Byte => b"loadbu",
            Access::Word => b"loadwu",
            Access::Long => b"loadl",
        }
    }

    /// The name of `Op::Put` with this access.
    pub fn put_name(self) -> &'static [u8]
        ensures { result.now ≡ names.put_name self }
    {
        match self {
            Access::Quad => b"put",
            Access::Byte => b"putb",
            Access::Word => b"putw",
            Access::Long => b"putl",
        }
    }
}

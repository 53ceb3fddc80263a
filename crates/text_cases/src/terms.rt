// The texts of terms by themselves: what is read is printed again.
ghost use Rattle.std.specs.Prelude.{◌≤◌, ◌^◌, length};

use case_files::{Trouble, Words, faulty, split_line};
use forms::trees;
use goal_meaning::InputReg;
use goal_reader::{print_term, read_term};
use std::alloc::Global;
use text_core::Name;
use word_ops::Sort;

/// The inputs that are left on a line, each with its register.
fn inputs_in(alloc: Global, words: &mut Words<'_>) -> Result<Vec<InputReg>, Trouble> {
    let mut inputs = Vec::new(alloc);
    for _ in 0..words.rest.len() {
        let Some(word) = words.next() else {
            break;
        };
        let name = Name::new(alloc, word)?;
        let reg = u8::try_from(words.small()? % 31).unwrap_or(0);
        inputs.push(InputReg { name, reg })?;
    }
    Ok(inputs)
}

/// Input: a line `word NAME REGISTER..` or `memory NAME REGISTER..` and a text. Answers with the canonical text of its
/// first form as a term of this sort over these inputs, or with the fault.
pub(crate) fn terms(alloc: Global, input: &[u8]) -> Result<Vec<u8>, Trouble>
    requires { length input.now ≤ 2 ^ 24 }
{
    let (head, text) = split_line(input);
    let mut words = Words { rest: head };
    let sort = match words.word()? {
        b"word" => Sort::Word,
        b"memory" => Sort::Memory,
        _ => return Err(Trouble::Unread),
    };
    let inputs = inputs_in(alloc, &mut words)?;
    let forms = match trees(alloc, text) {
        Ok(forms) => forms,
        Err(fault) => return faulty(alloc, fault),
    };
    let form = forms.first().ok_or(Trouble::Unread)?;
    match read_term(alloc, form, text, &inputs, sort) {
        Ok(term) => Ok(print_term(alloc, &term, &inputs)?),
        Err(fault) => faulty(alloc, fault),
    }
}

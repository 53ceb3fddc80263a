// The text of lines.
ghost use Rattle.std.specs.Prelude.{◌≡◌, ◌++◌, map, IfOk, OnOk};
ghost use Rattle.std.specs.List.{flat_map};
ghost use Rattle.text_core.specs.LineTexts.{line_text as words_text, lines_text};
ghost use Rattle.refutation_check.specs.LineWords.{line_words};
ghost use Rattle.refutation_check.specs.LineText.{literal_text, hint_text};

use cnf_core::{Line, Lines, Lit};
use items::NoMemory;
use itoa::Buffer;
use std::alloc::Global;

/// The words of each line, in decimal, with one space between words and a line feed at the end.
pub fn print(alloc: Global, lines: &Lines) -> Result<Vec<u8>, NoMemory>
    ensures { IfOk result (λ text. text.items ≡ lines_text (map line_words lines.now.lines)) }
{
    let mut text = Vec::new(alloc);
    for line in lines.lines.as_slice() {
        print_line(&mut text, line)?;
    }
    Ok(text)
}

fn print_line(text: &mut Vec<u8>, line: &Line) -> Result<(), NoMemory>
    ensures { OnOk result (text.new.items ≡ text.old.items ++ words_text (line_words line.now)) }
{
    text.extend_from_slice(Buffer::new().format(line.id).as_bytes())?;
    print_literals(text, line.lits.as_slice())?;
    text.extend_from_slice(b" 0")?;
    print_hints(text, line.hints.as_slice())?;
    text.extend_from_slice(b" 0\n")
}

fn print_literals(text: &mut Vec<u8>, lits: &[Lit]) -> Result<(), NoMemory>
    ensures { OnOk result (text.new.items ≡ text.old.items ++ flat_map literal_text lits.now) }
{
    for lit in lits {
        print_literal(text, *lit)?;
    }
    Ok(())
}

fn print_literal(text: &mut Vec<u8>, lit: Lit) -> Result<(), NoMemory>
    ensures { OnOk result (text.new.items ≡ text.old.items ++ literal_text lit) }
{
    text.push(b' ')?;
    if !lit.positive {
        text.push(b'-')?;
    }
    text.extend_from_slice(Buffer::new().format(lit.var).as_bytes())
}

fn print_hints(text: &mut Vec<u8>, hints: &[u32]) -> Result<(), NoMemory>
    ensures { OnOk result (text.new.items ≡ text.old.items ++ flat_map hint_text hints.now) }
{
    for hint in hints {
        text.push(b' ')?;
        text.extend_from_slice(Buffer::new().format(*hint).as_bytes())?;
    }
    Ok(())
}

// Pieces of lines, put behind a text.
ghost use Rattle.std.specs.Prelude.{◌≡◌, ◌++◌, ◌∷◌, [], OnOk, codes, decimal};
ghost use Rattle.text_core.specs.LineTexts.{line_text};

use items::NoMemory;
use itoa::Buffer;

/// Appends bytes to a text.
pub fn put(text: &mut Vec<u8>, bytes: &[u8]) -> Result<(), NoMemory>
    ensures { OnOk result (text.new.items ≡ text.old.items ++ bytes.now) }
{
    text.extend_from_slice(bytes)?;
    Ok(())
}

/// Appends a space and a word to a text.
pub fn put_word(text: &mut Vec<u8>, word: &[u8]) -> Result<(), NoMemory>
    ensures { OnOk result (text.new.items ≡ text.old.items ++ (codes " " ++ word.now)) }
{
    put(text, b" ")?;
    put(text, word)
}

/// Appends a space and a decimal number to a text.
pub fn put_number(text: &mut Vec<u8>, number: u64) -> Result<(), NoMemory>
    ensures { OnOk result (text.new.items ≡ text.old.items ++ (codes " " ++ decimal number)) }
{
    let mut buffer = Buffer::new();
    put_word(text, buffer.format(number).as_bytes())
}

/// Appends a line of a word and a number.
pub fn put_numbered(text: &mut Vec<u8>, word: &[u8], number: u64) -> Result<(), NoMemory>
    ensures { OnOk result (text.new.items ≡ text.old.items ++ line_text (word.now ∷ decimal number ∷ [])) }
{
    put(text, word)?;
    put_number(text, number)?;
    put(text, b"\n")
}

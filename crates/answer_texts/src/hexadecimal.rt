// Words of 32 bits in hexadecimal.
ghost use Rattle.std.specs.Prelude.{◌≡◌, ◌++◌, ◌<◌, OnOk};
ghost use Rattle.answer_texts.specs.AnswerLines as texts;

use items::NoMemory;

fn hex_digit(digit: u32) -> u8
    requires { digit < 16 }
    ensures { result ≡ texts.hex_digit digit }
{
    if digit < 10 {
        b'0' + digit as u8
    } else {
        b'A' - 10 + digit as u8
    }
}

/// Eight digits, in upper case.
#[tactic(auto, unfolding(crate::specs::AnswerLines::hex_text))]
pub(crate) fn put_hex(text: &mut Vec<u8>, word: u32) -> Result<(), NoMemory>
    ensures { OnOk result (text.new.items ≡ text.old.items ++ texts.hex_text word) }
{
    for at in 0..8u32 {
        text.push(hex_digit((word >> (28 - 4 * at)) % 16))?;
    }
    Ok(())
}

// The tokens of a text of goals.

/// What a token is.
#[derive(Clone, Copy)]
pub enum TokenKind {
    Opening,
    Closing,
    Name,
    Register,
    Number(u64),
}

/// A token, the offset of its first byte in the text, from 0, and how many bytes it has.
#[derive(Clone, Copy)]
pub struct Token {
    pub kind: TokenKind,
    pub place: u32,
    pub len: u32,
}

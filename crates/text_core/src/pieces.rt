// The pieces of a text of goals: white space, comments, parentheses and atoms.
ghost use Rattle.std.specs.Prelude.{◌≡◌, ◌<◌, ◌≤◌, length, drop, take, true};
ghost use Rattle.std.specs.List.{list_all};
ghost use Rattle.text_core.specs.Pieces.{kind_begun, goes_on, is_word_byte, IsPiece, IsStopped};

/// The kind of piece that a byte begins which stands in no comment and continues no atom.
#[derive(Clone, Copy, PartialEq, Eq)]
pub(crate) enum PieceKind {
    White,
    Comment,
    Opening,
    Closing,
    Atom,
    Stray,
}

/// Whether the byte is a letter, a digit or an underscore.
pub(crate) fn is_word(byte: u8) -> bool
    ensures { result ≡ is_word_byte byte }
{
    byte.is_ascii_alphanumeric() || byte == b'_'
}

#[tactic(auto, unfolding(crate::specs::Pieces::kind_begun))]
pub(crate) fn begun(byte: u8) -> PieceKind
    ensures { result ≡ kind_begun byte }
{
    match byte {
        b' ' | b'\t' | b'\r' | b'\n' => PieceKind::White,
        b';' => PieceKind::Comment,
        b'(' => PieceKind::Opening,
        b')' => PieceKind::Closing,
        b'$' => PieceKind::Atom,
        _ => {
            if is_word(byte) {
                PieceKind::Atom
            } else {
                PieceKind::Stray
            }
        }
    }
}

fn continues(kind: PieceKind, byte: u8) -> bool
    ensures { result ≡ goes_on kind byte }
{
    match kind {
        PieceKind::Comment => byte != b'\n',
        PieceKind::Atom => is_word(byte),
        _ => false,
    }
}

/// How many bytes at the front of a text go on with a piece of the kind.
fn run(text: &[u8], kind: PieceKind) -> usize
    ensures within { result ≤ length text.now }
    ensures each { list_all (goes_on kind) (take result text.now) ≡ true }
    ensures whole { IsStopped (goes_on kind) (drop result text.now) }
{
    for (index, byte) in text.iter().enumerate() {
        if !continues(kind, *byte) {
            return index;
        }
    }
    text.len()
}

/// The length of the piece at the front of a text, which has a byte. The cost is linear in that length.
pub(crate) fn piece_len(text: &[u8]) -> usize
    requires { 0 < length text.now }
    ensures some { 0 < result }
    ensures within { result ≤ length text.now }
    ensures piece { IsPiece (take result text.now) (drop result text.now) }
{
    1 + run(&text[1..], begun(text[0]))
}

// The first pass over a text of goals: its bytes as tokens.
ghost use Rattle.std.specs.Prelude.{◌≡◌, ◌+◌, ◌<◌, ◌≤◌, ◌^◌, ℕ, List, All, IfOk, IfErr, MatchOption, MatchResult, length, slice_index};
ghost use Rattle.text_core.specs.Faults.{IsFirst, IsFaultBy, GivesUnlessMemory, RefusesUnlessMemory};
ghost use Rattle.text_core.specs.Pieces.{kind_begun};
ghost use Rattle.text_core.specs.Lexing.{HasTokens, IsLexFault, IsToken, IsTokenOf, IsSkipped, IsFaulty};
ghost use Rattle.text_core.specs.ReadTo.{IsReadTo};
ghost use Rattle.text_core.specs.declared.pieces.PieceKind.TheVariants.{Atom};
ghost use Rattle.text_core.specs.declared.tokens.Token.{Token};
ghost use Rattle.text_core.specs.declared.faults.Kind.{Kind};

use crate::numbers::number;
use crate::pieces::{PieceKind, begun, piece_len};
use crate::{Fault, Kind, TextFault, Token, TokenKind};
use std::alloc::Global;

/// What token an atom is.
fn atom(piece: &[u8]) -> Result<TokenKind, Kind>
    requires some { 0 < length piece.now }
    requires atom { kind_begun (slice_index piece.now 0) ≡ Atom }
    ensures { MatchResult result (IsToken piece.now) (IsFaulty piece.now) }
{
    if piece[0] == b'$' {
        return Ok(TokenKind::Register);
    }
    if !piece[0].is_ascii_digit() {
        return Ok(TokenKind::Name);
    }
    match number(piece) {
        Some(value) => Ok(TokenKind::Number(value)),
        None => Err(Kind::BadNumber),
    }
}

/// What token a piece is, or none for white space and comments.
fn token(piece: &[u8]) -> Result<Option<TokenKind>, Kind>
    requires { 0 < length piece.now }
    ensures { MatchResult result
        (λ token. MatchOption token (IsSkipped piece.now) (IsToken piece.now))
        (IsFaulty piece.now) }
{
    match begun(piece[0]) {
        PieceKind::White => Ok(None),
        PieceKind::Comment => Ok(None),
        PieceKind::Opening => Ok(Some(TokenKind::Opening)),
        PieceKind::Closing => Ok(Some(TokenKind::Closing)),
        PieceKind::Atom => Ok(Some(atom(piece)?)),
        PieceKind::Stray => Err(Kind::BadByte),
    }
}

/// Reads the piece at the front of the rest of a text, which begins at a place, and answers where the next one begins.
fn step(tokens: &mut Vec<Token>, text: &[u8], at: usize) -> Result<usize, TextFault>
    requires small { length text.now < 2 ^ 29 }
    requires within { at < length text.now }
    requires read { IsReadTo text.now at tokens.old.items }
    ensures later { IfOk result (λ next. at < next) }
    ensures within { IfOk result (λ next. next ≤ length text.now) }
    ensures read { IfOk result (λ next. IsReadTo text.now next tokens.new.items) }
    ensures fault { IfErr result (IsFaultBy (IsFirst (IsLexFault text.now))) }
{
    let rest = &text[at..];
    let len = piece_len(rest);
    match token(&rest[..len]) {
        Ok(None) => Ok(at + len),
        Ok(Some(kind)) => {
            tokens.push(Token {
                kind,
                place: at as u32,
                len: len as u32,
            })?;
            Ok(at + len)
        }
        Err(kind) => Err(TextFault::Fault(Fault {
            place: at as u32,
            kind,
        })),
    }
}

fn tokens_of(alloc: Global, text: &[u8]) -> Result<Vec<Token>, TextFault>
    requires { length text.now < 2 ^ 29 }
    ensures tokens { IfOk result (λ tokens. HasTokens text.now tokens.items) }
    ensures within { IfOk result (λ tokens. All (λ t. t.place + t.len ≤ length text.now) tokens.items) }
    ensures fault { IfErr result (IsFaultBy (IsFirst (IsLexFault text.now))) }
{
    let mut tokens = Vec::new(alloc);
    let mut at = 0;
    while at < text.len() {
        at = step(&mut tokens, text, at)?;
    }
    Ok(tokens)
}

/// The tokens of a text of goals, in order. The cost is linear in the length of the text.
pub fn lex(alloc: Global, text: &[u8]) -> Result<Vec<Token>, TextFault>
    requires { length text.now < 2 ^ 29 }

    // What is read is in the grammar, and what is in it is read.
    ensures tokens { IfOk result (λ tokens. HasTokens text.now tokens.items) }
    ensures read { (tokens : List Token) → HasTokens text.now tokens
        → GivesUnlessMemory (λ read. read.items ≡ tokens) result }

    // Each token is that of the bytes at its place.
    ensures within { IfOk result (λ tokens. All (λ t. t.place + t.len ≤ length text.now) tokens.items) }
    ensures each { IfOk result (λ tokens. All (IsTokenOf text.now) tokens.items) }
    ensures few { IfOk result (λ tokens. length tokens.items ≤ length text.now) }

    // A fault is the first one, and where there is one it is answered.
    ensures fault { IfErr result (IsFaultBy (IsFirst (IsLexFault text.now))) }
    ensures refused { (place : ℕ) (kind : Kind) → IsFirst (IsLexFault text.now) place kind
        → RefusesUnlessMemory place kind result }
{
    tokens_of(alloc, text)
}

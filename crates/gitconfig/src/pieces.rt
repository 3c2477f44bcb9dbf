//! The pieces of an encoded value: bytes, blanks, quotes and line continuations.

ghost use Rattle.std.specs.Prelude.{◌≡◌, ◌∷◌, ◌<◌, Bool, IfSome, length};
ghost use Rattle.gitconfig.specs.Values.{BeginsWithPiece};

use crate::bytes::is_blank;

/// A piece of an encoded value.
#[derive(Clone, Copy, Debug)]
pub(crate) enum Piece {
    /// A byte of the value.
    Byte(u8),
    /// A blank outside quotes, which is a byte of the value unless it is at either end of the
    /// value.
    Blank(u8),
    /// A quote.
    Quote,
    /// A backslash at the end of a line: the value continues on the next line.
    Continuation,
}

/// Returns the first piece of a value, and the text after the piece, or `None` if the text does not
/// begin with a piece.
pub(crate) fn split_piece(text: &[u8], is_quoted: bool) -> Option<(Piece, &[u8])>
    ensures piece { IfSome result (λ parts.
        BeginsWithPiece is_quoted text.now parts.0 parts.1.now) }
    ensures shorter { IfSome result (λ parts. length parts.1.now < length text.now) }
{
    let (first, after) = text.split_first()?;
    match *first {
        b'\n' => None,
        b'\\' => split_escape(after),
        b'"' => Some((Piece::Quote, after)),
        byte if is_quoted => Some((Piece::Byte(byte), after)),
        b'#' | b';' => None,
        byte if is_blank(byte) => Some((Piece::Blank(byte), after)),
        byte => Some((Piece::Byte(byte), after)),
    }
}

// Returns the piece that a backslash followed by this text encodes, and the text after the piece.
// Returns `None` if a backslash followed by this text encodes nothing.
fn split_escape(text: &[u8]) -> Option<(Piece, &[u8])>
    ensures piece { IfSome result (λ parts. (is_quoted : Bool)
        → BeginsWithPiece is_quoted (92 ∷ text.now) parts.0 parts.1.now) }
    ensures shorter { IfSome result (λ parts. length parts.1.now < length text.now) }
{
    let (first, after) = text.split_first()?;
    match *first {
        b'\n' => Some((Piece::Continuation, after)),
        b'n' => Some((Piece::Byte(b'\n'), after)),
        b't' => Some((Piece::Byte(b'\t'), after)),
        b'b' => Some((Piece::Byte(8), after)),
        b'"' => Some((Piece::Byte(b'"'), after)),
        b'\\' => Some((Piece::Byte(b'\\'), after)),
        _ => None,
    }
}

//! Splitting the text of an object into words and lines.

ghost use Rattle.std.specs.Prelude.{◌≡◌, ◌≢◌, ◌++◌, ◌∷◌, ◌<◌, List, ℕ, All, IfSome, MatchOption, length};
ghost use Rattle.gname.specs.Ids.{Id};
ghost use Rattle.gitobject.specs.Lines.{BeginsWithId, BeginsWithType};
ghost use Rattle.gitobject.specs.declared.types.ObjectType.{ObjectType};

use crate::ids::ID_TEXT;
use crate::types::ObjectType;
use gname::Oid;
use gname::laws::texts_have_one_reading;
use memchr::memchr;

/// Returns the text after this word, or `None` if the text does not begin with the word.
pub(crate) fn strip<'a>(word: &[u8], text: &'a [u8]) -> Option<&'a [u8]>
    ensures { MatchOption result ((rest : List ℕ) → ¬ (text.now ≡ word.now ++ rest))
        (λ rest. text.now ≡ word.now ++ rest.now) }
{
    text.strip_prefix(word)
}

/// Returns the parts of a text before and after the first occurrence of this byte, or `None` if the
/// text does not contain the byte.
pub(crate) fn cut(byte: u8, text: &[u8]) -> Option<(&[u8], &[u8])>
    ensures { MatchOption result
        ((front rest : List ℕ) → ¬ (text.now ≡ front ++ byte ∷ rest))
        (λ parts. All (λ b. b ≢ byte) parts.0.now × (text.now ≡ parts.0.now ++ byte ∷ parts.1.now)) }
{
    match memchr(byte, text) {
        Some(end) => Some((&text[..end], &text[end + 1..])),
        None => None,
    }
}

/// Returns the id that follows `word` on the first line, and the text after the line. Returns
/// `None` if the first line is not `word` followed by an id.
pub(crate) fn id_line<'a>(word: &[u8], text: &'a [u8]) -> Option<(Oid, &'a [u8])>
    ensures line { MatchOption result
        ((id : Id) (rest : List ℕ) → ¬ (BeginsWithId word.now text.now id rest))
        (λ parts. BeginsWithId word.now text.now parts.0 parts.1.now) }
    ensures shorter { IfSome result (λ parts. length parts.1.now < length text.now) }
{
    // The proof uses this law.
    texts_have_one_reading();
    let Some(after) = strip(word, text) else {
        return None;
    };
    let Some((digits, end)) = split_front(ID_TEXT, after) else {
        return None;
    };
    let Some(rest) = strip(b"\n", end) else {
        return None;
    };
    match Oid::from_hex(digits) {
        Ok(id) => Some((id, rest)),
        Err(_) => None,
    }
}

// Returns the first `count` bytes of a text, and the rest, or `None` if the text is shorter.
fn split_front(count: usize, text: &[u8]) -> Option<(&[u8], &[u8])>
    ensures { MatchOption result (length text.now < count)
        (λ parts. (length parts.0.now ≡ count) × (text.now ≡ parts.0.now ++ parts.1.now)) }
{
    text.split_at_checked(count)
}

/// Returns the object type that follows the word `type` on the first line, and the text after the
/// line. Returns `None` if the first line is not `type`, a space and an object type.
pub(crate) fn type_line(text: &[u8]) -> Option<(ObjectType, &[u8])>
    ensures { MatchOption result
        ((kind : ObjectType) (rest : List ℕ) → ¬ (BeginsWithType text.now kind rest))
        (λ parts. BeginsWithType text.now parts.0 parts.1.now) }
{
    let Some(after) = strip(b"type ", text) else {
        return None;
    };
    let Some((word, rest)) = cut(b'\n', after) else {
        return None;
    };
    match ObjectType::from_name(word) {
        Some(kind) => Some((kind, rest)),
        None => None,
    }
}

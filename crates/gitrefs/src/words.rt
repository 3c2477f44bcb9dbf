//! Parsing the parts of ref files: words, lines and white space.

ghost use Rattle.std.specs.Prelude.{◌≡◌, ◌≢◌, ◌++◌, ◌∷◌, ◌<◌, ◌↔◌, List, ℕ, All, IfSome, IsTrue, MatchOption, length, position, true, false};
ghost use Rattle.gname.specs.Ids.{Id};
ghost use Rattle.gitrefs.specs.Ids.{BeginsWithId};
ghost use Rattle.gitrefs.specs.Spaces.{BeginsWithoutSpace, EndsWord, IsBlank, is_other, is_space};

use gname::Oid;
use gname::laws::texts_have_one_reading;
use memchr::memchr;

// The number of hexadecimal digits of an id.
const ID_TEXT: usize = 40;

/// Returns the text without the prefix `word`, or `None` if the text does not begin with `word`.
pub(crate) fn strip<'a>(word: &[u8], text: &'a [u8]) -> Option<&'a [u8]>
    ensures { MatchOption result ((rest : List ℕ) → ¬ (text.now ≡ word.now ++ rest))
        (λ rest. text.now ≡ word.now ++ rest.now) }
{
    text.strip_prefix(word)
}

/// Returns the first line of a text, and the text after its LF, or `None` if there is no LF.
pub(crate) fn cut_line(text: &[u8]) -> Option<(&[u8], &[u8])>
    ensures { MatchOption result
        ((front rest : List ℕ) → ¬ (text.now ≡ front ++ 10 ∷ rest))
        (λ parts. All (λ b. b ≢ 10) parts.0.now × (text.now ≡ parts.0.now ++ 10 ∷ parts.1.now)) }
{
    match memchr(b'\n', text) {
        Some(end) => Some((&text[..end], &text[end + 1..])),
        None => None,
    }
}

/// Returns the id at the start of the text, and the rest of the text. Returns `None` if the text
/// does not begin with an id.
pub(crate) fn cut_id(text: &[u8]) -> Option<(Oid, &[u8])>
    ensures { MatchOption result
        ((id : Id) (rest : List ℕ) → ¬ (BeginsWithId text.now id rest))
        (λ parts. BeginsWithId text.now parts.0 parts.1.now) }
{
    // Laws that the proof uses.
    texts_have_one_reading();
    let Some((digits, rest)) = split_front(ID_TEXT, text) else {
        return None;
    };
    match Oid::from_hex(digits) {
        Ok(id) => Some((id, rest)),
        Err(_) => None,
    }
}

// Returns the first `count` bytes of a text, and the rest. Returns `None` if the text is shorter
// than `count` bytes.
fn split_front(count: usize, text: &[u8]) -> Option<(&[u8], &[u8])>
    ensures { MatchOption result (length text.now < count)
        (λ parts. (length parts.0.now ≡ count) × (text.now ≡ parts.0.now ++ parts.1.now)) }
{
    text.split_at_checked(count)
}

// Returns whether Git treats a byte as white space in ref files.
pub(crate) fn is_space(byte: u8) -> bool
    ensures { result ≡ is_space byte }
{
    byte == b'\t' || byte == b'\n' || byte == b'\r' || byte == b' '
}

/// Returns whether a text contains only white space.
pub(crate) fn is_blank(text: &[u8]) -> bool
    ensures { IsTrue result ↔ IsBlank text.now }
{
    text.iter().all(|byte| is_space(*byte))
}

/// Returns whether the text is empty or begins with white space, so that a preceding word ends
/// there.
pub(crate) fn ends_word(text: &[u8]) -> bool
    ensures { IsTrue result ↔ EndsWord text.now }
{
    match text.first() {
        Some(byte) => is_space(*byte),
        None => true,
    }
}

// Returns the position of the first white-space byte, or `None` if there is no white space.
fn space_at(text: &[u8]) -> Option<usize>
    ensures { result ≡ position is_space text.now }
{
    text.iter().position(|byte| is_space(*byte))
}

// Returns the position of the first byte that is not white space, or `None` if there is no such
// byte.
fn other_at(text: &[u8]) -> Option<usize>
    ensures { result ≡ position is_other text.now }
{
    text.iter().position(|byte| !is_space(*byte))
}

/// Splits a text into its leading white space and the rest.
pub(crate) fn skip_blank(text: &[u8]) -> (&[u8], &[u8])
    ensures parts { text.now ≡ result.0.now ++ result.1.now }
    ensures blank { IsBlank result.0.now }
    ensures stops { BeginsWithoutSpace result.1.now }
{
    match other_at(text) {
        Some(end) => text.split_at(end),
        None => (text, b""),
    }
}

/// Splits a text into the bytes before its first white space, and the rest.
pub(crate) fn cut_word(text: &[u8]) -> (&[u8], &[u8])
    ensures parts { text.now ≡ result.0.now ++ result.1.now }
    ensures word { All (λ b. is_space b ≡ false) result.0.now }
    ensures ends { EndsWord result.1.now }
{
    match space_at(text) {
        Some(end) => text.split_at(end),
        None => (text, b""),
    }
}

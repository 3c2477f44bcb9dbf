//! The words of a line, and their values.

ghost use Rattle.std.specs.Prelude.{◌≡◌, ◌≢◌, ◌∷◌, ◌<◌, ◌^◌, [], ℕ, List, Some, decimal, codes, ⊤, MatchBool, MatchOption, MatchResult};
ghost use Rattle.gname.specs.Ids.{IsIdText};
ghost use Rattle.gname.specs.Names.{IsRefName};
ghost use Rattle.gobject.specs.steps.PlainPackReading.{NoId};
ghost use Rattle.gobject.specs.PlainPackText.{letter};
ghost use Rattle.gobject.specs.declared.node.Kind.{Kind};
ghost use Rattle.gscenario.specs.ScenarioText.{AreBytes, IsCount, IsNumber, words_of};
ghost use Rattle.gscenario.specs.steps.Reading.{words_after};

use gname::laws::{id_texts_are_digits, ids_have_one_format, rules_never_report_memory};
use gname::{Format, NameFault, Oid, RefName};
use gobject::Kind;
use hex::FromHexError;
use itoa::Buffer;
use memchr::memchr;
use std::alloc::{AllocError, Allocator};
use std::str;

/// Returns the first word of a line, and the rest of the line.
pub(crate) fn first_word(text: &[u8]) -> (&[u8], &[u8])
    ensures { words_of text.now ≡ result.0.now ∷ words_after result.1.now }
{
    match memchr(b' ', text) {
        Some(end) => (&text[..end], &text[end..]),
        None => (text, &text[text.len()..]),
    }
}

/// Returns the next word, and the rest of the line. Returns `None` if there are no more words.
pub(crate) fn next_word(tail: &[u8]) -> Option<(&[u8], &[u8])>
    ensures { MatchOption result (words_after tail.now ≡ [])
        (λ pair. words_after tail.now ≡ pair.0.now ∷ words_after pair.1.now) }
{
    match tail.split_first() {
        Some((_, text)) => Some(first_word(text)),
        None => None,
    }
}

/// Returns whether `tail` has no more words.
pub(crate) fn no_word(tail: &[u8]) -> bool
    ensures { MatchBool result (words_after tail.now ≡ []) (words_after tail.now ≢ []) }
{
    match next_word(tail) {
        Some(_) => false,
        None => true,
    }
}

/// Returns the only word of `tail`, or `None` if `tail` does not have exactly one word.
pub(crate) fn one_word(tail: &[u8]) -> Option<&[u8]>
    ensures { MatchOption result (((word : List ℕ) → words_after tail.now ≡ word ∷ [] → ⊥))
        (λ word. words_after tail.now ≡ word.now ∷ []) }
{
    match next_word(tail) {
        Some((word, rest)) => { if no_word(rest) { Some(word) } else { None } }
        None => None,
    }
}

/// Returns the two words of `tail`, or `None` if `tail` does not have exactly two words.
pub(crate) fn two_words(tail: &[u8]) -> Option<(&[u8], &[u8])>
    ensures { MatchOption result (((first second : List ℕ)
        → words_after tail.now ≡ first ∷ second ∷ [] → ⊥))
        (λ pair. words_after tail.now ≡ pair.0.now ∷ pair.1.now ∷ []) }
{
    match next_word(tail) {
        Some((first, rest)) => match one_word(rest) {
            Some(second) => Some((first, second)),
            None => None,
        },
        None => None,
    }
}

/// Returns the number that a word encodes in decimal. Returns `None` if the word is not a number,
/// has leading zeros, or encodes a number of 2^63 or more.
pub(crate) fn number_of(text: &[u8]) -> Option<usize>
    ensures { MatchOption result (((number : ℕ) → IsNumber text.now number → ⊥))
        (IsNumber text.now) }
{
    match parse(text) {
        Some(number) => {
            let mut digits = Buffer::new();
            if digits.format(number).as_bytes() == text && number < 1 << 63 {
                Some(number)
            } else {
                None
            }
        }
        None => None,
    }
}

// Returns the number below 2^64 that the text encodes in decimal, or `None` for any other text. The
// text may have leading zeros or a sign.
fn parse(text: &[u8]) -> Option<usize>
    ensures { MatchOption result (((number : ℕ) → number < 2 ^ 64 → text.now ≡ decimal number → ⊥))
        (λ found. ((number : ℕ) → number < 2 ^ 64 → text.now ≡ decimal number → number ≡ found)) }
{
    match str::from_utf8(text) {
        Ok(digits) => match digits.parse::<usize>() {
            Ok(number) => Some(number),
            Err(_) => None,
        },
        Err(_) => None,
    }
}

/// Parses a byte count: a decimal number, or `all` for `usize::MAX`. Returns `None` for any other
/// text.
pub(crate) fn count_of(text: &[u8]) -> Option<usize>
    ensures { MatchOption result (((count : ℕ) → IsCount text.now count → ⊥)) (IsCount text.now) }
{
    if text == b"all".as_slice() {
        Some(usize::MAX)
    } else {
        number_of(text)
    }
}

/// Returns the bytes that a word encodes in hexadecimal, or no bytes for `-`. Returns `None` for
/// any other word.
pub(crate) fn bytes_of<A: Allocator + Copy>(
    alloc: A,
    text: &[u8],
) -> Result<Option<Vec<u8, A>>, AllocError>
    ensures { MatchResult result
        (λ found. MatchOption found (((bytes : List ℕ) → AreBytes text.now bytes → ⊥))
        (λ bytes. AreBytes text.now bytes.items))
        (λ _. ⊤) }
{
    if text == b"-".as_slice() {
        return Ok(Some(Vec::new(alloc)));
    }
    if text.is_empty() {
        return Ok(None);
    }
    match hex::decode(alloc, text) {
        Ok(bytes) => Ok(Some(bytes)),
        Err(FromHexError::OutOfMemory) => Err(AllocError),
        Err(_) => Ok(None),
    }
}

/// Returns the object id that a word encodes in hexadecimal, or `None` for any other word.
pub(crate) fn id_of(text: &[u8]) -> Option<Oid>
    ensures { MatchOption result (NoId text.now) (IsIdText text.now) }
{
    // Laws that the proof uses.
    id_texts_are_digits();
    ids_have_one_format();
    let format = if text.len() == Format::Sha256.id_text_length() {
        Format::Sha256
    } else {
        Format::Sha1
    };
    match Oid::from_hex_in(format, text) {
        Ok(id) => Some(id),
        Err(_) => None,
    }
}

/// Returns the word as a ref name, or `None` if Git does not allow that name.
pub(crate) fn name_of<A: Allocator + Copy>(
    alloc: A,
    text: &[u8],
) -> Result<Option<RefName<A>>, AllocError>
    ensures { MatchResult result
        (λ found. MatchOption found (¬ (IsRefName text.now))
        (λ name. (name ≡ text.now) × IsRefName text.now)) (λ _. ⊤) }
{
    // Laws that the proof uses.
    rules_never_report_memory();
    match RefName::new(alloc, text) {
        Ok(name) => Ok(Some(name)),
        Err(NameFault::Memory) => Err(AllocError),
        Err(_) => Ok(None),
    }
}

/// Returns the kind of object that the word names: `c` for a commit, `t` for a tag. Returns `None`
/// for any other word.
pub(crate) fn kind_of(text: &[u8]) -> Option<Kind>
    ensures { MatchOption result (((kind : Kind) → text.now ≡ letter kind ∷ [] → ⊥))
        (λ kind. text.now ≡ letter kind ∷ []) }
{
    if text == b"c".as_slice() {
        Some(Kind::Commit)
    } else if text == b"t".as_slice() {
        Some(Kind::Tag)
    } else {
        None
    }
}

//! Parsing of the parts of a line: ids in lower case, and names.

ghost use Rattle.std.specs.Prelude.{◌≡◌, ◌++◌, ◌≤◌, MatchOption, MatchResult, All, IsTrue, ◌↔◌, codes, false, length, take};
ghost use Rattle.std.specs.Char.{is_ascii_uppercase};
ghost use Rattle.gname.specs.Ids.{IsIdOf, id_text};
ghost use Rattle.gobject.specs.Objects.{max_parents};
ghost use Rattle.gobject.specs.PlainPackText.{ids_text};
ghost use Rattle.grefs.specs.RefLists.{IsBelowRefs};
ghost use Rattle.ggraph.specs.steps.NoSuchPart.{BeginsWithNoId, BeginsWithNoSpacedId, IsNoParents};

use crate::text::laws::text_laws;
use crate::text::recent::Recent;
use gname::{Format, NameFault, Oid, RefName};
use gobject::MAX_PARENTS;
use std::alloc::{AllocError, Allocator};

/// An id at the beginning of a text, its digits, and the text after the digits.
#[derive(Clone, Copy)]
pub(crate) struct FrontId<'a> {
    pub id: Oid,
    pub digits: &'a [u8],
    pub rest: &'a [u8],
}

/// Returns the id of this format at the beginning of the text, and the text after the id. Returns
/// `None` if the text does not begin with such an id.
pub(crate) fn take_id(format: Format, text: &[u8]) -> Option<(Oid, &[u8])>
    ensures { MatchOption result (BeginsWithNoId format text.now) (λ pair.
        (text.now ≡ id_text pair.0 ++ pair.1.now) × IsIdOf format pair.0) }
{
    match front_id(format, text) {
        Some(found) => Some((found.id, found.rest)),
        None => None,
    }
}

// Returns the id of this format at the beginning of the text, with its digits and the text after
// the digits. Returns `None` if the text does not begin with such an id.
fn front_id(format: Format, text: &[u8]) -> Option<FrontId<'_>>
    ensures { MatchOption result (BeginsWithNoId format text.now) (λ found.
        (text.now ≡ id_text found.id ++ found.rest.now) × (found.digits.now ≡ id_text found.id)
        × IsIdOf format found.id) }
{
    // The proof uses these laws.
    text_laws();
    let length = format.id_text_length();
    if text.len() < length {
        return None;
    }
    let (digits, rest) = text.split_at(length);
    match Oid::from_hex_in(format, digits) {
        Ok(id) => {
            if is_lower(digits) {
                Some(FrontId { id, digits, rest })
            } else {
                None
            }
        }
        Err(_) => None,
    }
}

// Returns whether the digits have no upper-case letters.
fn is_lower(digits: &[u8]) -> bool
    ensures { IsTrue result ↔ All (λ digit. is_ascii_uppercase digit ≡ false) digits.now }
{
    digits.iter().all(|digit| !digit.is_ascii_uppercase())
}

/// Parses a space and an id of this format at the beginning of the text. Returns the id, its digits
/// and the text after the digits, or `None` for any other text.
pub(crate) fn take_spaced(format: Format, text: &[u8]) -> Option<FrontId<'_>>
    ensures { MatchOption result (BeginsWithNoSpacedId format text.now) (λ found.
        (text.now ≡ codes " " ++ (id_text found.id ++ found.rest.now))
        × (found.digits.now ≡ id_text found.id)
        × IsIdOf format found.id) }
{
    front_id(format, text.strip_prefix(b" ")?)
}

// Parses a space and a parent's id at the beginning of the text. Returns the id and the text after
// the id, or `None` for any other text. The function tries the recent ids first, because most
// parents are on one of the previous two lines.
fn take_parent<'t>(format: Format, recent: &Recent<'_>, text: &'t [u8]) -> Option<(Oid, &'t [u8])>
    ensures { MatchOption result (BeginsWithNoSpacedId format text.now) (λ pair.
        (text.now ≡ codes " " ++ (id_text pair.0 ++ pair.1.now)) × IsIdOf format pair.0) }
{
    let text = text.strip_prefix(b" ")?;
    if let Some(found) = recent.take_recent(text) {
        if found.0.format() == format {
            return Some(found);
        }
    }
    take_id(format, text)
}

/// The data that all calls of `Reading::take_line` share: an array for a node's parents, the
/// expected number of nodes, and the ids of the last two nodes.
#[derive(Drop)]
pub(crate) struct Room<'a> {
    ids: [Oid; MAX_PARENTS],
    pub nodes: usize,
    pub recent: Recent<'a>,
}

impl<'a> Room<'a> {
    /// Returns the shared data for a text with `nodes` expected nodes. The ids in the array are
    /// placeholders.
    pub(crate) fn new(nodes: usize) -> Room<'a> {
        let blank = Oid::from_hex(&[b'0'; 40]).unwrap();
        Room {
            ids: [blank; MAX_PARENTS],
            nodes,
            recent: Recent::new(blank),
        }
    }

    /// Parses the ids of a node's parents, each after a space. Returns `None` for any other text,
    /// and for more than `MAX_PARENTS` ids.
    pub(crate) fn read(&mut self, format: Format, text: &[u8]) -> Option<&[Oid]>
        ensures { MatchOption result (IsNoParents format text.now) (λ ids.
            (text.now ≡ ids_text ids.now) × All (IsIdOf format) ids.now
            × (length ids.now ≤ max_parents)) }
    {
        let count = read_parents(format, &self.recent, text, &mut self.ids)?;
        Some(&self.ids[..count])
    }
}

// Reads the ids of a node's parents into the first elements of the array, and returns the number of
// ids. Returns `None` for any other text, and for more than `MAX_PARENTS` ids.
fn read_parents(
    format: Format,
    recent: &Recent<'_>,
    text: &[u8],
    ids: &mut [Oid; MAX_PARENTS],
) -> Option<usize>
    ensures { MatchOption result (IsNoParents format text.now) (λ count.
        (text.now ≡ ids_text (take count ids.new)) × All (IsIdOf format) (take count ids.new)
        × (count ≤ max_parents)) }
{
    // The proof uses these laws.
    text_laws();
    let mut rest = text;
    let mut count = 0;
    while !rest.is_empty() {
        let Some(found) = take_parent(format, recent, rest) else {
            return None;
        };
        if count == MAX_PARENTS {
            return None;
        }
        ids[count] = found.0;
        count += 1;
        rest = found.1;
    }
    Some(count)
}

/// Returns the ref name with these bytes, or `None` if the bytes are not a ref name below `refs/`.
/// Fails only if memory runs out for a valid name.
pub(crate) fn name_of<A: Allocator + Copy>(
    alloc: A,
    text: &[u8],
) -> Result<Option<RefName<A>>, AllocError>
    ensures { MatchResult result
        (λ found. MatchOption found (¬ (IsBelowRefs text.now))
        (λ name. (name ≡ text.now) × IsBelowRefs text.now)) (λ _. IsBelowRefs text.now) }
{
    // The proof uses these laws.
    text_laws();
    if !text.starts_with(b"refs/") {
        return Ok(None);
    }
    match RefName::new(alloc, text) {
        Ok(name) => Ok(Some(name)),
        Err(NameFault::Memory) => Err(AllocError),
        Err(_) => Ok(None),
    }
}

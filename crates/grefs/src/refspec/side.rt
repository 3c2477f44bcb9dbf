//! The source and the destination of a refspec.

ghost use Rattle.std.specs.Prelude.{◌≡◌, ◌<◌, ◌↔◌, ◌++◌, IsTrue, MatchOption, length};
ghost use Rattle.gname.specs.Names.{IsRefName, Owns, max_name, name_fault};
ghost use Rattle.grefs.specs.RefLists.{IsBelowRefs};
ghost use Rattle.grefs.specs.Refspecs.{IsStem};

use arrayvec::ArrayVec;
use gname::laws::names_are_clean;
use gname::{MAX_NAME, NameFault, RefName};
use std::alloc::Allocator;

/// Returns whether a text is a ref name.
pub(crate) fn is_name(text: &[u8]) -> bool
    ensures { IsTrue result ↔ IsRefName text.now }
{
    RefName::check(text).is_ok()
}

/// Returns whether a text is a ref name below `refs/`.
pub(crate) fn is_below_refs(text: &[u8]) -> bool
    ensures { IsTrue result ↔ IsBelowRefs text.now }
{
    text.starts_with(b"refs/") && is_name(text)
}

/// Returns whether a text may precede the `*` of a pattern.
pub(crate) fn is_stem(text: &[u8]) -> bool
    ensures { IsTrue result ↔ IsStem text.now }
{
    // The proof uses this law.
    names_are_clean();
    match join(text, b"x") {
        Some(name) => text.ends_with(b"/") && is_below_refs(name.as_slice()),
        None => false,
    }
}

/// Returns `front` followed by `back`, or `None` if the result would have more than `MAX_NAME`
/// bytes.
pub(crate) fn join(front: &[u8], back: &[u8]) -> Option<ArrayVec<u8, MAX_NAME>>
    ensures { MatchOption result (max_name < length (front.now ++ back.now))
        (λ text. text.items ≡ front.now ++ back.now) }
{
    let mut text = ArrayVec::new();
    if text.try_extend_from_slice(front).is_err() {
        return None;
    }
    if text.try_extend_from_slice(back).is_err() {
        return None;
    }
    Some(text)
}

/// Returns whether `front` followed by `back` is a ref name.
pub(crate) fn is_joined_name(front: &[u8], back: &[u8]) -> bool
    ensures { IsTrue result ↔ IsRefName (front.now ++ back.now) }
{
    // The proof uses this law.
    names_are_clean();
    match join(front, back) {
        Some(text) => is_name(text.as_slice()),
        None => false,
    }
}

/// Returns the ref name that consists of `front` followed by `back`.
///
/// Fails with the first fault of the combined text if that text is not a ref name.
pub(crate) fn name_of<A: Allocator + Copy>(
    alloc: A,
    front: &[u8],
    back: &[u8],
) -> Result<RefName<A>, NameFault>
    ensures { Owns name_fault (front.now ++ back.now) result }
{
    match join(front, back) {
        Some(text) => RefName::new(alloc, text.as_slice()),
        None => Err(NameFault::TooLong),
    }
}

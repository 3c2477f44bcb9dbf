//! Parsing of each kind of line of a repository text.

ghost use Rattle.std.specs.Prelude.{◌≡◌, ◌++◌, ◌∷◌, MatchOption, MatchResult, codes};
ghost use Rattle.gobject.specs.PlainPackText.{letter};
ghost use Rattle.grefs.specs.RefLists.{IsBelowRefs};
ghost use Rattle.ggraph.specs.RepositoryText.{IsHead, first_line, head_line};
ghost use Rattle.ggraph.specs.steps.NoSuchPart.{BeginsWithNoRefId, IsNoNode, IsNoHead, IsNoIdText, IsHeadAt, IsHeadOn, IsSymrefLine};
ghost use Rattle.gname.specs.Ids.{IsIdOf, id_text};
ghost use Rattle.gname.specs.declared.formats.Format.{Format};

use crate::text::laws::text_laws;
use crate::text::parts::{name_of, take_id};
use gname::{Format, Oid};
use gobject::Kind;
use grefs::{Head, Target};
use std::alloc::{AllocError, Allocator};

/// Returns the object format that the first line of a text names, or `None` if the line is
/// malformed.
pub(crate) fn format_of(line: &[u8]) -> Option<Format>
    ensures { MatchOption result
        (((format : Format) → line.now ≡ first_line format → ⊥))
        (λ format. line.now ≡ first_line format) }
{
    if line == b"gitv2 1".as_slice() {
        Some(Format::Sha1)
    } else if line == b"gitv2 2 sha256".as_slice() {
        Some(Format::Sha256)
    } else {
        None
    }
}

/// The line of a node: its kind, and the unparsed text of its ids.
#[derive(Clone, Copy)]
pub(crate) struct NodeLine<'a> {
    pub kind: Kind,
    pub ids: &'a [u8],
}

/// The line of a ref: its id, and its name, which is not checked yet.
#[derive(Clone, Copy)]
pub(crate) struct RawRef<'a> {
    pub id: Oid,
    pub name: &'a [u8],
}

/// Splits the line of a node into its kind and the text of its ids. Returns `None` if the line
/// begins with neither `c` nor `t`.
pub(crate) fn node_parts(line: &[u8]) -> Option<NodeLine<'_>>
    ensures { MatchOption result (IsNoNode line.now)
        (λ node. line.now ≡ letter node.kind ∷ node.ids.now) }
{
    if let Some(ids) = line.strip_prefix(b"c") {
        let kind = Kind::Commit;
        return Some(NodeLine { kind, ids });
    }
    if let Some(ids) = line.strip_prefix(b"t") {
        let kind = Kind::Tag;
        return Some(NodeLine { kind, ids });
    }
    None
}

/// Splits the text after `r ` in the line of a ref into an id and a name. Returns `None` if the
/// text does not begin with an id and a space.
pub(crate) fn ref_parts(format: Format, text: &[u8]) -> Option<RawRef<'_>>
    ensures { MatchOption result (BeginsWithNoRefId format text.now) (λ it.
        (text.now ≡ id_text it.id ++ (codes " " ++ it.name.now)) × IsIdOf format it.id) }
{
    // The proof uses these laws.
    text_laws();
    let Some(first) = take_id(format, text) else {
        return None;
    };
    let Some(name) = first.1.strip_prefix(b" ") else {
        return None;
    };
    let id = first.0;
    Some(RawRef { id, name })
}

/// Parses the line of HEAD, or returns `None` for any other line. Fails only if memory runs out for
/// the target of a symbolic HEAD.
pub(crate) fn head_of<A: Allocator + Copy>(
    alloc: A,
    format: Format,
    line: &[u8],
) -> Result<Option<Head<A>>, AllocError>
    ensures { MatchResult result
        (λ found. MatchOption found (IsNoHead A format line.now) (λ head.
        (line.now ≡ head_line head) × IsHead format head))
        (λ _. IsSymrefLine A line.now) }
{
    if line == b"h none".as_slice() {
        return Ok(Some(Head::None));
    }
    if let Some(digits) = line.strip_prefix(b"h id ") {
        return Ok(head_at(format, digits));
    }
    if let Some(text) = line.strip_prefix(b"h ref ") {
        return head_on(alloc, text);
    }
    Ok(None)
}

// Returns a HEAD that is detached at the id with these digits, or `None` if the digits are
// malformed.
fn head_at<A: Allocator + Copy>(format: Format, digits: &[u8]) -> Option<Head<A>>
    ensures { MatchOption result (IsNoIdText format digits.now)
        (λ head. IsHeadAt format digits.now head) }
{
    // The proof uses these laws.
    text_laws();
    match take_id(format, digits) {
        Some(found) => {
            if found.1.is_empty() {
                Some(Head::Id(found.0))
            } else {
                None
            }
        }
        None => None,
    }
}

// Returns a symbolic HEAD with this target, or `None` if the target is not a valid name below
// `refs/`.
fn head_on<A: Allocator + Copy>(alloc: A, text: &[u8]) -> Result<Option<Head<A>>, AllocError>
    ensures { MatchResult result
        (λ found. MatchOption found (¬ (IsBelowRefs text.now)) (λ head. IsHeadOn text.now head))
        (λ _. IsBelowRefs text.now) }
{
    let Some(name) = name_of(alloc, text)? else {
        return Ok(None);
    };
    match Target::new(name) {
        Some(target) => Ok(Some(Head::Symref(target))),
        None => Ok(None),
    }
}

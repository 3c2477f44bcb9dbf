//! The file `packed-refs`.

ghost use Rattle.std.specs.Prelude.{◌≡◌, ◌++◌, ◌∷◌, ◌<◌, ◌≤◌, [], List, ℕ, Option, IfSome, IsTrue, MatchOption, MatchResult, OnOk, ◌↔◌, filter, length, map};
ghost use Rattle.gname.specs.Ids.{Id};
ghost use Rattle.gitrefs.specs.Faults.{IsTextFault};
ghost use Rattle.gitrefs.specs.PackedRefs.{BeginsWithHeader, BeginsWithPeeled, BeginsWithLine, HasPackedLines, IsPackedRefsFile, PackedLine, PackedRefsOf, line_of, names_ref};
ghost use Rattle.gitrefs.specs.steps.Lines.{line_at};

use crate::fault::TextFault;
use crate::loose::name_of;
use crate::words::{cut_id, cut_line, strip};
use gname::{Oid, RefName};
use grefs::is_below_refs;
use std::alloc::{Allocator, Global};

/// A ref in `packed-refs`.
#[derive(Debug, Drop)]
pub struct PackedRef<A: Allocator + Copy = Global> {
    /// The name of the ref, which is below `refs/`.
    pub name: RefName<A>,
    /// The id that the ref points to.
    pub id: Oid,
    /// The id of the peeled object, if the ref points to a tag and the file lists the peeled id.
    pub peeled: Option<Oid>,
}

// The name and the id in the line of a ref, and the peeled id if a line of `^` and that id follows.
#[derive(Clone, Copy)]
struct Line<'a> {
    name: &'a [u8],
    id: Oid,
    peeled: Option<Oid>,
}

/// Parses the text of `packed-refs` (git-pack-refs(1)). After an optional header, each ref has a
/// line with an id, a space and a name. A second line with `^` and the peeled id may follow. The
/// refs may be in any order.
///
/// A line whose name is not a ref name below `refs/` is ignored. Fails with `Malformed` if the text
/// is not valid, or with `Memory` if out of memory.
pub fn parse_packed_refs<A: Allocator + Copy>(
    alloc: A,
    text: &[u8],
) -> Result<Vec<PackedRef<A>, A>, TextFault>
    ensures { MatchResult result (λ refs. PackedRefsOf text.now refs.items)
        (IsTextFault (IsPackedRefsFile text.now)) }
{
    let Some(lines) = after_header(text) else {
        return Err(TextFault::Malformed);
    };
    match parse_lines(alloc, lines) {
        Ok(refs) => Ok(refs),
        Err(fault) => Err(fault),
    }
}

// Returns the text after the header, or the whole text if there is no header. Returns `None` if the
// header is malformed.
fn after_header(text: &[u8]) -> Option<&[u8]>
    ensures { MatchOption result ((rest : List ℕ) → ¬ (BeginsWithHeader text.now rest))
        (λ rest. BeginsWithHeader text.now rest.now) }
{
    if let None = strip(b"#", text) {
        return Some(text);
    }
    let Some(words) = strip(b"# pack-refs with:", text) else {
        return None;
    };
    match cut_line(words) {
        Some((_, rest)) => Some(rest),
        None => None,
    }
}

// Returns the refs in the lines of `packed-refs`. Fails with `Malformed` if a line is malformed, or
// with `Memory` if out of memory.
fn parse_lines<A: Allocator + Copy>(
    alloc: A,
    text: &[u8],
) -> Result<Vec<PackedRef<A>, A>, TextFault>
    ensures { MatchResult result (λ refs. (lines : List PackedLine) × HasPackedLines text.now lines
        × (map line_of refs.items ≡ filter names_ref lines))
        (IsTextFault ((lines : List PackedLine) × HasPackedLines text.now lines)) }
{
    let mut refs = Vec::new(alloc);
    let mut rest = text;
    while !is_over(rest) {
        let Some(parts) = cut_ref(rest) else {
            return Err(TextFault::Malformed);
        };
        if let Err(_) = push_ref(alloc, &mut refs, &parts.0) {
            return Err(TextFault::Memory);
        }
        rest = parts.1;
    }
    Ok(refs)
}

// Returns whether the text is empty.
fn is_over(text: &[u8]) -> bool
    ensures { IsTrue result ↔ (text.now ≡ []) }
{
    text.is_empty()
}

// Parses the line of a ref at the start of the text, and the line of its peeled id if there is one.
// Returns the ref and the rest of the text, or `None` if a line is malformed.
fn cut_ref(text: &[u8]) -> Option<(Line<'_>, &[u8])>
    ensures line { MatchOption result
        ((line : PackedLine) (rest : List ℕ) → ¬ (BeginsWithLine text.now line rest))
        (λ parts. BeginsWithLine text.now (line_at parts.0) parts.1.now) }
    ensures shorter { IfSome result (λ parts. length parts.1.now < length text.now) }
{
    let Some(id) = cut_id(text) else {
        return None;
    };
    let Some(after_space) = strip(b" ", id.1) else {
        return None;
    };
    let Some((name, next)) = cut_line(after_space) else {
        return None;
    };
    let Some(peeled) = cut_peeled(next) else {
        return None;
    };
    let line = Line {
        name,
        id: id.0,
        peeled: peeled.0,
    };
    Some((line, peeled.1))
}

// Parses a line of `^` and a peeled id at the start of the text, if the text begins with `^`.
// Returns the id and the rest of the text, or `None` if the line is malformed. If the text does not
// begin with `^`, the id is `None` and the rest is the whole text.
fn cut_peeled(text: &[u8]) -> Option<(Option<Oid>, &[u8])>
    ensures line { MatchOption result
        ((peeled : Option Id) (rest : List ℕ) → ¬ (BeginsWithPeeled text.now peeled rest))
        (λ parts. BeginsWithPeeled text.now parts.0 parts.1.now) }
    ensures shorter { IfSome result (λ parts. length parts.1.now ≤ length text.now) }
{
    let Some(line) = strip(b"^", text) else {
        return Some((None, text));
    };
    let Some(id) = cut_id(line) else {
        return None;
    };
    match strip(b"\n", id.1) {
        Some(rest) => Some((Some(id.0), rest)),
        None => None,
    }
}

// Appends the ref of a line if the name in the line is a valid ref name below `refs/`. Fails only
// if out of memory.
fn push_ref<A: Allocator + Copy>(
    alloc: A,
    refs: &mut Vec<PackedRef<A>, A>,
    line: &Line<'_>,
) -> Result<(), TextFault>
    ensures { OnOk result (map line_of refs.new.items
        ≡ map line_of refs.old.items ++ filter names_ref (line_at line.now ∷ [])) }
{
    let name = match name_of(alloc, line.name) {
        Ok(Some(name)) => name,
        Ok(None) => return Ok(()),
        Err(_) => return Err(TextFault::Memory),
    };
    if !is_below_refs(&name) {
        return Ok(());
    }
    let packed = PackedRef {
        name,
        id: line.id,
        peeled: line.peeled,
    };
    match refs.push(packed) {
        Ok(()) => Ok(()),
        Err(_) => Err(TextFault::Memory),
    }
}

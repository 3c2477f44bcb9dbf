//! Writing of a repository text.

ghost use Rattle.std.specs.Prelude.{◌≡◌, ◌++◌, All, IfOk, IsTrue, ◌↔◌, ◌∷◌, ◌<◌, [], MatchOption, MatchResult, OnOk, Some, length, map, slice_get};
ghost use Rattle.gdag.specs.Graphs.{IsGraph};
ghost use Rattle.gobject.specs.declared.node.Entry.{Entry};
ghost use Rattle.gname.specs.Ids.{IsIdOf};
ghost use Rattle.gobject.specs.PlainPackText.{line, node_text, text_of};
ghost use Rattle.ggraph.specs.RepositoryText.{IsLoadable, head_line, first_line, ref_line, repository_text};
ghost use Rattle.ggraph.specs.Saving.{IsFirstOther, SaveRefuses, head_ids, named_ids, ref_ids};
ghost use Rattle.grefs.specs.Heads.{PointsBelowRefs};

use crate::fault::SaveFault;
use crate::text::Order;
use gdag::Graph;
use gname::{Format, Oid, RefName};
use gobject::Entry;
use grefs::{Head, Refs};
use std::alloc::{AllocError, Allocator};

/// Returns the unique text of this repository, which `load` reads back under `Order::Any`.
///
/// Fails with `OtherFormat` for the first id of a ref or of HEAD that does not have the graph's
/// format. The refs are checked in name order, and HEAD last. Otherwise fails only with `Memory`.
pub fn save<A: Allocator + Copy>(
    alloc: A,
    graph: &Graph<A>,
    refs: &Refs<A>,
    head: &Head<A>,
) -> Result<Vec<u8, A>, SaveFault>
    ensures text { MatchResult result (λ text. text.items
        ≡ repository_text graph.now refs.now head.now)
        (SaveRefuses graph.now.format refs.now head.now) }
    ensures loadable { IfOk result (λ text. IsLoadable Order.Any graph.now refs.now head.now) }
{
    // The proof uses these laws.
    gdag::laws::entries_come_in_order::<A>();
    grefs::laws::refs_come_in_order();
    if let Some(id) = other_id(graph.format(), refs.as_slice(), head) {
        return Err(SaveFault::OtherFormat { id });
    }
    let text = text_of_repository(alloc, graph, refs, head)?;
    Ok(text)
}

// Returns the first id that does not have the format, among the ids of the refs and then the id of
// a detached HEAD. Returns `None` if all these ids have the format.
fn other_id<A: Allocator + Copy>(
    format: Format,
    refs: &[(RefName<A>, Oid)],
    head: &Head<A>,
) -> Option<Oid>
    ensures { MatchOption result (All (IsIdOf format) (named_ids refs.now head.now))
        (IsFirstOther format (named_ids refs.now head.now)) }
{
    match other_ref(format, refs) {
        Some(id) => Some(id),
        None => other_head(format, head),
    }
}

// Returns the id of the first ref whose id does not have the format, or `None` if there is no such
// ref.
fn other_ref<A: Allocator + Copy>(format: Format, refs: &[(RefName<A>, Oid)]) -> Option<Oid>
    ensures { MatchOption result (All (IsIdOf format) (ref_ids refs.now))
        (IsFirstOther format (ref_ids refs.now)) }
{
    for pair in refs {
        if !is_of(format, &pair.1) {
            return Some(pair.1);
        }
    }
    None
}

// Returns the id of a detached HEAD if that id does not have the format, and otherwise `None`.
fn other_head<A: Allocator + Copy>(format: Format, head: &Head<A>) -> Option<Oid>
    ensures { MatchOption result (All (IsIdOf format) (head_ids head.now))
        (IsFirstOther format (head_ids head.now)) }
{
    match head {
        Head::Id(id) => { if is_of(format, id) { None } else { Some(*id) } }
        _ => None,
    }
}

// Returns whether the id has the format.
fn is_of(format: Format, id: &Oid) -> bool
    ensures { IsTrue result ↔ IsIdOf format id.now }
{
    id.format() == format
}

// Returns the line that names the format of the ids.
fn line_of(format: Format) -> &'static [u8]
    ensures { result.now ≡ line (first_line format) }
{
    match format {
        Format::Sha1 => b"gitv2 1\n",
        Format::Sha256 => b"gitv2 2 sha256\n",
    }
}

fn text_of_repository<A: Allocator + Copy>(
    alloc: A,
    graph: &Graph<A>,
    refs: &Refs<A>,
    head: &Head<A>,
) -> Result<Vec<u8, A>, AllocError>
    ensures graph { IfOk result (λ _. IsGraph graph.now) }
    ensures head { IfOk result (λ _. PointsBelowRefs head.now) }
    ensures text { IfOk result (λ text. text.items ≡ repository_text graph.now refs.now head.now) }
{
    // The proof uses these laws.
    graph.laws();
    head.laws();
    let mut text = Vec::new(alloc);
    text.extend_from_slice(line_of(graph.format()))?;
    put_nodes(&mut text, graph)?;
    put_refs(&mut text, refs.as_slice())?;
    put_head(&mut text, head)?;
    text.extend_from_slice(b"end\n")?;
    Ok(text)
}

fn put_nodes<A: Allocator + Copy>(text: &mut Vec<u8, A>, graph: &Graph<A>) -> Result<(), AllocError>
    ensures { OnOk result (text.new.items
        ≡ text.old.items ++ text_of (map node_text graph.now.entries)) }
{
    for place in 0..graph.len() {
        put_node(text, graph, place)?;
    }
    Ok(())
}

fn put_node<A: Allocator + Copy>(
    text: &mut Vec<u8, A>,
    graph: &Graph<A>,
    place: usize,
) -> Result<(), AllocError>
    requires { place < length graph.now.entries }
    ensures { OnOk result (((entry : Entry A) → slice_get graph.now.entries place ≡ Some entry →
        text.new.items ≡ text.old.items ++ line (node_text entry))) }
{
    let (id, node) = graph.at(place).unwrap();
    node.push_line(id, text)
}

fn put_refs<A: Allocator + Copy>(
    text: &mut Vec<u8, A>,
    refs: &[(RefName<A>, Oid)],
) -> Result<(), AllocError>
    ensures { OnOk result (text.new.items ≡ text.old.items ++ text_of (map ref_line refs.now)) }
{
    for pair in refs {
        put_ref(text, pair)?;
    }
    Ok(())
}

fn put_ref<A: Allocator + Copy>(
    text: &mut Vec<u8, A>,
    pair: &(RefName<A>, Oid),
) -> Result<(), AllocError>
    ensures { OnOk result (text.new.items ≡ text.old.items ++ line (ref_line pair.now)) }
{
    text.extend_from_slice(b"r ")?;
    pair.1.push_hex(text)?;
    text.extend_from_slice(b" ")?;
    text.extend_from_slice(pair.0.as_bytes())?;
    text.extend_from_slice(b"\n")
}

fn put_head<A: Allocator + Copy>(text: &mut Vec<u8, A>, head: &Head<A>) -> Result<(), AllocError>
    ensures { OnOk result (text.new.items ≡ text.old.items ++ line (head_line head.now)) }
{
    match head {
        Head::None => text.extend_from_slice(b"h none\n"),
        Head::Id(id) => {
            text.extend_from_slice(b"h id ")?;
            id.push_hex(text)?;
            text.extend_from_slice(b"\n")
        }
        Head::Symref(target) => {
            text.extend_from_slice(b"h ref ")?;
            text.extend_from_slice(target.name().as_bytes())?;
            text.extend_from_slice(b"\n")
        }
    }
}

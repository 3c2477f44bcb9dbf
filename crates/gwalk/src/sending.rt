//! The objects that a server sends in a pack.

ghost use Rattle.std.specs.Prelude.{◌≡◌, ◌↔◌, ◌⊎◌, [], IfOk, IfErr, IfSome, IsSome, IsTrue, ℕ, Some, length, slice_index_or, true, false};
ghost use Rattle.std.specs.Map.{values_of};
ghost use Rattle.gname.specs.Ids.{Id};
ghost use Rattle.gobject.specs.Objects.{position_of};
ghost use Rattle.gdag.specs.Graphs.{IsGraph};
ghost use Rattle.gdag.specs.Peeling.{IsTagOf, PeelsTo};
ghost use Rattle.gdag.specs.Sending.{IsListToSend, IsNew};
ghost use Rattle.gdag.specs.declared.fault.GraphFault.TheVariants.{Memory};
ghost use Rattle.gwalk.specs.steps.Tags.{AreTagged, IsTagFrom, LeadsToMarked};
ghost use Rattle.gwalk.specs.Walks.{AreMarked, marked_entries};

use crate::marks::is_marked;
use crate::walk::walk_from;
use gdag::laws::sent_are_entries;
use gdag::{Graph, GraphFault};
use gname::Oid;
use gobject::{Entry, Kind};
use grefs::Refs;
use std::alloc::{AllocError, Allocator};

/// Returns the entries to send for the wants (gitprotocol-v2(5), "fetch": `want`, `have`). The
/// receiver is assumed to hold the common ids and all their ancestors. The list has the entries
/// that some want reaches and no common id reaches, in insertion order.
///
/// Fails only with `Memory`.
pub fn send_list<A: Allocator + Copy>(
    graph: &Graph<A>,
    wants: &[Oid],
    commons: &[Oid],
) -> Result<Vec<Entry<A>, A>, GraphFault>
    ensures answer { IfOk result (λ list. IsListToSend graph.now.entries wants.now commons.now []
        list.items) }
    ensures entries { IfOk result (λ list.
        IsGraph (record { format = graph.now.format; entries = list.items })) }
    ensures fault { IfErr result (λ fault. fault ≡ Memory) }
{
    // The proof uses this law.
    sent_are_entries::<A>();
    Ok(list_to_send(graph, wants, commons, &[])?)
}

/// Returns the entries to send with `include-tag` (gitprotocol-v2(5), "fetch"), in insertion order.
/// The list has the entries of `send_list`, and each tag in a chain of tags from a ref to a commit
/// of `send_list`.
///
/// Fails only with `Memory`.
pub fn send_list_tags<A: Allocator + Copy>(
    graph: &Graph<A>,
    wants: &[Oid],
    commons: &[Oid],
    refs: &Refs<A>,
) -> Result<Vec<Entry<A>, A>, GraphFault>
    ensures answer { IfOk result (λ list.
        IsListToSend graph.now.entries wants.now commons.now (values_of refs.now) list.items) }
    ensures entries { IfOk result (λ list.
        IsGraph (record { format = graph.now.format; entries = list.items })) }
    ensures fault { IfErr result (λ fault. fault ≡ Memory) }
{
    // The proof uses this law.
    sent_are_entries::<A>();
    let tips = refs.ids(graph.allocator())?;
    Ok(list_to_send(graph, wants, commons, tips.as_slice())?)
}

// Returns the list to send, with the tags in the chains of tags from tips to commits of the list.
// If each object of the graph comes after its parents, the function makes one pass over the graph.
// Otherwise the function walks from the wants.
fn list_to_send<A: Allocator + Copy>(
    graph: &Graph<A>,
    wants: &[Oid],
    commons: &[Oid],
    tips: &[Oid],
) -> Result<Vec<Entry<A>, A>, GraphFault>
    ensures graph { IsGraph graph.now }
    ensures list { IfOk result (λ list.
        IsListToSend graph.now.entries wants.now commons.now tips.now list.items) }
    ensures fault { IfErr result (λ fault. fault ≡ Memory) }
{
    if graph.is_ordered() {
        return crate::ordered::send_list(graph, wants, commons, tips);
    }
    Ok(walked_list(graph, wants, commons, tips)?)
}

// Returns the list to send. The function walks from the wants, and accepts a graph in any order.
fn walked_list<A: Allocator + Copy>(
    graph: &Graph<A>,
    wants: &[Oid],
    commons: &[Oid],
    tips: &[Oid],
) -> Result<Vec<Entry<A>, A>, AllocError>
    ensures graph { IsGraph graph.now }
    ensures list { IfOk result (λ list.
        IsListToSend graph.now.entries wants.now commons.now tips.now list.items) }
{
    let new = new_marks(graph, wants, commons)?;
    let marks = with_tags(graph, new.as_slice(), tips)?;
    Ok(entries_at(graph, marks.as_slice())?)
}

// Returns the marks `new`, with additional marks for the tags in the chains of tags from tips to
// commits that `new` marks. Marks are indexed by position.
fn with_tags<A: Allocator + Copy>(
    graph: &Graph<A>,
    new: &[bool],
    tips: &[Oid],
) -> Result<Vec<bool, A>, AllocError>
    requires { length new.now ≡ length graph.now.entries }
    ensures { IfOk result (λ marks. AreTagged graph.now.entries new.now tips.now marks.items) }
{
    let mut marks = Vec::from_slice(graph.allocator(), new)?;
    for tip in tips {
        if leads_to_marked(graph, new, tip) {
            mark_chain(graph, &mut marks, tip);
        }
    }
    Ok(marks)
}

// Returns whether the id is a marked commit, or a chain of tags leads from the id to a marked
// commit.
fn leads_to_marked<A: Allocator + Copy>(graph: &Graph<A>, marks: &[bool], id: &Oid) -> bool
    ensures { IsTrue result ↔ LeadsToMarked graph.now.entries marks.now id.now }
{
    let Some(commit) = graph.peel(id) else {
        return false;
    };
    let Some(position) = graph.position(&commit) else {
        return false;
    };
    is_marked(marks, position)
}

// The position of a tag, and the id of the object that the tag names.
#[derive(Clone, Copy)]
struct Tag {
    position: usize,
    target: Oid,
}

// Returns the tag with this id, or `None` if the graph has no such tag.
fn tag_at<A: Allocator + Copy>(graph: &Graph<A>, id: &Oid) -> Option<Tag>
    ensures found { IfSome result (λ tag.
        (position_of graph.now.entries id.now ≡ Some tag.position)
        × IsTagOf graph.now.entries id.now tag.target) }
    ensures only { (b : Id) → IsTagOf graph.now.entries id.now b → IsSome result }
{
    let node = graph.node(id)?;
    if node.kind == Kind::Commit {
        return None;
    }
    let target = *node.parents.as_slice().first()?;
    let position = graph.position(id)?;
    Some(Tag { position, target })
}

// Marks the tags in the chain of tags that begins at the id and leads to a commit.
fn mark_chain<A: Allocator + Copy>(graph: &Graph<A>, marks: &mut Vec<bool, A>, id: &Oid)
    requires long { length marks.old.items ≡ length graph.now.entries }
    requires ends { (c : Id) × PeelsTo graph.now.entries id.now c }
    ensures long { length marks.new.items ≡ length graph.now.entries }
    ensures each { (position : ℕ) (a : Id) → position_of graph.now.entries a ≡ Some position →
        (slice_index_or marks.new.items position false ≡ true) ↔
        ((slice_index_or marks.old.items position false ≡ true)
        ⊎ IsTagFrom graph.now.entries id.now a) }
{
    let mut at = *id;
    for _step in 0..graph.len() {
        let Some(tag) = tag_at(graph, &at) else {
            return;
        };
        marks[tag.position] = true;
        at = tag.target;
    }
}

// Returns marks at the positions of the entries that some want reaches and no common id reaches.
fn new_marks<A: Allocator + Copy>(
    graph: &Graph<A>,
    wants: &[Oid],
    commons: &[Oid],
) -> Result<Vec<bool, A>, AllocError>
    ensures graph { IsGraph graph.now }
    ensures marks { IfOk result (λ marks.
        AreMarked (IsNew graph.now.entries wants.now commons.now) graph.now.entries marks.items) }
{
    let known = walk_from(graph, commons)?;
    let wanted = walk_from(graph, wants)?;
    let mut marks = wanted.marks;
    for position in 0..marks.len() {
        if known.marks[position] {
            marks[position] = false;
        }
    }
    Ok(marks)
}

// Returns the entries at marked positions, in insertion order.
fn entries_at<A: Allocator + Copy>(
    graph: &Graph<A>,
    marks: &[bool],
) -> Result<Vec<Entry<A>, A>, AllocError>
    requires { length marks.now ≡ length graph.now.entries }
    ensures { IfOk result (λ list. list.items ≡ marked_entries graph.now.entries marks.now) }
{
    let alloc = graph.allocator();
    let mut list = Vec::new(alloc);
    for (position, mark) in marks.iter().enumerate() {
        if *mark {
            list.push(graph.entry_in(position, alloc)?)?;
        }
    }
    Ok(list)
}

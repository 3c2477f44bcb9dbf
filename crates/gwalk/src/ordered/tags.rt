//! The tags to send: the tags in the chains from tips to new commits. After the pass down, a commit
//! is new if its position is open: marked as wanted and not as known.

ghost use Rattle.std.specs.Prelude.{◌≡◌, ◌⊎◌, ◌≤◌, ◌<◌, ℕ, IfErr, IfOk, MatchOption, length, true};
ghost use Rattle.gwalk.specs.steps.Passes.{IsCommitAt, IsInOrder, IsOnChain, IsPeeledAt, IsPositionOf, IsTagAt, MarksChain, MarksTags, is_open};
ghost use Rattle.gdag.specs.declared.fault.GraphFault.TheVariants.{Memory};

use crate::ordered::down::Pass;
use crate::ordered::marks::{end_of, no_marks};
use gdag::{Graph, GraphFault};
use gname::Oid;
use gobject::Kind;
use std::alloc::Allocator;

// Returns, for each position, whether it has a tag to send: a tag on the chain from a tip to a
// commit whose position is open.
pub(crate) fn tags_of<A: Allocator + Copy>(
    graph: &Graph<A>,
    pass: &Pass<A>,
    tips: &[Oid],
) -> Result<Vec<bool, A>, GraphFault>
    requires { IsInOrder graph.now.entries }
    ensures marks { IfOk result (λ tagged.
        MarksTags graph.now.entries tips.now pass.now.wanted.items pass.now.known.items
        tagged.items) }
    ensures inside { IfOk result (λ tagged. length tagged.items ≤ length graph.now.entries) }
    ensures fault { IfErr result (λ fault. fault ≡ Memory) }
{
    let mut tagged = no_marks(graph.allocator(), end_of(graph, tips))?;
    for tip in tips {
        if let Some(start) = graph.position(tip) {
            let commit = peel_position(graph, start);
            let sent = pass.is_open(commit);
            if sent {
                mark_chain(graph, start, &mut tagged);
            }
        }
    }
    Ok(tagged)
}

// Marks the tags in the chain that begins at `start`.
fn mark_chain<A: Allocator + Copy>(graph: &Graph<A>, start: usize, tagged: &mut Vec<bool, A>)
    requires order { IsInOrder graph.now.entries }
    requires held { start < length graph.now.entries }
    requires inside { start < length tagged.old.items }
    ensures { MarksChain graph.now.entries start tagged.old.items tagged.new.items }
{
    let mut at = start;
    while let Some(next) = named_position(graph, at) {
        tagged[at] = true;
        at = next;
    }
}

// Returns the position of the commit at the end of the chain of tags that begins at `start`.
fn peel_position<A: Allocator + Copy>(graph: &Graph<A>, start: usize) -> usize
    requires order { IsInOrder graph.now.entries }
    requires held { start < length graph.now.entries }
    ensures { IsPeeledAt graph.now.entries start result }
{
    let mut at = start;
    while let Some(next) = named_position(graph, at) {
        at = next;
    }
    at
}

// Returns the position of the object that the tag at `position` names, or `None` if the object at
// `position` is a commit.
fn named_position<A: Allocator + Copy>(graph: &Graph<A>, position: usize) -> Option<usize>
    requires order { IsInOrder graph.now.entries }
    requires held { position < length graph.now.entries }
    ensures { MatchOption result (IsCommitAt graph.now.entries position)
        (λ next. IsTagAt graph.now.entries position next) }
{
    let (_, node) = graph.at(position)?;
    match node.kind {
        Kind::Commit => None,
        Kind::Tag => graph.position(node.parents.as_slice().first()?),
    }
}

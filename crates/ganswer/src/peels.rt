//! The peeled ids of refs that point at tags.

ghost use Rattle.std.specs.Prelude.{◌≡◌, ◌⊎◌, ◌∷◌, ◌++◌, [], length, IfSome, MatchOption, None};
ghost use Rattle.gobject.specs.Objects.{node_at};
ghost use Rattle.gdag.specs.Graphs.{Holds};
ghost use Rattle.ganswer.specs.LsAnswers.{IsPeeled, IsPeeledIf};

use ggraph::{Graph, Kind};
use gname::Oid;
use std::alloc::Allocator;

// Returns an empty list with capacity for `count` ids, or with no capacity if memory runs out.
pub(crate) fn empty_peeled_ids<A: Allocator + Copy>(alloc: A, count: usize) -> Vec<Option<Oid>, A>
    ensures { result.items ≡ [] }
{
    match Vec::with_capacity(alloc, count) {
        Ok(peels) => peels,
        Err(_) => Vec::new(alloc),
    }
}

// Appends the peeled id of the ref at index `place`, if the list has exactly `place` entries and
// spare capacity. Allocates nothing.
pub(crate) fn keep_peeled<A: Allocator + Copy>(
    peels: &mut Vec<Option<Oid>, A>,
    place: usize,
    peeled: Option<Oid>,
)
    ensures { (peels.new.items ≡ peels.old.items)
        ⊎ ((length peels.old.items ≡ place) × (peels.new.items ≡ peels.old.items ++ peeled ∷ [])) }
{
    if peels.len() == place && place < peels.capacity() {
        let _ = peels.push(peeled);
    }
}

// Returns the commit that a tag peels to, if `is_asked` (the request has `peel`). `known` is this
// commit, `Some(None)` if there is no such commit, or `None` if the peeled id was not looked up
// before.
pub(crate) fn peeled_if<A: Allocator + Copy>(
    is_asked: bool,
    graph: &Graph<A>,
    id: &Oid,
    known: Option<Option<Oid>>,
) -> Option<Oid>
    requires { IfSome known (IsPeeled graph.now.entries id.now) }
    ensures { IsPeeledIf is_asked graph.now.entries id.now result }
{
    if !is_asked {
        return None;
    }
    match known {
        Some(peeled) => peeled,
        None => peel_tag(graph, id),
    }
}

// Returns the commit that a tag peels to, or `None` for other objects and for a tag that peels to
// no commit.
fn peel_tag<A: Allocator + Copy>(graph: &Graph<A>, id: &Oid) -> Option<Oid>
    ensures { IsPeeled graph.now.entries id.now result }
{
    look_up(graph, id)?
}

// Returns the commit that a tag peels to, or `Some(None)` for other objects and for a tag that
// peels to no commit. Returns `None` if the graph does not hold the object.
pub(crate) fn look_up<A: Allocator + Copy>(graph: &Graph<A>, id: &Oid) -> Option<Option<Oid>>
    ensures { MatchOption result (node_at graph.now.entries id.now ≡ None)
        (λ peeled. Holds graph.now.entries id.now × IsPeeled graph.now.entries id.now peeled) }
{
    match graph.node(id)?.kind {
        Kind::Tag => Some(graph.peel(id)),
        Kind::Commit => Some(None),
    }
}

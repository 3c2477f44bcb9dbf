//! The ids that a server acknowledges.

ghost use Rattle.std.specs.Prelude.{◌≡◌, ◌↔◌, ◌++◌, true, All, Contains, IfOk, IfSome, MatchOption};
ghost use Rattle.std.specs.Str.{bytes_eq};
ghost use Rattle.gname.specs.Ids.{Id};
ghost use Rattle.gdag.specs.Levels.{distinct_of};
ghost use Rattle.indexmap.specs.IndexSet.{contains};
ghost use Rattle.gsession.specs.TakingReplies.{IsFirstStrange};

use ggraph::{IdHasher, distinct_ids};
use gname::Oid;
use indexmap::IndexSet;
use std::alloc::{AllocError, Allocator};

/// Returns the first acknowledged id that is not a have, if any. Looks up each acknowledged id in a
/// set of the haves. If there is not enough memory for the set, searches the list of haves instead.
pub(crate) fn first_strange<A: Allocator + Copy>(
    alloc: A,
    haves: &[Oid],
    acks: &[Oid],
) -> Option<Oid>
    ensures { MatchOption result (All (Contains haves.now) acks.now)
        (IsFirstStrange haves.now acks.now) }
{
    match set_of(alloc, haves) {
        Ok(offered) => first_unoffered::<A>(&Some(offered), haves, acks),
        Err(_) => first_unoffered::<A>(&None, haves, acks),
    }
}

// Returns the first acknowledged id that is not a have, if any. Searches the list of haves if there
// is no set.
fn first_unoffered<A: Allocator + Copy>(
    offered: &Option<IndexSet<Oid, IdHasher, A>>,
    haves: &[Oid],
    acks: &[Oid],
) -> Option<Oid>
    requires { IfSome offered.now (λ set. (a : Id)
        → (contains bytes_eq set a ≡ true) ↔ Contains haves.now a) }
    ensures { MatchOption result (All (Contains haves.now) acks.now)
        (IsFirstStrange haves.now acks.now) }
{
    for id in acks {
        if !is_offered(offered, haves, id) {
            return Some(*id);
        }
    }
    None
}

// Returns whether the id is a have. Searches the list of haves if there is no set.
fn is_offered<A: Allocator + Copy>(
    offered: &Option<IndexSet<Oid, IdHasher, A>>,
    haves: &[Oid],
    id: &Oid,
) -> bool
    requires { IfSome offered.now (λ set. (a : Id)
        → (contains bytes_eq set a ≡ true) ↔ Contains haves.now a) }
    ensures { (result ≡ true) ↔ Contains haves.now id.now }
{
    match offered {
        Some(set) => set.contains(id),
        None => haves.contains(id),
    }
}

// Returns the set of the ids.
fn set_of<A: Allocator + Copy>(
    alloc: A,
    ids: &[Oid],
) -> Result<IndexSet<Oid, IdHasher, A>, AllocError>
    ensures { IfOk result (λ set. (id : Id)
        → (contains bytes_eq set id ≡ true) ↔ Contains ids.now id) }
{
    ids.iter().copied().collect(alloc)
}

/// Returns the common ids and the acknowledged ids, each once, in the order of their first
/// occurrence.
pub(crate) fn with_acks<A: Allocator + Copy>(
    alloc: A,
    commons: &[Oid],
    acks: &[Oid],
) -> Result<Vec<Oid, A>, AllocError>
    ensures { IfOk result (λ list. list.items ≡ distinct_of (commons.now ++ acks.now)) }
{
    let mut joined = Vec::from_slice(alloc, commons)?;
    joined.extend_from_slice(acks)?;
    distinct_ids(alloc, joined.as_slice())
}

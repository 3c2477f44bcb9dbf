//! The distinct ids of a list.

ghost use Rattle.std.specs.Prelude.{◌≡◌, IfOk};
ghost use Rattle.gdag.specs.Levels.{distinct_of};

use crate::graph::IdHasher;
use gname::Oid;
use indexmap::IndexSet;
use std::alloc::{AllocError, Allocator};
use std::hash::BuildHasherDefault;

/// Returns the distinct ids of a list, in the order of their first occurrences.
///
/// Fails only if out of memory.
pub fn distinct_ids<A: Allocator + Copy>(alloc: A, ids: &[Oid]) -> Result<Vec<Oid, A>, AllocError>
    ensures { IfOk result (λ list. list.items ≡ distinct_of ids.now) }
{
    let mut seen: IndexSet<Oid, IdHasher, A> = IndexSet::with_hasher(
        alloc,
        BuildHasherDefault::new(),
    );
    for id in ids {
        seen.insert(*id)?;
    }
    Vec::from_slice(alloc, seen.as_slice())
}

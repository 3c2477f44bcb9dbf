//! The checks before a batch is added to a store.

ghost use Rattle.std.specs.Prelude.{◌≡◌, ◌≢◌, ◌↔◌, false, IsTrue, MatchResult, Some};
ghost use Rattle.gitobject.specs.declared.types.ObjectType.{ObjectType};
ghost use Rattle.gcomplete.specs.Adding.{Leads};
ghost use Rattle.gcomplete.specs.steps.Checking.{AllLead, AreFree, IsTaken, IsUnmet};

use crate::fault::BatchFault;
use crate::needs::NeedMap;
use crate::types::TypeMap;
use gitobject::{Link, ObjectType};
use gname::Oid;
use std::alloc::Allocator;

/// Checks that the store has no id of the batch with another type.
///
/// Fails with `Collision` at the first such id.
pub(crate) fn check_types<A: Allocator + Copy>(
    store: &TypeMap<A>,
    batch: &TypeMap<A>,
) -> Result<(), BatchFault>
    ensures { MatchResult result (λ _. AreFree store.now batch.now) (IsTaken store.now batch.now) }
{
    for place in 0..batch.len() {
        let (id, kind) = batch.at(place);
        if is_other(store.get(&id), kind) {
            return Err(BatchFault::Collision { id });
        }
    }
    Ok(())
}

// Returns whether the kept type exists and differs from the other type.
fn is_other(kept: Option<ObjectType>, kind: ObjectType) -> bool
    ensures other { IsTrue result → (other : ObjectType) × (kept ≡ Some other) × (other ≢ kind) }
    ensures same { result ≡ false → (other : ObjectType) → kept ≡ Some other → other ≡ kind }
{
    match kept {
        Some(kept) => kept != kind,
        None => false,
    }
}

/// Checks that each recorded link leads to an object of the batch or of the store, and that this
/// object has the type of the link.
///
/// Fails with `Missing` at the first link that does not.
pub(crate) fn check_needs<A: Allocator + Copy>(
    store: &TypeMap<A>,
    batch: &TypeMap<A>,
    needs: &NeedMap<A>,
) -> Result<(), BatchFault>
    ensures { MatchResult result (λ _. AllLead store.now batch.now needs.now)
        (IsUnmet store.now batch.now needs.now) }
{
    for place in 0..needs.len() {
        let (by, link) = needs.at(place);
        if !leads(store, batch, &link) {
            return Err(BatchFault::Missing { id: by, link });
        }
    }
    Ok(())
}

// Returns whether the link leads to an object of the batch or of the store.
fn leads<A: Allocator + Copy>(store: &TypeMap<A>, batch: &TypeMap<A>, link: &Link) -> bool
    ensures { IsTrue result ↔ Leads store.now batch.now link.now }
{
    batch.leads(link) || store.leads(link)
}

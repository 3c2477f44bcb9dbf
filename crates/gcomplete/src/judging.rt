//! Reading everything that some ids reach.

ghost use Rattle.std.specs.Prelude.{◌≡◌, IfOk, OnOk};
ghost use Rattle.gitobject.specs.Naming.{id_of};
ghost use Rattle.gcomplete.specs.Batches.{KeepsTypes};
ghost use Rattle.gcomplete.specs.Judging.{AreKept, IsKept};

use crate::batch::Batch;
use crate::fault::BatchFault;
use crate::store::ClosedStore;
use gitobject::{Link, ObjectType};
use gname::Oid;
use std::alloc::Allocator;

/// A source of objects, such as a Git directory.
pub trait ObjectSource<A: Allocator + Copy> {
    /// The reason why an object cannot be read.
    type Fault: Drop;

    /// Returns the type and the bytes of the object with this id. The id of the object is computed
    /// and checked.
    fn read_object(&mut self, id: &Oid) -> Result<(ObjectType, Vec<u8, A>), Self::Fault>
        ensures { IfOk result (λ object. id.now ≡ id_of object.0 object.1.items) };
}

/// The reason why [`judge`] or [`read_reachable`] fails.
#[derive(Drop)]
pub enum JudgeFault<F: Drop> {
    /// An object cannot be read.
    Source {
        /// The id of the object.
        id: Oid,
        /// The id of an object that links to it, or `None` for a tip.
        by: Option<Oid>,
        /// The fault of the source.
        fault: F,
    },
    /// An object is refused, a link leads to an object of another type, or out of memory.
    Batch(BatchFault),
    /// The objects name more ids than the limit.
    TooMany,
}

/// Returns a store of everything that the tips reach. Each object is read once, and its bytes are
/// not kept.
///
/// Fails for the same reasons as [`read_reachable`], and with `Batch` if out of memory.
pub fn judge<S: ObjectSource<A>, A: Allocator + Copy>(
    alloc: A,
    source: &mut S,
    tips: &[Oid],
    limit: usize,
) -> Result<ClosedStore<A>, JudgeFault<S::Fault>>
    ensures { IfOk result (λ store. AreKept store tips.now) }
{
    let mut batch = Batch::new(alloc);
    read_tips(source, &mut batch, tips, limit)?;
    let mut store = ClosedStore::new(alloc);
    match store.add_all(batch) {
        Ok(()) => Ok(store),
        Err(fault) => Err(JudgeFault::Batch(fault)),
    }
}

// Reads everything that the tips reach.
fn read_tips<S: ObjectSource<A>, A: Allocator + Copy>(
    source: &mut S,
    batch: &mut Batch<A>,
    tips: &[Oid],
    limit: usize,
) -> Result<(), JudgeFault<S::Fault>>
    ensures { OnOk result (AreKept batch.new.types tips.now) }
{
    for id in tips {
        read_reachable(source, batch, id, limit)?;
    }
    Ok(())
}

/// Reads the object with the id `tip`, and everything that it reaches. Objects of the batch are not
/// read again, and it is assumed that the batch already has everything that they reach.
/// [`ClosedStore::add_all`] checks this assumption.
///
/// Fails with `Source` at the first object that cannot be read. Fails with `Batch` at the first
/// object that is refused, at the first link to an object of another type, or if out of memory.
/// Fails with `TooMany` if the objects of the batch name more ids than the limit. After a fault the
/// batch may be empty.
pub fn read_reachable<S: ObjectSource<A>, A: Allocator + Copy>(
    source: &mut S,
    batch: &mut Batch<A>,
    tip: &Oid,
    limit: usize,
) -> Result<(), JudgeFault<S::Fault>>
    ensures kept { OnOk result (IsKept batch.new.types tip.now) }
    ensures keeps { OnOk result (KeepsTypes batch.old.types batch.new.types) }
{
    let first = batch.need_count();
    read_one(source, batch, tip, None)?;
    read_links(source, batch, first, limit)
}

// Reads the objects that the objects of the batch name, from position `first` of the named ids on,
// until the batch has all of them.
fn read_links<S: ObjectSource<A>, A: Allocator + Copy>(
    source: &mut S,
    batch: &mut Batch<A>,
    first: usize,
    limit: usize,
) -> Result<(), JudgeFault<S::Fault>>
    ensures { OnOk result (KeepsTypes batch.old.types batch.new.types) }
{
    for place in first..limit {
        if place >= batch.need_count() {
            return Ok(());
        }
        let (by, link) = batch.need(place);
        read_link(source, batch, &by, &link)?;
    }
    if batch.need_count() <= limit {
        Ok(())
    } else {
        Err(JudgeFault::TooMany)
    }
}

// Reads the object that the link of the object `by` leads to, unless the batch has it, and checks
// its type.
fn read_link<S: ObjectSource<A>, A: Allocator + Copy>(
    source: &mut S,
    batch: &mut Batch<A>,
    by: &Oid,
    link: &Link,
) -> Result<(), JudgeFault<S::Fault>>
    ensures { OnOk result (KeepsTypes batch.old.types batch.new.types) }
{
    read_one(source, batch, &link.id, Some(*by))?;
    if batch.leads(link) {
        Ok(())
    } else {
        Err(JudgeFault::Batch(BatchFault::Missing {
            id: *by,
            link: *link,
        }))
    }
}

// Reads the object with this id, unless the batch has it.
fn read_one<S: ObjectSource<A>, A: Allocator + Copy>(
    source: &mut S,
    batch: &mut Batch<A>,
    id: &Oid,
    by: Option<Oid>,
) -> Result<(), JudgeFault<S::Fault>>
    ensures kept { OnOk result (IsKept batch.new.types id.now) }
    ensures keeps { OnOk result (KeepsTypes batch.old.types batch.new.types) }
{
    if let Some(_) = batch.kind_of(id) {
        return Ok(());
    }
    match source.read_object(id) {
        Ok((kind, body)) => add(batch, id, kind, body.as_slice()),
        Err(fault) => Err(JudgeFault::Source { id: *id, by, fault }),
    }
}

// Adds an object to the batch.
fn add<F: Drop, A: Allocator + Copy>(
    batch: &mut Batch<A>,
    id: &Oid,
    kind: ObjectType,
    body: &[u8],
) -> Result<(), JudgeFault<F>>
    requires { id.now ≡ id_of kind body.now }
    ensures kept { OnOk result (IsKept batch.new.types id.now) }
    ensures keeps { OnOk result (KeepsTypes batch.old.types batch.new.types) }
{
    match batch.add(id, kind, body) {
        Ok(()) => Ok(()),
        Err(fault) => Err(JudgeFault::Batch(fault)),
    }
}

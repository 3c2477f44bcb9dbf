//! The objects of a pack that is read.

ghost use Rattle.std.specs.Prelude.{◌≡◌, ◌++◌, IfOk, IfSome, OnErr, OnOk};
ghost use Rattle.std.specs.Option.{option_to_list};
ghost use Rattle.gcomplete.specs.Adding.{AddsObject};
ghost use Rattle.gcomplete.specs.Judging.{IsKept};
ghost use Rattle.gcomplete.specs.Stores.{object_of};
ghost use Rattle.gitobject.specs.Naming.{id_of};
ghost use Rattle.gitmemory.specs.Packs.{IsIndexed};
ghost use Rattle.gitmemory.specs.steps.Taking.{AddsEntryOf, AreTaken, IsTaken, nothing_taken};

use crate::feed::MemoryFeed;
use crate::limits::PACK_LIMITS;
use crate::nodes::entry_of;
use gcomplete::{Batch, BatchFault};
use gitobject::{ObjectFault, ObjectType};
use gitpack::{ObjectVisitor, PackFileFault, index_pack};
use gname::Oid;
use gobject::{Entry, IndexFault};
use std::alloc::Allocator;
use std::marker::Model;

/// The objects of a pack so far, and the entries of its commits and tags. The object of each entry
/// is in the batch.
#[derive(Drop)]
pub(crate) struct Intake<A: Allocator + Copy> {
    alloc: A,
    batch: Batch<A>,
    entries: Vec<Entry<A>, A>,
}

impl<A: Allocator + Copy> Model for Intake<A> {
    ghost use Rattle.gitmemory.specs.steps.Taking.{AreTaken, Taken};

    ghost Value = { Taken A };

    ghost view = { λ it. record { noted = it.batch; entries = it.entries.items } };

    ghost invariant = { λ it. AreTaken it.batch.types it.entries.items };
}

impl<A: Allocator + Copy> Intake<A> {
    // Returns an intake without objects.
    fn new(alloc: A) -> Intake<A>
        ensures { result ≡ nothing_taken }
    {
        Intake {
            alloc,
            batch: Batch::new(alloc),
            entries: Vec::new(alloc),
        }
    }

    // Returns the objects and the entries.
    fn into_parts(self) -> (Batch<A>, Vec<Entry<A>, A>)
        ensures taken { AreTaken result.0.types result.1.items }
        ensures parts { (result.0 ≡ self.noted) × (result.1.items ≡ self.entries) }
    {
        let Intake { batch, entries, .. } = self;
        (batch, entries)
    }

    // Adds an object, and the entry of a commit or tag. After a fault, the object may be added
    // without its entry.
    fn take(&mut self, id: &Oid, kind: ObjectType, body: &[u8]) -> Result<(), PackFileFault>
        requires { id.now ≡ id_of kind body.now }
        ensures object { OnOk result
            (AddsObject self.old.noted id.now (object_of kind body.now) self.new.noted) }
        ensures entry { OnOk result (AddsEntryOf kind body.now self.old.entries self.new.entries) }
    {
        self.add(id, kind, body)?;
        match entry_of(self.alloc, id, kind, body) {
            Ok(entry) => self.push(entry),
            Err(ObjectFault::Malformed) => Err(PackFileFault::Refused),
            Err(ObjectFault::Memory) => Err(PackFileFault::Memory),
        }
    }

    // Adds an object without its entry. After a fault there are no objects and no entries.
    fn add(&mut self, id: &Oid, kind: ObjectType, body: &[u8]) -> Result<(), PackFileFault>
        requires { id.now ≡ id_of kind body.now }
        ensures adds { OnOk result
            (AddsObject self.old.noted id.now (object_of kind body.now) self.new.noted) }
        ensures kept { OnOk result (IsKept self.new.noted.types id.now) }
        ensures same { OnOk result (self.new.entries ≡ self.old.entries) }
        ensures none { OnErr result (self.new ≡ nothing_taken) }
    {
        match self.batch.add(id, kind, body) {
            Ok(()) => Ok(()),
            Err(fault) => {
                self.entries.clear();
                Err(fault_of_batch(fault))
            }
        }
    }

    // Adds an entry whose object was added.
    fn push(&mut self, entry: Option<Entry<A>>) -> Result<(), PackFileFault>
        requires { IfSome entry (IsTaken self.old.noted.types) }
        ensures entries { OnOk result
            (self.new.entries ≡ self.old.entries ++ option_to_list entry) }
        ensures same { self.new.noted ≡ self.old.noted }
    {
        if let Some(entry) = entry {
            self.entries.push(entry)?;
        }
        Ok(())
    }
}

impl<A: Allocator + Copy> ObjectVisitor for Intake<A> {
    fn visit(&mut self, id: &Oid, kind: ObjectType, body: &[u8]) -> Result<(), PackFileFault> {
        self.take(id, kind, body)
    }
}

// Returns the fault of a pack with an object that the batch refuses.
fn fault_of_batch(fault: BatchFault) -> PackFileFault {
    match fault {
        BatchFault::Memory => PackFileFault::Memory,
        _ => PackFileFault::Refused,
    }
}

/// Reads a whole pack. Returns its objects, and the entries of its commits and tags.
///
/// Fails with `Memory` if out of memory, or with `Other` if the pack or one of its objects is
/// refused.
pub(crate) fn read_pack<A: Allocator + Copy>(
    pack: &MemoryFeed<A>,
) -> Result<(Batch<A>, Vec<Entry<A>, A>), IndexFault>
    ensures indexes { IfOk result (λ it. IsIndexed pack.now it.1.items) }
    ensures taken { IfOk result (λ it. AreTaken it.0.types it.1.items) }
{
    let alloc = pack.allocator();
    let mut intake = Intake::new(alloc);
    match index_pack(alloc, pack.as_slice(), PACK_LIMITS, &mut intake) {
        Ok(_) => Ok(intake.into_parts()),
        Err(PackFileFault::Memory) => Err(IndexFault::Memory),
        Err(_) => Err(IndexFault::Other),
    }
}

//! The objects of an incoming pack.

ghost use Rattle.std.specs.Prelude.{◌≡◌, ◌++◌, ◌∷◌, [], List, All, IfOk, IfSome, OnOk};
ghost use Rattle.gcomplete.specs.Judging.{IsKept};
ghost use Rattle.gcomplete.specs.Stores.{Types};
ghost use Rattle.gdag.specs.Graphs.{Holds};
ghost use Rattle.gitobject.specs.Naming.{id_of};
ghost use Rattle.gitobject.specs.declared.types.ObjectType.TheVariants as types;
ghost use Rattle.gitrepository.specs.Entries.{IsRead};
ghost use Rattle.gitrepository.specs.Received.{AreLinked, IsEntryInReceived};
ghost use Rattle.gitrepository.specs.steps.Arriving.{AreLinksNeeded, IsReadId, IsRecorded};
ghost use Rattle.gobject.specs.declared.node.Entry.{Entry};

use crate::fault::{ObjectCause, RepositoryFault};
use crate::linking::{TypeStore, check_links};
use crate::needs::{Needs, ReadObject};
use crate::nodes::{entry_of, leaf};
use crate::tips::Tips;
use ggraph::Entry;
use gitobject::{Link, ObjectType, tag_link};
use gitobjects::{Found, LooseFolders, ObjectFiles, ObjectReader, ObjectStore, StoreFault};
use gitpack::{IndexedPack, ObjectVisitor, PackFileFault};
use gname::Oid;
use std::alloc::Allocator;
use std::marker::Model;

/// The objects read so far from an incoming pack, and the objects that they name. Contracts treat
/// an `Arrival` as its graph entries, the objects read so far, and the ids that they name. The id
/// of each graph entry is the id of one of these objects, or one of these ids.
#[derive(Drop)]
pub(crate) struct Arrival<A: Allocator + Copy> {
    alloc: A,
    entries: Vec<Entry<A>, A>,
    // All objects read so far.
    objects: Vec<ReadObject, A>,
    // The ids that these objects name.
    needs: Needs<A>,
    folders: LooseFolders,
    fault: Option<RepositoryFault<A>>,
}

/// A visitor of the objects of an incoming pack, with the store that receives them and the ids of
/// the peer's refs.
#[derive(Drop)]
pub(crate) struct Inspector<'a, 'r, 't, 'f, F: ObjectFiles, A: Allocator + Copy> {
    // The pack's objects read so far, and the objects that they name.
    arrival: &'a mut Arrival<A>,
    // A reader of the store.
    reader: &'r mut ObjectReader<'f, F, A>,
    // The ids of the peer's refs.
    tips: &'t Tips<A>,
}

impl<A: Allocator + Copy> Model for Arrival<A> {
    ghost use Rattle.std.specs.Prelude.{All};
    ghost use Rattle.gitrepository.specs.Entries.{IsRead};
    ghost use Rattle.gitrepository.specs.steps.Arriving.{AreReadObjects, Arrived, IsEntryRecorded};

    ghost Value = { Arrived A };

    ghost view = { λ a. record { entries = a.entries.items; objects = a.objects.items; needs = a.needs } };

    ghost invariant = { λ a. All (IsRead a.entries.items) a.entries.items
        × AreReadObjects a.needs a.objects.items
        × All (IsEntryRecorded a.needs a.objects.items) a.entries.items };
}

impl<A: Allocator + Copy> Arrival<A> {
    /// Returns an `Arrival` without objects.
    pub(crate) fn new(alloc: A) -> Arrival<A> {
        Arrival {
            alloc,
            entries: Vec::new(alloc),
            objects: Vec::new(alloc),
            needs: Needs::new(alloc),
            folders: LooseFolders::new(),
            fault: None,
        }
    }

    /// Removes and returns the fault of the refused object, or `None` if no object was refused.
    pub(crate) fn take_fault(&mut self) -> Option<RepositoryFault<A>> {
        self.fault.take()
    }

    // Stores the fault of a refused object for `take_fault`.
    fn keep_fault(&mut self, fault: RepositoryFault<A>) {
        self.fault = Some(fault);
    }

    /// Checks that each object named by an object of the pack is in the pack or in the store, with
    /// the expected type. Returns the graph entries and the prerequisites of the pack.
    pub(crate) fn into_parts<S: TypeStore<A>>(
        self,
        store: &mut S,
        pack: &IndexedPack<A>,
    ) -> Result<(Vec<Entry<A>, A>, Vec<Link, A>), RepositoryFault<A>>
        ensures entries { IfOk result (λ it. All (IsRead it.0.items) it.0.items) }
        ensures linked { IfOk result (λ it. AreLinked it.1.items pack.now.entries) }
        ensures stored { IfOk result (λ it. All S.has it.1.items) }
        ensures received { IfOk result (λ it. All
            (IsEntryInReceived it.1.items pack.now.entries) it.0.items) }
    {
        let Arrival {
            alloc,
            entries,
            objects,
            needs,
            ..
        } = self;
        match check_links(alloc, store, pack.entries(), objects, &needs) {
            Ok(prerequisites) => Ok((entries, prerequisites)),
            Err(fault) => Err(fault),
        }
    }

    // Returns the location of an object in the store, or `None` if the store lacks the object.
    fn find<F: ObjectFiles>(
        &mut self,
        store: &ObjectStore<'_, F, A>,
        id: &Oid,
    ) -> Result<Option<Found>, StoreFault<A>> {
        store.find_in(id, &mut self.folders)
    }

    // Records an object, and the objects that it names.
    fn record_object(
        &mut self,
        tips: &Tips<A>,
        id: &Oid,
        kind: ObjectType,
        body: &[u8],
    ) -> Result<(), RepositoryFault<A>>
        requires { id_of kind body.now ≡ id.now }
    {
        self.note_object(id, kind, body)?;
        match kind {
            ObjectType::Commit => self.push_object(id, kind, body),
            ObjectType::Tag => self.record_tag(id, body),
            ObjectType::Tree | ObjectType::Blob if tips.contains(id) => {
                self.push_object(id, kind, body)
            }
            ObjectType::Tree | ObjectType::Blob => Ok(()),
        }
    }

    // Adds the entry of a tag. If the tag names a tree or blob, also adds the entry of that object.
    fn record_tag(&mut self, id: &Oid, body: &[u8]) -> Result<(), RepositoryFault<A>>
        requires id { id_of types.Tag body.now ≡ id.now }
        requires read { IsReadId self.old.objects id.now }
        requires noted { AreLinksNeeded self.old.needs types.Tag body.now }
    {
        self.push_object(id, ObjectType::Tag, body)?;
        match named_leaf(self.alloc, body) {
            Some(entry) => self.push(entry),
            None => Ok(()),
        }
    }

    // Records the id and the type of an object, and the ids that the object names.
    fn note_object(
        &mut self,
        id: &Oid,
        kind: ObjectType,
        body: &[u8],
    ) -> Result<(), RepositoryFault<A>>
        requires { id_of kind body.now ≡ id.now }
        ensures entries { self.new.entries ≡ self.old.entries }
        ensures read { OnOk result (IsReadId self.new.objects id.now) }
        ensures noted { OnOk result (AreLinksNeeded self.new.needs kind body.now) }
    {
        if let Err(fault) = self.needs.note_object(self.alloc, id, kind, body) {
            return Err(fault);
        }
        match self.objects.push(ReadObject { id: *id, kind }) {
            Ok(()) => Ok(()),
            Err(_) => Err(RepositoryFault::Memory),
        }
    }

    // Adds the graph entry of an object.
    fn push_object(
        &mut self,
        id: &Oid,
        kind: ObjectType,
        body: &[u8],
    ) -> Result<(), RepositoryFault<A>>
        requires id { id_of kind body.now ≡ id.now }
        requires read { IsReadId self.old.objects id.now }
        ensures held { OnOk result (Holds self.new.entries id.now) }
        ensures needs { self.new.needs ≡ self.old.needs }
    {
        match entry_of(self.alloc, id, kind, body) {
            Ok(entry) => self.push(entry),
            Err(fault) => Err(RepositoryFault::of_object(id, fault)),
        }
    }

    // Adds a graph entry.
    fn push(&mut self, entry: Entry<A>) -> Result<(), RepositoryFault<A>>
        requires read { IsRead self.old.entries entry }
        requires recorded { IsRecorded self.old.needs self.old.objects entry.id }
        ensures pushed { OnOk result (self.new.entries ≡ self.old.entries ++ entry ∷ []) }
        ensures needs { self.new.needs ≡ self.old.needs }
    {
        match self.entries.push(entry) {
            Ok(()) => Ok(()),
            Err(_) => Err(RepositoryFault::Memory),
        }
    }
}

// Returns the graph entry for the tree or blob that a tag names, or `None` if the tag names a
// commit or a tag.
fn named_leaf<A: Allocator + Copy>(alloc: A, tag: &[u8]) -> Option<Entry<A>>
    ensures read { IfSome result (λ entry. (entries : List (Entry A))
        → Holds entries (id_of types.Tag tag.now) → IsRead entries entry) }
    ensures needed { IfSome result (λ entry. (needs : Types)
        → AreLinksNeeded needs types.Tag tag.now → IsKept needs entry.id) }
{
    let link = tag_link(tag)?;
    match link.kind {
        ObjectType::Tree => Some(Entry {
            id: link.id,
            node: leaf(alloc),
        }),
        ObjectType::Blob => Some(Entry {
            id: link.id,
            node: leaf(alloc),
        }),
        ObjectType::Commit | ObjectType::Tag => None,
    }
}

impl<'a, 'r, 't, 'f, F: ObjectFiles, A: Allocator + Copy> Inspector<'a, 'r, 't, 'f, F, A> {
    /// Returns a visitor that records the objects of a pack.
    pub(crate) fn new(
        arrival: &'a mut Arrival<A>,
        reader: &'r mut ObjectReader<'f, F, A>,
        tips: &'t Tips<A>,
    ) -> Inspector<'a, 'r, 't, 'f, F, A> {
        Inspector {
            arrival,
            reader,
            tips,
        }
    }

    /// Removes and returns the fault of the refused object, or `None` if no object was refused.
    pub(crate) fn take_fault(&mut self) -> Option<RepositoryFault<A>> {
        self.arrival.take_fault()
    }

    // Compares an object of the pack with the stored object of the same id, if the store has one.
    fn compare(
        &mut self,
        id: &Oid,
        kind: ObjectType,
        body: &[u8],
    ) -> Result<(), RepositoryFault<A>> {
        let Some(found) = self.arrival.find(self.reader.store(), id)? else {
            return Ok(());
        };
        match self.reader.read_found(id, found)? {
            Some(stored) if stored.kind != kind || stored.body.as_slice() != body => {
                Err(RepositoryFault::object_fault(id, ObjectCause::Differs))
            }
            _ => Ok(()),
        }
    }

    // Compares an object of the pack with the stored object of the same id, and records the object.
    fn inspect(&mut self, id: &Oid, kind: ObjectType, body: &[u8]) -> Result<(), RepositoryFault<A>>
        requires { id_of kind body.now ≡ id.now }
    {
        self.compare(id, kind, body)?;
        self.arrival.record_object(self.tips, id, kind, body)
    }
}

impl<F: ObjectFiles, A: Allocator + Copy> ObjectVisitor for Inspector<'_, '_, '_, '_, F, A> {
    fn visit(&mut self, id: &Oid, kind: ObjectType, body: &[u8]) -> Result<(), PackFileFault> {
        match self.inspect(id, kind, body) {
            Ok(()) => Ok(()),
            Err(fault) => {
                self.arrival.keep_fault(fault);
                Err(PackFileFault::Refused)
            }
        }
    }
}

//! The test that the objects of a received pack link only to existing objects.

ghost use Rattle.std.specs.Prelude.{◌≡◌, All, Contains, IfOk, IfSome, IsTrue, OnOk, Some};
ghost use Rattle.gcomplete.specs.Stores.{Types, kind_at};
ghost use Rattle.gname.specs.Ids.{Id};
ghost use Rattle.gitobject.specs.Trees.{link_of};
ghost use Rattle.gitobject.specs.declared.links.Link.{Link};
ghost use Rattle.gitobject.specs.declared.types.ObjectType.{ObjectType};
ghost use Rattle.gitpack.specs.Indexes.{object_id};
ghost use Rattle.gitrepository.specs.Received.{AreLinked, IsInReceived, IsStored, Leads};
ghost use Rattle.gitrepository.specs.declared.needs.ReadObject.{ReadObject};
ghost use Rattle.gitrepository.specs.steps.Arriving.{AreReadObjects, IsInIndex, IsReadEntry, IsRecorded, KeepsLinks};

use crate::fault::{ObjectCause, RepositoryFault};
use crate::needs::{Needs, ReadObject};
use gitobject::{Link, ObjectType};
use gitobjects::{ObjectFiles, ObjectReader};
use gitpack::{IndexedEntry, PackFileFault};
use gitwalk::find_entry;
use gname::Oid;
use std::alloc::Allocator;

/// A store that returns the types of its objects.
pub(crate) trait TypeStore<A: Allocator + Copy> {
    // The links that lead to an object of the store, which has the type of the link.
    ghost has: { Link → Type 0 };

    /// Returns the type of the object with this id. Fails if the object is missing, or if the store
    /// cannot be read.
    fn object_type(&mut self, id: &Oid) -> Result<ObjectType, RepositoryFault<A>>
        ensures { IfOk result (λ kind. has (link_of kind id.now)) };
}

impl<F: ObjectFiles, A: Allocator + Copy> TypeStore<A> for ObjectReader<'_, F, A> {
    ghost has = { IsStored };

    fn object_type(&mut self, id: &Oid) -> Result<ObjectType, RepositoryFault<A>> {
        Ok(self.kind_of(id)?)
    }
}

/// Checks that the index of a pack has exactly the objects that were read. Checks also that each
/// named object is in the pack or in the store, with the expected type. Returns the prerequisites
/// of the pack: the ids and types of the named objects that are only in the store.
///
/// Fails with `Refused` if the index has other objects than those that were read. Otherwise fails
/// with the fault of the first named object that is missing, cannot be read or has another type.
/// Fails with `Memory` if out of memory.
pub(crate) fn check_links<S: TypeStore<A>, A: Allocator + Copy>(
    alloc: A,
    store: &mut S,
    pack: &[IndexedEntry],
    objects: Vec<ReadObject, A>,
    needs: &Needs<A>,
) -> Result<Vec<Link, A>, RepositoryFault<A>>
    requires { AreReadObjects needs.now objects.items }
    ensures linked { IfOk result (λ links. AreLinked links.items pack.now) }
    ensures stored { IfOk result (λ links. All S.has links.items) }
    ensures recorded { IfOk result (λ links. (a : Id) → IsRecorded needs.now objects.items a
        → IsInReceived links.items pack.now a) }
{
    let objects = sorted(objects);
    if !were_read(objects.as_slice(), pack) {
        return Err(RepositoryFault::Pack(PackFileFault::Refused));
    }
    check_needs(alloc, store, pack, needs)
}

// Returns these objects, sorted by id.
fn sorted<A: Allocator + Copy>(objects: Vec<ReadObject, A>) -> Vec<ReadObject, A>
    ensures read { (needs : Types) → AreReadObjects needs objects.items
        → AreReadObjects needs result.items }
    ensures keeps { (object : ReadObject) → Contains objects.items object
        → Contains result.items object }
{
    let mut objects = objects;
    objects.sort_unstable_by(|one, other| one.id.cmp(&other.id));
    objects
}

// Returns whether both lists are equally long, and have the same ids and types at each position.
fn were_read(objects: &[ReadObject], pack: &[IndexedEntry]) -> bool
    ensures read { IsTrue result → (needs : Types) → AreReadObjects needs objects.now
        → All (IsReadEntry needs) pack.now }
    ensures indexed { IsTrue result → All (IsInIndex pack.now) objects.now }
{
    if objects.len() != pack.len() {
        return false;
    }
    for place in 0..pack.len() {
        if !is_same(&objects[place], &pack[place]) {
            return false;
        }
    }
    true
}

// Returns whether an object has the id and the type of an index entry.
fn is_same(object: &ReadObject, entry: &IndexedEntry) -> bool
    ensures { IsTrue result
        → (object.now.id ≡ object_id entry.now) × (object.now.kind ≡ entry.now.kind) }
{
    object.id == entry.entry.id && object.kind == entry.kind
}

// Checks that each named object is in the pack or in the store, with the expected type. Returns the
// links to the objects that are only in the store.
fn check_needs<S: TypeStore<A>, A: Allocator + Copy>(
    alloc: A,
    store: &mut S,
    pack: &[IndexedEntry],
    needs: &Needs<A>,
) -> Result<Vec<Link, A>, RepositoryFault<A>>
    ensures leads { IfOk result (λ links. (a : Id) (kind : ObjectType)
        → kind_at needs.now a ≡ Some kind → Leads links.items pack.now (link_of kind a)) }
    ensures stored { IfOk result (λ links. All S.has links.items) }
{
    let mut prerequisites = Vec::new(alloc);
    for place in 0..needs.len() {
        let (id, kind) = needs.at(place);
        if let Err(fault) = check_need(store, pack, Link { id, kind }, &mut prerequisites) {
            return Err(fault);
        }
    }
    Ok(prerequisites)
}

// Checks that a named object is in the pack or in the store, with the expected type. If the object
// is only in the store, adds the link to `prerequisites`.
fn check_need<S: TypeStore<A>, A: Allocator + Copy>(
    store: &mut S,
    pack: &[IndexedEntry],
    need: Link,
    prerequisites: &mut Vec<Link, A>,
) -> Result<(), RepositoryFault<A>>
    ensures leads { OnOk result (Leads prerequisites.new.items pack.now need) }
    ensures keeps { KeepsLinks prerequisites.old.items prerequisites.new.items }
    ensures stored { All S.has prerequisites.old.items → All S.has prerequisites.new.items }
{
    match find_entry(pack, &need.id) {
        Some(entry) => expect(entry.kind, &need),
        None => check_stored(store, need, prerequisites),
    }
}

// Checks that a named object is in the store, with the expected type, and adds the link to
// `prerequisites`.
fn check_stored<S: TypeStore<A>, A: Allocator + Copy>(
    store: &mut S,
    need: Link,
    prerequisites: &mut Vec<Link, A>,
) -> Result<(), RepositoryFault<A>>
    ensures leads { OnOk result (Contains prerequisites.new.items need) }
    ensures keeps { KeepsLinks prerequisites.old.items prerequisites.new.items }
    ensures stored { All S.has prerequisites.old.items → All S.has prerequisites.new.items }
{
    if let Err(fault) = check_type(store, &need) {
        return Err(fault);
    }
    match prerequisites.push(need) {
        Ok(()) => Ok(()),
        Err(_) => Err(RepositoryFault::Memory),
    }
}

// Checks that a named object is in the store, with the expected type.
fn check_type<S: TypeStore<A>, A: Allocator + Copy>(
    store: &mut S,
    need: &Link,
) -> Result<(), RepositoryFault<A>>
    ensures { OnOk result (S.has need.now) }
{
    match store.object_type(&need.id) {
        Ok(kind) => expect(kind, need),
        Err(fault) => Err(fault),
    }
}

// Fails with `Type` if a named object of type `kind` should have another type.
fn expect<A: Allocator + Copy>(kind: ObjectType, need: &Link) -> Result<(), RepositoryFault<A>>
    ensures { OnOk result (kind ≡ need.now.kind) }
{
    if kind == need.kind {
        Ok(())
    } else {
        Err(RepositoryFault::object_fault(&need.id, ObjectCause::Type))
    }
}

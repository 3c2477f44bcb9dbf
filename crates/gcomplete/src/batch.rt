//! Objects that are added to a store together.

ghost use Rattle.std.specs.Prelude.{◌≡◌, ◌<◌, ◌↔◌, None, IsTrue, MatchResult, OnOk, Some, length, slice_get};
ghost use Rattle.gitobject.specs.Naming.{id_of};
ghost use Rattle.gcomplete.specs.Adding.{AddsObject, HasBatchLink, IsAddFault, IsFit, IsRefused};
ghost use Rattle.gcomplete.specs.Batches.{HasObjects, KeepsTypes, need_of, nothing};
ghost use Rattle.gcomplete.specs.Closed.{HasLinks};
ghost use Rattle.gcomplete.specs.Stores.{kind_at, object_of};

use crate::checking::{check_needs, check_types};
use crate::fault::BatchFault;
use crate::needs::NeedMap;
use crate::types::TypeMap;
use gitobject::{Link, ObjectFault, ObjectType, links_of};
use gname::Oid;
use std::alloc::{Allocator, Global};
use std::marker::Model;

/// The ids, types and links of objects that are added to a store together, such as the objects of a
/// pack. The bytes of the objects are not kept.
#[derive(Drop)]
pub struct Batch<A: Allocator + Copy = Global> {
    alloc: A,
    types: TypeMap<A>,
    needs: NeedMap<A>,
}

impl<A: Allocator + Copy> Model for Batch<A> {
    ghost use Rattle.gcomplete.specs.Batches.{HasObjects, Noted};

    ghost Value = { Noted };

    ghost view = { λ it. record { types = it.types; needs = it.needs } };

    ghost invariant = { λ it. HasObjects (record { types = it.types; needs = it.needs }) };
}

impl<A: Allocator + Copy> Batch<A> {
    /// Returns a batch without objects, which uses no memory.
    pub fn new(alloc: A) -> Batch<A>
        ensures { result ≡ nothing }
    {
        Batch {
            alloc,
            types: TypeMap::new(alloc),
            needs: NeedMap::new(alloc),
        }
    }

    /// Proves that the ids, types and links are those of some objects.
    pub fn laws(&self)
        ensures { HasObjects self.now }
    {
        let _alloc = &self.alloc;
    }

    /// Returns the type of the object with this id, or `None` if the batch lacks the object.
    pub fn kind_of(&self, id: &Oid) -> Option<ObjectType>
        ensures { result ≡ kind_at self.now.types id.now }
    {
        self.types.get(id)
    }

    /// Returns whether the link leads to an object of the batch, with the type of the link.
    pub fn leads(&self, link: &Link) -> bool
        ensures { IsTrue result ↔ (kind_at self.now.types link.now.id ≡ Some link.now.kind) }
    {
        self.types.leads(link)
    }

    /// Returns the number of ids that the objects name.
    pub fn need_count(&self) -> usize
        ensures { result ≡ length self.now.needs }
    {
        self.needs.len()
    }

    /// Returns the link at this position, and the id of the first object with this link. The named
    /// ids are in the order in which they were first named.
    pub fn need(&self, place: usize) -> (Oid, Link)
        requires { place < length self.now.needs }
        ensures at { slice_get self.now.needs place
            ≡ Some (result.1.id, need_of result.0 result.1) }
        ensures link { HasBatchLink self.now result.0 result.1 }
    {
        self.needs.at(place)
    }

    /// Adds an object whose id the caller has computed. The links of the object are read, unless
    /// the object was added before.
    ///
    /// Fails with `Collision` if an object of another type has the id, or with `Malformed` if the
    /// bytes are not a valid object of the type. Fails with `Clash` at the first link whose id has
    /// another type in an earlier link. Fails with `Memory` if out of memory. After any fault the
    /// batch is empty.
    pub fn add(&mut self, id: &Oid, kind: ObjectType, body: &[u8]) -> Result<(), BatchFault>
        requires { id.now ≡ id_of kind body.now }
        ensures adds { MatchResult result
            (λ _. AddsObject self.old id.now (object_of kind body.now) self.new)
            (λ fault. (self.new ≡ nothing)
            × IsAddFault self.old id.now (object_of kind body.now) fault) }
        ensures holds { OnOk result (kind_at self.new.types id.now ≡ Some kind) }
        ensures keeps { OnOk result (KeepsTypes self.old.types self.new.types) }
    {
        match self.types.get(id) {
            Some(kept) if kept == kind => Ok(()),
            Some(_) => self.refuse(BatchFault::Collision { id: *id }),
            None => self.add_new(id, kind, body),
        }
    }

    // Adds an object whose id is not in the batch yet.
    fn add_new(&mut self, id: &Oid, kind: ObjectType, body: &[u8]) -> Result<(), BatchFault>
        requires name { id.now ≡ id_of kind body.now }
        requires new { kind_at self.old.types id.now ≡ None }
        ensures adds { MatchResult result
            (λ _. AddsObject self.old id.now (object_of kind body.now) self.new)
            (λ fault. (self.new ≡ nothing)
            × IsAddFault self.old id.now (object_of kind body.now) fault) }
        ensures holds { OnOk result (kind_at self.new.types id.now ≡ Some kind) }
        ensures keeps { OnOk result (KeepsTypes self.old.types self.new.types) }
    {
        match links_of(self.alloc, kind, body) {
            Ok(links) => self.note(id, kind, body, links.as_slice()),
            Err(ObjectFault::Malformed) => self.refuse(BatchFault::Malformed { id: *id }),
            Err(ObjectFault::Memory) => self.refuse(BatchFault::Memory),
        }
    }

    // Records an object with these links.
    fn note(
        &mut self,
        id: &Oid,
        kind: ObjectType,
        body: &[u8],
        links: &[Link],
    ) -> Result<(), BatchFault>
        requires name { id.now ≡ id_of kind body.now }
        requires new { kind_at self.old.types id.now ≡ None }
        requires reads { HasLinks (object_of kind body.now) links.now }
        ensures adds { MatchResult result
            (λ _. AddsObject self.old id.now (object_of kind body.now) self.new)
            (λ fault. (self.new ≡ nothing)
            × IsAddFault self.old id.now (object_of kind body.now) fault) }
        ensures holds { OnOk result (kind_at self.new.types id.now ≡ Some kind) }
        ensures keeps { OnOk result (KeepsTypes self.old.types self.new.types) }
    {
        if let Err(fault) = self.needs.note_all(id, links) {
            self.types.clear();
            self.needs.clear();
            return Err(fault);
        }
        if let Err(_) = self.types.put(id, kind) {
            self.types.clear();
            self.needs.clear();
            return Err(BatchFault::Memory);
        }
        Ok(())
    }

    // Removes all objects, and fails with this fault.
    fn refuse(&mut self, fault: BatchFault) -> Result<(), BatchFault>
        ensures { MatchResult result (λ _. ⊥) (λ why. (self.new ≡ nothing) × (why ≡ fault)) }
    {
        self.types.clear();
        self.needs.clear();
        Err(fault)
    }

    /// Checks whether the batch can be added to a store with these ids and types.
    pub(crate) fn check(&self, store: &TypeMap<A>) -> Result<(), BatchFault>
        ensures { MatchResult result (λ _. IsFit store.now self.now)
            (IsRefused store.now self.now) }
    {
        if let Err(fault) = check_types(store, &self.types) {
            return Err(fault);
        }
        check_needs(store, &self.types, &self.needs)
    }

    /// Returns the ids and types of the objects.
    pub(crate) fn into_types(self) -> TypeMap<A>
        ensures { result ≡ self.types }
    {
        let Batch { types, .. } = self;
        types
    }
}

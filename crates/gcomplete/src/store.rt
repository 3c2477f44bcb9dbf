//! A store in which each link of each object leads to an object of the store.

ghost use Rattle.std.specs.Prelude.{◌≡◌, ◌↔◌, [], IsTrue, OnOk, Some, length};
ghost use Rattle.gitobject.specs.Naming.{id_of};
ghost use Rattle.gname.specs.Ids.{Id};
ghost use Rattle.gcomplete.specs.Adding.{AddsAll};
ghost use Rattle.gcomplete.specs.Batches.{AreJudged, HasJudged, IsBatchOf, KeepsTypes};
ghost use Rattle.gcomplete.specs.Closed.{IsComplete};
ghost use Rattle.gcomplete.specs.Rereading.{IsReadAgain};
ghost use Rattle.gcomplete.specs.Stores.{Holds, Store, is_commit_or_tag, joined, kind_at, object_of};
ghost use Rattle.std.specs.List.{filter};

use crate::batch::Batch;
use crate::fault::BatchFault;
use crate::types::TypeMap;
use gitobject::{ObjectType, id_of};
use gname::Oid;
use std::alloc::{Allocator, Global};
use std::marker::Model;

/// The ids and types of objects whose links all lead to objects of the store. So the store has
/// everything that its objects reach. The bytes of the objects are kept elsewhere, such as in a
/// pack on disk. Contracts treat a `ClosedStore` as the list of its ids and types.
#[derive(Drop)]
pub struct ClosedStore<A: Allocator + Copy = Global> {
    types: TypeMap<A>,
}

impl<A: Allocator + Copy> Model for ClosedStore<A> {
    ghost use Rattle.gcomplete.specs.Batches.{HasJudged};
    ghost use Rattle.gcomplete.specs.Stores.{Types};

    ghost Value = { Types };

    ghost view = { λ it. it.types };

    ghost invariant = { λ it. HasJudged it.types };
}

impl<A: Allocator + Copy> ClosedStore<A> {
    /// Returns a store without objects, which uses no memory.
    pub fn new(alloc: A) -> ClosedStore<A>
        ensures { result ≡ [] }
    {
        ClosedStore {
            types: TypeMap::new(alloc),
        }
    }

    /// Proves that the ids and types are those of a closed store, so each object of this store is
    /// complete.
    pub fn laws(&self)
        ensures judged { HasJudged self.now }
        ensures complete { (objects : Store) → AreJudged self.now objects
            → (a : Id) → Holds objects a → IsComplete objects a }
    {
        let _types = &self.types;
    }

    /// Returns the number of objects.
    pub fn len(&self) -> usize
        ensures { result ≡ length self.now }
    {
        self.types.len()
    }

    /// Returns the number of commits and tags.
    pub fn commits_and_tags(&self) -> usize
        ensures { result ≡ length (filter is_commit_or_tag self.now) }
    {
        self.types.commits_and_tags()
    }

    /// Returns the type of the object with this id, or `None` if the store lacks the object.
    pub fn kind_of(&self, id: &Oid) -> Option<ObjectType>
        ensures { result ≡ kind_at self.now id.now }
    {
        self.types.get(id)
    }

    /// Returns whether an object that was read again has this id, and the type in the store. The
    /// SHA-1 of the object is computed. If the result is `true`, the object is the one that was
    /// added, or two different texts have the same SHA-1.
    pub fn is_judged(&self, id: &Oid, kind: ObjectType, body: &[u8]) -> bool
        ensures judged { IsTrue result
            ↔ ((kind_at self.now id.now ≡ Some kind) × (id.now ≡ id_of kind body.now)) }
        ensures same { IsTrue result → IsReadAgain self.now id.now (object_of kind body.now) }
    {
        self.has(id, kind, body)
    }

    // Returns whether an object has this id, and the type in the store.
    fn has(&self, id: &Oid, kind: ObjectType, body: &[u8]) -> bool
        ensures { IsTrue result
            ↔ ((kind_at self.now id.now ≡ Some kind) × (id.now ≡ id_of kind body.now)) }
    {
        self.types.get(id) == Some(kind) && id_of(kind, body) == *id
    }

    /// Adds all objects of a batch, or none.
    ///
    /// Fails with `Collision` at the first object whose id has another type in the store. Otherwise
    /// fails with `Missing` at the first link that leads to no object of the batch or of the store.
    /// Fails with `Memory` if out of memory. After a fault the store is unchanged.
    pub fn add_all(&mut self, batch: Batch<A>) -> Result<(), BatchFault>
        ensures adds { AddsAll self.old batch self.new result }
        ensures closed { HasJudged self.new }
        ensures joins { (held objects : Store) → AreJudged self.old held → IsBatchOf batch objects
            → OnOk result (AreJudged self.new (joined held objects)) }
        ensures keeps { KeepsTypes self.old self.new }
        ensures holds { OnOk result (KeepsTypes batch.types self.new) }
    {
        batch.laws();
        if let Err(fault) = batch.check(&self.types) {
            return Err(fault);
        }
        if let Err(_) = self.types.join(batch.into_types()) {
            return Err(BatchFault::Memory);
        }
        Ok(())
    }
}

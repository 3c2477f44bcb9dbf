//! The ids that objects name.

ghost use Rattle.std.specs.Prelude.{◌≡◌, ◌<◌, [], ◌∷◌, MatchResult, None, Some, length, slice_get};
ghost use Rattle.gcomplete.specs.Batches.{need_at, need_of};
ghost use Rattle.gcomplete.specs.steps.Keeping.{IsNeedFault, IsOneFault, Notes};

use crate::fault::BatchFault;
use crate::types::IdHasher;
use gitobject::{Link, ObjectType};
use gname::Oid;
use indexmap::IndexMap;
use std::alloc::Allocator;
use std::hash::BuildHasherDefault;
use std::marker::Model;

/// The object that a link needs.
#[derive(Clone, Copy, Debug, Drop)]
pub struct Need {
    /// The type of the object.
    pub kind: ObjectType,
    /// The id of the first object with a link to this object.
    pub by: Oid,
}

/// A map from the ids that objects name to the needed objects, in the order of insertion. Contracts
/// treat a `NeedMap` as the list of its entries.
#[derive(Drop)]
pub(crate) struct NeedMap<A: Allocator + Copy> {
    map: IndexMap<Oid, Need, IdHasher, A>,
}

impl<A: Allocator + Copy> Model for NeedMap<A> {
    ghost use Rattle.gcomplete.specs.Batches.{Needs};

    ghost Value = { Needs };

    ghost view = { λ it. it.map.entries };
}

impl<A: Allocator + Copy> NeedMap<A> {
    /// Returns an empty map. An empty map uses no memory.
    pub(crate) fn new(alloc: A) -> NeedMap<A>
        ensures { result ≡ [] }
    {
        NeedMap {
            map: IndexMap::with_hasher(alloc, BuildHasherDefault::new()),
        }
    }

    /// Returns the number of ids.
    pub(crate) fn len(&self) -> usize
        ensures { result ≡ length self.now }
    {
        self.map.len()
    }

    /// Returns the link at this position, and the id of the first object with this link.
    pub(crate) fn at(&self, place: usize) -> (Oid, Link)
        requires { place < length self.now }
        ensures at { slice_get self.now place ≡ Some (result.1.id, need_of result.0 result.1) }
        ensures noted { need_at self.now result.1.id ≡ Some (need_of result.0 result.1) }
    {
        let (id, need) = self.map.get_index(place).unwrap();
        let link = Link {
            id: *id,
            kind: need.kind,
        };
        (need.by, link)
    }

    /// Records the links of an object.
    ///
    /// Fails with `Clash` at the first link to an id that is already recorded with another type, or
    /// with `Memory` if out of memory. After a fault, some of the links may be recorded.
    pub(crate) fn note_all(&mut self, id: &Oid, links: &[Link]) -> Result<(), BatchFault>
        ensures { MatchResult result (λ _. Notes self.old id.now links.now self.new)
            (IsNeedFault self.old id.now links.now) }
    {
        for link in links {
            if let Err(fault) = self.note(id, link) {
                return Err(fault);
            }
        }
        Ok(())
    }

    // Records a link of an object.
    fn note(&mut self, id: &Oid, link: &Link) -> Result<(), BatchFault>
        ensures { MatchResult result (λ _. Notes self.old id.now (link.now ∷ []) self.new)
            (IsOneFault self.old id.now link.now) }
    {
        match self.map.get(&link.id).copied() {
            Some(need) if need.kind == link.kind => Ok(()),
            Some(_) => Err(BatchFault::Clash {
                id: *id,
                link: *link,
            }),
            None => self.note_new(id, link),
        }
    }

    // Records a link of an object to an id that is not recorded yet.
    fn note_new(&mut self, id: &Oid, link: &Link) -> Result<(), BatchFault>
        requires { need_at self.old link.now.id ≡ None }
        ensures { MatchResult result (λ _. Notes self.old id.now (link.now ∷ []) self.new)
            (IsOneFault self.old id.now link.now) }
    {
        let need = Need {
            kind: link.kind,
            by: *id,
        };
        if let Err(_) = self.map.insert(link.id, need) {
            return Err(BatchFault::Memory);
        }
        Ok(())
    }

    /// Removes all ids.
    pub(crate) fn clear(&mut self)
        ensures { self.new ≡ [] }
    {
        self.map.clear();
    }
}

//! The fates of objects. The fate of an object states whether the object is sent in a pack.

ghost use Rattle.std.specs.Prelude.{◌≡◌, [], OnOk, length, slice_get};
ghost use Rattle.std.specs.Option.{option_map};
ghost use Rattle.gitwalk.specs.Gathering.{AreDistinct, decided_at, fate_at, is_sent, sent_count};
ghost use Rattle.gitwalk.specs.StoredTrees.{linked_kind};
ghost use Rattle.gitwalk.specs.steps.Walking.{Puts, decision_of, is_sent_some};

use crate::path_hash::PathHash;
use gdag::IdHasher;
use gitobject::ObjectType;
use gitobjects::Found;
use gname::Oid;
use indexmap::IndexMap;
use std::alloc::{AllocError, Allocator};
use std::hash::BuildHasherDefault;
use std::marker::Model;

/// The fate of an object: whether it is sent in a pack.
#[derive(Clone, Copy, Debug, PartialEq, Eq)]
pub enum Fate {
    /// The object is sent, and was found at the path with this hash.
    Sent(PathHash),
    /// The object is not sent: the peer has it.
    NotSent,
}

impl Fate {
    /// Returns whether the object is sent.
    pub(crate) fn is_sent(self) -> bool
        ensures { result ≡ is_sent self }
    {
        match self {
            Fate::Sent(_) => true,
            Fate::NotSent => false,
        }
    }

    /// Returns the fate of the object in the tree entry with this name. `self` is the fate of the
    /// tree.
    pub(crate) fn of_entry(self, name: &[u8]) -> Fate
        ensures { is_sent result ≡ is_sent self }
    {
        match self {
            Fate::Sent(path) => Fate::Sent(path.join(name)),
            Fate::NotSent => Fate::NotSent,
        }
    }
}

/// The fate of an object, and the location of the object in the store.
#[derive(Clone, Copy, Debug, Drop)]
pub struct Decided {
    /// The fate of the object.
    pub fate: Fate,
    /// The location of the object.
    pub found: Found,
    /// The type that a link gives the object, or `None` if no link was followed to it.
    pub kind: Option<ObjectType>,
}

/// The objects whose fates are decided, in the order of decision. Contracts treat `Fates` as the
/// list of their ids, fates, locations and types.
#[derive(Drop)]
pub struct Fates<A: Allocator + Copy> {
    map: IndexMap<Oid, Decided, IdHasher, A>,
}

impl<A: Allocator + Copy> Model for Fates<A> {
    ghost use Rattle.gitwalk.specs.Gathering.{AreDistinct, Fates};

    ghost Value = { Fates };

    ghost view = { λ fates. fates.map.entries };

    ghost invariant = { λ fates. AreDistinct fates.map.entries };
}

impl<A: Allocator + Copy> Fates<A> {
    /// Returns a `Fates` in which the fate of every object is undecided.
    pub(crate) fn new(alloc: A) -> Fates<A>
        ensures { result ≡ [] }
    {
        Fates {
            map: IndexMap::with_hasher(alloc, BuildHasherDefault::new()),
        }
    }

    /// Proves that the ids are distinct.
    pub(crate) fn laws(&self)
        ensures { AreDistinct self.now }
    {
        let _ = &self.map;
    }

    /// Returns the fate of the object with this id, or `None` if the fate is undecided.
    pub fn get(&self, id: &Oid) -> Option<Fate>
        ensures { result ≡ fate_at self.now id.now }
    {
        match self.map.get(id) {
            Some(decided) => Some(decided.fate),
            None => None,
        }
    }

    /// Returns the fate of the object with this id, and where the object was found. Returns `None`
    /// if the fate is undecided.
    pub fn decided(&self, id: &Oid) -> Option<Decided>
        ensures { result ≡ decided_at self.now id.now }
    {
        self.map.get(id).copied()
    }

    /// Returns the type that a link gives the object, if its fate was decided through a link.
    pub(crate) fn linked_kind(&self, id: &Oid) -> Option<ObjectType>
        ensures { result ≡ linked_kind (decided_at self.now id.now) }
    {
        match self.map.get(id) {
            Some(decided) => decided.kind,
            None => None,
        }
    }

    /// Returns the number of objects with decided fates.
    pub fn len(&self) -> usize
        ensures { result ≡ length self.now }
    {
        self.map.len()
    }

    /// Returns the id, the location and the fate of the object at this position in the order of
    /// decision. Returns `None` if the position is out of range.
    pub fn at(&self, number: usize) -> Option<(Oid, Found, Fate)>
        ensures { result ≡ option_map decision_of (slice_get self.now number) }
    {
        match self.map.get_index(number) {
            Some((id, decided)) => Some((*id, decided.found, decided.fate)),
            None => None,
        }
    }

    /// Returns the number of objects to send.
    pub fn sent_count(&self) -> usize
        ensures { result ≡ sent_count self.now }
    {
        let mut count = 0usize;
        for number in 0..self.len() {
            if self.is_sent_at(number) {
                count += 1;
            }
        }
        count
    }

    // Returns whether there is an object at this position in the order of decision, and it is sent.
    fn is_sent_at(&self, number: usize) -> bool
        ensures { result ≡ is_sent_some (slice_get self.now number) }
    {
        match self.map.get_index(number) {
            Some((_, decided)) => decided.fate.is_sent(),
            None => false,
        }
    }

    /// Sets the fate of an object, which must be undecided. Fails only if out of memory, and then
    /// no fate changes.
    pub(crate) fn settle(&mut self, id: &Oid, decided: Decided) -> Result<(), AllocError>
        ensures { OnOk result (Puts self.old id.now decided self.new) }
    {
        match self.map.insert(*id, decided) {
            Ok(_) => Ok(()),
            Err(_) => Err(AllocError),
        }
    }
}

//! Maps from ids to types.

ghost use Rattle.std.specs.Prelude.{◌≡◌, ◌<◌, ◌↔◌, [], IsTrue, Some, length, MatchResult, slice_get};
ghost use Rattle.gcomplete.specs.Adding.{IsJoined};
ghost use Rattle.gcomplete.specs.Stores.{is_commit_or_tag, is_history_type, kind_at};
ghost use Rattle.std.specs.List.{filter};
ghost use Rattle.gcomplete.specs.steps.Keeping.{Puts};

use gitobject::{Link, ObjectType};
use gname::Oid;
use indexmap::IndexMap;
use std::alloc::{AllocError, Allocator};
use std::hash::{BuildHasherDefault, DefaultHasher};
use std::marker::Model;

/// The hasher of ids. A peer chooses the ids that its objects name, so it should not be able to
/// construct ids with the same hash. The keys of `DefaultHasher` are fixed, so the peer can still
/// search for such ids.
pub(crate) type IdHasher = BuildHasherDefault<DefaultHasher>;

/// A map from ids to the types of objects, in the order of insertion. Contracts treat a `TypeMap`
/// as the list of its ids and types.
#[derive(Drop)]
pub struct TypeMap<A: Allocator + Copy> {
    map: IndexMap<Oid, ObjectType, IdHasher, A>,
}

impl<A: Allocator + Copy> Model for TypeMap<A> {
    ghost use Rattle.gcomplete.specs.Stores.{Types};

    ghost Value = { Types };

    ghost view = { λ it. it.map.entries };
}

impl<A: Allocator + Copy> TypeMap<A> {
    /// Returns an empty map. An empty map uses no memory.
    pub fn new(alloc: A) -> TypeMap<A>
        ensures { result ≡ [] }
    {
        TypeMap {
            map: IndexMap::with_hasher(alloc, BuildHasherDefault::new()),
        }
    }

    /// Returns the number of ids.
    pub fn len(&self) -> usize
        ensures { result ≡ length self.now }
    {
        self.map.len()
    }

    /// Returns the type of the object with this id, or `None` if the map lacks the id.
    pub fn get(&self, id: &Oid) -> Option<ObjectType>
        ensures { result ≡ kind_at self.now id.now }
    {
        self.map.get(id).copied()
    }

    /// Returns the number of commits and tags.
    pub(crate) fn commits_and_tags(&self) -> usize
        ensures { result ≡ length (filter is_commit_or_tag self.now) }
    {
        let mut count = 0usize;
        for place in 0..self.len() {
            let (_, kind) = self.at(place);
            if is_commit_or_tag(kind) {
                count += 1;
            }
        }
        count
    }

    /// Returns whether the map has the id of the link, with the type of the link.
    pub(crate) fn leads(&self, link: &Link) -> bool
        ensures { IsTrue result ↔ (kind_at self.now link.now.id ≡ Some link.now.kind) }
    {
        self.get(&link.id) == Some(link.kind)
    }

    /// Returns the id at this position, and its type.
    pub fn at(&self, place: usize) -> (Oid, ObjectType)
        requires { place < length self.now }
        ensures at { slice_get self.now place ≡ Some result }
        ensures kept { kind_at self.now result.0 ≡ Some result.1 }
    {
        let (id, kind) = self.map.get_index(place).unwrap();
        (*id, *kind)
    }

    /// Sets the type of an id. Fails only if out of memory, and then the map is unchanged.
    pub fn put(&mut self, id: &Oid, kind: ObjectType) -> Result<(), AllocError>
        ensures { MatchResult result (λ _. Puts self.old id.now kind self.new)
            (λ _. self.new ≡ self.old) }
    {
        match self.map.insert(*id, kind) {
            Ok(_) => Ok(()),
            Err(_) => Err(AllocError),
        }
    }

    /// Sets the types of all ids of another map. Fails only if out of memory, and then the map is
    /// unchanged.
    pub(crate) fn join(&mut self, mut others: TypeMap<A>) -> Result<(), AllocError>
        ensures { MatchResult result (λ _. IsJoined self.old others self.new)
            (λ _. self.new ≡ self.old) }
    {
        let _count = others.map.len();
        match self.map.append(&mut others.map) {
            Ok(()) => Ok(()),
            Err(refused) => Err(refused),
        }
    }

    /// Removes all ids.
    pub(crate) fn clear(&mut self)
        ensures { self.new ≡ [] }
    {
        self.map.clear();
    }
}

// Returns whether this is the type of a commit or a tag.
fn is_commit_or_tag(kind: ObjectType) -> bool
    ensures { result ≡ is_history_type kind }
{
    match kind {
        ObjectType::Commit | ObjectType::Tag => true,
        ObjectType::Tree | ObjectType::Blob => false,
    }
}

//! Requests to update several refs.

ghost use Rattle.std.specs.Prelude.{◌≡◌, ◌≤◌, ◌<◌, ◌↔◌, [], IfOk, IsTrue, MatchOption, OnErr, OnOk, Some, length, map, slice_get};
ghost use Rattle.indexmap.specs.IndexMap.{values};
ghost use Rattle.gclientrepo.specs.Asks.{IsAskAt, IsForcedAt, NamesDiffer, ask_of_aim, asked_ids, is_asked, with_ask};

use crate::ask::Ask;
use gname::{Oid, RefName};
use indexmap::IndexMap;
use std::alloc::{AllocError, Allocator, Global};
use std::hash::{BuildHasherDefault, DefaultHasher};
use std::marker::Model;

/// The hasher of ref names. With a fast hasher, a malicious peer could easily find names with equal
/// hashes. With `DefaultHasher`, the peer cannot find them easily.
type NameHasher = BuildHasherDefault<DefaultHasher>;

/// The new id of a ref, and whether the update is forced.
#[derive(Debug, Drop)]
pub(crate) struct Aim {
    pub(crate) id: Oid,
    pub(crate) forced: bool,
}

/// A list of requested ref updates, in the order in which they were added. No two updates in the
/// list are for the same ref.
#[derive(Debug, Drop)]
pub struct Asks<A: Allocator + Copy = Global> {
    aims: IndexMap<RefName<A>, Aim, NameHasher, A>,
}

impl<A: Allocator + Copy> Model for Asks<A> {
    ghost use Rattle.std.specs.Prelude.{List};
    ghost use Rattle.gclientrepo.specs.declared.ask.Ask.{Ask};
    ghost use Rattle.gclientrepo.specs.Asks.{NamesDiffer, asks_of};

    ghost Value = { List (Ask A) };

    ghost view = { λ it. asks_of it.aims.entries };

    ghost invariant = { λ it. NamesDiffer (asks_of {A = A} it.aims.entries) };
}

impl<A: Allocator + Copy> Asks<A> {
    /// Returns an empty list. Allocates nothing.
    pub fn new(alloc: A) -> Asks<A>
        ensures { result ≡ [] }
    {
        Asks {
            aims: IndexMap::with_hasher(alloc, BuildHasherDefault::new()),
        }
    }

    /// Returns the number of requested updates.
    pub fn len(&self) -> usize
        ensures count { result ≡ length self.now }
        ensures differ { NamesDiffer self.now }
    {
        self.aims.len()
    }

    /// Returns whether the list is empty.
    pub fn is_empty(&self) -> bool
        ensures { IsTrue result ↔ (self.now ≡ []) }
    {
        self.aims.is_empty()
    }

    /// Returns whether an update of the ref with this name is requested.
    pub fn is_asked(&self, name: &RefName<A>) -> bool
        ensures { result ≡ is_asked self.now name.now }
    {
        self.aims.contains_key(name)
    }

    /// Appends a requested update, unless the list already has an update of the same ref.
    ///
    /// Fails only if out of memory. A failed call leaves the list unchanged.
    pub fn add(&mut self, ask: Ask<A>) -> Result<(), AllocError>
        ensures ok { OnOk result (self.new ≡ with_ask self.old ask) }
        ensures err { OnErr result (self.new ≡ self.old) }
    {
        if self.is_asked(&ask.name) {
            return Ok(());
        }
        let aim = Aim {
            id: ask.id,
            forced: ask.forced,
        };
        self.aims.insert(ask.name, aim)?;
        Ok(())
    }

    /// Returns the ref name and the new id of the requested update at this index, or `None` if the
    /// index is out of range.
    pub fn at(&self, place: usize) -> Option<(&RefName<A>, Oid)>
        ensures { MatchOption result (length self.now ≤ place)
            (λ pair. IsAskAt self.now place pair.0.now pair.1) }
    {
        if place >= self.len() {
            return None;
        }
        let (name, aim) = self.aim(place);
        Some((name, aim.id))
    }

    /// Returns whether the requested update at this index is forced, or `None` if the index is out
    /// of range. A forced update moves its ref even if the move is not a fast-forward.
    pub fn is_forced(&self, place: usize) -> Option<bool>
        ensures { MatchOption result (length self.now ≤ place) (IsForcedAt self.now place) }
    {
        if place >= self.len() {
            return None;
        }
        let (_name, aim) = self.aim(place);
        Some(aim.forced)
    }

    /// Returns the new id of each requested update, in the order of the list.
    ///
    /// Fails only if out of memory.
    pub fn ids(&self, alloc: A) -> Result<Vec<Oid, A>, AllocError>
        ensures { IfOk result (λ ids. ids.items ≡ asked_ids self.now) }
    {
        ids_of(alloc, &self.aims)
    }

    /// Returns the allocator of the list.
    pub fn allocator(&self) -> A {
        *self.aims.allocator()
    }

    /// Returns the ref name of the requested update at this index, with the new id and the force
    /// flag.
    pub(crate) fn aim(&self, place: usize) -> (&RefName<A>, &Aim)
        requires { place < length self.now }
        ensures { slice_get self.now place ≡ Some (ask_of_aim (result.0.now, result.1.now)) }
    {
        self.aims.get_index(place).unwrap()
    }
}

// Returns the ids in the map, in the order of the map.
fn ids_of<A: Allocator + Copy>(
    alloc: A,
    aims: &IndexMap<RefName<A>, Aim, NameHasher, A>,
) -> Result<Vec<Oid, A>, AllocError>
    ensures { IfOk result (λ ids. ids.items ≡ map (λ aim. aim.id) (values aims.now)) }
{
    aims.values().map(|aim| aim.id).collect(alloc)
}

//! Refs: names below `refs/` with their ids.

ghost use Rattle.std.specs.Prelude.{◌≡◌, ◌≤◌, ◌↔◌, [], length, IsTrue, IsErrOf, OnOk, OnErr, IfOk, IfErr, IfSome, ◌⊎◌, ◌≢◌, None, is_ok, MatchOption, MatchResult, slice_get, ◌<◌, ◌++◌, ◌∷◌};
ghost use Rattle.std.specs.Map.{values_of};
ghost use Rattle.grefs.specs.RefLists.{AreBelow, CannotSet, IsBelowRefs, IsRefs, SetsRef, max_refs, ref_at};
ghost use Rattle.grefs.specs.steps.RefPlaces.{IsFound, IsGap};

use crate::fault::RefsFault;
use gname::laws::names_are_clean;
use gname::{Oid, RefName};
use std::alloc::{AllocError, Allocator, Global};
use std::marker::Model;

/// The maximum number of refs, not counting `HEAD`.
pub const MAX_REFS: usize = 65_536;

/// A list of refs: names below `refs/` with their ids, in the byte order of the names.
#[derive(Debug, Drop)]
pub struct Refs<A: Allocator + Copy = Global> {
    refs: Vec<(RefName<A>, Oid), A>,
}

impl<A: Allocator + Copy> Model for Refs<A> {
    ghost use Rattle.grefs.specs.RefLists.{RefList, IsRefs};

    ghost Value = { RefList };

    ghost view = { λ it. it.refs.items };

    ghost invariant = { λ it. IsRefs it.refs.items };
}

impl<A: Allocator + Copy> Refs<A> {
    /// Returns an empty list of refs. The call does not allocate.
    pub fn new(alloc: A) -> Refs<A>
        ensures { result ≡ [] }
    {
        Refs {
            refs: Vec::new(alloc),
        }
    }

    /// Returns the number of refs.
    pub fn len(&self) -> usize
        ensures count { result ≡ length self.now }
        ensures valid { IsRefs self.now }
    {
        self.refs.len()
    }

    /// Proves that the list has at most [`MAX_REFS`] refs, and that their names are below `refs/`
    /// and in strictly ascending byte order.
    pub fn laws(&self)
        ensures { IsRefs self.now }
    {
        let _ = &self.refs;
    }

    /// Returns whether the list has no refs.
    pub fn is_empty(&self) -> bool
        ensures { IsTrue result ↔ (self.now ≡ []) }
    {
        self.refs.is_empty()
    }

    /// Returns the ids of the refs, in the order of their names.
    ///
    /// Fails only if out of memory.
    pub fn ids(&self, alloc: A) -> Result<Vec<Oid, A>, AllocError>
        ensures { IfOk result (λ ids. ids.items ≡ values_of self.now) }
    {
        self.refs.iter().map(|reference| reference.1).collect(alloc)
    }

    /// Returns the refs in the byte order of their names.
    pub fn as_slice(&self) -> &[(RefName<A>, Oid)]
        ensures refs { result.now ≡ self.now }
        ensures valid { IsRefs self.now }
    {
        self.refs.as_slice()
    }

    /// Returns a copy of the refs. Fails only if out of memory.
    pub fn copy_in(&self, alloc: A) -> Result<Refs<A>, AllocError>
        ensures { IfOk result (λ refs. refs ≡ self.now) }
    {
        let refs = copy_refs(alloc, self.refs.as_slice())?;
        Ok(Refs { refs })
    }

    /// Returns the id of the ref with this name, or `None` if no ref has this name.
    pub fn get(&self, name: &RefName<A>) -> Option<Oid>
        ensures { result ≡ ref_at self.now name.now }
    {
        match place_of(self.refs.as_slice(), name) {
            Ok(place) => Some(self.refs[place].1),
            Err(_) => None,
        }
    }

    /// Returns the ref at a position in the order of the names, counted from 0, or `None` after the
    /// last ref.
    pub fn at(&self, place: usize) -> Option<(&RefName<A>, Oid)>
        ensures pair { MatchOption result (length self.now ≤ place) (λ pair.
            slice_get self.now place ≡ Some (pair.0.now, pair.1)) }
        ensures valid { IsRefs self.now }
    {
        let pair = self.refs.get(place)?;
        Some((&pair.0, pair.1))
    }

    /// Consumes the refs, and returns the name at a position in the order of the names, counted
    /// from 0. The call does not allocate.
    pub fn into_name(self, place: usize) -> RefName<A>
        requires { place < length self }
        ensures { IfSome (slice_get self place) (λ ref. result ≡ ref.0) }
    {
        let Refs { mut refs } = self;
        refs.swap_remove(place).0
    }

    /// Returns whether the bytes of `name` sort after the name of every ref.
    pub fn are_below(&self, name: &[u8]) -> bool
        ensures { IsTrue result ↔ AreBelow self.now name.now }
    {
        are_below(self.refs.as_slice(), name)
    }

    /// Appends a ref. Its name must be below `refs/` and sort after the names of all refs in the
    /// list. If memory runs out, the call fails and leaves the refs unchanged.
    pub fn push(&mut self, name: RefName<A>, id: Oid) -> Result<(), AllocError>
        requires name { IsBelowRefs name }
        requires above { AreBelow self.old name }
        requires room { length self.old < max_refs }
        ensures ok { OnOk result (self.new ≡ self.old ++ (name, id) ∷ []) }
        ensures err { OnErr result (self.new ≡ self.old) }
        ensures refs { IsRefs self.new }
    {
        self.refs.push((name, id))?;
        Ok(())
    }

    /// Sets the ref with this name to this id, or adds the ref if the name is new.
    ///
    /// Fails with `Refs` if the name is `HEAD`, or if the name is new and there are already
    /// `MAX_REFS` refs. Fails with `Memory` if out of memory. A failed call leaves the refs
    /// unchanged. Setting a name that already has a ref does not allocate.
    pub fn set(&mut self, name: RefName<A>, id: Oid) -> Result<(), RefsFault>
        ensures ok { OnOk result (SetsRef self.old self.new name id) }
        ensures held { ref_at self.old name ≢ None → IsTrue (is_ok result) }
        ensures refused { IsErrOf result RefsFault.Refs ↔ CannotSet self.old name }
        ensures faults { IfErr result (λ fault. (fault ≡ RefsFault.Refs)
            ⊎ (fault ≡ RefsFault.Memory)) }
        ensures err { OnErr result (self.new ≡ self.old) }
        ensures refs { IsRefs self.new }
    {
        // The proof uses this law.
        names_are_clean();
        let count = self.refs.len();
        if name.is_head() {
            return Err(RefsFault::Refs);
        }
        match place_of(self.refs.as_slice(), &name) {
            Ok(place) => {
                self.refs[place] = (name, id);
                Ok(())
            }
            Err(place) => {
                if count == MAX_REFS {
                    return Err(RefsFault::Refs);
                }
                self.refs.insert(place, (name, id))?;
                Ok(())
            }
        }
    }
}

/// Returns whether a name is below `refs/`. Every ref name except `HEAD` is below `refs/`.
pub fn is_below_refs<A: Allocator + Copy>(name: &RefName<A>) -> bool
    ensures { IsTrue result ↔ IsBelowRefs name.now }
{
    name.as_bytes().starts_with(b"refs/")
}

// Returns a copy of the refs.
fn copy_refs<A: Allocator + Copy>(
    alloc: A,
    refs: &[(RefName<A>, Oid)],
) -> Result<Vec<(RefName<A>, Oid), A>, AllocError>
    ensures { IfOk result (λ copies. copies.items ≡ refs.now) }
{
    let mut copies = Vec::new(alloc);
    for pair in refs {
        let name = pair.0.copy_in(alloc)?;
        copies.push((name, pair.1))?;
    }
    Ok(copies)
}

// Returns whether the bytes of `name` sort after the name of every ref.
fn are_below<A: Allocator + Copy>(refs: &[(RefName<A>, Oid)], name: &[u8]) -> bool
    requires { IsRefs refs.now }
    ensures { IsTrue result ↔ AreBelow refs.now name.now }
{
    match refs.last() {
        Some(last) => last.0.as_bytes().cmp(name).is_lt(),
        None => true,
    }
}

// Returns the position of the ref with this name. If no ref has the name, returns `Err` with the
// position at which to insert the ref.
fn place_of<A: Allocator + Copy>(
    refs: &[(RefName<A>, Oid)],
    name: &RefName<A>,
) -> Result<usize, usize>
    requires { IsRefs refs.now }
    ensures { MatchResult result (IsFound refs.now name.now) (IsGap refs.now name.now) }
{
    // Callers usually set refs in the order of their names, so most new names sort last.
    if are_below(refs, name.as_bytes()) {
        return Err(refs.len());
    }
    refs.binary_search_by(|pair| pair.0.cmp(name))
}

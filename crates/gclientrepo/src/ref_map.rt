//! A map of refs, for many updates.

ghost use Rattle.std.specs.Prelude.{◌≡◌, ◌<◌, IfOk, OnOk, length};
ghost use Rattle.grefs.specs.RefLists.{CannotSet, IsRefs, SetsRef, max_refs};

use ggraph::Refs;
use gname::laws::names_are_clean;
use gname::{Oid, RefName};
use grefs::laws::refs_come_in_order;
use std::alloc::{AllocError, Allocator};
use std::collections::BTreeMap;
use std::marker::Model;

/// A map of refs. An insertion into a sorted list would shift all later refs, but an insertion into
/// this map does not.
#[derive(Drop)]
pub(crate) struct RefMap<A: Allocator + Copy> {
    refs: BTreeMap<RefName<A>, Oid, A>,
}

impl<A: Allocator + Copy> Model for RefMap<A> {
    ghost use Rattle.grefs.specs.RefLists.{RefList, IsRefs};

    ghost Value = { RefList };

    ghost view = { λ it. it.refs.entries };

    ghost invariant = { λ it. IsRefs it.refs.entries };
}

impl<A: Allocator + Copy> RefMap<A> {
    /// Copies the refs into a map. Fails only if out of memory.
    pub(crate) fn copy_of(alloc: A, refs: &Refs<A>) -> Result<RefMap<A>, AllocError>
        ensures { IfOk result (λ copy. copy ≡ refs.now) }
    {
        let refs = tree_of(alloc, refs.as_slice())?;
        Ok(RefMap { refs })
    }

    /// Sets a ref to an id. Requires that the ref can be set. Fails only if out of memory.
    pub(crate) fn set(&mut self, name: RefName<A>, id: Oid) -> Result<(), AllocError>
        requires { ¬ (CannotSet self.old name) }
        ensures { OnOk result (SetsRef self.old self.new name id) }
    {
        // Laws that the proof uses.
        names_are_clean();
        name.laws();
        self.refs.insert(name, id)?;
        Ok(())
    }

    /// Returns the refs, in the order of their names. Fails only if out of memory.
    pub(crate) fn into_refs(self, alloc: A) -> Result<Refs<A>, AllocError>
        ensures refs { IfOk result (λ refs. refs ≡ self) }
        ensures valid { IfOk result IsRefs }
    {
        // Laws that the proof uses.
        refs_come_in_order();
        let mut refs = Refs::new(alloc);
        for (name, id) in self.refs {
            refs.push(name, id)?;
        }
        Ok(refs)
    }
}

// Returns the refs as a map. Fails only if out of memory.
fn tree_of<A: Allocator + Copy>(
    alloc: A,
    refs: &[(RefName<A>, Oid)],
) -> Result<BTreeMap<RefName<A>, Oid, A>, AllocError>
    requires { IsRefs refs.now }
    ensures { IfOk result (λ copies. copies.entries ≡ refs.now) }
{
    // Laws that the proof uses.
    refs_come_in_order();
    let mut copies = BTreeMap::new(alloc);
    for pair in refs {
        let name = pair.0.copy_in(alloc)?;
        copies.insert(name, pair.1)?;
    }
    Ok(copies)
}

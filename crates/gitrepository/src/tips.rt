//! The ids of a peer's refs.

ghost use Rattle.std.specs.Prelude.{◌≡◌};

use gname::Oid;
use std::alloc::{AllocError, Allocator};
use std::marker::Model;

/// The sorted ids of a peer's refs.
#[derive(Drop)]
pub struct Tips<A: Allocator + Copy> {
    ids: Vec<Oid, A>,
}

impl<A: Allocator + Copy> Model for Tips<A> {
    ghost use Rattle.std.specs.Prelude.{List};
    ghost use Rattle.gname.specs.Ids.{Id};

    ghost Value = { List Id };

    ghost view = { λ tips. tips.ids.items };
}

impl<A: Allocator + Copy> Tips<A> {
    /// Returns these ids as a sorted list. Fails only if out of memory.
    pub fn new(alloc: A, ids: &[Oid]) -> Result<Tips<A>, AllocError> {
        let mut ids = ids.to_vec(alloc)?;
        ids.sort_unstable();
        Ok(Tips { ids })
    }

    /// Returns whether a ref of the peer points to this id.
    pub fn contains(&self, id: &Oid) -> bool {
        self.ids.binary_search(id).is_ok()
    }

    /// Returns the sorted ids of the peer's refs.
    pub fn as_slice(&self) -> &[Oid]
        ensures { result.now ≡ self.now }
    {
        self.ids.as_slice()
    }
}

//! The bytes of a pack that arrives in pieces.

ghost use Rattle.std.specs.Prelude.{◌≡◌, ◌≤◌, ◌++◌, [], OnErr, OnOk, length};
ghost use Rattle.gname.specs.Limits.{max_pack};

use gname::MAX_PACK;
use gobject::IndexFault;
use std::alloc::Allocator;
use std::marker::Model;

/// The bytes of a pack so far, at most `gname::MAX_PACK`. Contracts treat a `MemoryFeed` as the
/// list of these bytes.
#[derive(Drop)]
pub struct MemoryFeed<A: Allocator + Copy> {
    alloc: A,
    bytes: Vec<u8, A>,
}

impl<A: Allocator + Copy> Model for MemoryFeed<A> {
    ghost use Rattle.std.specs.Prelude.{◌≤◌, ℕ, List, length};
    ghost use Rattle.gname.specs.Limits.{max_pack};

    ghost Value = { List ℕ };

    ghost view = { λ feed. feed.bytes.items };

    ghost invariant = { λ feed. length feed.bytes.items ≤ max_pack };
}

impl<A: Allocator + Copy> MemoryFeed<A> {
    /// Returns a feed without bytes, which uses no memory.
    pub(crate) fn new(alloc: A) -> MemoryFeed<A>
        ensures { result ≡ [] }
    {
        MemoryFeed {
            alloc,
            bytes: Vec::new(alloc),
        }
    }

    /// Proves that there are at most `gname::MAX_PACK` bytes.
    pub fn laws(&self)
        ensures { length self.now ≤ max_pack }
    {
        let _bytes = &self.bytes;
    }

    /// Returns the allocator of the bytes.
    pub(crate) fn allocator(&self) -> A {
        self.alloc
    }

    /// Returns the bytes so far, in order.
    pub fn as_slice(&self) -> &[u8]
        ensures { result.now ≡ self.now }
    {
        self.bytes.as_slice()
    }

    /// Appends the next bytes of the pack.
    ///
    /// Fails with `Other` if the pack would have more than `gname::MAX_PACK` bytes, or with
    /// `Memory` if out of memory. After a fault the feed is unchanged.
    pub(crate) fn push(&mut self, piece: &[u8]) -> Result<(), IndexFault>
        ensures ok { OnOk result (self.new ≡ self.old ++ piece.now) }
        ensures err { OnErr result (self.new ≡ self.old) }
    {
        if piece.len() > MAX_PACK - self.bytes.len() {
            return Err(IndexFault::Other);
        }
        self.bytes.extend_from_slice(piece)?;
        Ok(())
    }
}

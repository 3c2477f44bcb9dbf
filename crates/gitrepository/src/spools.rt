//! Spools of received packs, in memory or in files.

ghost use Rattle.std.specs.Prelude.{◌≡◌, []};

use crate::stored_spool::StoredSpool;
use gitpack::Spool;
use std::alloc::Allocator;
use std::fs::Files;

/// A type that opens spools. A spool stores the bytes of a received pack.
pub trait PackSpools {
    /// The spool of a pack.
    type Spool: Spool + Drop;

    /// Returns an empty spool.
    fn open(&self) -> Self::Spool
        ensures { Self.Spool.bytes result ≡ [] };
}

/// Spools in memory. Each received pack is stored in a vector.
#[derive(Clone, Copy, Drop)]
pub struct MemorySpools<A: Allocator + Copy> {
    alloc: A,
}

/// Spools in the folder of packs of a Git directory. Each received pack is stored in a temporary
/// file.
#[derive(Clone, Copy, Drop)]
pub struct StoredSpools<'r, R: Files, A: Allocator + Copy> {
    alloc: A,
    files: &'r R,
    git_dir: &'r str,
}

impl<A: Allocator + Copy> MemorySpools<A> {
    /// Returns a `MemorySpools` whose spools use this allocator.
    pub fn new(alloc: A) -> MemorySpools<A> {
        MemorySpools { alloc }
    }
}

impl<'r, R: Files, A: Allocator + Copy> StoredSpools<'r, R, A> {
    /// Returns a `StoredSpools` for the folder of packs of this Git directory.
    pub fn new(alloc: A, files: &'r R, git_dir: &'r str) -> StoredSpools<'r, R, A> {
        StoredSpools {
            alloc,
            files,
            git_dir,
        }
    }
}

impl<A: Allocator + Copy> PackSpools for MemorySpools<A> {
    type Spool = Vec<u8, A>;

    fn open(&self) -> Vec<u8, A> {
        Vec::new(self.alloc)
    }
}

impl<'r, R: Files, A: Allocator + Copy> PackSpools for StoredSpools<'r, R, A> {
    type Spool = StoredSpool<'r, R, A>;

    fn open(&self) -> StoredSpool<'r, R, A> {
        StoredSpool::new(self.alloc, self.files, self.git_dir)
    }
}

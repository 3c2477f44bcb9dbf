//! A folder of packs in memory.

ghost use Rattle.std.specs.Prelude.{◌≡◌, [], Some, map};
ghost use Rattle.gitrepository.specs.MemoryFolders.{file_of};
ghost use Rattle.gitrepository.specs.declared.folder.PackFileStage.TheVariants.{Start};

use crate::folder::{PackFileStage, PackFolder};
use std::alloc::{AllocError, Allocator};
use std::marker::Model;
use std::mem;

/// A file of a pack: the pack itself or its index.
#[derive(Debug, Drop)]
pub enum PackFile<A: Allocator + Copy> {
    /// The pack.
    Pack(Vec<u8, A>),
    /// The index of the pack.
    Index(Vec<u8, A>),
}

/// A folder of packs in memory, for tests. The folder keeps every received file, in order. Calls
/// fail only if out of memory.
#[derive(Drop)]
pub struct MemoryFolder<A: Allocator + Copy> {
    alloc: A,
    arrivals: Vec<PackFile<A>, A>,
    pack: Vec<u8, A>,
    index: Vec<u8, A>,
    stage: PackFileStage,
}

impl<A: Allocator + Copy> Model for MemoryFolder<A> {
    ghost use Rattle.std.specs.Prelude.{map};
    ghost use Rattle.gitrepository.specs.MemoryFolders.{Held, file_of};

    ghost Value = { Held };

    ghost view = { λ f. record {
      folder = record {
        arrivals = map file_of f.arrivals.items;
        pack = f.pack.items;
        index = f.index.items;
      };
      stage = f.stage;
    } };
}

impl<A: Allocator + Copy> MemoryFolder<A> {
    /// Returns an empty folder.
    pub fn new(alloc: A) -> MemoryFolder<A>
        ensures stage { result.stage ≡ Start }
        ensures arrivals { result.folder.arrivals ≡ [] }
    {
        MemoryFolder {
            alloc,
            arrivals: Vec::new(alloc),
            pack: Vec::new(alloc),
            index: Vec::new(alloc),
            stage: PackFileStage::Start,
        }
    }

    /// Returns all received files, in order.
    pub fn arrivals(&self) -> &[PackFile<A>]
        ensures { map file_of result.now ≡ self.now.folder.arrivals }
    {
        self.arrivals.as_slice()
    }
}

impl<A: Allocator + Copy> PackFolder for MemoryFolder<A> {
    type Fault = AllocError;

    type Pack = Vec<u8, A>;

    ghost known = { λ f. Some f.folder };

    ghost stage = { λ f. f.stage };

    fn take_pack(&mut self, pack: Vec<u8, A>) -> Result<(), AllocError> {
        self.pack = pack;
        self.stage = PackFileStage::PackWritten;
        Ok(())
    }

    fn sync_pack(&mut self) -> Result<(), AllocError> {
        self.stage = PackFileStage::PackSynced;
        Ok(())
    }

    fn write_index(&mut self, bytes: &[u8]) -> Result<(), AllocError> {
        self.stage = PackFileStage::Failed;
        self.index = bytes.to_vec(self.alloc)?;
        self.stage = PackFileStage::IndexWritten;
        Ok(())
    }

    fn sync_index(&mut self) -> Result<(), AllocError> {
        self.stage = PackFileStage::Ready;
        Ok(())
    }

    fn name_pack(&mut self) -> Result<(), AllocError> {
        self.stage = PackFileStage::Failed;
        let bytes = mem::replace(&mut self.pack, Vec::new(self.alloc));
        self.arrivals.push(PackFile::Pack(bytes))?;
        self.stage = PackFileStage::PackNamed;
        Ok(())
    }

    fn name_index(&mut self) -> Result<(), AllocError> {
        self.stage = PackFileStage::Failed;
        let bytes = mem::replace(&mut self.index, Vec::new(self.alloc));
        self.arrivals.push(PackFile::Index(bytes))?;
        self.stage = PackFileStage::Done;
        Ok(())
    }

    fn clean(&mut self) {
        self.pack = Vec::new(self.alloc);
        self.index = Vec::new(self.alloc);
        self.stage = PackFileStage::Start;
    }
}

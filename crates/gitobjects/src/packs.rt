//! The packs of a store.

use crate::alternates::Folder;
use crate::cache::Spot;
use crate::entry::RawEntry;
use crate::fault::{Cause, FileFault, StoreFault, fault_at};
use crate::files::{FolderTime, ObjectFiles, OpenPack};
use crate::listing::index_stems;
use crate::pack::{LocalForm, PackFile, open_pack};
use crate::paths::pack_path;
use crate::window::Window;
use std::alloc::Allocator;

/// The open packs, indexed by number.
#[derive(Drop)]
pub(crate) struct Packs<P: OpenPack + Drop, A: Allocator + Copy> {
    alloc: A,
    open: Vec<PackFile<A>, A>,
    window: Window<P, A>,
}

impl<P: OpenPack + Drop, A: Allocator + Copy> Packs<P, A> {
    /// Returns an empty collection of packs.
    pub(crate) fn new(alloc: A) -> Packs<P, A> {
        Packs {
            alloc,
            open: Vec::new(alloc),
            window: Window::new(alloc),
        }
    }

    /// Lists a pack folder and opens its new packs, unless the folder was listed twice since the
    /// names in it last changed. Returns whether the folder was listed. A pack that cannot be
    /// opened is left out, and its fault is recorded in `folder.left_out`. If the cause of such a
    /// fault is temporary, the listing does not count, so the next call lists the folder again.
    ///
    /// Fails only if out of memory.
    pub(crate) fn list<F: ObjectFiles<Pack = P>>(
        &mut self,
        files: &F,
        folder: &mut Folder<A>,
    ) -> Result<bool, StoreFault<A>> {
        let change_time = time_of(files, folder.pack_folder.as_str())?;
        if !folder.listed.is_stale(change_time) {
            return Ok(false);
        }
        folder.left_out = self.add_packs(files, folder.pack_folder.as_str())?;
        if !has_temporary_fault(folder.left_out.as_slice()) {
            folder.listed = folder.listed.again(change_time);
        }
        Ok(true)
    }

    // Opens the packs of a folder that are not open yet. Returns the faults of the packs that are
    // left out.
    fn add_packs<F: ObjectFiles<Pack = P>>(
        &mut self,
        files: &F,
        folder: &str,
    ) -> Result<Vec<FileFault<A>, A>, StoreFault<A>> {
        let mut left_out = Vec::new(self.alloc);
        match stems_in(files, self.alloc, folder) {
            Ok(stems) => {
                for stem in &stems {
                    keep_fault(&mut left_out, self.add_pack(files, folder, stem.as_str()))?;
                }
            }
            Err(cause) => keep_fault(&mut left_out, Err(fault_at(self.alloc, folder, cause)))?,
        }
        Ok(left_out)
    }

    // Opens a pack, if it is not open yet.
    fn add_pack<F: ObjectFiles<Pack = P>>(
        &mut self,
        files: &F,
        folder: &str,
        stem: &str,
    ) -> Result<(), StoreFault<A>> {
        let path = pack_path(self.alloc, folder, stem, ".pack")?;
        if self.is_open(path.as_str()) {
            return Ok(());
        }
        if let Some(pack) = open_pack(files, self.alloc, &mut self.window, folder, stem)? {
            self.open.push(pack)?;
        }
        Ok(())
    }

    fn is_open(&self, path: &str) -> bool {
        self.open.iter().any(|pack| pack.path() == path)
    }

    /// Returns the number of open packs.
    pub(crate) fn len(&self) -> usize {
        self.open.len()
    }

    /// Returns the pack with this number, or `None` if there is no such pack.
    pub(crate) fn get(&self, pack: usize) -> Option<&PackFile<A>> {
        self.open.get(pack)
    }

    /// Returns the unchanged entry at this index position of a pack, or `None` if there is no such
    /// pack or position. Fails for the same reasons as [`PackFile::raw_entry`] does.
    pub(crate) fn raw_entry(
        &mut self,
        pack: usize,
        place: usize,
    ) -> Result<Option<RawEntry<A>>, Cause> {
        match self.open.get(pack) {
            Some(file) => file.raw_entry(&mut self.window, place),
            None => Ok(None),
        }
    }

    /// Returns all bytes of the entry at this location. Fails with `Base` if no entry begins at the
    /// offset of the location.
    pub(crate) fn bytes_at(&mut self, spot: Spot) -> Result<Vec<u8, A>, Cause> {
        match self.open.get(spot.pack) {
            Some(file) => file.bytes_at(&mut self.window, spot.start),
            None => Err(Cause::Base),
        }
    }

    /// Returns the form of the entry at this location. Fails with `Base` if no entry begins at the
    /// offset of the location.
    pub(crate) fn form_at(&mut self, spot: Spot) -> Result<LocalForm, Cause> {
        match self.open.get(spot.pack) {
            Some(file) => file.form_at(&mut self.window, spot.start),
            None => Err(Cause::Base),
        }
    }
}

// Returns the time of the last change of the names in a pack folder, or `None` if the folder is
// missing or the system does not return the time.
fn time_of<F: ObjectFiles, A: Allocator + Copy>(
    files: &F,
    folder: &str,
) -> Result<Option<FolderTime>, StoreFault<A>> {
    match files.change_time(folder) {
        Ok(time) => Ok(time),
        Err(Cause::Memory) => Err(StoreFault::Memory),
        Err(_) => Ok(None),
    }
}

// Returns the names of the packs whose index is in a folder.
fn stems_in<F: ObjectFiles, A: Allocator + Copy>(
    files: &F,
    alloc: A,
    folder: &str,
) -> Result<Vec<String<A>, A>, Cause> {
    let names = files.list(alloc, folder)?;
    index_stems(alloc, names.as_slice())
}

// Returns whether a file could not be opened or read, or a folder could not be listed, for a reason
// that can pass.
fn has_temporary_fault<A: Allocator + Copy>(faults: &[FileFault<A>]) -> bool {
    faults.iter().any(|fault| fault.cause.is_temporary())
}

// If `outcome` is the fault of a file, adds the fault to `faults` and returns `Ok`. Returns any
// other outcome unchanged.
fn keep_fault<A: Allocator + Copy>(
    faults: &mut Vec<FileFault<A>, A>,
    outcome: Result<(), StoreFault<A>>,
) -> Result<(), StoreFault<A>> {
    match outcome {
        Err(StoreFault::File(fault)) => {
            faults.push(fault)?;
            Ok(())
        }
        other => other,
    }
}

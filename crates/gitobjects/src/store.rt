//! The objects of a Git directory and of its alternates.

use crate::alternates::{Folder, object_folders};
use crate::cache::Spot;
use crate::entry::{Inflated, RawEntry, inflate_entry};
use crate::fault::{Cause, FileFault, FirstFault, StoreFault, fault_at};
use crate::files::ObjectFiles;
use crate::limits::{MAX_FRONT, MAX_STREAM};
use crate::loose_folders::LooseFolders;
use crate::object::{Object, loose_kind, read_loose};
use crate::order::Start;
use crate::pack::LocalForm;
use crate::packs::Packs;
use crate::paths::{join, loose_folder, loose_path};
use gitobject::ObjectType;
use gitpack::PackIndex;
use gname::Oid;
use gzlib::Inflater;
use std::alloc::Allocator;
use std::cell::Cell;

/// The location of an object.
#[derive(Clone, Copy, Debug, PartialEq, Eq)]
pub enum Found {
    /// The object is in the pack with number `pack`, at position `place` of the pack index.
    Packed { pack: usize, place: usize },
    /// The object is loose in one of the object folders.
    Loose,
}

/// The objects of a Git directory and of its alternates. All packs of a store are open. The number
/// of a pack does not change.
#[derive(Drop)]
pub struct ObjectStore<'f, F: ObjectFiles, A: Allocator + Copy> {
    files: &'f F,
    alloc: A,
    // The path of the repository's own object folder.
    own: String<A>,
    // The repository's own object folder, and its alternates.
    folders: Vec<Folder<A>, A>,
    packs: Packs<F::Pack, A>,
    // The number of the pack in which an object was found most recently.
    recent: Cell<usize>,
}

impl<'f, F: ObjectFiles, A: Allocator + Copy> ObjectStore<'f, F, A> {
    /// Opens all packs of the Git directory with this path, without reading objects. As in Git, a
    /// pack or an alternate that cannot be opened or used is left out: see
    /// [`ObjectStore::left_out`].
    ///
    /// Fails with `Memory`, or with a fault that names the missing object folder, the unusable
    /// alternates file, or an alternate with a temporary fault.
    pub fn open(
        files: &'f F,
        alloc: A,
        git_dir: &str,
    ) -> Result<ObjectStore<'f, F, A>, StoreFault<A>> {
        let own = join(alloc, git_dir, "objects")?;
        let mut store = ObjectStore {
            files,
            alloc,
            own,
            folders: Vec::new(alloc),
            packs: Packs::new(alloc),
            recent: Cell::new(0),
        };
        store.reload()?;
        Ok(store)
    }

    /// Looks for alternates and packs that were added since the store was opened or reloaded. Open
    /// packs stay open.
    ///
    /// Fails for the same reasons as `open`. After a fault the store still has all its packs.
    pub fn reload(&mut self) -> Result<(), StoreFault<A>> {
        self.folders = object_folders(self.files, self.alloc, self.own.as_str())?;
        self.list_stale()?;
        Ok(())
    }

    /// Lists each pack folder that was listed fewer than twice since the names in it last changed.
    /// Returns whether a folder was listed. A listing does not count if a fault of it can pass.
    ///
    /// Fails only if out of memory.
    pub(crate) fn list_stale(&mut self) -> Result<bool, StoreFault<A>> {
        let mut is_listed = false;
        for folder in self.folders.iter_mut() {
            if self.packs.list(self.files, folder)? {
                is_listed = true;
            }
        }
        Ok(is_listed)
    }

    /// Returns the fault of the first pack, pack folder or alternate that was left out, or `None`
    /// if nothing was left out.
    pub fn left_out(&self) -> Option<&FileFault<A>> {
        for folder in &self.folders {
            if let Some(fault) = folder.first_fault() {
                return Some(fault);
            }
        }
        None
    }

    /// Returns the fault for a missing object: the fault of the first pack, pack folder or
    /// alternate that was left out, or `Missing` if nothing was left out.
    pub(crate) fn missing(&self, id: &Oid) -> StoreFault<A> {
        match self.left_out() {
            Some(fault) => fault_at(self.alloc, fault.path.as_str(), fault.cause),
            None => StoreFault::Missing(*id),
        }
    }

    /// Returns the allocator.
    pub fn allocator(&self) -> A {
        self.alloc
    }

    /// Returns the number of open packs.
    pub fn pack_count(&self) -> usize {
        self.packs.len()
    }

    /// Returns the index of a pack, or `None` if there is no pack with this number.
    pub fn index(&self, pack: usize) -> Option<&PackIndex<A>> {
        match self.packs.get(pack) {
            Some(file) => Some(file.index()),
            None => None,
        }
    }

    /// Returns the entries of a pack in pack order, or no entries if there is no pack with this
    /// number.
    pub fn starts(&self, pack: usize) -> &[Start] {
        match self.packs.get(pack) {
            Some(file) => file.starts(),
            None => &[],
        }
    }

    /// Returns the location of the object with this id, or `None` if the object is missing. The pack
    /// in which an object was found most recently is searched first, as in Git, then the other
    /// packs, and then the loose objects. Folders are not listed again.
    ///
    /// Fails with `File` if the object is not found and a folder is unreadable. Fails with `Memory`
    /// if out of memory.
    pub fn find(&self, id: &Oid) -> Result<Option<Found>, StoreFault<A>> {
        match self.find_packed(id) {
            Some(found) => Ok(Some(found)),
            None => self.find_loose(id),
        }
    }

    // Returns the location of a loose object, or `None` if the object is not loose.
    fn find_loose(&self, id: &Oid) -> Result<Option<Found>, StoreFault<A>> {
        let mut faults = FirstFault::new();
        for folder in &self.folders {
            match self.has_loose(folder.path.as_str(), id) {
                Ok(true) => return Ok(Some(Found::Loose)),
                Ok(false) => {}
                Err(fault) => faults.note(fault)?,
            }
        }
        faults.finish()?;
        Ok(None)
    }

    /// Returns the location of the object with this id, as [`ObjectStore::find`] does. `folders`
    /// records whether each folder of loose objects existed at its first look-up. No loose object
    /// is looked up in a folder that is recorded as missing.
    pub fn find_in(
        &self,
        id: &Oid,
        folders: &mut LooseFolders,
    ) -> Result<Option<Found>, StoreFault<A>> {
        if let Some(found) = self.find_packed(id) {
            return Ok(Some(found));
        }
        if self.has_folder(id, folders)? {
            self.find_loose(id)
        } else {
            Ok(None)
        }
    }

    // Returns whether any object folder had a two-digit folder for this id when that two-digit
    // folder was first looked up. A folder that cannot be looked up counts as existing.
    fn has_folder(&self, id: &Oid, folders: &mut LooseFolders) -> Result<bool, StoreFault<A>> {
        if let Some(is_there) = folders.get(id) {
            return Ok(is_there);
        }
        let is_there = self.look_for_folder(id)?;
        folders.note(id, is_there);
        Ok(is_there)
    }

    fn look_for_folder(&self, id: &Oid) -> Result<bool, StoreFault<A>> {
        for folder in &self.folders {
            let path = match loose_folder(self.alloc, folder.path.as_str(), id) {
                Ok(path) => path,
                Err(cause) => return Err(fault_at(self.alloc, folder.path.as_str(), cause)),
            };
            match self.files.exists(path.as_str()) {
                Ok(false) => {}
                Ok(true) | Err(_) => return Ok(true),
            }
        }
        Ok(false)
    }

    // Returns the location of the object in the most recently used pack or, if that pack lacks the
    // object, in the first pack that contains it. Returns `None` if no pack contains the object.
    fn find_packed(&self, id: &Oid) -> Option<Found> {
        let recent = self.recent.get();
        if let Some(place) = self.place_in(recent, id) {
            return Some(Found::Packed {
                pack: recent,
                place,
            });
        }
        for pack in 0..self.packs.len() {
            if let Some(place) = self.place_in(pack, id) {
                self.recent.set(pack);
                return Some(Found::Packed { pack, place });
            }
        }
        None
    }

    /// Returns the number of the pack in which an object was found most recently. There may be no
    /// such pack.
    pub(crate) fn recent_pack(&self) -> usize {
        self.recent.get()
    }

    /// Records that an object was found in the pack with this number.
    pub(crate) fn note_recent_pack(&self, pack: usize) {
        self.recent.set(pack);
    }

    // Returns the position of the object in the index of a pack, or `None` if there is no such pack
    // or the pack has no such object.
    fn place_in(&self, pack: usize, id: &Oid) -> Option<usize> {
        self.packs.get(pack)?.index().find(id)
    }

    fn has_loose(&self, folder: &str, id: &Oid) -> Result<bool, StoreFault<A>> {
        let path = match loose_path(self.alloc, folder, id) {
            Ok(path) => path,
            Err(cause) => return Err(fault_at(self.alloc, folder, cause)),
        };
        match self.files.exists(path.as_str()) {
            Ok(is_there) => Ok(is_there),
            Err(cause) => Err(fault_at(self.alloc, path.as_str(), cause)),
        }
    }

    /// Returns the unchanged entry at this index position of a pack, or `None` if there is no such
    /// pack or position.
    ///
    /// Fails with `Memory`, or with a fault that names the pack and the cause. The cause is `Crc`
    /// if the CRC-32 of the entry does not match the index.
    pub fn raw_entry(
        &mut self,
        pack: usize,
        place: usize,
    ) -> Result<Option<RawEntry<A>>, StoreFault<A>> {
        match self.packs.raw_entry(pack, place) {
            Ok(entry) => Ok(entry),
            Err(cause) => Err(self.fault_in(pack, cause)),
        }
    }

    /// Returns the offset of the entry at this index position of a pack, or `None` if there is no
    /// such pack or position.
    pub(crate) fn start_of(&self, pack: usize, place: usize) -> Option<usize> {
        self.packs.get(pack)?.start_of(place)
    }

    /// Returns the offset of the entry of the object with this id in a pack, or `None` if the pack
    /// has no such object.
    pub(crate) fn start_in(&self, pack: usize, id: &Oid) -> Option<usize> {
        self.packs.get(pack)?.start_of_id(id)
    }

    /// Returns the id of the object whose entry is at this location, or `None` if no entry begins
    /// at this location.
    pub(crate) fn id_at(&self, spot: Spot) -> Option<Oid> {
        self.packs.get(spot.pack)?.id_at(spot.start)
    }

    /// Reads and inflates the entry at this location.
    pub(crate) fn inflate_at(
        &mut self,
        spot: Spot,
        inflater: &mut Inflater,
    ) -> Result<Inflated<A>, Cause> {
        let bytes = self.packs.bytes_at(spot)?;
        inflate_entry(self.alloc, inflater, bytes.as_slice())
    }

    /// Returns the form of the entry at this location.
    pub(crate) fn form_at(&mut self, spot: Spot) -> Result<LocalForm, Cause> {
        self.packs.form_at(spot)
    }

    /// Returns the number of objects in a pack, or 0 if there is no such pack.
    pub(crate) fn object_count(&self, pack: usize) -> usize {
        match self.packs.get(pack) {
            Some(file) => file.index().len(),
            None => 0,
        }
    }

    /// Returns a fault that names the pack with this number.
    pub(crate) fn fault_in(&self, pack: usize, cause: Cause) -> StoreFault<A> {
        match self.packs.get(pack) {
            Some(file) => fault_at(self.alloc, file.path(), cause),
            None => fault_at(self.alloc, self.own.as_str(), cause),
        }
    }

    /// Returns a fault that names the first pack that contains the object with this id. If no pack
    /// contains the object, the fault names the first file of the loose object.
    pub(crate) fn fault_of(&self, id: &Oid, cause: Cause) -> StoreFault<A> {
        if let Some(Found::Packed { pack, .. }) = self.find_packed(id) {
            return self.fault_in(pack, cause);
        }
        for folder in &self.folders {
            let path = folder.path.as_str();
            if let Ok(true) = self.has_loose(path, id) {
                return self.fault_at_loose(path, id, cause);
            }
        }
        fault_at(self.alloc, self.own.as_str(), cause)
    }

    // Returns a fault that names the path of a loose object in a folder.
    fn fault_at_loose(&self, folder: &str, id: &Oid, cause: Cause) -> StoreFault<A> {
        match loose_path(self.alloc, folder, id) {
            Ok(path) => fault_at(self.alloc, path.as_str(), cause),
            Err(_) => fault_at(self.alloc, folder, cause),
        }
    }

    /// Returns the loose object with this id, or `None` if no folder has the object.
    ///
    /// Fails with `Memory` if out of memory. If there are copies but no intact copy, the fault
    /// names the file of the first copy.
    pub(crate) fn read_loose(
        &self,
        id: &Oid,
        inflater: &mut Inflater,
    ) -> Result<Option<Object<A>>, StoreFault<A>> {
        let mut faults = FirstFault::new();
        for folder in &self.folders {
            match self.read_loose_in(folder.path.as_str(), id, inflater) {
                Ok(Some(object)) => return Ok(Some(object)),
                Ok(None) => {}
                Err(fault) => faults.note(fault)?,
            }
        }
        faults.finish()?;
        Ok(None)
    }

    fn read_loose_in(
        &self,
        folder: &str,
        id: &Oid,
        inflater: &mut Inflater,
    ) -> Result<Option<Object<A>>, StoreFault<A>> {
        let path = match loose_path(self.alloc, folder, id) {
            Ok(path) => path,
            Err(cause) => return Err(fault_at(self.alloc, folder, cause)),
        };
        match read_loose_file(self.files, self.alloc, path.as_str(), inflater) {
            Ok(object) => Ok(object),
            Err(cause) => Err(fault_at(self.alloc, path.as_str(), cause)),
        }
    }

    /// Returns the type of the loose object with this id, from the start of its file. Returns
    /// `None` if no file determines the type.
    ///
    /// Fails only with `Memory`.
    pub(crate) fn kind_of_loose(
        &self,
        id: &Oid,
        inflater: &mut Inflater,
    ) -> Result<Option<ObjectType>, Cause> {
        for folder in &self.folders {
            let path = loose_path(self.alloc, folder.path.as_str(), id)?;
            match read_kind(self.files, self.alloc, path.as_str(), inflater) {
                Ok(Some(kind)) => return Ok(Some(kind)),
                Err(Cause::Memory) => return Err(Cause::Memory),
                Ok(None) | Err(_) => {}
            }
        }
        Ok(None)
    }
}

/// Returns the loose object in a file, or `None` if there is no such file.
pub(crate) fn read_loose_file<F: ObjectFiles, A: Allocator + Copy>(
    files: &F,
    alloc: A,
    path: &str,
    inflater: &mut Inflater,
) -> Result<Option<Object<A>>, Cause> {
    match files.read(alloc, path, MAX_STREAM)? {
        Some(stream) => Ok(Some(read_loose(alloc, inflater, stream.as_slice())?)),
        None => Ok(None),
    }
}

/// Returns the type of the loose object in a file. Returns `None` if there is no such file, or if
/// the start of the file does not determine the type.
pub(crate) fn read_kind<F: ObjectFiles, A: Allocator + Copy>(
    files: &F,
    alloc: A,
    path: &str,
    inflater: &mut Inflater,
) -> Result<Option<ObjectType>, Cause> {
    match files.read_front(alloc, path, MAX_FRONT)? {
        Some(front) => loose_kind(alloc, inflater, front.as_slice()),
        None => Ok(None),
    }
}

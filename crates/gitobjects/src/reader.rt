//! Reading objects.

ghost use Rattle.std.specs.Prelude.{◌≡◌, IfOk};
ghost use Rattle.gitobject.specs.Naming.{id_of};

use crate::cache::{BaseCache, Spot};
use crate::entry::RawEntry;
use crate::fault::{Cause, FirstFault, StoreFault};
use crate::files::ObjectFiles;
use crate::object::Object;
use crate::store::{Found, ObjectStore};
use gitobject::ObjectType;
use gname::Oid;
use gzlib::Inflater;
use std::alloc::{AllocError, Allocator};

/// A reader of the objects of a store. The reader caches some delta bases.
///
/// A call that does not find an object lists the packs again, because Git may have packed the
/// object meanwhile. A pack folder is listed at most twice after each change of the names in it,
/// even if many objects are not found. A listing does not count if a fault of it can pass,
/// so each such call then lists the folder once. [`ObjectReader::refresh`] lists all folders.
#[derive(Drop)]
pub struct ObjectReader<'f, F: ObjectFiles, A: Allocator + Copy> {
    pub(crate) store: ObjectStore<'f, F, A>,
    pub(crate) inflater: Box<Inflater, A>,
    pub(crate) cache: BaseCache<A>,
}

impl<'f, F: ObjectFiles, A: Allocator + Copy> ObjectReader<'f, F, A> {
    /// Returns a reader of a store. Fails only if out of memory.
    pub fn new(store: ObjectStore<'f, F, A>) -> Result<ObjectReader<'f, F, A>, AllocError> {
        let cache = BaseCache::new(store.allocator())?;
        let inflater = Box::new(store.allocator(), Inflater::new())?;
        Ok(ObjectReader {
            store,
            inflater,
            cache,
        })
    }

    /// Returns the store.
    pub fn store(&self) -> &ObjectStore<'f, F, A> {
        &self.store
    }

    /// Lists all folders again to find new alternates and packs, even in folders that seem
    /// unchanged.
    ///
    /// Fails for the same reasons as [`ObjectStore::open`]. After a fault the reader still has all
    /// its packs.
    pub fn refresh(&mut self) -> Result<(), StoreFault<A>> {
        self.store.reload()
    }

    /// Returns the location of the object with this id, or `None` if the object is missing.
    ///
    /// Fails with `File` if the object is not found and a folder is unreadable. Fails with `Memory`
    /// if out of memory. A pack that was left out does not make this call fail.
    pub fn find(&mut self, id: &Oid) -> Result<Option<Found>, StoreFault<A>> {
        if let Some(found) = self.store.find(id)? {
            return Ok(Some(found));
        }
        if self.store.list_stale()? {
            return self.store.find(id);
        }
        Ok(None)
    }

    /// Returns the object with this id, trusting the files. The id of the object is not computed,
    /// unlike in [`ObjectReader::read_checked`]. If one copy of the object is broken, other copies
    /// are tried, as in Git.
    ///
    /// Fails with `Missing` if the object is missing and no pack was left out. If the object is
    /// missing and packs were left out, the fault names the first such pack and the cause. If every
    /// copy is broken, the fault names the first copy and the cause. Fails with `Memory` if out of
    /// memory. The reader can be used again after any fault.
    pub fn read(&mut self, id: &Oid) -> Result<Object<A>, StoreFault<A>> {
        let first = match self.read_listed(id) {
            Ok(Some(object)) => return Ok(object),
            Err(StoreFault::Memory) => return Err(StoreFault::Memory),
            other => other,
        };
        let last = if self.store.list_stale()? {
            self.read_listed(id)
        } else {
            first
        };
        match last? {
            Some(object) => Ok(object),
            None => Err(self.store.missing(id)),
        }
    }

    /// Returns the object with this id. The id of the object is computed and checked.
    ///
    /// Fails for the same reasons as [`ObjectReader::read`], and with the cause `Id` if the
    /// computed id differs from this id.
    pub fn read_checked(&mut self, id: &Oid) -> Result<Object<A>, StoreFault<A>>
        ensures { IfOk result (λ object. id_of object.kind object.body.items ≡ id.now) }
    {
        let object = self.read(id)?;
        if object.has_id(id) {
            Ok(object)
        } else {
            Err(self.store.fault_of(id, Cause::Id))
        }
    }

    /// Returns the type of the object with this id. The type is read from the entry headers of the
    /// delta chain, or from the start of a loose object. If these bytes do not determine the type,
    /// the whole object is read.
    ///
    /// Fails for the same reasons as [`ObjectReader::read`]. The call can succeed even if the body
    /// of the object is broken.
    pub fn kind_of(&mut self, id: &Oid) -> Result<ObjectType, StoreFault<A>> {
        match self.kind_listed(id) {
            Ok(Some(kind)) => Ok(kind),
            Err(Cause::Memory) => Err(StoreFault::Memory),
            _ => Ok(self.read(id)?.kind),
        }
    }

    /// Returns the unchanged entry at this index position of a pack, or `None` if there is no such
    /// pack or position. If the entry is broken, no other copy is tried.
    ///
    /// Fails with `Memory`, or with a fault that names the pack and the cause. The cause is `Crc`
    /// if the CRC-32 of the entry does not match the index.
    pub fn raw_entry(
        &mut self,
        pack: usize,
        place: usize,
    ) -> Result<Option<RawEntry<A>>, StoreFault<A>> {
        self.store.raw_entry(pack, place)
    }

    /// Returns the object at this location, or `None` if the object no longer exists. If the copy
    /// at this location is broken, other copies are tried.
    ///
    /// Fails with `Memory` if out of memory. If every copy is broken, the fault names the first
    /// copy and the cause.
    pub fn read_found(
        &mut self,
        id: &Oid,
        found: Found,
    ) -> Result<Option<Object<A>>, StoreFault<A>> {
        if let Found::Packed { pack, place } = found {
            if let Some(start) = self.store.start_of(pack, place) {
                match self.read_packed(Spot { pack, start }) {
                    Ok(object) => return Ok(Some(object)),
                    Err(Cause::Memory) => return Err(StoreFault::Memory),
                    Err(_) => {}
                }
            }
        }
        self.read_listed(id)
    }

    // Returns the first intact copy of the object with this id, or `None` if the object is neither
    // in an open pack nor loose. If every copy is broken, fails with the fault of the first copy.
    fn read_listed(&mut self, id: &Oid) -> Result<Option<Object<A>>, StoreFault<A>> {
        let recent = self.store.recent_pack();
        match self.read_in(recent, id) {
            Ok(None) => {}
            Ok(Some(object)) => return Ok(Some(object)),
            Err(StoreFault::Memory) => return Err(StoreFault::Memory),
            Err(_) => {}
        }
        let mut faults = FirstFault::new();
        for pack in 0..self.store.pack_count() {
            match self.read_in(pack, id) {
                Ok(Some(object)) => {
                    self.store.note_recent_pack(pack);
                    return Ok(Some(object));
                }
                Ok(None) => {}
                Err(fault) => faults.note(fault)?,
            }
        }
        match self.store.read_loose(id, &mut *self.inflater) {
            Ok(Some(object)) => return Ok(Some(object)),
            Ok(None) => {}
            Err(fault) => faults.note(fault)?,
        }
        faults.finish()?;
        Ok(None)
    }

    // Returns the object with this id in a pack, or `None` if the pack has no such object.
    fn read_in(&mut self, pack: usize, id: &Oid) -> Result<Option<Object<A>>, StoreFault<A>> {
        let Some(start) = self.store.start_in(pack, id) else {
            return Ok(None);
        };
        match self.read_packed(Spot { pack, start }) {
            Ok(object) => Ok(Some(object)),
            Err(cause) => Err(self.store.fault_in(pack, cause)),
        }
    }

    // Returns the type of the object with this id from headers alone, or `None` if no header
    // determines the type. An unreadable header is ignored.
    fn kind_listed(&mut self, id: &Oid) -> Result<Option<ObjectType>, Cause> {
        let recent = self.store.recent_pack();
        if let Some(kind) = self.kind_in_pack(recent, id)? {
            return Ok(Some(kind));
        }
        for pack in 0..self.store.pack_count() {
            if let Some(kind) = self.kind_in_pack(pack, id)? {
                self.store.note_recent_pack(pack);
                return Ok(Some(kind));
            }
        }
        self.store.kind_of_loose(id, &mut *self.inflater)
    }

    // Returns the type of the object with this id from the headers of a pack alone, or `None` if
    // they do not determine the type.
    fn kind_in_pack(&mut self, pack: usize, id: &Oid) -> Result<Option<ObjectType>, Cause> {
        match self.store.start_in(pack, id) {
            Some(start) => self.kind_at(Spot { pack, start }),
            None => Ok(None),
        }
    }
}

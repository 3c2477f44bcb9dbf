//! The entries of an outgoing pack. The streams of stored pack entries are copied unchanged if
//! possible.

use crate::fault::RepositoryFault;
use crate::window::{Delta, Window};
use gitobjects::{Found, ObjectFiles, ObjectReader, ObjectStore, RawEntry, StoreFault};
use gitpack::EntryForm;
use gitwalk::{Fate, Fates, PathHash};
use gname::Oid;
use gzlib::Deflater;
use std::alloc::{AllocError, Allocator};

/// The numbers of objects in a pack, by how each object was sent.
#[derive(Clone, Copy, Debug, PartialEq, Eq, Drop)]
pub struct PackCounts {
    /// The number of undeltified objects copied from stored packs.
    pub whole: u32,
    /// The number of deltas copied from stored packs.
    pub deltas: u32,
    /// The number of loose objects, which were deflated again or sent as new deltas.
    pub loose: u32,
    /// The number of stored pack entries that could not be copied: deltas whose base is not sent,
    /// some deltas whose base is stored twice, and broken entries. The objects of these entries were
    /// deflated again or sent as new deltas.
    pub renewed: u32,
    /// The number of objects counted in `loose` or `renewed` that were sent as new deltas.
    pub made: u32,
}

impl PackCounts {
    /// The counts of a pack without objects.
    pub(crate) const NONE: PackCounts = PackCounts {
        whole: 0,
        deltas: 0,
        loose: 0,
        renewed: 0,
        made: 0,
    };

    /// Returns the total number of objects, saturating at `u32::MAX`.
    pub fn objects(&self) -> u32 {
        let copied = self.whole.saturating_add(self.deltas);
        copied
            .saturating_add(self.loose)
            .saturating_add(self.renewed)
    }
}

/// The next entry to send: its form, the size of its inflated stream, and a buffer. The zlib stream
/// extends from offset `from` to the end of the buffer `bytes`.
#[derive(Drop)]
pub(crate) struct NextEntry<A: Allocator + Copy> {
    pub(crate) form: EntryForm,
    pub(crate) size: usize,
    bytes: Vec<u8, A>,
    from: usize,
}

impl<A: Allocator + Copy> NextEntry<A> {
    /// Returns the zlib stream of the entry.
    pub(crate) fn stream(&self) -> &[u8] {
        self.bytes.as_slice().get(self.from..).unwrap_or(b"")
    }
}

// A packed object to send.
#[derive(Clone, Copy, Drop)]
struct Packed {
    // The number of the object in the order in which fates were decided.
    number: usize,
    // The number of the stored pack, and the offset of the object's entry in that pack.
    pack: usize,
    start: usize,
    // The offset of the copied entry in the new pack, or 0 if the entry was not copied.
    copied_to: usize,
}

// An object to deflate again: its id, the hash of its path, and its index in the unsorted list of
// objects to deflate again.
#[derive(Clone, Copy, Drop)]
struct ToDeflate {
    id: Oid,
    path: PathHash,
    number: usize,
}

/// The entries of an outgoing pack, built one by one. Copied entries are first, in the order of the
/// stored packs, followed by objects that are deflated again.
#[derive(Drop)]
pub(crate) struct Copying<A: Allocator + Copy> {
    alloc: A,
    /// The fates by which objects are sent.
    pub(crate) fates: Fates<A>,
    deflater: Deflater<A>,
    counts: PackCounts,
    // The packed objects to send, sorted by pack and offset. One object takes 32 bytes.
    packed: Vec<Packed, A>,
    // The number of objects of `packed` that were examined so far.
    examined: usize,
    // The objects to deflate again.
    to_deflate: Vec<ToDeflate, A>,
    // The number of objects of `to_deflate` that were deflated so far.
    deflated: usize,
    // Whether `to_deflate` is sorted. The list is sorted once all packed objects have been
    // examined.
    is_sorted: bool,
    // The most recently deflated objects, which can be bases of new deltas.
    window: Window<A>,
}

impl<A: Allocator + Copy> Copying<A> {
    /// Returns a `Copying` of the objects to send from a store, which has built no entry yet.
    pub(crate) fn new<F: ObjectFiles>(
        alloc: A,
        store: &ObjectStore<'_, F, A>,
        fates: Fates<A>,
    ) -> Result<Copying<A>, AllocError> {
        let packed = packed_objects(alloc, store, &fates)?;
        Ok(Copying {
            alloc,
            fates,
            deflater: Deflater::new(alloc)?,
            counts: PackCounts::NONE,
            packed,
            examined: 0,
            to_deflate: Vec::new(alloc),
            deflated: 0,
            is_sorted: false,
            window: Window::new(alloc),
        })
    }

    /// Returns the numbers of objects sent so far, by how each object was sent.
    pub(crate) fn counts(&self) -> PackCounts {
        self.counts
    }

    /// Returns the next entry, to be written at this offset of the pack, or `None` if no entries
    /// remain.
    pub(crate) fn next<F: ObjectFiles>(
        &mut self,
        reader: &mut ObjectReader<'_, F, A>,
        position: usize,
    ) -> Result<Option<NextEntry<A>>, RepositoryFault<A>> {
        for index in self.examined..self.packed.len() {
            let entry = self.copy_entry(reader, index, position)?;
            self.examined = index.saturating_add(1);
            if entry.is_some() {
                return Ok(entry);
            }
        }
        self.deflate_next(reader)
    }

    // Returns the stored entry of the packed object with this index, to be copied to this offset of
    // the new pack. If the entry cannot be copied, returns `None`, and the object is deflated again
    // later.
    fn copy_entry<F: ObjectFiles>(
        &mut self,
        reader: &mut ObjectReader<'_, F, A>,
        index: usize,
        position: usize,
    ) -> Result<Option<NextEntry<A>>, RepositoryFault<A>> {
        let Some((id, found, fate)) = self.packed_at(index) else {
            return Ok(None);
        };
        let Found::Packed { pack, place } = found else {
            return Ok(None);
        };
        let Fate::Sent(path) = fate else {
            return Ok(None);
        };
        if let Some(entry) = intact_entry(reader, pack, place)? {
            if let Some(form) = self.form_of(reader.store(), pack, &entry, position) {
                self.note_copied(index, position);
                return Ok(Some(self.reuse_entry(form, entry)));
            }
        }
        self.deflate_later(&id, path)?;
        Ok(None)
    }

    // Returns the id, the location and the fate of the packed object with this index.
    fn packed_at(&self, index: usize) -> Option<(Oid, Found, Fate)> {
        self.fates.at(self.packed.get(index)?.number)
    }

    // Notes that the entry of the packed object with this index is copied to this offset of the new
    // pack.
    fn note_copied(&mut self, index: usize, position: usize) {
        if let Some(object) = self.packed.get_mut(index) {
            object.copied_to = position;
        }
    }

    // Adds a packed object to `to_deflate`, the list of objects to deflate again.
    fn deflate_later(&mut self, id: &Oid, path: PathHash) -> Result<(), RepositoryFault<A>> {
        self.add_to_deflate(id, path)?;
        self.counts.renewed = self.counts.renewed.saturating_add(1);
        Ok(())
    }

    fn add_to_deflate(&mut self, id: &Oid, path: PathHash) -> Result<(), RepositoryFault<A>> {
        self.to_deflate.push(ToDeflate {
            id: *id,
            path,
            number: self.to_deflate.len(),
        })?;
        Ok(())
    }

    // Returns a stored entry with its stream unchanged.
    fn reuse_entry(&mut self, form: EntryForm, entry: RawEntry<A>) -> NextEntry<A> {
        match form {
            EntryForm::Whole(_) => self.counts.whole = self.counts.whole.saturating_add(1),
            _ => self.counts.deltas = self.counts.deltas.saturating_add(1),
        }
        NextEntry {
            form,
            size: entry.head.size,
            bytes: entry.bytes,
            from: entry.head.length,
        }
    }

    // Returns the header form of a copied entry at this offset, or `None` if the entry is a delta
    // that cannot be copied. A delta names its base by offset if the base was already copied, and
    // by id otherwise.
    fn form_of<F: ObjectFiles>(
        &self,
        store: &ObjectStore<'_, F, A>,
        pack: usize,
        entry: &RawEntry<A>,
        position: usize,
    ) -> Option<EntryForm> {
        let Some(base) = entry.base else {
            return Some(entry.head.form);
        };
        match self.copied_offset(store, pack, base) {
            Some(offset) if 0 < offset && offset < position => {
                Some(EntryForm::OffsetDelta(position - offset))
            }
            _ => self.form_by_id(store.index(pack)?.id(base)?, pack, base),
        }
    }

    // Returns the offset in the new pack of the entry at this index position of a stored pack. The
    // offset is 0 if the entry was not copied yet. Returns `None` if the entry is not sent.
    fn copied_offset<F: ObjectFiles>(
        &self,
        store: &ObjectStore<'_, F, A>,
        pack: usize,
        place: usize,
    ) -> Option<usize> {
        let start = start_of(store, pack, place)?;
        let search = self
            .packed
            .binary_search_by_key(&(pack, start), |object| (object.pack, object.start));
        Some(self.packed.get(search.ok()?)?.copied_to)
    }

    // Returns the form of a delta that names this base by id. The stored delta names the copy of
    // the base at `own_place` in the index of the pack `own_pack`. Returns `None` if the base is not
    // sent, or if another copy in this pack or a copy in a later pack is sent.
    //
    // From a copied delta to a copied base, the number of the pack thus decreases, or the stored
    // delta chain becomes shorter. New deltas name only earlier new entries. So copies of acyclic
    // deltas form no cycle.
    fn form_by_id(&self, base: Oid, own_pack: usize, own_place: usize) -> Option<EntryForm> {
        let decided = self.fates.decided(&base)?;
        let is_nameable = match decided.found {
            Found::Packed { pack, place } => {
                pack < own_pack || (pack == own_pack && place == own_place)
            }
            Found::Loose => true,
        };
        match decided.fate {
            Fate::Sent(_) if is_nameable => Some(EntryForm::RefDelta(base)),
            _ => None,
        }
    }

    // Deflates the next object again, or returns `None` if no objects remain.
    fn deflate_next<F: ObjectFiles>(
        &mut self,
        reader: &mut ObjectReader<'_, F, A>,
    ) -> Result<Option<NextEntry<A>>, RepositoryFault<A>> {
        if !self.is_sorted {
            self.add_loose()?;
            self.sort_to_deflate();
        }
        let Some(object) = self.to_deflate.get(self.deflated).copied() else {
            return Ok(None);
        };
        self.deflated = self.deflated.saturating_add(1);
        Ok(Some(self.deflate_object(reader, &object.id)?))
    }

    // Adds the loose objects that are sent to `to_deflate`, the list of objects to deflate again.
    fn add_loose(&mut self) -> Result<(), RepositoryFault<A>> {
        for number in 0..self.fates.len() {
            let Some((id, Found::Loose, fate)) = self.fates.at(number) else {
                continue;
            };
            if let Fate::Sent(path) = fate {
                self.counts.loose = self.counts.loose.saturating_add(1);
                self.add_to_deflate(&id, path)?;
            }
        }
        Ok(())
    }

    // Sorts the list `to_deflate` by the hashes of the objects' paths. Objects whose paths have the
    // same ending are then adjacent, and a delta between two of them is probably small.
    fn sort_to_deflate(&mut self) {
        self.to_deflate
            .sort_unstable_by_key(|object| (object.path, object.number));
        self.is_sorted = true;
    }

    // Returns a new entry for an object: a delta or the whole object. The id of the object is
    // checked.
    fn deflate_object<F: ObjectFiles>(
        &mut self,
        reader: &mut ObjectReader<'_, F, A>,
        id: &Oid,
    ) -> Result<NextEntry<A>, RepositoryFault<A>> {
        let object = reader.read_checked(id)?;
        let delta = self.window.best_delta(&object)?;
        let entry = match &delta {
            Some(delta) => self.delta_entry(delta)?,
            None => self.deflate_entry(EntryForm::Whole(object.kind), object.body.as_slice())?,
        };
        self.window.push(id, object, &delta)?;
        Ok(entry)
    }

    fn delta_entry(&mut self, delta: &Delta<A>) -> Result<NextEntry<A>, RepositoryFault<A>> {
        self.counts.made = self.counts.made.saturating_add(1);
        self.deflate_entry(EntryForm::RefDelta(delta.base), delta.text.as_slice())
    }

    // Returns an entry whose stream inflates to these bytes.
    fn deflate_entry(
        &mut self,
        form: EntryForm,
        bytes: &[u8],
    ) -> Result<NextEntry<A>, RepositoryFault<A>> {
        let mut stream = Vec::new(self.alloc);
        self.deflater.deflate(bytes, &mut stream)?;
        Ok(NextEntry {
            form,
            size: bytes.len(),
            bytes: stream,
            from: 0,
        })
    }
}

// Returns the packed objects to send, sorted by pack and offset.
fn packed_objects<F: ObjectFiles, A: Allocator + Copy>(
    alloc: A,
    store: &ObjectStore<'_, F, A>,
    fates: &Fates<A>,
) -> Result<Vec<Packed, A>, AllocError> {
    let mut packed = Vec::with_capacity(alloc, fates.sent_count())?;
    for number in 0..fates.len() {
        if let Some((_, Found::Packed { pack, place }, Fate::Sent(_))) = fates.at(number) {
            packed.push(Packed {
                number,
                pack,
                // An entry without an offset cannot be read, so its object is deflated again.
                start: start_of(store, pack, place).unwrap_or(0),
                copied_to: 0,
            })?;
        }
    }
    packed.sort_unstable_by_key(|object| (object.pack, object.start));
    Ok(packed)
}

// Returns the offset of the entry at this index position of a pack, or `None` if there is no such
// pack or position.
fn start_of<F: ObjectFiles, A: Allocator + Copy>(
    store: &ObjectStore<'_, F, A>,
    pack: usize,
    place: usize,
) -> Option<usize> {
    usize::try_from(store.index(pack)?.offset(place)?).ok()
}

// Returns a stored entry unchanged, or `None` if the entry is broken. The store may have an intact
// copy of the object elsewhere.
fn intact_entry<F: ObjectFiles, A: Allocator + Copy>(
    reader: &mut ObjectReader<'_, F, A>,
    pack: usize,
    place: usize,
) -> Result<Option<RawEntry<A>>, RepositoryFault<A>> {
    match reader.raw_entry(pack, place) {
        Ok(entry) => Ok(entry),
        Err(StoreFault::Memory) => Err(RepositoryFault::Memory),
        Err(_) => Ok(None),
    }
}

//! A pack and its index. The whole index is in memory, but only some blocks of the pack.

use crate::entry::RawEntry;
use crate::fault::{Cause, StoreFault, fault_at};
use crate::files::{ObjectFiles, OpenPack};
use crate::limits::{MAX_INDEX, MAX_STREAM};
use crate::order::{EntryOrder, HEADER, Start};
use crate::paths::pack_path;
use crate::window::Window;
use gitobject::ObjectType;
use gitpack::{EntryForm, EntryHead, MAX_HEAD, PackIndex, read_head};
use gname::Oid;
use gzlib::crc32_of;
use std::alloc::Allocator;

// The length of the checksum at the end of a pack.
const TRAILER: usize = 20;

// The number of index positions before and after an entry at which a second copy of its object is
// looked for.
const NEIGHBOURS: usize = 16;

/// An open pack, with its index.
#[derive(Drop)]
pub(crate) struct PackFile<A: Allocator + Copy> {
    path: String<A>,
    index: PackIndex<A>,
    order: EntryOrder<A>,
    // The number of the pack in the `Window`.
    number: usize,
}

/// The form of a pack entry: a whole object, or a delta with the offset of its base.
#[derive(Clone, Copy, Debug, PartialEq, Eq)]
pub(crate) enum LocalForm {
    /// A whole object of this type.
    Whole(ObjectType),
    /// A delta against the entry that begins at this offset of the same pack.
    Delta(usize),
}

/// Opens the pack with this name (without extension) in a folder, and adds the pack to the window.
/// Returns `None` if the index or the pack is missing.
pub(crate) fn open_pack<F: ObjectFiles, A: Allocator + Copy>(
    files: &F,
    alloc: A,
    window: &mut Window<F::Pack, A>,
    folder: &str,
    stem: &str,
) -> Result<Option<PackFile<A>>, StoreFault<A>> {
    let Some(index) = index_of(files, alloc, folder, stem)? else {
        return Ok(None);
    };
    let path = pack_path(alloc, folder, stem, ".pack")?;
    match open_entries(files, alloc, window, path.as_str(), &index) {
        Ok(Some((number, order))) => Ok(Some(PackFile {
            path,
            index,
            order,
            number,
        })),
        Ok(None) => Ok(None),
        Err(cause) => Err(fault_at(alloc, path.as_str(), cause)),
    }
}

// Returns the index of the pack with this name, or `None` if the index is missing. A fault names the
// index.
fn index_of<F: ObjectFiles, A: Allocator + Copy>(
    files: &F,
    alloc: A,
    folder: &str,
    stem: &str,
) -> Result<Option<PackIndex<A>>, StoreFault<A>> {
    let path = pack_path(alloc, folder, stem, ".idx")?;
    match read_index(files, alloc, path.as_str()) {
        Ok(index) => Ok(index),
        Err(cause) => Err(fault_at(alloc, path.as_str(), cause)),
    }
}

fn read_index<F: ObjectFiles, A: Allocator + Copy>(
    files: &F,
    alloc: A,
    path: &str,
) -> Result<Option<PackIndex<A>>, Cause> {
    let Some(bytes) = files.read(alloc, path, MAX_INDEX)? else {
        return Ok(None);
    };
    match PackIndex::read(alloc, bytes.as_slice())? {
        Some(index) => Ok(Some(index)),
        None => Err(Cause::Index),
    }
}

// Opens the pack of an index. Returns the number of the pack in the window, and its entries in pack
// order. Returns `None` if the pack is missing.
fn open_entries<F: ObjectFiles, A: Allocator + Copy>(
    files: &F,
    alloc: A,
    window: &mut Window<F::Pack, A>,
    path: &str,
    index: &PackIndex<A>,
) -> Result<Option<(usize, EntryOrder<A>)>, Cause> {
    let Some((mut file, length)) = files.open_pack(path)? else {
        return Ok(None);
    };
    let order = read_order(&mut file, alloc, length, index)?;
    let number = window.add(file, length)?;
    Ok(Some((number, order)))
}

// Checks that a pack of `length` bytes matches its index, and returns its entries in pack order.
fn read_order<P: OpenPack, A: Allocator + Copy>(
    file: &mut P,
    alloc: A,
    length: usize,
    index: &PackIndex<A>,
) -> Result<EntryOrder<A>, Cause> {
    let Some(end) = length.checked_sub(TRAILER) else {
        return Err(Cause::Pack);
    };
    check_header(file, alloc, index)?;
    check_trailer(file, alloc, end, index)?;
    EntryOrder::new(alloc, index, end)
}

// Checks that the header of the pack has version 2 and the object count of the index. Fails with
// `Pack` if not.
fn check_header<P: OpenPack, A: Allocator + Copy>(
    file: &mut P,
    alloc: A,
    index: &PackIndex<A>,
) -> Result<(), Cause> {
    let header = file.read_at(alloc, 0, HEADER)?;
    let Some(count) = header.as_slice().strip_prefix(b"PACK\0\0\0\x02") else {
        return Err(Cause::Pack);
    };
    match count.first_chunk::<4>() {
        Some(count) if u32::from_be_bytes(*count) as usize == index.len() => Ok(()),
        _ => Err(Cause::Pack),
    }
}

// Checks that the pack ends with the checksum in the index. Fails with `Pack` if not.
fn check_trailer<P: OpenPack, A: Allocator + Copy>(
    file: &mut P,
    alloc: A,
    end: usize,
    index: &PackIndex<A>,
) -> Result<(), Cause> {
    let trailer = file.read_at(alloc, end, TRAILER)?;
    let checksum = index.pack_checksum();
    if trailer.as_slice() == checksum.as_bytes() {
        Ok(())
    } else {
        Err(Cause::Pack)
    }
}

impl<A: Allocator + Copy> PackFile<A> {
    /// Returns the path of the pack.
    pub(crate) fn path(&self) -> &str {
        self.path.as_str()
    }

    /// Returns the index of the pack.
    pub(crate) fn index(&self) -> &PackIndex<A> {
        &self.index
    }

    /// Returns the entries in pack order.
    pub(crate) fn starts(&self) -> &[Start] {
        self.order.starts()
    }

    /// Returns the offset of the entry at this index position, or `None` past the end of the index.
    pub(crate) fn start_of(&self, place: usize) -> Option<usize> {
        usize::try_from(self.index.offset(place)?).ok()
    }

    /// Returns the form of the entry at this offset. Fails with `Head` if the entry header is
    /// malformed. Fails with `Base` if no entry begins at the offset, or the base is not in the
    /// pack.
    pub(crate) fn form_at<P: OpenPack + Drop>(
        &self,
        window: &mut Window<P, A>,
        start: usize,
    ) -> Result<LocalForm, Cause> {
        let head = self.head_at(window, start)?;
        self.local_form(window, start, head.form)
    }

    // Returns the header of the entry at this offset.
    fn head_at<P: OpenPack + Drop>(
        &self,
        window: &mut Window<P, A>,
        start: usize,
    ) -> Result<EntryHead, Cause> {
        let length = self.length_of(start)?;
        let bytes = window.read_few(self.number, start, length.min(MAX_HEAD))?;
        match read_head(bytes.as_slice()) {
            Some(head) => Ok(head),
            None => Err(Cause::Head),
        }
    }

    /// Returns all bytes of the entry at this offset. Fails with `Base` if no entry begins at that
    /// offset, and with `ObjectSize` if the entry is too long.
    pub(crate) fn bytes_at<P: OpenPack + Drop>(
        &self,
        window: &mut Window<P, A>,
        start: usize,
    ) -> Result<Vec<u8, A>, Cause> {
        let length = self.length_of(start)?;
        if length > MAX_STREAM {
            return Err(Cause::ObjectSize);
        }
        window.read(self.number, start, length)
    }

    /// Returns the unchanged entry at this index position, or `None` past the end of the index.
    /// Fails with `Crc` if the CRC-32 of the entry does not match the index, and with `Head` if the
    /// entry header is malformed. Also fails for the same reasons as `bytes_at`.
    pub(crate) fn raw_entry<P: OpenPack + Drop>(
        &self,
        window: &mut Window<P, A>,
        place: usize,
    ) -> Result<Option<RawEntry<A>>, Cause> {
        let (Some(start), Some(crc)) = (self.start_of(place), self.index.crc(place)) else {
            return Ok(None);
        };
        let bytes = self.bytes_at(window, start)?;
        if crc32_of(bytes.as_slice()) != crc {
            return Err(Cause::Crc);
        }
        let Some(head) = read_head(bytes.as_slice()) else {
            return Err(Cause::Head);
        };
        let base = self.base_place(window, start, head.form)?;
        Ok(Some(RawEntry { head, base, bytes }))
    }

    // Returns the index position of the base of a delta, or `None` if the entry is a whole object.
    fn base_place<P: OpenPack + Drop>(
        &self,
        window: &mut Window<P, A>,
        start: usize,
        form: EntryForm,
    ) -> Result<Option<usize>, Cause> {
        match self.local_form(window, start, form)? {
            LocalForm::Delta(base) => match self.order.place_of(base) {
                Some(place) => Ok(Some(place)),
                None => Err(Cause::Base),
            },
            LocalForm::Whole(_) => Ok(None),
        }
    }

    fn length_of(&self, start: usize) -> Result<usize, Cause> {
        match self.order.length_of(start) {
            Some(length) => Ok(length),
            None => Err(Cause::Base),
        }
    }

    // Converts the form of the entry at offset `start` to a `LocalForm`, which identifies the base
    // of a delta by its offset.
    fn local_form<P: OpenPack + Drop>(
        &self,
        window: &mut Window<P, A>,
        start: usize,
        form: EntryForm,
    ) -> Result<LocalForm, Cause> {
        let base = match form {
            EntryForm::Whole(kind) => return Ok(LocalForm::Whole(kind)),
            EntryForm::OffsetDelta(back) if back > 0 => start.checked_sub(back),
            EntryForm::OffsetDelta(_) => None,
            EntryForm::RefDelta(id) => self.start_of_base(window, &id),
        };
        match base {
            Some(base) => Ok(LocalForm::Delta(base)),
            None => Err(Cause::Base),
        }
    }

    // Returns the offset of an entry of the object with this id, or `None` if the object is not in
    // the pack. A pack can hold an object twice: whole, and as a delta of a delta of the object. A
    // whole object is preferred, so the chain of such a delta ends. If there are many copies, only
    // some are examined.
    fn start_of_base<P: OpenPack + Drop>(
        &self,
        window: &mut Window<P, A>,
        id: &Oid,
    ) -> Option<usize> {
        let found = self.index.find(id)?;
        for place in found.saturating_sub(NEIGHBOURS)..found.saturating_add(NEIGHBOURS) {
            if place != found && self.is_whole_copy(window, place, id) {
                return self.start_of(place);
            }
        }
        self.start_of(found)
    }

    // Returns whether the entry at this index position is a whole object with this id.
    fn is_whole_copy<P: OpenPack + Drop>(
        &self,
        window: &mut Window<P, A>,
        place: usize,
        id: &Oid,
    ) -> bool {
        if self.index.id(place) != Some(*id) {
            return false;
        }
        let Some(start) = self.start_of(place) else {
            return false;
        };
        match self.head_at(window, start) {
            Ok(head) => matches!(head.form, EntryForm::Whole(_)),
            Err(_) => false,
        }
    }

    /// Returns the offset of the entry of the object with this id, or `None` if the object is not
    /// in the pack.
    pub(crate) fn start_of_id(&self, id: &Oid) -> Option<usize> {
        self.start_of(self.index.find(id)?)
    }

    /// Returns the id of the object whose entry is at this offset, or `None` if no entry begins at
    /// that offset.
    pub(crate) fn id_at(&self, start: usize) -> Option<Oid> {
        self.index.id(self.order.place_of(start)?)
    }
}

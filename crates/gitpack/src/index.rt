//! The pack index of version 2 (gitformat-pack(5)).

ghost use Rattle.std.specs.Prelude.{◌≡◌, ◌==◌, ◌≢◌, ◌^◌, ◌<◌, ◌≤◌, ◌↔◌, All, IfOk, IsTrue, MatchOption, length};
ghost use Rattle.std.specs.List.{HoldsAt};
ghost use Rattle.std.specs.Ordering.{is_gt, is_lt};
ghost use Rattle.gname.specs.Ids.{id_cmp};
ghost use Rattle.gitpack.specs.Indexes.{AreEntries, IsLine, ReadsIndex};

use crate::frame::is_same;
use crate::index_reading::read_entries;
use crate::index_writing::{body_of, count_by_first, first_byte};
use gitobject::{ID_BYTES, id_of_bytes};
use gname::Oid;
use std::alloc::{AllocError, Allocator};
use std::marker::Model;

// The maximum number of entries of an index. Positions in the table of 64-bit offsets have 31 bits.
pub(crate) const MAX_ENTRIES: usize = 0x7fff_ffff;

/// An entry of the pack index.
#[derive(Clone, Copy, Debug, PartialEq, Eq, Drop)]
pub struct IndexEntry {
    /// The id of the object.
    pub id: Oid,
    /// The CRC-32 of the object's entry in the pack.
    pub crc: u32,
    /// The offset of the object's entry in the pack.
    pub offset: u64,
}

/// A pack index: entries sorted by id, and the checksum of the pack.
#[derive(Drop)]
pub struct PackIndex<A: Allocator + Copy> {
    entries: Vec<IndexEntry, A>,
    // For each byte value, the number of ids whose first byte is at most this value.
    ends: [u32; 256],
    // The first eight bytes of each id, as a big-endian number.
    fronts: Vec<u64, A>,
    checksum: Oid,
}

impl<A: Allocator + Copy> Model for PackIndex<A> {
    ghost use Rattle.gitpack.specs.Indexes.{HasText, Index};

    ghost Value = { Index };

    ghost view = { λ index. record { entries = index.entries.items; checksum = index.checksum } };

    ghost invariant = { λ index.
        HasText (record { entries = index.entries.items; checksum = index.checksum }) };
}

impl<A: Allocator + Copy> PackIndex<A> {
    /// Parses a pack index. Returns `None` if the bytes are not a pack index. The index's own
    /// checksum is not checked.
    ///
    /// Fails only if out of memory.
    pub fn read(alloc: A, bytes: &[u8]) -> Result<Option<PackIndex<A>>, AllocError>
        ensures { IfOk result (ReadsIndex bytes.now) }
    {
        let Some((text, _own)) = bytes.split_last_chunk::<ID_BYTES>() else {
            return Ok(None);
        };
        let Some((tables, trailer)) = text.split_last_chunk::<ID_BYTES>() else {
            return Ok(None);
        };
        let Some(entries) = read_entries(alloc, tables)? else {
            return Ok(None);
        };
        let checksum = id_of_bytes(trailer);
        if !are_entries(entries.as_slice()) {
            return Ok(None);
        }
        let written = body_of(alloc, entries.as_slice(), &checksum)?;
        if !is_same(written.as_slice(), text) {
            return Ok(None);
        }
        let ends = ends_of(entries.as_slice());
        let fronts = fronts_of(alloc, entries.as_slice())?;
        Ok(Some(PackIndex {
            entries,
            ends,
            fronts,
            checksum,
        }))
    }

    /// Returns the number of objects in the index.
    pub fn len(&self) -> usize
        ensures { result ≡ length self.now.entries }
    {
        self.entries.len()
    }

    /// Returns whether the index contains no objects.
    pub fn is_empty(&self) -> bool
        ensures { result ≡ (length self.now.entries == 0) }
    {
        self.entries.is_empty()
    }

    /// Returns the entries, sorted by id.
    pub fn entries(&self) -> &[IndexEntry]
        ensures lines { result.now ≡ self.now.entries }
        ensures order { AreEntries result.now }
    {
        self.entries.as_slice()
    }

    /// Returns the position of an entry with this id, or `None` if no entry has the id.
    pub fn find(&self, id: &Oid) -> Option<usize>
        ensures { MatchOption result (All (λ e. e.id ≢ id.now) self.now.entries)
            (HoldsAt (λ e. e.id ≡ id.now) self.now.entries) }
    {
        let entries = self.entries.as_slice();
        match find_front(entries, self.fronts.as_slice(), &self.ends, id) {
            Ok(place) => Some(place),
            Err(place) if is_gap(entries, place, id) => None,
            Err(_) => find(entries, id),
        }
    }

    /// Returns the id of the entry at position `place`, or `None` if there is no such entry.
    pub fn id(&self, place: usize) -> Option<Oid>
        ensures { MatchOption result (length self.now.entries ≤ place)
            (λ id. HoldsAt (λ e. e.id ≡ id) self.now.entries place) }
    {
        match self.entries.get(place) {
            Some(entry) => Some(entry.id),
            None => None,
        }
    }

    /// Returns the CRC-32 of the entry at position `place`, or `None` if there is no such entry.
    pub fn crc(&self, place: usize) -> Option<u32>
        ensures { MatchOption result (length self.now.entries ≤ place)
            (λ crc. HoldsAt (λ e. e.crc ≡ crc) self.now.entries place) }
    {
        match self.entries.get(place) {
            Some(entry) => Some(entry.crc),
            None => None,
        }
    }

    /// Returns the offset of the entry at position `place`, or `None` if there is no such entry.
    pub fn offset(&self, place: usize) -> Option<u64>
        ensures { MatchOption result (length self.now.entries ≤ place)
            (λ offset. HoldsAt (λ e. e.offset ≡ offset) self.now.entries place) }
    {
        match self.entries.get(place) {
            Some(entry) => Some(entry.offset),
            None => None,
        }
    }

    /// Returns the checksum of the pack, which is its trailer.
    pub fn pack_checksum(&self) -> Oid
        ensures { result ≡ self.now.checksum }
    {
        self.checksum
    }
}

// Searches for an id by its first eight bytes. Returns the position of an entry with the id. If the
// search finds none, returns `Err` with the likely position at which the id would be inserted. The
// search reads only a small part of `fronts`. If two ids begin with the same eight bytes, the search
// can miss one of them.
fn find_front(
    entries: &[IndexEntry],
    fronts: &[u64],
    ends: &[u32; 256],
    id: &Oid,
) -> Result<usize, usize>
    ensures { IfOk result (HoldsAt (λ e. e.id ≡ id.now) entries.now) }
{
    let byte = first_byte(id);
    let start = match byte.checked_sub(1) {
        Some(before) => ends[before] as usize,
        None => 0,
    };
    let Some(part) = fronts.get(start..ends[byte] as usize) else {
        return Err(start);
    };
    let near = match part.binary_search(&front_of(id)) {
        Ok(near) | Err(near) => near,
    };
    let place = start.saturating_add(near);
    match entries.get(place) {
        Some(entry) if entry.id == *id => Ok(place),
        _ => Err(place),
    }
}

// Returns whether an id is between the ids of two neighbours: the entries before and at position
// `place`. Then no entry has the id. Returns `false` if either entry does not exist.
fn is_gap(entries: &[IndexEntry], place: usize, id: &Oid) -> bool
    requires { AreEntries entries.now }
    ensures { IsTrue result → All (λ e. e.id ≢ id.now) entries.now }
{
    is_less_at(entries, place.saturating_sub(1), id) && is_greater_at(entries, place, id)
}

// Returns whether there is an entry at position `place`, and its id is less than `id`.
fn is_less_at(entries: &[IndexEntry], place: usize, id: &Oid) -> bool
    ensures { IsTrue result → (place < length entries.now)
        × (HoldsAt (λ e. IsTrue (is_lt (id_cmp e.id id.now))) entries.now place) }
{
    match entries.get(place) {
        Some(entry) => entry.id.cmp(id).is_lt(),
        None => false,
    }
}

// Returns whether there is an entry at position `place`, and its id is greater than `id`.
fn is_greater_at(entries: &[IndexEntry], place: usize, id: &Oid) -> bool
    ensures { IsTrue result → (place < length entries.now)
        × (HoldsAt (λ e. IsTrue (is_gt (id_cmp e.id id.now))) entries.now place) }
{
    match entries.get(place) {
        Some(entry) => entry.id.cmp(id).is_gt(),
        None => false,
    }
}

// Returns the first eight bytes of each id, as big-endian numbers.
fn fronts_of<A: Allocator + Copy>(
    alloc: A,
    entries: &[IndexEntry],
) -> Result<Vec<u64, A>, AllocError> {
    entries
        .iter()
        .map(|entry| front_of(&entry.id))
        .collect(alloc)
}

// Returns the first eight bytes of an id, as a big-endian number.
fn front_of(id: &Oid) -> u64 {
    match id.as_bytes().first_chunk::<8>() {
        Some(front) => u64::from_be_bytes(*front),
        None => 0,
    }
}

// Returns, for each byte value, the number of ids whose first byte is at most this value.
fn ends_of(entries: &[IndexEntry]) -> [u32; 256]
    requires { length entries.now < 2 ^ 31 }
{
    let mut ends = count_by_first(entries);
    let mut total = 0u32;
    for end in ends.iter_mut() {
        total = total.wrapping_add(*end);
        *end = total;
    }
    ends
}

// Returns the position of an entry with this id, or `None` if no entry has the id.
fn find(entries: &[IndexEntry], id: &Oid) -> Option<usize>
    requires { AreEntries entries.now }
    ensures { MatchOption result (All (λ e. e.id ≢ id.now) entries.now)
        (HoldsAt (λ e. e.id ≡ id.now) entries.now) }
{
    match entries.binary_search_by(|entry| entry.id.cmp(id)) {
        Ok(place) => Some(place),
        Err(_) => None,
    }
}

// Returns whether the entries are sorted by id, and there are at most `MAX_ENTRIES` entries.
fn are_entries(entries: &[IndexEntry]) -> bool
    requires { All IsLine entries.now }
    ensures { IsTrue result ↔ AreEntries entries.now }
{
    entries.len() <= MAX_ENTRIES
        && entries.is_sorted_by(|one, other| !other.id.cmp(&one.id).is_lt())
}

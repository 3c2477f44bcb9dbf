//! Valid and invalid pack indexes (gitformat-pack(5), "Version 2 pack-*.idx files").

use crate::packs::{Pack, TRAILER};
use crate::trouble::Trouble;
use gname::Oid;
use sha1::Sha1;
use std::alloc::Global;

/// An entry of a pack index.
#[derive(Clone, Copy, Drop)]
pub(crate) struct IndexEntry {
    pub(crate) id: Oid,
    pub(crate) crc: u32,
    pub(crate) offset: u64,
}

/// The entries of a pack index.
#[derive(Drop)]
pub(crate) struct PackIndex<'a> {
    pub(crate) name: &'a str,
    /// The name of the pack that the index describes.
    pub(crate) pack: &'a str,
    entries: Vec<IndexEntry>,
    is_unsorted: bool,
}

impl<'a> PackIndex<'a> {
    pub(crate) fn new(alloc: Global, name: &'a str, pack: &'a str) -> PackIndex<'a> {
        PackIndex {
            name,
            pack,
            entries: Vec::new(alloc),
            is_unsorted: false,
        }
    }

    pub(crate) fn push(&mut self, entry: IndexEntry) -> Result<(), Trouble> {
        self.entries.push(entry).map_err(Trouble::from)
    }

    /// Makes `bytes` write the entries in the order of addition, instead of sorting them by id.
    pub(crate) fn set_unsorted(&mut self) {
        self.is_unsorted = true;
    }

    pub(crate) fn bytes(&self, alloc: Global, pack: &Pack<'_>) -> Result<Vec<u8>, Trouble> {
        let entries = self.ordered_entries(alloc)?;
        let mut text = Vec::new(alloc);
        put_tables(&mut text, entries.as_slice())?;
        let pack = pack.bytes(alloc)?;
        put_trailer(&mut text, pack.as_slice())?;
        Ok(text)
    }

    // Returns the entries in the order in which the index lists them.
    fn ordered_entries(&self, alloc: Global) -> Result<Vec<IndexEntry>, Trouble> {
        let mut entries = self.entries.as_slice().to_vec(alloc)?;
        if !self.is_unsorted {
            entries.sort_unstable_by(|first_entry, second_entry| first_entry
                .id
                .cmp(&second_entry.id));
        }
        Ok(entries)
    }
}

// Appends the header and the tables of an index.
fn put_tables(text: &mut Vec<u8>, entries: &[IndexEntry]) -> Result<(), Trouble> {
    text.extend_from_slice(b"\xfftOc\0\0\0\x02")?;
    put_fan_out(text, entries)?;
    put_ids(text, entries)?;
    put_crcs(text, entries)?;
    put_offsets(text, entries)?;
    put_long_offsets(text, entries)
}

// Appends the trailer of the pack, and the checksum of the index.
fn put_trailer(text: &mut Vec<u8>, pack: &[u8]) -> Result<(), Trouble> {
    let end = pack.len().saturating_sub(TRAILER);
    text.extend_from_slice(pack.get(end..).unwrap_or(b""))?;
    let checksum = Sha1::digest(text.as_slice());
    text.extend_from_slice(&checksum).map_err(Trouble::from)
}

// Appends the fan-out table: for each byte value, the number of ids whose first byte is at most
// that value.
fn put_fan_out(text: &mut Vec<u8>, entries: &[IndexEntry]) -> Result<(), Trouble> {
    for first_byte in 0..=u8::MAX {
        let count = count_ids_up_to(entries, first_byte);
        text.extend_from_slice(&count.to_be_bytes())?;
    }
    Ok(())
}

fn count_ids_up_to(entries: &[IndexEntry], max_first_byte: u8) -> u32 {
    let mut count = 0u32;
    for entry in entries {
        if entry.id.as_bytes().first().copied().unwrap_or(0) <= max_first_byte {
            count = count.saturating_add(1);
        }
    }
    count
}

fn put_ids(text: &mut Vec<u8>, entries: &[IndexEntry]) -> Result<(), Trouble> {
    for entry in entries {
        text.extend_from_slice(entry.id.as_bytes())?;
    }
    Ok(())
}

fn put_crcs(text: &mut Vec<u8>, entries: &[IndexEntry]) -> Result<(), Trouble> {
    for entry in entries {
        text.extend_from_slice(&entry.crc.to_be_bytes())?;
    }
    Ok(())
}

// The bit that marks a 32-bit offset as an index into the table of 64-bit offsets.
const LONG_OFFSET_BIT: u32 = 0x8000_0000;

fn put_offsets(text: &mut Vec<u8>, entries: &[IndexEntry]) -> Result<(), Trouble> {
    let mut long_count = 0u32;
    for entry in entries {
        let offset = match u32::try_from(entry.offset) {
            Ok(offset) if offset < LONG_OFFSET_BIT => offset,
            _ => {
                long_count = long_count.saturating_add(1);
                long_count.saturating_sub(1) | LONG_OFFSET_BIT
            }
        };
        text.extend_from_slice(&offset.to_be_bytes())?;
    }
    Ok(())
}

fn put_long_offsets(text: &mut Vec<u8>, entries: &[IndexEntry]) -> Result<(), Trouble> {
    for entry in entries {
        if entry.offset >= u64::from(LONG_OFFSET_BIT) {
            text.extend_from_slice(&entry.offset.to_be_bytes())?;
        }
    }
    Ok(())
}

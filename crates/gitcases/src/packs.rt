//! Valid and invalid packs that lines of a test file describe (gitformat-pack(5)).

use crate::deltas::low_bits;
use crate::escapes::parse_number;
use crate::keywords::Keyword;
use crate::names::NamedObject;
use crate::trouble::Trouble;
use gitobject::ObjectType;
use gzlib::{Deflater, crc32_of, put_stored};
use sha1::Sha1;
use std::alloc::Global;

/// The length in bytes of a pack's header.
pub(crate) const HEADER: usize = 12;

/// The length in bytes of a pack's trailer.
pub(crate) const TRAILER: usize = 20;

// The type number of an offset delta in a pack.
const OFFSET_DELTA: u8 = 6;

// The type number of a ref delta in a pack.
const REF_DELTA: u8 = 7;

/// A pack whose entries, header or trailer may be wrong.
#[derive(Drop)]
pub(crate) struct Pack<'a> {
    pub(crate) name: &'a str,
    // The bytes of the entries.
    entry_bytes: Vec<u8>,
    // The offset of each entry in the pack.
    entry_offsets: Vec<usize>,
    magic: Option<Vec<u8>>,
    count: Option<usize>,
    trailer: Option<Vec<u8>>,
}

impl<'a> Pack<'a> {
    pub(crate) fn new(alloc: Global, name: &'a str) -> Pack<'a> {
        Pack {
            name,
            entry_bytes: Vec::new(alloc),
            entry_offsets: Vec::new(alloc),
            magic: None,
            count: None,
            trailer: None,
        }
    }

    /// Sets the field that a line with this keyword describes, or appends raw bytes to the entries.
    /// `bytes` is `value` after all escapes are replaced.
    pub(crate) fn set_field(
        &mut self,
        keyword: Keyword,
        value: &str,
        bytes: Vec<u8>,
    ) -> Result<(), Trouble> {
        match keyword {
            Keyword::Bytes => return self.put_bytes(bytes.as_slice()),
            Keyword::Count => self.count = Some(parse_number(value)?),
            Keyword::Magic => self.magic = Some(bytes),
            Keyword::Trailer => self.trailer = Some(bytes),
            _ => return Err(Trouble::UnknownLine),
        }
        Ok(())
    }

    // Appends raw bytes to the entries.
    fn put_bytes(&mut self, bytes: &[u8]) -> Result<(), Trouble> {
        self.entry_bytes
            .extend_from_slice(bytes)
            .map_err(Trouble::from)
    }

    /// Begins an entry with a type and a size.
    pub(crate) fn begin_entry(&mut self, kind: u8, size: usize) -> Result<(), Trouble> {
        self.entry_offsets
            .push(self.entry_bytes.len().saturating_add(HEADER))?;
        let low = low_bits(size) & 0xf;
        let mut rest = size >> 4;
        let mut byte = (kind & 7).wrapping_mul(16) | low;
        for _ in 0..usize::BITS {
            if rest == 0 {
                break;
            }
            self.entry_bytes.push(byte | 0x80)?;
            byte = low_bits(rest);
            rest >>= 7;
        }
        self.entry_bytes.push(byte).map_err(Trouble::from)
    }

    /// Appends a zlib stream that inflates to the bytes.
    pub(crate) fn put_stream(
        &mut self,
        deflater: &mut Deflater<Global>,
        bytes: &[u8],
    ) -> Result<(), Trouble> {
        deflater
            .deflate(bytes, &mut self.entry_bytes)
            .map_err(Trouble::from)
    }

    /// Appends an entry that holds a whole object, not a delta.
    pub(crate) fn put_whole(
        &mut self,
        deflater: &mut Deflater<Global>,
        object: &NamedObject<'_>,
    ) -> Result<(), Trouble> {
        self.begin_entry(object.kind.pack_number(), object.body.len())?;
        self.put_stream(deflater, object.body.as_slice())
    }

    /// Appends an offset delta as a zlib stream of stored blocks. The base entry begins `distance`
    /// bytes before the delta entry.
    pub(crate) fn put_offset_delta(
        &mut self,
        distance: usize,
        delta: &[u8],
    ) -> Result<(), Trouble> {
        self.begin_entry(OFFSET_DELTA, delta.len())?;
        self.put_distance(distance)?;
        put_stored(&mut self.entry_bytes, delta).map_err(Trouble::from)
    }

    /// Returns the distance in bytes between the next entry and the entry that is `back` entries
    /// before it.
    pub(crate) fn distance_of(&self, back: usize) -> Result<usize, Trouble> {
        let next_entry_offset = self.entry_bytes.len().saturating_add(HEADER);
        let index = self.entry_offsets.len().wrapping_sub(back);
        match self.entry_offsets.get(index) {
            Some(start) => Ok(next_entry_offset.saturating_sub(*start)),
            None => Err(Trouble::InvalidNumber),
        }
    }

    // Appends the distance of an offset delta in groups of seven bits, the highest group first. The
    // code computes the lowest group first, and reduces `rest` by one before each further group.
    fn put_distance(&mut self, distance: usize) -> Result<(), Trouble> {
        let distance_start = self.entry_bytes.len();
        self.entry_bytes.push(low_bits(distance))?;
        let mut rest = distance >> 7;
        for _ in 0..usize::BITS {
            if rest == 0 {
                break;
            }
            rest = rest.wrapping_sub(1);
            let index = distance_start.min(self.entry_bytes.len());
            self.entry_bytes.insert(index, low_bits(rest) | 0x80)?;
            rest >>= 7;
        }
        Ok(())
    }

    /// Appends a ref delta as a zlib stream of stored blocks. The entry names the base by its id.
    pub(crate) fn put_ref_delta(
        &mut self,
        base: &NamedObject<'_>,
        delta: &[u8],
    ) -> Result<(), Trouble> {
        self.begin_entry(REF_DELTA, delta.len())?;
        self.put_bytes(base.id.as_bytes())?;
        put_stored(&mut self.entry_bytes, delta).map_err(Trouble::from)
    }

    pub(crate) fn bytes(&self, alloc: Global) -> Result<Vec<u8>, Trouble> {
        let mut bytes = Vec::new(alloc);
        self.put_header(&mut bytes)?;
        bytes.extend_from_slice(self.entry_bytes.as_slice())?;
        self.put_trailer(&mut bytes)?;
        Ok(bytes)
    }

    fn put_header(&self, bytes: &mut Vec<u8>) -> Result<(), Trouble> {
        match &self.magic {
            Some(magic) => bytes.extend_from_slice(magic.as_slice())?,
            None => bytes.extend_from_slice(b"PACK\0\0\0\x02")?,
        }
        let count = self.count.unwrap_or(self.entry_offsets.len());
        let [byte_0, byte_1, byte_2, byte_3, ..] = count.to_le_bytes();
        bytes
            .extend_from_slice(&[byte_3, byte_2, byte_1, byte_0])
            .map_err(Trouble::from)
    }

    // Appends the trailer. The correct trailer is the checksum of the bytes before it.
    fn put_trailer(&self, bytes: &mut Vec<u8>) -> Result<(), Trouble> {
        let appended = match &self.trailer {
            Some(trailer) => bytes.extend_from_slice(trailer.as_slice()),
            None => {
                let checksum = Sha1::digest(bytes.as_slice());
                bytes.extend_from_slice(&checksum)
            }
        };
        appended.map_err(Trouble::from)
    }

    /// Returns the offset and the CRC-32 of the entry with this number, counted from 1.
    pub(crate) fn offset_and_crc(&self, number: usize) -> Result<(usize, u32), Trouble> {
        let Some(index) = number.checked_sub(1) else {
            return Err(Trouble::InvalidNumber);
        };
        let Some(start) = self.entry_offsets.get(index).copied() else {
            return Err(Trouble::InvalidNumber);
        };
        let end = match self.entry_offsets.get(number) {
            Some(end) => end.saturating_sub(HEADER),
            None => self.entry_bytes.len(),
        };
        let bytes = self.entry_bytes.get(start.saturating_sub(HEADER)..end);
        Ok((start, crc32_of(bytes.unwrap_or(b""))))
    }
}

/// Returns the type number for `word`, which is the name of a type or a digit.
pub(crate) fn parse_type_number(word: &str) -> Result<u8, Trouble> {
    if let Some(kind) = ObjectType::from_name(word.as_bytes()) {
        return Ok(kind.pack_number());
    }
    match word.as_bytes() {
        [digit @ b'0'..=b'7'] => Ok(digit.wrapping_sub(b'0')),
        _ => Err(Trouble::InvalidNumber),
    }
}

/// Replaces the last bytes of a pack with the correct trailer.
pub(crate) fn correct_trailer(pack: &mut Vec<u8>) -> Result<(), Trouble> {
    let end = pack.len().saturating_sub(TRAILER);
    pack.truncate(end);
    let checksum = Sha1::digest(pack.as_slice());
    pack.extend_from_slice(&checksum).map_err(Trouble::from)
}

//! Reading the entries of a pack in order while the pack arrives.

ghost use Rattle.gname.specs.Ids.{IsIdOf};
ghost use Rattle.gname.specs.declared.formats.Format.TheVariants as formats;
ghost use Rattle.std.proofs.Props.{props};

use crate::entry::{EntryForm, EntryHead, MAX_HEAD, read_head};
use crate::fault::PackFileFault;
use crate::frame::{HEADER_BYTES, PackPart};
use crate::indexing::{IndexLimits, ObjectVisitor};
use crate::streams::inflate;
use gitobject::{ObjectType, id_of};
use gname::Oid;
use gzlib::{Inflater, crc32_of};
use std::alloc::Allocator;

// The minimum number of bytes that must arrive between two scans. More frequent scans would waste
// time on inflating incomplete entries.
const BATCH: usize = 131_072;

// The maximum length of the header and the zlib stream of an entry together, 128 MiB. The limit is
// needed because an incomplete entry stays in memory.
const MAX_ENTRY: usize = 134_217_728;

// The maximum memory for cached inflated streams, 64 MiB.
const MAX_CACHED: usize = 67_108_864;

/// The id and type of an object.
#[derive(Clone, Copy, Debug, Drop)]
pub(crate) struct Object {
    /// The id of the object.
    pub id: Oid,
    /// The type of the object.
    pub kind: ObjectType,
    ghost named: { IsIdOf formats.Sha1 id } by { Prim.hlevel props },
}

/// An entry of a pack.
#[derive(Clone, Copy, Debug, Drop)]
pub(crate) struct Scanned {
    /// The offset of the start of the entry.
    pub start: usize,
    /// The offset of the entry's zlib stream.
    pub stream: usize,
    /// The offset of the end of the entry.
    pub end: usize,
    /// The size of the entry's inflated stream.
    pub size: usize,
    /// The type of the entry.
    pub form: EntryForm,
    /// The CRC-32 of the entry's bytes.
    pub crc: u32,
    /// The id and type of the entry's object, or `None` until the deltas that make the object are
    /// applied.
    pub object: Option<Object>,
}

/// A pack whose entries are all scanned.
#[derive(Drop)]
pub(crate) struct ScannedPack<A: Allocator + Copy> {
    /// The allocator of the pack.
    pub alloc: A,
    /// The limits that remain for applying deltas.
    pub limits: IndexLimits,
    /// The entries, in the order of the pack.
    pub entries: Vec<Scanned, A>,
    /// The inflated stream of each entry, or `None` if the stream is not cached.
    pub cache: Vec<Option<Vec<u8, A>>, A>,
    /// The inflater, which inflates again the streams that are not cached.
    pub inflater: Inflater,
}

/// A scanner of a pack that arrives in pieces. The scanner reads each complete entry, and passes
/// undeltified objects to a visitor.
///
/// An incomplete entry is inflated again only when twice as many of its bytes have arrived. So the
/// total work is linear in the length of the pack, even if the pieces are small.
#[derive(Drop)]
pub(crate) struct Scanner<A: Allocator + Copy> {
    alloc: A,
    limits: IndexLimits,
    // The offset of the next entry.
    next_entry: usize,
    // The number of bytes that must have arrived before the next scan.
    needed: usize,
    entries: Vec<Scanned, A>,
    cache: Vec<Option<Vec<u8, A>>, A>,
    // The number of bytes of memory that the cached streams use.
    cached: usize,
    // The total size of all inflated streams so far.
    total: usize,
    // The first fault, which `finish` reports.
    fault: Option<PackFileFault>,
    inflater: Inflater,
}

impl<A: Allocator + Copy> Scanner<A> {
    /// Returns a scanner that has received no bytes of its pack.
    pub(crate) fn new(alloc: A, limits: IndexLimits) -> Scanner<A> {
        Scanner {
            alloc,
            limits,
            next_entry: HEADER_BYTES,
            needed: 0,
            entries: Vec::new(alloc),
            cache: Vec::new(alloc),
            cached: 0,
            total: 0,
            fault: None,
            inflater: Inflater::new(),
        }
    }

    /// Scans the received bytes of a pack with `count` entries. Returns the offset before which no
    /// bytes are needed any more. A fault is reported only by `finish`, since a wrong trailer takes
    /// precedence.
    pub(crate) fn scan<V: ObjectVisitor>(
        &mut self,
        count: u32,
        part: PackPart<'_>,
        visitor: &mut V,
    ) -> usize {
        let end = part.end();
        if self.fault.is_none() && end >= self.needed {
            if let Err(fault) = self.scan_entries(count, part, visitor) {
                self.fault = Some(fault);
            }
            self.needed = self.needed_after(end);
        }
        if self.fault.is_some() || self.has_all(count) {
            usize::MAX
        } else {
            self.next_entry
        }
    }

    /// Scans the remaining entries of a complete pack with `count` entries. Fails with the first
    /// fault of the pack or of the visitor.
    pub(crate) fn finish<V: ObjectVisitor>(
        self,
        count: u32,
        part: PackPart<'_>,
        visitor: &mut V,
    ) -> Result<ScannedPack<A>, PackFileFault> {
        let mut scanner = self;
        if let Some(fault) = scanner.fault {
            return Err(fault);
        }
        scanner.scan_entries(count, part, visitor)?;
        if !scanner.has_all(count) {
            return Err(PackFileFault::Entry(scanner.entries.len()));
        }
        if scanner.next_entry != part.end() {
            return Err(PackFileFault::Frame);
        }
        Ok(scanner.into_pack(count))
    }

    // Returns whether all entries are scanned.
    fn has_all(&self, count: u32) -> bool {
        self.entries.len() >= count as usize
    }

    // Returns the number of bytes that must have arrived before the next scan, if `end` bytes have
    // arrived.
    fn needed_after(&self, end: usize) -> usize {
        let unscanned = end.saturating_sub(self.next_entry);
        let longest = self.next_entry.saturating_add(MAX_ENTRY);
        end.saturating_add(unscanned.max(BATCH)).min(longest)
    }

    fn into_pack(self, count: u32) -> ScannedPack<A> {
        let limits = self.limits.for_count(count);
        ScannedPack {
            alloc: self.alloc,
            limits: IndexLimits {
                total: limits.total.saturating_sub(self.total),
                ..limits
            },
            entries: self.entries,
            cache: self.cache,
            inflater: self.inflater,
        }
    }

    // Scans entries until an entry is incomplete.
    fn scan_entries<V: ObjectVisitor>(
        &mut self,
        count: u32,
        part: PackPart<'_>,
        visitor: &mut V,
    ) -> Result<(), PackFileFault> {
        let limits = self.limits.for_count(count);
        if count as usize > limits.objects {
            return Err(PackFileFault::TooLarge);
        }
        for _entry in self.entries.len()..count as usize {
            if !self.scan_entry(limits, part, visitor)? {
                return Ok(());
            }
        }
        Ok(())
    }

    // Scans the next entry. Returns `false` if some bytes of the entry have not arrived. Fails with
    // `TooLarge` if the entry is longer than `MAX_ENTRY`, even if its end has not arrived.
    fn scan_entry<V: ObjectVisitor>(
        &mut self,
        limits: IndexLimits,
        part: PackPart<'_>,
        visitor: &mut V,
    ) -> Result<bool, PackFileFault> {
        let start = self.next_entry;
        let number = self.entries.len();
        let bytes = at_most_one_entry(part.from(start));
        let Some(head) = complete_head(bytes, number)? else {
            return Ok(false);
        };
        let total = self.total_with(limits, head.size)?;
        let after = bytes.get(head.length..).unwrap_or(b"");
        let inflated = inflate(self.alloc, &mut self.inflater, after, head.size, number)?;
        let Some(inflated) = inflated else {
            return wait_for_more(bytes);
        };
        let object = visit_undeltified(head.form, inflated.body.as_slice(), visitor)?;
        let length = head.length.saturating_add(inflated.length);
        let end = start.saturating_add(length);
        self.entries.push(Scanned {
            start,
            stream: start.saturating_add(head.length),
            end,
            size: head.size,
            form: head.form,
            crc: crc32_of(bytes.get(..length).unwrap_or(b"")),
            object,
        })?;
        self.cache_stream(inflated.body)?;
        self.total = total;
        self.next_entry = end;
        Ok(true)
    }

    // Returns the sum of `size` and the total size of the inflated streams so far. Fails with
    // `TooLarge` if a limit is exceeded.
    fn total_with(&self, limits: IndexLimits, size: usize) -> Result<usize, PackFileFault> {
        let total = self.total.saturating_add(size);
        if size > limits.object || total > limits.total {
            return Err(PackFileFault::TooLarge);
        }
        Ok(total)
    }

    // Caches the inflated stream of the last entry, unless the cache is full.
    fn cache_stream(&mut self, stream: Vec<u8, A>) -> Result<(), PackFileFault> {
        let cached = self.cached.saturating_add(stream.capacity());
        if cached > MAX_CACHED {
            self.cache.push(None)?;
        } else {
            self.cache.push(Some(stream))?;
            self.cached = cached;
        }
        Ok(())
    }
}

// Returns the first `MAX_ENTRY` bytes, or all bytes if there are fewer.
fn at_most_one_entry(bytes: &[u8]) -> &[u8] {
    bytes.get(..MAX_ENTRY).unwrap_or(bytes)
}

// Returns the header of the entry at index `number`, or `None` if the header is incomplete. Fails
// with `Entry` if the header is malformed.
fn complete_head(bytes: &[u8], number: usize) -> Result<Option<EntryHead>, PackFileFault> {
    match read_head(bytes) {
        Some(head) => Ok(Some(head)),
        None if bytes.len() < MAX_HEAD => Ok(None),
        None => Err(PackFileFault::Entry(number)),
    }
}

// Returns `false`, since the entry that begins with these bytes is incomplete. Fails with
// `TooLarge` if the entry is longer than `MAX_ENTRY`.
fn wait_for_more(bytes: &[u8]) -> Result<bool, PackFileFault> {
    if bytes.len() < MAX_ENTRY {
        Ok(false)
    } else {
        Err(PackFileFault::TooLarge)
    }
}

// Passes the object of an undeltified entry to the visitor, and returns its id and type. Returns
// `None` if the entry is a delta.
fn visit_undeltified<V: ObjectVisitor>(
    form: EntryForm,
    body: &[u8],
    visitor: &mut V,
) -> Result<Option<Object>, PackFileFault> {
    let EntryForm::Whole(kind) = form else {
        return Ok(None);
    };
    let id = id_of(kind, body);
    visitor.visit(&id, kind, body)?;
    Ok(Some(Object { id, kind }))
}

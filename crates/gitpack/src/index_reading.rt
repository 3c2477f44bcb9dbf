//! Reading the tables of a pack index (gitformat-pack(5)).

ghost use Rattle.std.specs.Prelude.{◌≡◌, ◌^◌, ◌<◌, ◌++◌, ◌∷◌, ℕ, All, IfOk, IfSome, List, MatchOption, length};
ghost use Rattle.gitpack.specs.Indexes.{AreEntries, IsLine, index_tables, long_bytes};
ghost use Rattle.gitpack.specs.declared.index.IndexEntry.{IndexEntry};
ghost use Rattle.gitpack.specs.steps.Rows.{AreRows, index_rows, longs_with, short_of};

use crate::index::{IndexEntry, MAX_ENTRIES};
use gitobject::{ID_BYTES, id_of_bytes};
use std::alloc::{AllocError, Allocator};

// The offset of the last number of the fan-out table in the index. This number is the number of
// entries.
const COUNT: usize = 1_028;

// The bit of a number in the table of 32-bit offsets that is set if the other bits are a position
// in the table of 64-bit offsets.
const LONG_MARK: u32 = 1 << 31;

// The unread parts of the tables of a pack index.
#[derive(Clone, Copy)]
struct Tables<'a> {
    ids: &'a [u8],
    crcs: &'a [u8],
    offsets: &'a [u8],
    long_offsets: &'a [u8],
}

/// Returns the entries of a pack index, or `None` if there are too few bytes or at least 2^31
/// entries. `bytes` is the index without its two checksums. The signature, the fan-out table and
/// the order of the ids are not checked.
///
/// Fails only if out of memory.
pub(crate) fn read_entries<A: Allocator + Copy>(
    alloc: A,
    bytes: &[u8],
) -> Result<Option<Vec<IndexEntry, A>>, AllocError>
    ensures lines { IfOk result (λ found. IfSome found (λ entries. All IsLine entries.items)) }
    ensures whole { (all : List IndexEntry) → AreEntries all → bytes.now ≡ index_tables all
        → IfOk result (λ found. MatchOption found ⊥ (λ entries. entries.items ≡ all)) }
{
    let Some((count, rows)) = split_count(bytes) else {
        return Ok(None);
    };
    let Some(tables) = split_tables(rows, count) else {
        return Ok(None);
    };
    read_lines(alloc, tables, count)
}

// Returns the number of entries, and the bytes after the fan-out table. Returns `None` if there are
// too few bytes.
fn split_count(bytes: &[u8]) -> Option<(usize, &[u8])>
    ensures { (all : List IndexEntry) → AreEntries all → bytes.now ≡ index_tables all
        → MatchOption result ⊥ (λ it. (it.0 ≡ length all) × (it.1.now ≡ index_rows all)) }
{
    let Some((_before, after)) = bytes.split_at_checked(COUNT) else {
        return None;
    };
    let Some((count, rows)) = after.split_first_chunk::<4>() else {
        return None;
    };
    Some((u32::from_be_bytes(*count) as usize, rows))
}

// Splits the bytes after the fan-out table into the tables of `count` entries. Returns `None` if
// there are too few bytes, or if `count` is at least 2^31.
fn split_tables(rows: &[u8], count: usize) -> Option<Tables<'_>>
    ensures { (all : List IndexEntry) → AreEntries all → count ≡ length all
        → rows.now ≡ index_rows all
        → MatchOption result ⊥ (λ it. AreRows it.ids.now it.crcs.now it.offsets.now it.long_offsets.now 0 all) }
{
    if count > MAX_ENTRIES {
        return None;
    }
    let Some((ids, rest)) = rows.split_at_checked(count * ID_BYTES) else {
        return None;
    };
    let Some((crcs, others)) = rest.split_at_checked(count * 4) else {
        return None;
    };
    let Some((offsets, long_offsets)) = others.split_at_checked(count * 4) else {
        return None;
    };
    Some(Tables {
        ids,
        crcs,
        offsets,
        long_offsets,
    })
}

// Reads `count` entries from these tables. Returns `None` if the tables are too short.
fn read_lines<A: Allocator + Copy>(
    alloc: A,
    tables: Tables<'_>,
    count: usize,
) -> Result<Option<Vec<IndexEntry, A>>, AllocError>
    ensures lines { IfOk result (λ found. IfSome found (λ entries. All IsLine entries.items)) }
    ensures whole { (all : List IndexEntry) → AreEntries all → count ≡ length all
        → AreRows tables.entry.ids.now tables.entry.crcs.now tables.entry.offsets.now tables.entry.long_offsets.now 0 all
        → IfOk result (λ found. MatchOption found ⊥ (λ entries. entries.items ≡ all)) }
{
    let mut entries = Vec::with_capacity(alloc, count)?;
    let mut left = tables;
    for _line in 0..count {
        let Some((entry, more)) = split_line(left) else {
            return Ok(None);
        };
        entries.push(entry)?;
        left = more;
    }
    Ok(Some(entries))
}

// Returns the first entry in these tables, and the tables without this entry. Returns `None` if a
// table is too short.
fn split_line(tables: Tables<'_>) -> Option<(IndexEntry, Tables<'_>)>
    ensures line { IfSome result (λ it. IsLine it.0) }
    ensures first { (longs : ℕ) (line : IndexEntry) (more : List IndexEntry)
        → IsLine line → longs < 2 ^ 31
        → AreRows tables.entry.ids.now tables.entry.crcs.now tables.entry.offsets.now tables.entry.long_offsets.now longs (line ∷ more)
        → MatchOption result ⊥ (λ it. (it.0 ≡ line)
        × AreRows it.1.ids.now it.1.crcs.now it.1.offsets.now it.1.long_offsets.now (longs_with longs line) more) }
{
    let Some((id, ids)) = tables.ids.split_first_chunk::<ID_BYTES>() else {
        return None;
    };
    let Some((crc, crcs)) = tables.crcs.split_first_chunk::<4>() else {
        return None;
    };
    let Some((short, offsets)) = tables.offsets.split_first_chunk::<4>() else {
        return None;
    };
    let short = u32::from_be_bytes(*short);
    let Some((offset, long_offsets)) = split_offset(short, tables.long_offsets) else {
        return None;
    };
    let entry = IndexEntry {
        id: id_of_bytes(id),
        crc: u32::from_be_bytes(*crc),
        offset,
    };
    let more = Tables {
        ids,
        crcs,
        offsets,
        long_offsets,
    };
    Some((entry, more))
}

// Returns the offset that a number in the table of 32-bit offsets denotes, and the unread part of
// the table of 64-bit offsets. Returns `None` if the offset is missing in the latter table.
fn split_offset(short: u32, longs: &[u8]) -> Option<(u64, &[u8])>
    ensures { (before : ℕ) (line : IndexEntry) (more : List ℕ) → IsLine line
        → short ≡ short_of before line → longs.now ≡ long_bytes line ++ more
        → MatchOption result ⊥ (λ it. (it.0 ≡ line.offset) × (it.1.now ≡ more)) }
{
    if short < LONG_MARK {
        return Some((u64::from(short), longs));
    }
    let Some((long, rest)) = longs.split_first_chunk::<8>() else {
        return None;
    };
    Some((u64::from_be_bytes(*long), rest))
}

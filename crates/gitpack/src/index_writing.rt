//! Writing a pack index (gitformat-pack(5)).

ghost use Rattle.std.specs.Prelude.{◌≡◌, ℕ, ◌^◌, ◌<◌, ◌≤◌, ◌++◌, IfOk, OnOk, length, slice_index};
ghost use Rattle.std.specs.List.{flat_map};
ghost use Rattle.gitpack.specs.Indexes.{crc_bytes, fan_out, id_bytes, index_body, index_text, long_bytes, short_offsets};
ghost use Rattle.gitpack.specs.steps.FirstBytes.{ids_beginning};

use crate::index::IndexEntry;
use gname::Oid;
use sha1::Sha1;
use std::alloc::{AllocError, Allocator};

// The signature and version 2 of a pack index.
const HEADER: &[u8; 8] = b"\xfftOc\0\0\0\x02";

// The lowest offset that is written in the table of 64-bit offsets.
const LONG: u64 = 1 << 31;

// The bit that marks a number as a position in the table of 64-bit offsets.
const LONG_MARK: u32 = 1 << 31;

// Appends a pack index without its own checksum.
fn put_body<A: Allocator + Copy>(
    out: &mut Vec<u8, A>,
    entries: &[IndexEntry],
    checksum: &Oid,
) -> Result<(), AllocError>
    requires { length entries.now < 2 ^ 31 }
    ensures { OnOk result (out.new.items ≡ out.old.items
        ++ index_body (record { entries = entries.now; checksum = checksum.now })) }
{
    out.extend_from_slice(HEADER)?;
    put_fan_out(out, entries)?;
    put_ids(out, entries)?;
    put_crcs(out, entries)?;
    put_offsets(out, entries)?;
    put_long_offsets(out, entries)?;
    out.extend_from_slice(checksum.as_bytes())
}

// Appends the fan-out table of the entries.
fn put_fan_out<A: Allocator + Copy>(
    out: &mut Vec<u8, A>,
    entries: &[IndexEntry],
) -> Result<(), AllocError>
    requires { length entries.now < 2 ^ 31 }
    ensures { OnOk result (out.new.items ≡ out.old.items ++ fan_out 256 entries.now) }
{
    let counts = count_by_first(entries);
    let mut total = 0;
    for byte in 0..256 {
        total += counts[byte];
        out.extend_from_slice(&total.to_be_bytes())?;
    }
    Ok(())
}

/// Returns, for each byte value, the number of ids whose first byte has this value.
pub(crate) fn count_by_first(entries: &[IndexEntry]) -> [u32; 256]
    requires { length entries.now < 2 ^ 31 }
    ensures { (byte : ℕ) → byte < 256
        → slice_index result byte ≡ ids_beginning byte entries.now }
{
    let mut counts = [0; 256];
    for entry in entries {
        let byte = first_byte(&entry.id);
        counts[byte] += 1;
    }
    counts
}

/// Returns the first byte of an id.
pub(crate) fn first_byte(id: &Oid) -> usize
    ensures value { result ≡ slice_index id.now 0 }
    ensures small { result < 256 }
{
    usize::from(id.as_bytes()[0])
}

// Appends the ids of the entries.
fn put_ids<A: Allocator + Copy>(
    out: &mut Vec<u8, A>,
    entries: &[IndexEntry],
) -> Result<(), AllocError>
    ensures { OnOk result (out.new.items ≡ out.old.items ++ flat_map id_bytes entries.now) }
{
    for entry in entries {
        out.extend_from_slice(entry.id.as_bytes())?;
    }
    Ok(())
}

// Appends the CRC-32 of each entry.
fn put_crcs<A: Allocator + Copy>(
    out: &mut Vec<u8, A>,
    entries: &[IndexEntry],
) -> Result<(), AllocError>
    ensures { OnOk result (out.new.items ≡ out.old.items ++ flat_map crc_bytes entries.now) }
{
    for entry in entries {
        out.extend_from_slice(&entry.crc.to_be_bytes())?;
    }
    Ok(())
}

// Appends the table of 32-bit offsets.
fn put_offsets<A: Allocator + Copy>(
    out: &mut Vec<u8, A>,
    entries: &[IndexEntry],
) -> Result<(), AllocError>
    requires { length entries.now < 2 ^ 31 }
    ensures { OnOk result (out.new.items ≡ out.old.items ++ short_offsets 0 entries.now) }
{
    let mut longs = 0;
    for entry in entries {
        if entry.offset < LONG {
            out.extend_from_slice(&(entry.offset as u32).to_be_bytes())?;
        } else {
            out.extend_from_slice(&(LONG_MARK + longs).to_be_bytes())?;
            longs += 1;
        }
    }
    Ok(())
}

// Appends the table of 64-bit offsets.
fn put_long_offsets<A: Allocator + Copy>(
    out: &mut Vec<u8, A>,
    entries: &[IndexEntry],
) -> Result<(), AllocError>
    ensures { OnOk result (out.new.items ≡ out.old.items ++ flat_map long_bytes entries.now) }
{
    for entry in entries {
        if entry.offset >= LONG {
            out.extend_from_slice(&entry.offset.to_be_bytes())?;
        }
    }
    Ok(())
}

/// Returns the bytes of a pack index without its own checksum. Fails only if out of memory.
pub(crate) fn body_of<A: Allocator + Copy>(
    alloc: A,
    entries: &[IndexEntry],
    checksum: &Oid,
) -> Result<Vec<u8, A>, AllocError>
    requires { length entries.now < 2 ^ 31 }
    ensures { IfOk result (λ text. text.items
        ≡ index_body (record { entries = entries.now; checksum = checksum.now })) }
{
    let mut text = Vec::new(alloc);
    put_body(&mut text, entries, checksum)?;
    Ok(text)
}

/// Returns the bytes of a pack index. Fails only if out of memory.
pub(crate) fn write_index<A: Allocator + Copy>(
    alloc: A,
    entries: &[IndexEntry],
    checksum: &Oid,
) -> Result<Vec<u8, A>, AllocError>
    requires { length entries.now < 2 ^ 31 }
    ensures { IfOk result (λ text. text.items
        ≡ index_text (record { entries = entries.now; checksum = checksum.now })) }
{
    let mut text = body_of(alloc, entries, checksum)?;
    let own = Sha1::digest(text.as_slice());
    text.extend_from_slice(&own)?;
    Ok(text)
}

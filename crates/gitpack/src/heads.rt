//! Writing the headers of pack entries.

ghost use Rattle.std.specs.Prelude.{◌≡◌, ◌+◌, ◌^◌, ◌<◌, ◌≤◌, ◌++◌, ◌∷◌, [], suc, All, List, ℕ, OnOk, length};
ghost use Rattle.gname.specs.Ids.{IsIdOf};
ghost use Rattle.gname.specs.declared.formats.Format.TheVariants as formats;
ghost use Rattle.gitpack.specs.Entries.{IsHead, IsTypeAndSize};
ghost use Rattle.gitpack.specs.Numbers.{IsNumber, IsOffset, high_first, low_first};

use crate::entry::{EntryForm, OFFSET_DELTA, REF_DELTA};
use crate::fault::PackFileFault;
use gname::{Format, Oid};
use std::alloc::{AllocError, Allocator};

// The bit of a byte that is set if more bytes of the number follow.
const MORE: u8 = 128;

// The number of values of a group of seven bits.
const GROUP_VALUES: usize = 128;

// The number of values of the low four bits of the first byte. These bits are part of the size.
const LOW_SIZES: usize = 16;

// The lowest size that nine bytes cannot encode.
const SIZES: usize = 1 << 60;

// The lowest offset that is refused. Eight bytes can encode all lower offsets.
const OFFSETS: usize = 1 << 56;

/// Appends the header of an entry of type `form`, whose stream inflates to `size` bytes.
///
/// Fails with `TooLarge` if the size has more than 60 bits or the offset more than 56. Fails with
/// `Format` if the id of the base is not a SHA-1 id, or with `Memory` if out of memory. After a
/// fault, a part of the header may have been appended.
pub(crate) fn put_head<A: Allocator + Copy>(
    out: &mut Vec<u8, A>,
    form: EntryForm,
    size: usize,
) -> Result<(), PackFileFault>
    ensures { OnOk result ((head : List ℕ) × IsHead form size head
        × (out.new.items ≡ out.old.items ++ head)) }
{
    match form {
        EntryForm::Whole(kind) => put_type_and_size(out, kind.pack_number(), size),
        EntryForm::OffsetDelta(back) => {
            put_type_and_size(out, OFFSET_DELTA, size)?;
            put_offset(out, back)
        }
        EntryForm::RefDelta(base) => {
            put_type_and_size(out, REF_DELTA, size)?;
            put_id(out, &base)
        }
    }
}

// Appends the type number and the size of an entry header.
fn put_type_and_size<A: Allocator + Copy>(
    out: &mut Vec<u8, A>,
    number: u8,
    size: usize,
) -> Result<(), PackFileFault>
    requires { number < 8 }
    ensures { OnOk result ((text : List ℕ) × IsTypeAndSize number size text
        × (out.new.items ≡ out.old.items ++ text)) }
{
    if size >= SIZES {
        return Err(PackFileFault::TooLarge);
    }
    let first = number * 16 + (size % LOW_SIZES) as u8;
    let high = size / LOW_SIZES;
    if high == 0 {
        out.push(first)?;
        return Ok(());
    }
    out.push(MORE + first)?;
    put_size(out, high)?;
    Ok(())
}

/// Appends a number in groups of seven bits, the lowest group first.
pub(crate) fn put_size<A: Allocator + Copy>(
    out: &mut Vec<u8, A>,
    number: usize,
) -> Result<(), AllocError>
    ensures { OnOk result ((text : List ℕ) × IsNumber text × (number ≡ low_first text)
        × ((k : ℕ) → number < 128 ^ (k + 1) → length text ≤ k + 1)
        × (out.new.items ≡ out.old.items ++ text)) }
{
    let digit = (number % GROUP_VALUES) as u8;
    let high = number / GROUP_VALUES;
    if high == 0 {
        out.push(digit)?;
        return Ok(());
    }
    out.push(MORE + digit)?;
    put_size(out, high)
}

// Appends the offset of a base, as in the header of an offset delta.
fn put_offset<A: Allocator + Copy>(out: &mut Vec<u8, A>, offset: usize) -> Result<(), PackFileFault>
    ensures { OnOk result ((text : List ℕ) × IsOffset text offset
        × (out.new.items ≡ out.old.items ++ text)) }
{
    if offset >= OFFSETS {
        return Err(PackFileFault::TooLarge);
    }
    let digit = (offset % GROUP_VALUES) as u8;
    let high = offset / GROUP_VALUES;
    if high == 0 {
        out.push(digit)?;
        return Ok(());
    }
    put_high(out, high - 1)?;
    out.push(digit)?;
    Ok(())
}

// Appends all bytes of an encoded offset except the last byte.
fn put_high<A: Allocator + Copy>(out: &mut Vec<u8, A>, number: usize) -> Result<(), AllocError>
    ensures { OnOk result ((text : List ℕ) × (0 < length text) × All (λ b. 128 ≤ b) text
        × (number ≡ high_first text)
        × ((k : ℕ) → number < 128 ^ (k + 1) → length text ≤ k + 1)
        × (out.new.items ≡ out.old.items ++ text)) }
{
    let byte = MORE + (number % GROUP_VALUES) as u8;
    let high = number / GROUP_VALUES;
    if high == 0 {
        out.push(byte)?;
        return Ok(());
    }
    put_high(out, high - 1)?;
    out.push(byte)?;
    Ok(())
}

// Appends the bytes of an id.
fn put_id<A: Allocator + Copy>(out: &mut Vec<u8, A>, id: &Oid) -> Result<(), PackFileFault>
    ensures { OnOk result (IsIdOf formats.Sha1 id.now × (out.new.items ≡ out.old.items ++ id.now)) }
{
    match id.format() {
        Format::Sha1 => {
            out.extend_from_slice(id.as_bytes())?;
            Ok(())
        }
        Format::Sha256 => Err(PackFileFault::Format),
    }
}

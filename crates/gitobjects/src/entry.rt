//! Parsing and inflating pack entries (gitformat-pack(5)).

ghost use Rattle.std.specs.Prelude.{IfOk};
ghost use Rattle.gitobjects.specs.Inflated.{IsInflatedFrom};

use crate::fault::Cause;
use crate::limits::MAX_OBJECT;
use gitpack::{EntryForm, EntryHead, read_head};
use gzlib::{InflateFault, Inflater};
use std::alloc::Allocator;

/// An inflated pack entry: its form, its size, and its contents. The contents are the body of an
/// object, or a delta.
#[derive(Drop)]
pub(crate) struct Inflated<A: Allocator + Copy> {
    pub(crate) form: EntryForm,
    pub(crate) size: usize,
    pub(crate) text: Vec<u8, A>,
}

/// An unchanged pack entry, to be copied.
#[derive(Drop)]
pub struct RawEntry<A: Allocator + Copy> {
    /// The header of the entry.
    pub head: EntryHead,
    /// The position of the base in the index of the same pack, if the entry is a delta.
    pub base: Option<usize>,
    /// All bytes of the entry: the header, and then the stream.
    pub bytes: Vec<u8, A>,
}

/// The maximum ratio of the inflated size of a zlib stream to the length of the stream.
pub(crate) const MAX_RATIO: usize = 1_032;

// The maximum length of a match in a zlib stream (RFC 1951, section 3.2.5), and the number of extra
// bytes that an inflater reserves.
const MAX_MATCH: usize = 258;

/// Inflates the pack entry that consists of exactly these bytes.
///
/// Fails with `Head` or `Stream` if the header or the stream is malformed, with `ObjectSize` if the
/// contents are too large, or with `Memory` if out of memory.
pub(crate) fn inflate_entry<A: Allocator + Copy>(
    alloc: A,
    inflater: &mut Inflater,
    bytes: &[u8],
) -> Result<Inflated<A>, Cause>
    ensures { IfOk result
        (λ entry. IsInflatedFrom bytes.now entry.form entry.size entry.text.items) }
{
    let Some(head) = read_head(bytes) else {
        return Err(Cause::Head);
    };
    let Some(stream) = bytes.get(head.length..) else {
        return Err(Cause::Head);
    };
    let size = head.size;
    if size > MAX_OBJECT {
        return Err(Cause::ObjectSize);
    }
    let room = size.min(stream.len().saturating_mul(MAX_RATIO));
    let mut text = Vec::with_capacity(alloc, room.saturating_add(MAX_MATCH))?;
    match inflater.inflate(stream, &mut text, size) {
        Ok(length) if length == stream.len() && text.len() == size => {
            let form = head.form;
            Ok(Inflated { form, size, text })
        }
        Err(InflateFault::Memory) => Err(Cause::Memory),
        _ => Err(Cause::Stream),
    }
}

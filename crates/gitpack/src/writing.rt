//! Writing a pack.

ghost use Rattle.std.specs.Prelude.{◌≡◌, ◌++◌, IfOk, OnOk, length};
ghost use Rattle.gname.specs.Ids.{Id};
ghost use Rattle.gzlib.specs.Stored.{stored_stream};
ghost use Rattle.gitpack.specs.Packs.{AddsEntry, pack_header, with_trailer};
ghost use Rattle.gitpack.specs.declared.entry.EntryForm.TheVariants as forms;

use crate::entry::EntryForm;
use crate::fault::PackFileFault;
use crate::frame::SIGNATURE;
use crate::heads::put_head;
use gitobject::ObjectType;
use gname::Oid;
use gzlib::put_stored;
use sha1::Sha1;
use std::alloc::{AllocError, Allocator};
use std::marker::Model;

/// A writer that builds a pack entry by entry. In contracts, a writer is the list of bytes written
/// so far.
///
/// After a fault, a part of an entry may have been written, and the pack is unusable.
#[derive(Drop)]
pub struct PackWriter<A: Allocator + Copy> {
    alloc: A,
    bytes: Vec<u8, A>,
    most: usize,
}

impl<A: Allocator + Copy> Model for PackWriter<A> {
    ghost use Rattle.std.specs.Prelude.{ℕ, List};

    ghost Value = { List ℕ };

    ghost view = { λ writer. writer.bytes.items };
}

impl<A: Allocator + Copy> PackWriter<A> {
    /// Returns a writer for a pack of `count` entries, with reserved memory for `room` bytes. The
    /// pack may have at most `most` bytes without its trailer. Fails only if out of memory.
    pub fn new(alloc: A, count: u32, room: usize, most: usize) -> Result<PackWriter<A>, AllocError>
        ensures { IfOk result (λ writer. writer ≡ pack_header count) }
    {
        let mut bytes = Vec::with_capacity(alloc, room)?;
        put_header(&mut bytes, count)?;
        Ok(PackWriter { alloc, bytes, most })
    }

    /// Returns the offset of the next entry.
    pub fn position(&self) -> usize
        ensures { result ≡ length self.now }
    {
        self.bytes.len()
    }

    /// Appends an undeltified object of `size` bytes, with the zlib stream `stream`.
    ///
    /// Fails with `TooLarge` if the size has more than 60 bits or the pack would exceed its limit.
    /// Fails with `Memory` if out of memory.
    pub fn put_whole(
        &mut self,
        kind: ObjectType,
        size: usize,
        stream: &[u8],
    ) -> Result<(), PackFileFault>
        ensures { OnOk result (AddsEntry (forms.Whole kind) size stream.now self.old self.new) }
    {
        self.put_entry(EntryForm::Whole(kind), size, stream)
    }

    /// Appends a delta of `size` bytes, with the zlib stream `stream`. The base of the delta is the
    /// object whose entry begins `back` bytes earlier.
    ///
    /// Fails for the same reasons as `put_whole`, and with `TooLarge` if the offset has more than
    /// 56 bits.
    pub fn put_offset_delta(
        &mut self,
        size: usize,
        back: usize,
        stream: &[u8],
    ) -> Result<(), PackFileFault>
        ensures { OnOk result
            (AddsEntry (forms.OffsetDelta back) size stream.now self.old self.new) }
    {
        self.put_entry(EntryForm::OffsetDelta(back), size, stream)
    }

    /// Appends a delta of `size` bytes, with the zlib stream `stream`. The base of the delta is the
    /// object with id `base`.
    ///
    /// Fails for the same reasons as `put_whole`, and with `Format` if the base's id is not a SHA-1
    /// id.
    pub fn put_ref_delta(
        &mut self,
        size: usize,
        base: &Oid,
        stream: &[u8],
    ) -> Result<(), PackFileFault>
        ensures { OnOk result
            (AddsEntry (forms.RefDelta base.now) size stream.now self.old self.new) }
    {
        self.put_entry(EntryForm::RefDelta(*base), size, stream)
    }

    /// Appends an undeltified object with these bytes, in a zlib stream without compression.
    ///
    /// Fails for the same reasons as `put_whole`.
    pub fn put_body(&mut self, kind: ObjectType, body: &[u8]) -> Result<(), PackFileFault>
        ensures { OnOk result (AddsEntry (forms.Whole kind) (length body.now)
            (stored_stream body.now) self.old self.new) }
    {
        let mut stream = Vec::new(self.alloc);
        put_stored(&mut stream, body)?;
        self.put_entry(EntryForm::Whole(kind), body.len(), stream.as_slice())
    }

    // Appends an entry of type `form`.
    fn put_entry(
        &mut self,
        form: EntryForm,
        size: usize,
        stream: &[u8],
    ) -> Result<(), PackFileFault>
        ensures { OnOk result (AddsEntry form size stream.now self.old self.new) }
    {
        put_entry(&mut self.bytes, form, size, stream, self.most)
    }

    /// Appends the trailer, and returns the pack. Fails only if out of memory.
    pub fn finish(self) -> Result<Vec<u8, A>, AllocError>
        ensures { IfOk result (λ pack. pack.items ≡ with_trailer self) }
    {
        let mut pack = self.bytes;
        let trailer = Sha1::digest(pack.as_slice());
        pack.extend_from_slice(&trailer)?;
        Ok(pack)
    }
}

/// Appends the header of a pack of `count` entries. Fails only if out of memory.
pub fn put_header<A: Allocator + Copy>(out: &mut Vec<u8, A>, count: u32) -> Result<(), AllocError>
    ensures { OnOk result (out.new.items ≡ out.old.items ++ pack_header count) }
{
    out.extend_from_slice(SIGNATURE)?;
    out.extend_from_slice(&count.to_be_bytes())
}

/// Appends an entry of type `form`, whose zlib stream inflates to `size` bytes.
///
/// Fails with `TooLarge` if the size has more than 60 bits, an offset has more than 56 bits, or
/// `out` would have more than `most` bytes. Fails with `Format` if the base's id is not a SHA-1 id,
/// or with `Memory` if out of memory. After a fault, a part of the entry may have been appended.
pub fn put_entry<A: Allocator + Copy>(
    out: &mut Vec<u8, A>,
    form: EntryForm,
    size: usize,
    stream: &[u8],
    most: usize,
) -> Result<(), PackFileFault>
    ensures { OnOk result (AddsEntry form size stream.now out.old.items out.new.items) }
{
    put_head(out, form, size)?;
    if stream.len() > most.saturating_sub(out.len()) {
        return Err(PackFileFault::TooLarge);
    }
    out.extend_from_slice(stream)?;
    Ok(())
}

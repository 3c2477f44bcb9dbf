//! A pack returned in parts, with as many entries as its header says.

ghost use Rattle.std.specs.Prelude.{◌≡◌, ◌⊎◌, ◌+◌, ◌<◌, ◌≤◌, ◌↔◌, [], ◌++◌, List, ℕ, IfOk, IsTrue, OnOk, length, take};
ghost use Rattle.gparts.specs.Parts.{max_parts};
ghost use Rattle.gitrepository.specs.Parts.{GoesOn, IsGivenWhole, IsGoing, rest_of};

use crate::fault::RepositoryFault;
use gitpack::{EntryForm, PackFileFault, put_entry, put_header};
use gparts::MAX_PARTS;
use sha1::Sha1;
use std::alloc::{AllocError, Allocator};

// The length of the trailer of a pack.
const TRAILER: usize = 20;

// The maximum capacity that is kept for the next entry.
const MAX_KEPT: usize = 1 << 20;

/// A pack that is returned in parts while it is built. Only the most recently built bytes are in
/// memory.
#[derive(Drop)]
pub(crate) struct Outgoing<A: Allocator + Copy> {
    // The most recently built bytes.
    bytes: Vec<u8, A>,
    // The number of bytes at the front of `bytes` that were already returned.
    given: usize,
    // The total number of built bytes.
    made: usize,
    // The number of bytes that can still be returned within the limit `MAX_PARTS`.
    left: usize,
    // The SHA-1 of all built bytes, except the trailer.
    sum: Sha1,
    // The entry count in the header.
    count: u32,
    // The number of entries built so far.
    put: u32,
    // Whether the last entry is complete. This is also true before the first entry.
    is_between_entries: bool,
    // Whether the trailer was built.
    has_trailer: bool,
}

impl<A: Allocator + Copy> Outgoing<A> {
    /// Returns a pack with a header for `count` entries, and no entries yet.
    pub(crate) fn new(alloc: A, count: u32) -> Result<Outgoing<A>, AllocError>
        ensures going { IfOk result (λ pack. IsGoing count pack []) }
        ensures left { IfOk result (λ pack. pack.left ≡ max_parts) }
    {
        let mut bytes = Vec::new(alloc);
        put_header(&mut bytes, count)?;
        let mut sum = Sha1::new();
        sum.update(bytes.as_slice());
        Ok(Outgoing {
            made: bytes.len(),
            bytes,
            given: 0,
            left: MAX_PARTS,
            sum,
            count,
            put: 0,
            is_between_entries: true,
            has_trailer: false,
        })
    }

    /// Returns the offset of the next entry.
    pub(crate) fn position(&self) -> usize {
        self.made
    }

    /// Returns whether all built bytes were returned.
    pub(crate) fn is_given(&self) -> bool
        ensures { IsTrue result ↔ (length self.now.bytes.items ≤ self.now.given) }
    {
        self.given >= self.bytes.len()
    }

    /// Returns whether the whole pack was returned.
    pub(crate) fn is_fully_returned(&self) -> bool
        ensures { IsTrue result → IsGivenWhole self.now }
    {
        self.has_trailer && self.is_given()
    }

    /// Appends an entry of this form with this zlib stream, which inflates to `size` bytes.
    ///
    /// Fails with `Count` if the pack already has all its entries, the last entry is incomplete, or
    /// built bytes were not yet returned. Fails with `Pack` if the pack is too large, or with
    /// `Memory` if out of memory. After a fault the pack is unusable.
    pub(crate) fn put(
        &mut self,
        form: EntryForm,
        size: usize,
        stream: &[u8],
    ) -> Result<(), RepositoryFault<A>>
        ensures counted { OnOk result (self.old.put < self.old.count) }
        ensures going { OnOk result (GoesOn self.old self.new) }
        ensures left { self.new.left ≡ self.old.left }
    {
        if !self.is_between_entries
            || self.has_trailer
            || self.put >= self.count
            || !self.is_given()
        {
            return Err(RepositoryFault::Count);
        }
        self.is_between_entries = false;
        let max_length = MAX_PARTS.saturating_sub(TRAILER).saturating_sub(self.made);
        empty(&mut self.bytes);
        self.given = 0;
        put_entry(&mut self.bytes, form, size, stream, max_length)?;
        self.sum.update(self.bytes.as_slice());
        self.made = self.made.saturating_add(self.bytes.len());
        self.put += 1;
        self.is_between_entries = true;
        Ok(())
    }

    /// Appends the trailer.
    ///
    /// Fails with `Count` if the number of entries differs from the number in the header, or the
    /// last entry is incomplete. Fails with `Count` if the trailer was already appended, or built
    /// bytes were not yet returned. Fails with `Memory` if out of memory. After a fault the pack is
    /// unusable.
    pub(crate) fn finish(&mut self) -> Result<(), RepositoryFault<A>>
        ensures going { OnOk result (GoesOn self.old self.new) }
        ensures left { self.new.left ≡ self.old.left }
    {
        if !self.is_between_entries
            || self.has_trailer
            || self.put != self.count
            || !self.is_given()
        {
            return Err(RepositoryFault::Count);
        }
        self.is_between_entries = false;
        let sum = std::mem::replace(&mut self.sum, Sha1::new());
        self.bytes.clear();
        self.given = 0;
        self.bytes.extend_from_slice(&sum.finalize())?;
        self.made = self.made.saturating_add(TRAILER);
        self.has_trailer = true;
        self.is_between_entries = true;
        Ok(())
    }

    /// Copies the next built bytes to the front of `out`, and returns their number.
    ///
    /// Fails with `Pack`, and copies no bytes, if the pack is too large.
    pub(crate) fn give(&mut self, out: &mut [u8]) -> Result<usize, RepositoryFault<A>>
        ensures fits { IfOk result (λ count. count ≤ length out.new) }
        ensures length { length out.new ≡ length out.old }
        ensures none { IfOk result (λ count. count ≡ 0
            → (rest_of self.old ≡ []) ⊎ (length out.old ≡ 0)) }
        ensures left { IfOk result (λ count. self.new.left + count ≡ self.old.left) }
        ensures given { IfOk result (λ count. (entries : ℕ) (before : List ℕ)
            → IsGoing entries self.old before
            → IsGoing entries self.new (before ++ take count out.new)) }
    {
        let Some((_before, rest)) = self.bytes.as_slice().split_at_checked(self.given) else {
            return Err(RepositoryFault::Count);
        };
        let count = rest.len().min(out.len());
        if count > self.left {
            return Err(RepositoryFault::Pack(PackFileFault::TooLarge));
        }
        out[..count].copy_from_slice(&rest[..count]);
        self.given += count;
        self.left -= count;
        Ok(count)
    }
}

// Removes all bytes, and frees the memory of a long entry.
fn empty<A: Allocator + Copy>(bytes: &mut Vec<u8, A>)
    ensures items { bytes.new.items ≡ [] }
{
    if bytes.capacity() > MAX_KEPT {
        *bytes = Vec::new(*bytes.allocator());
    } else {
        bytes.clear();
    }
}

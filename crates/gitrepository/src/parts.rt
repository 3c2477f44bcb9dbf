//! A pack of the objects of a Git directory, returned in parts.

ghost use Rattle.std.specs.Prelude.{◌≡◌, ◌+◌, ◌<◌, ◌≤◌, [], ◌++◌, List, ℕ, IfOk, OnOk, length, take};
ghost use Rattle.gparts.specs.Parts.{max_parts};
ghost use Rattle.gitrepository.specs.Parts.{GoesOn, IsBegun, IsGivenWhole, IsGoing};

use crate::copying::{Copying, PackCounts};
use crate::fault::RepositoryFault;
use crate::outgoing::Outgoing;
use ggraph::Entry;
use gitobjects::{ObjectFiles, ObjectReader};
use gitpack::PackFileFault;
use gitwalk::gather;
use std::alloc::Allocator;

/// A pack of some commits and tags with their trees and blobs, returned in parts. Only one entry at
/// a time is in memory.
#[derive(Drop)]
pub struct StoreParts<A: Allocator + Copy> {
    pub(crate) outgoing: Outgoing<A>,
    copying: Copying<A>,
}

impl<A: Allocator + Copy> StoreParts<A> {
    /// Starts the pack of the listed commits and tags.
    pub(crate) fn begin<F: ObjectFiles>(
        reader: &mut ObjectReader<'_, F, A>,
        alloc: A,
        entries: &[Entry<A>],
    ) -> Result<StoreParts<A>, RepositoryFault<A>>
        ensures begun { IfOk result (λ parts. IsBegun entries.now parts.outgoing) }
        ensures left { IfOk result (λ parts. parts.outgoing.left ≡ max_parts) }
    {
        let fates = gather(reader, entries)?;
        let Ok(count) = u32::try_from(fates.sent_count()) else {
            return Err(RepositoryFault::Pack(PackFileFault::TooLarge));
        };
        let outgoing = Outgoing::new(alloc, count)?;
        let copying = Copying::new(alloc, reader.store(), fates)?;
        Ok(StoreParts { outgoing, copying })
    }

    /// Returns the counts of the objects sent so far.
    pub(crate) fn counts(&self) -> PackCounts {
        self.copying.counts()
    }

    /// Fills `out` with the next bytes, unless the pack ends first. Returns the number of copied
    /// bytes: 0 at the end of the pack.
    pub(crate) fn fill<F: ObjectFiles>(
        &mut self,
        reader: &mut ObjectReader<'_, F, A>,
        out: &mut [u8],
    ) -> Result<usize, RepositoryFault<A>>
        requires { 0 < length out.old }
        ensures fits { IfOk result (λ count. count ≤ length out.new) }
        ensures left { IfOk result (λ count. self.new.outgoing.left + count ≡ self.old.outgoing.left) }
        ensures given { IfOk result (λ count. (entries : ℕ) (before : List ℕ)
            → IsGoing entries self.old.outgoing before
            → IsGoing entries self.new.outgoing (before ++ take count out.new)) }
        ensures whole { IfOk result (λ count. count ≡ 0 → IsGivenWhole self.new.outgoing) }
    {
        let mut filled = 0;
        for _ in 0..u64::MAX {
            if filled >= out.len() || self.outgoing.is_fully_returned() {
                break;
            }
            filled += self.give_some(reader, &mut out[filled..])?;
        }
        if filled == 0 && !self.outgoing.is_fully_returned() {
            return Err(RepositoryFault::Count);
        }
        Ok(filled)
    }

    // Copies the next bytes of the current entry. If the current entry was returned completely,
    // builds the next entry first.
    fn give_some<F: ObjectFiles>(
        &mut self,
        reader: &mut ObjectReader<'_, F, A>,
        out: &mut [u8],
    ) -> Result<usize, RepositoryFault<A>>
        ensures fits { IfOk result (λ count. count ≤ length out.new) }
        ensures length { length out.new ≡ length out.old }
        ensures left { IfOk result (λ count. self.new.outgoing.left + count ≡ self.old.outgoing.left) }
        ensures given { IfOk result (λ count. (entries : ℕ) (before : List ℕ)
            → IsGoing entries self.old.outgoing before
            → IsGoing entries self.new.outgoing (before ++ take count out.new)) }
    {
        if self.outgoing.is_given() {
            self.advance(reader)?;
        }
        self.outgoing.give(out)
    }

    // Builds the next entry, or the trailer.
    fn advance<F: ObjectFiles>(
        &mut self,
        reader: &mut ObjectReader<'_, F, A>,
    ) -> Result<(), RepositoryFault<A>>
        ensures going { OnOk result (GoesOn self.old.outgoing self.new.outgoing) }
        ensures left { self.new.outgoing.left ≡ self.old.outgoing.left }
    {
        let position = self.outgoing.position();
        match self.copying.next(reader, position)? {
            Some(entry) => self.outgoing.put(entry.form, entry.size, entry.stream()),
            None => self.outgoing.finish(),
        }
    }
}

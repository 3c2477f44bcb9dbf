//! A packer of the objects of a Git directory.

ghost use Rattle.std.specs.Prelude.{◌≡◌, ◌+◌, ◌<◌, ◌≤◌, ⊤, [], ◌++◌, List, ℕ, IfOk, None, length, take};
ghost use Rattle.gparts.specs.Parts.{max_parts};
ghost use Rattle.gitrepository.specs.Packs.{IsPackOf, IsWholePack};
ghost use Rattle.gitrepository.specs.Parts.{IsBegun, IsGivenWhole, IsGoing};

use crate::copying::PackCounts;
use crate::fault::RepositoryFault;
use crate::parts::StoreParts;
use ggraph::{Entry, PackFault};
use gitobjects::{ObjectFiles, ObjectReader};
use gitpack::PackFileFault;
use gparts::PartPacker;
use std::alloc::Allocator;
use std::cell::{Cell, RefCell};

/// A packer of the objects of a Git directory.
///
/// A pack contains the listed commits and tags. A pack also contains the trees and blobs that these
/// commits reach, unless a parent outside the list reaches them. The ids of the commits, tags and
/// trees that are read to find these objects are computed and checked.
///
/// The stream of a stored pack entry is copied unchanged if the entry is undeltified, or is a delta
/// whose base is also sent. If the base is stored twice, the delta may be deflated again. So are all
/// other objects, as new deltas against each other if the deltas are small.
#[derive(Drop)]
pub struct StorePacker<'f, F: ObjectFiles, A: Allocator + Copy> {
    reader: RefCell<ObjectReader<'f, F, A>>,
    counts: Cell<PackCounts>,
    fault: RefCell<Option<RepositoryFault<A>>>,
}

impl<'f, F: ObjectFiles, A: Allocator + Copy> StorePacker<'f, F, A> {
    /// Returns a packer of the objects that the reader reads.
    pub fn new(reader: ObjectReader<'f, F, A>) -> StorePacker<'f, F, A> {
        StorePacker {
            reader: RefCell::new(reader),
            counts: Cell::new(PackCounts::NONE),
            fault: RefCell::new(None),
        }
    }

    /// Returns the counts of the objects in the last pack, by how they were sent.
    pub fn counts(&self) -> PackCounts {
        self.counts.get()
    }

    /// Removes and returns the fault of the last call that failed with `PackFault::Other`. Returns
    /// `None` if no fault is stored.
    pub fn take_fault(&self) -> Option<RepositoryFault<A>> {
        match self.fault.try_replace(None) {
            Ok(fault) => fault,
            Err(_) => None,
        }
    }

    // Starts the pack of the listed commits and tags.
    fn start(&self, alloc: A, entries: &[Entry<A>]) -> Result<StoreParts<A>, RepositoryFault<A>>
        ensures begun { IfOk result (λ parts. IsBegun entries.now parts.outgoing) }
        ensures left { IfOk result (λ parts. parts.outgoing.left ≡ max_parts) }
    {
        let Ok(mut reader) = self.reader.try_borrow_mut() else {
            return Err(RepositoryFault::Busy);
        };
        StoreParts::begin(&mut *reader, alloc, entries)
    }

    // Copies the next bytes of a pack to `out`, and returns their number: 0 at the end of the pack.
    fn fill(&self, parts: &mut StoreParts<A>, out: &mut [u8]) -> Result<usize, RepositoryFault<A>>
        requires { 0 < length out.old }
        ensures fits { IfOk result (λ count. count ≤ length out.new) }
        ensures left { IfOk result (λ count. parts.new.outgoing.left + count ≡ parts.old.outgoing.left) }
        ensures given { IfOk result (λ count. (entries : ℕ) (before : List ℕ)
            → IsGoing entries parts.old.outgoing before
            → IsGoing entries parts.new.outgoing (before ++ take count out.new)) }
        ensures whole { IfOk result (λ count. count ≡ 0 → IsGivenWhole parts.new.outgoing) }
    {
        let Ok(mut reader) = self.reader.try_borrow_mut() else {
            return Err(RepositoryFault::Busy);
        };
        let count = parts.fill(&mut *reader, out)?;
        self.counts.set(parts.counts());
        Ok(count)
    }

    // Converts a fault to a `PackFault`, and stores the original fault for `take_fault`.
    fn keep(&self, fault: RepositoryFault<A>) -> PackFault {
        match fault {
            RepositoryFault::Memory => PackFault::Memory,
            RepositoryFault::Pack(PackFileFault::TooLarge) => PackFault::TooLarge,
            _ => {
                let _ = self.fault.try_replace(Some(fault));
                PackFault::Other
            }
        }
    }
}

impl<F: ObjectFiles, A: Allocator + Copy> PartPacker<A> for StorePacker<'_, F, A> {
    type Parts = StoreParts<A>;

    ghost packs = { λ _ entries pack. IsPackOf entries pack };

    ghost pack_fails = { λ _ _ _. ⊤ };

    ghost gives = { λ _ parts bytes end. end ≡ None → (length bytes ≤ parts.outgoing.left)
        × ((count : ℕ) (before : List ℕ) → IsGoing count parts.outgoing before
        → IsWholePack count (before ++ bytes)) };

    ghost most = { λ _ parts. parts.outgoing.left };

    fn begin(&self, alloc: A, entries: &[Entry<A>]) -> Result<StoreParts<A>, PackFault> {
        match self.start(alloc, entries) {
            Ok(parts) => Ok(parts),
            Err(fault) => Err(self.keep(fault)),
        }
    }

    fn part(&self, parts: &mut StoreParts<A>, out: &mut [u8]) -> Result<usize, PackFault> {
        match self.fill(parts, out) {
            Ok(count) => Ok(count),
            Err(fault) => Err(self.keep(fault)),
        }
    }
}

//! The entries of a pack in pack order.

use crate::fault::Cause;
use gitpack::PackIndex;
use std::alloc::Allocator;

/// The offset of a pack entry, and its position in the pack index.
#[derive(Clone, Copy, Debug, Drop)]
pub struct Start {
    /// The offset of the entry.
    pub offset: usize,
    /// The position of the entry in the pack index.
    pub place: usize,
}

// The length of the header of a pack.
pub(crate) const HEADER: usize = 12;

/// The entries of a pack according to its index, sorted by offset.
#[derive(Drop)]
pub(crate) struct EntryOrder<A: Allocator + Copy> {
    starts: Vec<Start, A>,
    // The offset at which the last entry ends.
    end: usize,
}

impl<A: Allocator + Copy> EntryOrder<A> {
    /// Returns the entries of a pack, the last of which ends at `end`. Fails with `Offset` if an
    /// offset in the index is not between the pack header and `end`, or with `Memory` if out of
    /// memory.
    pub(crate) fn new(alloc: A, index: &PackIndex<A>, end: usize) -> Result<EntryOrder<A>, Cause> {
        let mut starts = Vec::with_capacity(alloc, index.len())?;
        for place in 0..index.len() {
            let offset = offset_of(index, place, end)?;
            starts.push(Start { offset, place })?;
        }
        starts.sort_unstable_by_key(|start| start.offset);
        Ok(EntryOrder { starts, end })
    }

    /// Returns all entries in pack order.
    pub(crate) fn starts(&self) -> &[Start] {
        self.starts.as_slice()
    }

    // Returns the position in pack order of the entry at this offset, or `None` if no entry begins
    // at that offset.
    fn number_of(&self, offset: usize) -> Option<usize> {
        let search = self
            .starts
            .binary_search_by_key(&offset, |start| start.offset);
        search.ok()
    }

    /// Returns the position in the pack index of the entry at this offset, or `None` if no entry
    /// begins at that offset.
    pub(crate) fn place_of(&self, offset: usize) -> Option<usize> {
        let start = self.starts.get(self.number_of(offset)?)?;
        Some(start.place)
    }

    /// Returns the length of the entry at this offset, or `None` if no entry begins at that offset.
    pub(crate) fn length_of(&self, offset: usize) -> Option<usize> {
        let number = self.number_of(offset)?;
        let end = match self.starts.get(number.saturating_add(1)) {
            Some(next) => next.offset,
            None => self.end,
        };
        end.checked_sub(offset)
    }
}

// Returns the offset at a position of the pack index. Fails with `Offset` if the offset is not
// between the pack header and `end`, or with `Index` if there is no such position.
fn offset_of<A: Allocator + Copy>(
    index: &PackIndex<A>,
    place: usize,
    end: usize,
) -> Result<usize, Cause> {
    let Some(offset) = index.offset(place) else {
        return Err(Cause::Index);
    };
    match usize::try_from(offset) {
        Ok(offset) if HEADER <= offset && offset < end => Ok(offset),
        _ => Err(Cause::Offset),
    }
}

//! A table of the deltas in a pack, sorted by their bases.

use crate::entry::EntryForm;
use crate::scanning::Scanned;
use gname::Oid;
use std::alloc::{AllocError, Allocator};

// An offset delta: the offset of its base, and the index of the delta among the entries.
#[derive(Clone, Copy, Debug, Drop)]
struct OffsetChild {
    base: usize,
    index: usize,
}

// A ref delta: the id of its base, and the index of the delta among the entries.
#[derive(Clone, Copy, Debug, Drop)]
struct RefChild {
    base: Oid,
    index: usize,
}

/// The offset deltas and the ref deltas of a pack, each sorted by base.
#[derive(Drop)]
pub(crate) struct Children<A: Allocator + Copy> {
    by_offset: Vec<OffsetChild, A>,
    by_id: Vec<RefChild, A>,
}

/// A position in the sequence of the deltas against one base. The base has the id `id`, and its
/// entry begins at `start`. The next delta is at `offset_index` in `by_offset`, or at `id_index` in
/// `by_id` if no offset delta remains.
#[derive(Clone, Copy, Debug, Drop)]
pub(crate) struct Cursor {
    start: usize,
    id: Oid,
    offset_index: usize,
    id_index: usize,
}

impl<A: Allocator + Copy> Children<A> {
    /// Returns the table of the deltas among these entries. Fails only if out of memory.
    pub(crate) fn new(alloc: A, entries: &[Scanned]) -> Result<Children<A>, AllocError> {
        let mut by_offset = Vec::new(alloc);
        let mut by_id = Vec::new(alloc);
        for (index, entry) in entries.iter().enumerate() {
            match entry.form {
                EntryForm::Whole(_) => {}
                EntryForm::OffsetDelta(back) => {
                    if let Some(base) = entry.start.checked_sub(back) {
                        by_offset.push(OffsetChild { base, index })?;
                    }
                }
                EntryForm::RefDelta(base) => by_id.push(RefChild { base, index })?,
            }
        }
        by_offset.sort_unstable_by_key(|child| child.base);
        by_id.sort_unstable_by_key(|child| child.base);
        Ok(Children { by_offset, by_id })
    }

    /// Returns a cursor over the deltas against the object with this id, whose entry begins at
    /// `start`.
    pub(crate) fn deltas_of(&self, start: usize, id: Oid) -> Cursor {
        let offset_index = self.by_offset.partition_point(|child| child.base < start);
        let id_index = self.by_id.partition_point(|child| child.base < id);
        Cursor {
            start,
            id,
            offset_index,
            id_index,
        }
    }

    /// Returns the index of the next delta among the entries, or `None` if no delta remains.
    pub(crate) fn peek(&self, cursor: &Cursor) -> Option<usize> {
        match self.next_by_offset(cursor) {
            Some(index) => Some(index),
            None => self.next_by_id(cursor),
        }
    }

    /// Returns the cursor advanced past the next delta.
    pub(crate) fn cursor_after(&self, cursor: &Cursor) -> Cursor {
        let mut next = *cursor;
        if self.next_by_offset(cursor).is_some() {
            next.offset_index = next.offset_index.saturating_add(1);
        } else {
            next.id_index = next.id_index.saturating_add(1);
        }
        next
    }

    fn next_by_offset(&self, cursor: &Cursor) -> Option<usize> {
        match self.by_offset.get(cursor.offset_index) {
            Some(child) if child.base == cursor.start => Some(child.index),
            _ => None,
        }
    }

    fn next_by_id(&self, cursor: &Cursor) -> Option<usize> {
        match self.by_id.get(cursor.id_index) {
            Some(child) if child.base == cursor.id => Some(child.index),
            _ => None,
        }
    }
}

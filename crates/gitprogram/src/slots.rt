//! The slots for open object stores.

ghost use Rattle.std.specs.Prelude.{◌<◌, [], IfOk, MatchResult, Some, length};
ghost use Rattle.gparts.specs.Parts.{Begins, GivesPart};
ghost use Rattle.gitprogram.specs.Sharing.{fails_any, gives_rest, most_left, packs_listed};

use crate::opening::ObjectPacker;
use ggraph::{Entry, PackFault};
use gitobjects::ObjectFiles;
use gitrepository::{RepositoryFault, StoreParts};
use gparts::PartPacker;
use std::alloc::Global;
use std::cell::RefCell;
use std::rc::Weak;

// The number of slots in a row, and the number of rows.
const ROW: u64 = 4;

/// The maximum number of repositories whose objects are open at once.
pub(crate) const MAX_OPEN: u64 = 16;

// The content of a slot: no object store, or an open object store with a weak handle to its
// tickets.
#[derive(Drop)]
enum SlotContent<'f, F: ObjectFiles> {
    Vacant,
    Open(Weak<u64, Global>, ObjectPacker<'f, F>),
}

impl<'f, F: ObjectFiles> SlotContent<'f, F> {
    // Returns whether a ticket for the object store exists.
    fn is_used(&self) -> bool {
        match self {
            SlotContent::Vacant => false,
            SlotContent::Open(tickets, _) => tickets.strong_count() > 0,
        }
    }

    fn packer(&self) -> Option<&ObjectPacker<'f, F>> {
        match self {
            SlotContent::Vacant => None,
            SlotContent::Open(_, packer) => Some(packer),
        }
    }
}

/// A slot for an object store, which stays open while a ticket for it exists.
#[derive(Drop)]
pub(crate) struct Slot<'f, F: ObjectFiles> {
    content: RefCell<SlotContent<'f, F>>,
}

impl<'f, F: ObjectFiles> Slot<'f, F> {
    fn vacant() -> Slot<'f, F> {
        Slot {
            content: RefCell::new(SlotContent::Vacant),
        }
    }

    /// Returns whether the slot is free for a new object store.
    pub(crate) fn is_free(&self) -> bool {
        match self.content.try_borrow() {
            Ok(content) => !content.is_used(),
            Err(_) => false,
        }
    }

    /// Closes the object store if no ticket for it exists.
    pub(crate) fn close_unused(&self) {
        if let Ok(mut content) = self.content.try_borrow_mut() {
            if !content.is_used() {
                *content = SlotContent::Vacant;
            }
        }
    }

    /// Puts an object store with its tickets into the slot. Returns `false`, and changes nothing,
    /// if the slot is borrowed.
    pub(crate) fn fill(&self, tickets: Weak<u64, Global>, packer: ObjectPacker<'f, F>) -> bool {
        match self.content.try_borrow_mut() {
            Ok(mut content) => {
                *content = SlotContent::Open(tickets, packer);
                true
            }
            Err(_) => false,
        }
    }

    /// Begins a pack of these entries from the object store in the slot.
    pub(crate) fn begin(
        &self,
        alloc: Global,
        entries: &[Entry<Global>],
    ) -> Result<StoreParts<Global>, PackFault>
        ensures { IfOk result
            (λ parts. Begins packs_listed fails_any entries.now (gives_rest parts) (most_left parts)) }
    {
        let Ok(content) = self.content.try_borrow() else {
            return Err(PackFault::Other);
        };
        match content.packer() {
            Some(packer) => packer.begin(alloc, entries),
            None => Err(PackFault::Other),
        }
    }

    /// Copies the next bytes of a pack to the front of `out`. Returns the number of copied bytes,
    /// which is 0 at the end of the pack.
    pub(crate) fn copy_part(
        &self,
        parts: &mut StoreParts<Global>,
        out: &mut [u8],
    ) -> Result<usize, PackFault>
        requires { 0 < length out.old }
        ensures { MatchResult result
            (λ count. GivesPart (gives_rest parts.old) (most_left parts.old)
            (gives_rest parts.new) (most_left parts.new) count out.new)
            (λ fault. gives_rest parts.old [] (Some fault)) }
    {
        let Ok(content) = self.content.try_borrow() else {
            return Err(PackFault::Other);
        };
        match content.packer() {
            Some(packer) => packer.part(parts, out),
            None => Err(PackFault::Other),
        }
    }

    /// Removes and returns the detailed fault of the last call that failed with `Other`. Returns
    /// `None` if no fault is stored.
    pub(crate) fn take_fault(&self) -> Option<RepositoryFault<Global>> {
        match self.content.try_borrow() {
            Ok(content) => content.packer()?.take_fault(),
            Err(_) => None,
        }
    }
}

// A row of slots. The slots are fields because the prover does not support dropping a vector of
// slots.
#[derive(Drop)]
struct Row<'f, F: ObjectFiles> {
    a: Slot<'f, F>,
    b: Slot<'f, F>,
    c: Slot<'f, F>,
    d: Slot<'f, F>,
}

impl<'f, F: ObjectFiles> Row<'f, F> {
    fn vacant() -> Row<'f, F> {
        Row {
            a: Slot::vacant(),
            b: Slot::vacant(),
            c: Slot::vacant(),
            d: Slot::vacant(),
        }
    }

    fn at(&self, number: u64) -> &Slot<'f, F> {
        match number {
            0 => &self.a,
            1 => &self.b,
            2 => &self.c,
            _ => &self.d,
        }
    }
}

/// The slots, whose numbers are below [`MAX_OPEN`].
#[derive(Drop)]
pub(crate) struct Slots<'f, F: ObjectFiles> {
    a: Row<'f, F>,
    b: Row<'f, F>,
    c: Row<'f, F>,
    d: Row<'f, F>,
}

impl<'f, F: ObjectFiles> Slots<'f, F> {
    /// Returns empty slots.
    pub(crate) fn vacant() -> Slots<'f, F> {
        Slots {
            a: Row::vacant(),
            b: Row::vacant(),
            c: Row::vacant(),
            d: Row::vacant(),
        }
    }

    /// Returns the slot with this number.
    pub(crate) fn at(&self, number: u64) -> &Slot<'f, F> {
        let row = match number / ROW {
            0 => &self.a,
            1 => &self.b,
            2 => &self.c,
            _ => &self.d,
        };
        row.at(number % ROW)
    }
}

//! The faults of a walk over Git's objects.

use gitobject::ObjectFault;
use gitobjects::StoreFault;
use gname::Oid;
use std::alloc::{AllocError, AllocFailed, Allocator};

/// The reason why a walk over Git's objects fails.
#[derive(Drop)]
pub enum WalkFault<A: Allocator + Copy> {
    /// Out of memory.
    Memory,
    /// An object is missing, or a file that holds objects is refused.
    Store(StoreFault<A>),
    /// The bytes of the object with this id are not a valid object of its type.
    Malformed {
        /// The id of the object.
        id: Oid,
    },
    /// The type of the object with this id differs from the type that a link gives it.
    Type {
        /// The id of the object.
        id: Oid,
    },
    /// There are more trees than the walk can count.
    Count,
}

impl<A: Allocator + Copy> WalkFault<A> {
    /// Converts the fault of parsing the object with this id to a `WalkFault`.
    pub(crate) fn of_object(id: &Oid, fault: ObjectFault) -> WalkFault<A> {
        match fault {
            ObjectFault::Malformed => WalkFault::Malformed { id: *id },
            ObjectFault::Memory => WalkFault::Memory,
        }
    }
}

impl<A: Allocator + Copy> From<AllocError> for WalkFault<A> {
    fn from(_refused: AllocError) -> WalkFault<A> {
        WalkFault::Memory
    }
}

impl<T: Drop, A: Allocator + Copy> From<AllocFailed<T>> for WalkFault<A> {
    fn from(_refused: AllocFailed<T>) -> WalkFault<A> {
        WalkFault::Memory
    }
}

impl<A: Allocator + Copy> From<StoreFault<A>> for WalkFault<A> {
    fn from(fault: StoreFault<A>) -> WalkFault<A> {
        match fault {
            StoreFault::Memory => WalkFault::Memory,
            _ => WalkFault::Store(fault),
        }
    }
}

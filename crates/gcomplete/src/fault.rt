//! The faults of adding objects.

use gitobject::Link;
use gname::Oid;

/// The reason why an object cannot be added to a batch, or a batch to a store.
#[derive(Clone, Copy, Debug, Drop)]
pub enum BatchFault {
    /// The bytes of the object with this id are not a valid object of its type.
    Malformed { id: Oid },
    /// An object with this id and another type exists. So two different texts have the same SHA-1.
    Collision { id: Oid },
    /// The object with this id has the link, and another link leads to the same id with another
    /// type. So one of the two links leads to no object of its type.
    Clash { id: Oid, link: Link },
    /// The object with this id has the link, and the link leads to no object of its type.
    Missing { id: Oid, link: Link },
    /// Out of memory.
    Memory,
}

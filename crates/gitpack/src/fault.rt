//! The faults of reading and writing packs.

ghost use Rattle.std.specs.Prelude.{◌≡◌};
ghost use Rattle.gitpack.specs.declared.fault.PackFileFault.TheVariants.{Memory};

use crate::spool::SpoolFault;
use std::alloc::{AllocError, AllocFailed};
use std::io::ErrorKind;

/// The reason why a pack is refused, or why an entry cannot be written.
#[derive(Clone, Copy, Debug, PartialEq, Eq, Drop)]
pub enum PackFileFault {
    /// Out of memory.
    Memory,
    /// The header or the trailer of the pack is wrong, or bytes follow the last entry.
    Frame,
    /// The entry at this position is truncated, its header is malformed, or its zlib stream is
    /// malformed or has the wrong size. A delta also causes this fault if it cannot be applied to
    /// its base, or if its base occurs twice in the pack.
    Entry(usize),
    /// The base of a delta is not in the pack: the pack is thin, or an offset is wrong.
    Thin,
    /// A limit is exceeded: the number of objects, the size of an object, the total size, the
    /// memory for delta bases, or the size of a written pack. A chain of more than 8,191 deltas
    /// causes the same fault, and so does a chain whose objects have more than 16 GiB together. So
    /// does an entry whose header and zlib stream have more than 128 MiB together, or a size or
    /// offset that an entry header cannot encode.
    TooLarge,
    /// The spool cannot store the pack, or cannot return its bytes. If a stream that is read back
    /// cannot be inflated, the kind is `InvalidData`.
    Spool(ErrorKind),
    /// The id of the base of a written delta is not a SHA-1 id.
    Format,
    /// The visitor refused an object.
    Refused,
}

impl From<AllocError> for PackFileFault {
    ghost from_gives = { λ _ fault. fault ≡ Memory };

    fn from(_refused: AllocError) -> PackFileFault {
        PackFileFault::Memory
    }
}

impl<T: Drop> From<AllocFailed<T>> for PackFileFault {
    ghost from_gives = { λ _ fault. fault ≡ Memory };

    fn from(_refused: AllocFailed<T>) -> PackFileFault {
        PackFileFault::Memory
    }
}

impl From<SpoolFault> for PackFileFault {
    fn from(fault: SpoolFault) -> PackFileFault {
        match fault {
            SpoolFault::Memory => PackFileFault::Memory,
            SpoolFault::File(kind) => PackFileFault::Spool(kind),
        }
    }
}

//! The reasons why an object cannot be read.

use gname::{MAX_ID_TEXT, OUT_OF_MEMORY_TEXT, Oid};
use std::alloc::{AllocError, AllocFailed, Allocator};
use std::error::Error;
use std::io::ErrorKind;
use std::{fmt, io};

/// The reason why a file cannot be used. A [`FileFault`] contains a cause and the path of the file.
#[derive(Clone, Copy, Debug, PartialEq, Eq)]
pub enum Cause {
    /// Out of memory.
    Memory,
    /// The system cannot open the file.
    Open(ErrorKind),
    /// The system cannot read the file.
    Read(ErrorKind),
    /// The system cannot list the folder.
    List(ErrorKind),
    /// A path in the alternates file is not UTF-8.
    NotText,
    /// The file, or the list of the names in the folder, exceeds its size limit.
    FileSize,
    /// An object has more bytes than [`crate::MAX_OBJECT`].
    ObjectSize,
    /// The alternates file has a path in quotes, which this crate does not support.
    Quoted,
    /// There are more than [`crate::MAX_FOLDERS`] object folders.
    Folders,
    /// The file is not a pack index of version 2.
    Index,
    /// The header, object count or checksum of the pack does not match its index.
    Pack,
    /// An offset in the index is outside the pack.
    Offset,
    /// The header of an entry is malformed.
    Head,
    /// The stream of an entry is not a zlib stream of the size in the header.
    Stream,
    /// The CRC-32 of an entry does not match the index.
    Crc,
    /// The base of a delta is not in the same pack.
    Base,
    /// A delta chain is cyclic.
    Cycle,
    /// A delta is malformed, or does not match its base.
    Delta,
    /// The text of a loose object is malformed.
    Loose,
    /// The bytes of an object do not match its id.
    Id,
}

impl Cause {
    /// Returns the cause for a file that cannot be opened.
    pub(crate) fn open(error: &io::Error) -> Cause {
        match error.kind() {
            ErrorKind::OutOfMemory => Cause::Memory,
            kind => Cause::Open(kind),
        }
    }

    /// Returns the cause for a file that cannot be read.
    pub(crate) fn read(error: &io::Error) -> Cause {
        match error.kind() {
            ErrorKind::OutOfMemory => Cause::Memory,
            kind => Cause::Read(kind),
        }
    }

    /// Returns the cause for a folder that cannot be listed.
    pub(crate) fn list(error: &io::Error) -> Cause {
        match error.kind() {
            ErrorKind::OutOfMemory => Cause::Memory,
            kind => Cause::List(kind),
        }
    }

    /// Returns whether a file could not be opened or read, or a folder could not be listed, for a
    /// reason that can pass although no name in the folder changes. One such reason is that too many
    /// files are open.
    pub(crate) fn is_temporary(self) -> bool {
        match self {
            Cause::Open(kind) | Cause::Read(kind) | Cause::List(kind) => matches!(
                kind,
                ErrorKind::Interrupted
                    | ErrorKind::WouldBlock
                    | ErrorKind::TimedOut
                    | ErrorKind::ResourceBusy
                    | ErrorKind::StaleNetworkFileHandle
                    | ErrorKind::Other
                    | ErrorKind::Uncategorized
            ),
            _ => false,
        }
    }

    // Returns the verb that describes the failed action.
    fn verb(self) -> &'static str {
        match self {
            Cause::Open(_) => "open",
            Cause::List(_) => "list",
            _ => "read",
        }
    }

    // Returns the message for the cause.
    fn text(self) -> &'static str {
        match self {
            Cause::Memory => OUT_OF_MEMORY_TEXT,
            Cause::Open(_) | Cause::Read(_) | Cause::List(_) => "the system refuses",
            Cause::NotText => "the path is not UTF-8",
            Cause::FileSize => "the file is too large",
            Cause::ObjectSize => "an object is too large",
            Cause::Quoted => "a path is in quotes",
            Cause::Folders => "there are too many folders of objects",
            Cause::Index => "the file is no pack index of version 2",
            Cause::Pack => "the pack does not fit its index",
            Cause::Offset => "an offset of the index lies outside of the pack",
            Cause::Head => "the head of an entry is malformed",
            Cause::Stream => "the stream of an object is malformed or has another size",
            Cause::Crc => "the CRC-32 of an entry is wrong",
            Cause::Base => "the base of a delta is not in the pack",
            Cause::Cycle => "a chain of deltas leads back to itself",
            Cause::Delta => "a delta does not fit its base",
            Cause::Loose => "the loose object is malformed",
            Cause::Id => "an object has another id than its name says",
        }
    }
}

impl fmt::Display for Cause {
    fn fmt<W: fmt::Write>(&self, f: &mut fmt::Formatter<W>) -> fmt::Result {
        match self {
            Cause::Open(kind) | Cause::Read(kind) | Cause::List(kind) => write!(f, "{kind}"),
            _ => f.write_str(self.text()),
        }
    }
}

impl From<AllocError> for Cause {
    fn from(_refused: AllocError) -> Cause {
        Cause::Memory
    }
}

impl<T: Drop> From<AllocFailed<T>> for Cause {
    fn from(_refused: AllocFailed<T>) -> Cause {
        Cause::Memory
    }
}

/// The reason why an object cannot be read, and the file at fault.
#[derive(Drop)]
pub enum StoreFault<A: Allocator + Copy> {
    /// Out of memory.
    Memory,
    /// The store has no object with this id.
    Missing(Oid),
    /// A file cannot be used.
    File(FileFault<A>),
}

/// A file that cannot be used, and the reason.
#[derive(Drop)]
pub struct FileFault<A: Allocator + Copy> {
    /// The path of the file.
    pub path: String<A>,
    /// The reason why the file cannot be used.
    pub cause: Cause,
}

impl<A: Allocator + Copy> fmt::Display for StoreFault<A> {
    fn fmt<W: fmt::Write>(&self, f: &mut fmt::Formatter<W>) -> fmt::Result {
        match self {
            StoreFault::Memory => f.write_str(OUT_OF_MEMORY_TEXT),
            StoreFault::Missing(id) => write_missing(id, f),
            StoreFault::File(fault) => write!(f, "{fault}"),
        }
    }
}

impl<A: Allocator + Copy> fmt::Debug for StoreFault<A> {
    fn fmt<W: fmt::Write>(&self, f: &mut fmt::Formatter<W>) -> fmt::Result {
        write!(f, "{self}")
    }
}

impl<A: Allocator + Copy> fmt::Debug for FileFault<A> {
    fn fmt<W: fmt::Write>(&self, f: &mut fmt::Formatter<W>) -> fmt::Result {
        write!(f, "{self}")
    }
}

impl<A: Allocator + Copy> fmt::Display for FileFault<A> {
    fn fmt<W: fmt::Write>(&self, f: &mut fmt::Formatter<W>) -> fmt::Result {
        let verb = self.cause.verb();
        let path = self.path.as_str();
        let cause = self.cause;
        write!(f, "cannot {verb} {path}: {cause}")
    }
}

fn write_missing<W: fmt::Write>(id: &Oid, f: &mut fmt::Formatter<W>) -> fmt::Result {
    let mut digits = [0; MAX_ID_TEXT];
    let count = id.to_hex(&mut digits);
    f.write_str("object ")?;
    f.write_str(str::from_utf8(&digits[..count]).unwrap_or(""))?;
    f.write_str(" is missing")
}

impl<A: Allocator + Copy> Error for StoreFault<A> {}

impl<A: Allocator + Copy> From<AllocError> for StoreFault<A> {
    fn from(_refused: AllocError) -> StoreFault<A> {
        StoreFault::Memory
    }
}

impl<T: Drop, A: Allocator + Copy> From<AllocFailed<T>> for StoreFault<A> {
    fn from(_refused: AllocFailed<T>) -> StoreFault<A> {
        StoreFault::Memory
    }
}

/// Returns the fault for the file with this path.
pub(crate) fn fault_at<A: Allocator + Copy>(alloc: A, path: &str, cause: Cause) -> StoreFault<A> {
    if cause == Cause::Memory {
        return StoreFault::Memory;
    }
    match String::from_str(alloc, path) {
        Ok(path) => StoreFault::File(FileFault { path, cause }),
        Err(_) => StoreFault::Memory,
    }
}

/// The fault of the first broken copy of an object, kept while other copies are tried.
#[derive(Drop)]
pub(crate) struct FirstFault<A: Allocator + Copy> {
    fault: Option<StoreFault<A>>,
}

impl<A: Allocator + Copy> FirstFault<A> {
    /// Returns a `FirstFault` without a fault.
    pub(crate) fn new() -> FirstFault<A> {
        FirstFault { fault: None }
    }

    /// Records the fault of a copy, unless a fault is already recorded. Fails if the fault is
    /// `Memory`, so that no other copy is tried.
    pub(crate) fn note(&mut self, fault: StoreFault<A>) -> Result<(), StoreFault<A>> {
        if let StoreFault::Memory = fault {
            return Err(fault);
        }
        if self.fault.is_none() {
            self.fault = Some(fault);
        }
        Ok(())
    }

    /// Fails with the fault of the first broken copy, if a fault was recorded.
    pub(crate) fn finish(self) -> Result<(), StoreFault<A>> {
        match self.fault {
            Some(fault) => Err(fault),
            None => Ok(()),
        }
    }
}

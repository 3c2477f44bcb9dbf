//! The faults of calls that read a repository, pack its objects or receive a pack.

use ggraph::{GraphFault, MAX_NODES, MAX_PARENTS, RefsFault};
use gitobject::ObjectFault;
use gitobjects::{Cause, FileFault, StoreFault};
use gitpack::{PackFileFault, SpoolFault};
use gitrefs::RefFault;
use gitwalk::WalkFault;
use gname::{MAX_ID_TEXT, OUT_OF_MEMORY_TEXT, Oid, RefName};
use std::alloc::{AllocError, AllocFailed, Allocator};
use std::error::Error;
use std::{fmt, io};

/// The reason why an object is refused.
#[derive(Clone, Copy, Debug, PartialEq, Eq)]
pub enum ObjectCause {
    /// The bytes of the object are not a valid object of its type.
    Malformed,
    /// The type of the object differs from the type that another object expects.
    Type,
    /// The store has a different object with the same id.
    Differs,
    /// The object has more than [`MAX_PARENTS`] parents, the limit of a graph.
    Parents,
}

/// The reason why a repository format is unsupported (git-config(1),
/// "core.repositoryFormatVersion", "extensions").
#[derive(Clone, Copy, Debug, PartialEq, Eq)]
pub enum FormFault {
    /// The repository is shallow: some commits lack their parents.
    Shallow,
    /// The ids of the repository are not SHA-1, according to `extensions.objectFormat`.
    ObjectFormat,
    /// The refs of the repository are not in files, according to `extensions.refStorage`.
    RefStorage,
    /// The repository is a partial clone: named objects may be missing.
    PartialClone,
    /// The version of the repository, `core.repositoryFormatVersion`, is neither 0 nor 1.
    Version,
    /// The repository has an unknown extension.
    Extension,
    /// The configuration of the repository is malformed.
    Config,
}

/// The fault of a call that reads a repository, packs its objects or receives a pack.
#[derive(Drop)]
pub enum RepositoryFault<A: Allocator + Copy> {
    /// Out of memory.
    Memory,
    /// An object is missing, or a file that holds objects is refused.
    Store(StoreFault<A>),
    /// An object that another object names is missing, or a file that holds it is refused.
    Named {
        /// The id of the object that names it.
        by: Oid,
        /// The fault, which names the missing object or the file.
        fault: StoreFault<A>,
    },
    /// The refs cannot be read or written.
    Refs(RefFault<A>),
    /// An object is refused.
    Object {
        /// The id of the refused object.
        id: Oid,
        /// The reason for the refusal.
        cause: ObjectCause,
    },
    /// The refs reach too many commits and tags for a graph.
    Objects,
    /// A pack is refused or cannot be written.
    Pack(PackFileFault),
    /// The number of objects written to a pack differs from the number in its header.
    Count,
    /// The system refused a call on a file.
    File {
        /// The path of the file.
        path: String<A>,
        /// The system's error.
        error: io::Error,
    },
    /// The repository has an unsupported format.
    Form {
        /// The path of the file that shows the unsupported format.
        path: String<A>,
        /// The reason why the format is unsupported.
        fault: FormFault,
    },
    /// The packer or the indexer is already in use, or a received pack was not taken.
    Busy,
}

/// The reason why the check of a repository failed.
#[derive(Drop)]
pub enum CheckFault<A: Allocator + Copy> {
    /// The repository cannot be read, or memory ran out.
    Repository(RepositoryFault<A>),
    /// An object that a ref or HEAD reaches is missing or refused, or a ref file is malformed.
    Ref {
        /// The name of the ref, or `HEAD`.
        name: RefName<A>,
        /// The fault, which names the object or the file.
        fault: RepositoryFault<A>,
    },
}

impl<A: Allocator + Copy> CheckFault<A> {
    /// Returns the fault of an object that a ref reaches.
    pub(crate) fn of_ref(alloc: A, name: &RefName<A>, fault: RepositoryFault<A>) -> CheckFault<A> {
        match name.copy_in(alloc) {
            Ok(name) => CheckFault::Ref { name, fault },
            Err(_) => CheckFault::Repository(RepositoryFault::Memory),
        }
    }

    /// Returns the fault of an object that HEAD reaches.
    pub(crate) fn of_head(alloc: A, fault: RepositoryFault<A>) -> CheckFault<A> {
        match RefName::head(alloc) {
            Ok(name) => CheckFault::Ref { name, fault },
            Err(_) => CheckFault::Repository(RepositoryFault::Memory),
        }
    }
}

impl<A: Allocator + Copy> RepositoryFault<A> {
    /// Returns whether this is a failure of the spool that stores a received pack. A pack whose
    /// spool fails is not refused.
    pub fn is_of_spool(&self) -> bool {
        matches!(self, RepositoryFault::Pack(PackFileFault::Spool(_)))
    }

    /// Converts the fault of parsing the object with this id to a `RepositoryFault`.
    pub(crate) fn of_object(id: &Oid, fault: ObjectFault) -> RepositoryFault<A> {
        match fault {
            ObjectFault::Malformed => RepositoryFault::object_fault(id, ObjectCause::Malformed),
            ObjectFault::Memory => RepositoryFault::Memory,
        }
    }

    /// Returns the fault for the object with this id, which is refused for this reason.
    pub(crate) fn object_fault(id: &Oid, cause: ObjectCause) -> RepositoryFault<A> {
        RepositoryFault::Object { id: *id, cause }
    }

    /// Returns the fault for an object that cannot be added to the graph.
    pub(crate) fn of_node(id: &Oid, fault: GraphFault) -> RepositoryFault<A> {
        match fault {
            GraphFault::Memory => RepositoryFault::Memory,
            GraphFault::TooMany => RepositoryFault::Objects,
            GraphFault::TooManyParents => RepositoryFault::object_fault(id, ObjectCause::Parents),
            GraphFault::Conflict { .. } => RepositoryFault::object_fault(id, ObjectCause::Differs),
            _ => RepositoryFault::object_fault(id, ObjectCause::Malformed),
        }
    }

    /// Returns the fault for a refused call on the file with this path.
    pub(crate) fn of_file(alloc: A, path: &str, error: io::Error) -> RepositoryFault<A> {
        if error.kind() == io::ErrorKind::OutOfMemory {
            return RepositoryFault::Memory;
        }
        match String::from_str(alloc, path) {
            Ok(path) => RepositoryFault::File { path, error },
            Err(_) => RepositoryFault::Memory,
        }
    }

    /// Returns the fault for the file or folder with this path, which cannot be read.
    pub(crate) fn of_cause(alloc: A, path: &str, cause: Cause) -> RepositoryFault<A> {
        if cause == Cause::Memory {
            return RepositoryFault::Memory;
        }
        match String::from_str(alloc, path) {
            Ok(path) => RepositoryFault::Store(StoreFault::File(FileFault { path, cause })),
            Err(_) => RepositoryFault::Memory,
        }
    }

    /// Returns the fault for an unsupported format. The file with this path shows the format.
    pub(crate) fn of_form(alloc: A, path: &str, fault: FormFault) -> RepositoryFault<A> {
        match String::from_str(alloc, path) {
            Ok(path) => RepositoryFault::Form { path, fault },
            Err(_) => RepositoryFault::Memory,
        }
    }
}

impl FormFault {
    // Returns the message for an unsupported format.
    fn text(self) -> &'static str {
        match self {
            FormFault::Shallow => {
                "the repository is shallow, which is not supported; `git fetch --unshallow` makes it whole"
            }
            FormFault::ObjectFormat => {
                "the ids of the repository are not SHA-1 (extensions.objectFormat), which is not supported"
            }
            FormFault::RefStorage => {
                "the refs of the repository are not in files (extensions.refStorage), which is not supported; `git refs migrate --ref-format=files` brings them there"
            }
            FormFault::PartialClone => {
                "the repository is a partial clone, which is not supported; clone it without `--filter`"
            }
            FormFault::Version =>
                "the version of the repository (core.repositoryFormatVersion) is not known",
            FormFault::Extension => "the repository has an extension that is not known",
            FormFault::Config => "the configuration is malformed",
        }
    }
}

impl fmt::Display for FormFault {
    fn fmt<W: fmt::Write>(&self, f: &mut fmt::Formatter<W>) -> fmt::Result {
        f.write_str(self.text())
    }
}

impl fmt::Display for ObjectCause {
    fn fmt<W: fmt::Write>(&self, f: &mut fmt::Formatter<W>) -> fmt::Result {
        match self {
            ObjectCause::Malformed => f.write_str("is malformed"),
            ObjectCause::Type => f.write_str("has another type than the object that names it says"),
            ObjectCause::Differs => f.write_str("has other bytes than the object with its id here"),
            ObjectCause::Parents => write!(f, "has more than {MAX_PARENTS} parents"),
        }
    }
}

impl<A: Allocator + Copy> fmt::Display for RepositoryFault<A> {
    fn fmt<W: fmt::Write>(&self, f: &mut fmt::Formatter<W>) -> fmt::Result {
        match self {
            RepositoryFault::Memory => f.write_str(OUT_OF_MEMORY_TEXT),
            RepositoryFault::Store(fault) => write!(f, "{fault}"),
            RepositoryFault::Named { by, fault } => write_named(by, fault, f),
            RepositoryFault::Refs(fault) => write!(f, "{fault}"),
            RepositoryFault::Object { id, cause } => write_object(id, *cause, f),
            RepositoryFault::Objects => write!(
                f,
                "there are more than {MAX_NODES} commits and tags"
            ),
            RepositoryFault::Pack(fault) => write_pack(*fault, f),
            RepositoryFault::Count => f.write_str("the pack has another number of objects"),
            RepositoryFault::File { path, error } => write!(f, "{path}: {error}"),
            RepositoryFault::Form { path, fault } => write!(f, "{path}: {fault}"),
            RepositoryFault::Busy => f.write_str("the repository is in use"),
        }
    }
}

fn write_object<W: fmt::Write>(
    id: &Oid,
    cause: ObjectCause,
    f: &mut fmt::Formatter<W>,
) -> fmt::Result {
    write_id(id, f)?;
    write!(f, " {cause}")
}

// Writes the message for a named object that cannot be read.
fn write_named<W: fmt::Write, A: Allocator + Copy>(
    by: &Oid,
    fault: &StoreFault<A>,
    f: &mut fmt::Formatter<W>,
) -> fmt::Result {
    write!(f, "{fault} (")?;
    write_id(by, f)?;
    f.write_str(" names it)")
}

fn write_id<W: fmt::Write>(id: &Oid, f: &mut fmt::Formatter<W>) -> fmt::Result {
    let mut digits = [0; MAX_ID_TEXT];
    let count = id.to_hex(&mut digits);
    f.write_str("object ")?;
    f.write_str(str::from_utf8(&digits[..count]).unwrap_or(""))
}

// Writes the message for a pack fault.
fn write_pack<W: fmt::Write>(fault: PackFileFault, f: &mut fmt::Formatter<W>) -> fmt::Result {
    match fault {
        PackFileFault::Memory => f.write_str(OUT_OF_MEMORY_TEXT),
        PackFileFault::Frame => f.write_str("the header or the trailer of the pack is wrong"),
        PackFileFault::Entry(at) => write!(
            f,
            "entry {at} of the pack, counted from 0, is malformed"
        ),
        PackFileFault::Thin => f.write_str("the base of a delta is not in the pack"),
        PackFileFault::TooLarge => f.write_str(
            "the pack is too large to index: it may have 1,048,576 objects, of which 485,000 are commits; they may have 64 GiB and name two million ids; an object may have 256 MiB, or 32 MiB among a million; an entry may have 128 MiB; a chain may have 8,191 deltas and 16 GiB",
        ),
        PackFileFault::Spool(kind) => write!(f, "the temporary file of the pack: {kind}"),
        PackFileFault::Format => f.write_str("the base of a delta has no SHA-1 id"),
        PackFileFault::Refused => f.write_str("an object of the pack is refused"),
    }
}

impl<A: Allocator + Copy> fmt::Debug for RepositoryFault<A> {
    fn fmt<W: fmt::Write>(&self, f: &mut fmt::Formatter<W>) -> fmt::Result {
        fmt::Display::fmt(self, f)
    }
}

impl<A: Allocator + Copy> Error for RepositoryFault<A> {}

impl<A: Allocator + Copy> fmt::Display for CheckFault<A> {
    fn fmt<W: fmt::Write>(&self, f: &mut fmt::Formatter<W>) -> fmt::Result {
        match self {
            CheckFault::Repository(fault) => write!(f, "{fault}"),
            CheckFault::Ref { name, fault } => {
                f.write_str(str::from_utf8(name.as_bytes()).unwrap_or("a ref"))?;
                write!(f, ": {fault}")
            }
        }
    }
}

impl<A: Allocator + Copy> fmt::Debug for CheckFault<A> {
    fn fmt<W: fmt::Write>(&self, f: &mut fmt::Formatter<W>) -> fmt::Result {
        fmt::Display::fmt(self, f)
    }
}

impl<A: Allocator + Copy> Error for CheckFault<A> {}

impl<A: Allocator + Copy> From<AllocError> for RepositoryFault<A> {
    fn from(_refused: AllocError) -> RepositoryFault<A> {
        RepositoryFault::Memory
    }
}

impl<T: Drop, A: Allocator + Copy> From<AllocFailed<T>> for RepositoryFault<A> {
    fn from(_refused: AllocFailed<T>) -> RepositoryFault<A> {
        RepositoryFault::Memory
    }
}

impl<A: Allocator + Copy> From<StoreFault<A>> for RepositoryFault<A> {
    fn from(fault: StoreFault<A>) -> RepositoryFault<A> {
        match fault {
            StoreFault::Memory => RepositoryFault::Memory,
            _ => RepositoryFault::Store(fault),
        }
    }
}

impl<A: Allocator + Copy> From<WalkFault<A>> for RepositoryFault<A> {
    fn from(fault: WalkFault<A>) -> RepositoryFault<A> {
        match fault {
            WalkFault::Memory => RepositoryFault::Memory,
            WalkFault::Store(fault) => RepositoryFault::from(fault),
            WalkFault::Malformed { id } => {
                RepositoryFault::object_fault(&id, ObjectCause::Malformed)
            }
            WalkFault::Type { id } => RepositoryFault::object_fault(&id, ObjectCause::Type),
            WalkFault::Count => RepositoryFault::Count,
        }
    }
}

impl<A: Allocator + Copy> From<RefFault<A>> for RepositoryFault<A> {
    fn from(fault: RefFault<A>) -> RepositoryFault<A> {
        match fault {
            RefFault::Memory => RepositoryFault::Memory,
            _ => RepositoryFault::Refs(fault),
        }
    }
}

impl<A: Allocator + Copy> From<PackFileFault> for RepositoryFault<A> {
    fn from(fault: PackFileFault) -> RepositoryFault<A> {
        match fault {
            PackFileFault::Memory => RepositoryFault::Memory,
            _ => RepositoryFault::Pack(fault),
        }
    }
}

impl<A: Allocator + Copy> From<SpoolFault> for RepositoryFault<A> {
    fn from(fault: SpoolFault) -> RepositoryFault<A> {
        RepositoryFault::from(PackFileFault::from(fault))
    }
}

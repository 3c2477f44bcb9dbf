//! A repository that several connections share.

ghost use Rattle.std.specs.Prelude.{◌≡◌};

use crate::directory::Directories;
use crate::disk::{Disk, PackDirectory, Ticket};
use crate::fault::Fault;
use crate::kept::CacheKey;
use crate::opening::Extent;
use crate::sentences::Sentence;
use ganswer::{ServeFault, Server};
use ggraph::{Entry, PackFault};
use gitrepository::StoreParts;
use gparts::PartPacker;
use gserver::ServedRepository;
use std::alloc::{AllocError, Global};
use std::cell::RefCell;
use std::rc::Rc;

/// A repository with the refs, HEAD and history read so far.
#[derive(Drop)]
pub(crate) struct Loaded {
    /// The directories of the repository.
    pub(crate) found: Directories,
    /// The server for the repository, with the history read so far.
    pub(crate) extent: Extent,
}

impl Loaded {
    /// Returns the key of the repository in the cache.
    pub(crate) fn key(&self) -> CacheKey<'_> {
        let server = self.extent.server();
        CacheKey {
            path: self.found.own.as_str(),
            refs: server.refs(),
            head: server.head(),
        }
    }
}

/// A handle that records the fault of its last failed call.
pub(crate) trait RecordsFault {
    /// Removes and returns the recorded fault, or returns `None` if no fault was recorded.
    fn take_fault(&self) -> Option<Fault>;
}

/// A connection's handle to a repository that several connections share.
#[derive(Drop)]
pub(crate) struct Shared<'d, D> {
    alloc: Global,
    disk: &'d D,
    pub(crate) loaded: Rc<Loaded, Global>,
    /// The ticket for the open objects, or `None` until a connection needs objects.
    pub(crate) objects: Option<Ticket>,
    /// The state of the pack directory, read before the objects were opened.
    pub(crate) packs: PackDirectory,
    // The fault that `take_fault` returns. All handles of one connection share this field.
    fault: Rc<RefCell<Option<Fault>>, Global>,
}

impl<'d, D> Shared<'d, D> {
    /// Returns the first handle of a connection. Fails only if out of memory.
    pub(crate) fn new(
        alloc: Global,
        disk: &'d D,
        loaded: Rc<Loaded, Global>,
        objects: Option<Ticket>,
        packs: PackDirectory,
    ) -> Result<Shared<'d, D>, AllocError> {
        Ok(Shared {
            alloc,
            disk,
            loaded,
            objects,
            packs,
            fault: share(alloc, RefCell::new(None))?,
        })
    }

    /// Returns the handle without access to the objects, for a connection that does not need them.
    pub(crate) fn without_objects(self) -> Shared<'d, D> {
        let mut shared = self;
        shared.objects = None;
        shared
    }

    /// Returns whether the objects are open, and the pack directory has not changed since they were
    /// opened. Returns `false` if the present state `packs` of the pack directory is unknown.
    pub(crate) fn is_open_since(&self, packs: PackDirectory) -> bool {
        self.objects.is_some() && packs != PackDirectory::Unknown && self.packs == packs
    }
}

impl<D: Disk> Shared<'_, D> {
    // Records the fault of a failed call, with details from the object store. Returns `fault`.
    fn note(&self, ticket: &Ticket, fault: PackFault) -> PackFault {
        let cause = match fault {
            PackFault::Other => self.disk.take_fault(ticket, &self.loaded.found),
            _ => None,
        };
        let recorded = match cause {
            Some(cause) => cause,
            None => Fault::of(self.alloc, Sentence::Request(&ServeFault::Pack(fault))),
        };
        let _ = self.fault.try_replace(Some(recorded));
        fault
    }
}

impl<D> RecordsFault for Shared<'_, D> {
    fn take_fault(&self) -> Option<Fault> {
        match self.fault.try_replace(None) {
            Ok(fault) => fault,
            Err(_) => None,
        }
    }
}

/// Moves a value into an `Rc`. Fails only if out of memory. A failed call drops the value.
pub(crate) fn share<T: Drop>(alloc: Global, value: T) -> Result<Rc<T, Global>, AllocError> {
    match Rc::new(alloc, value) {
        Ok(shared) => Ok(shared),
        Err(_) => Err(AllocError),
    }
}

impl<D: Disk> PartPacker<Global> for Shared<'_, D> {
    ghost use Rattle.gitprogram.specs.Sharing.{fails_any, gives_rest, most_left, packs_listed};

    type Parts = StoreParts<Global>;

    ghost packs = { λ _. packs_listed };

    ghost pack_fails = { λ _. fails_any };

    ghost gives = { λ _. gives_rest };

    ghost most = { λ _. most_left };

    fn begin(
        &self,
        alloc: Global,
        entries: &[Entry<Global>],
    ) -> Result<StoreParts<Global>, PackFault> {
        let Some(ticket) = &self.objects else {
            return Err(PackFault::Other);
        };
        match self.disk.begin(ticket, alloc, entries) {
            Ok(parts) => Ok(parts),
            Err(fault) => Err(self.note(ticket, fault)),
        }
    }

    fn part(&self, parts: &mut StoreParts<Global>, out: &mut [u8]) -> Result<usize, PackFault> {
        let Some(ticket) = &self.objects else {
            return Err(PackFault::Other);
        };
        match self.disk.copy_part(ticket, parts, out) {
            Ok(count) => Ok(count),
            Err(fault) => Err(self.note(ticket, fault)),
        }
    }
}

impl<D> ServedRepository<Global> for Shared<'_, D> {
    ghost use Rattle.gitprogram.specs.Sharing.{server_in};

    ghost server = { λ shared. server_in shared.loaded.value.extent };

    fn server(&self) -> &Server<Global> {
        self.loaded.extent.server()
    }

    fn handle(&self) -> Result<Self, AllocError> {
        let objects = match &self.objects {
            Some(objects) => Some(objects.clone()?),
            None => None,
        };
        Ok(Shared {
            alloc: self.alloc,
            disk: self.disk,
            loaded: self.loaded.clone()?,
            objects,
            packs: self.packs,
            fault: self.fault.clone()?,
        })
    }
}

//! The served repositories on disk, and the open object stores.

use crate::directory::{Directories, Exports, find_served};
use crate::disk::{Disk, PackDirectory, Ticket};
use crate::fault::Fault;
use crate::opening::{
    Extent, Listed, NotOpened, ObjectPacker, open_for_ls_refs, open_history, open_objects,
    read_listed, repository_fault,
};
use crate::slots::{MAX_OPEN, Slots};
use ganswer::Server;
use ggraph::{Entry, PackFault};
use gitobjects::ObjectFiles;
use gitrepository::StoreParts;
use std::alloc::{AllocError, Global};
use std::io::ErrorKind;
use std::rc::Rc;
use std::rt::Files;

/// The repositories that a server serves.
#[derive(Clone, Copy)]
pub(crate) enum ServedFrom<'f> {
    /// The repositories below a directory.
    Below(Exports<'f>),
    /// Only this repository, for any path that a client sends.
    Only(&'f Directories),
}

/// The served repositories on disk. Each open pack uses a file descriptor, so `close_unused` closes
/// each object store for which no ticket exists.
#[derive(Drop)]
pub(crate) struct Stored<'f, 'r, R: Files, F: ObjectFiles> {
    rt: &'r R,
    files: &'f F,
    served: ServedFrom<'f>,
    slots: Slots<'f, F>,
}

impl<'f, 'r, R: Files + AllocGlobal, F: ObjectFiles> Stored<'f, 'r, R, F> {
    /// Returns the served repositories, without open object stores.
    pub(crate) fn new(rt: &'r R, files: &'f F, served: ServedFrom<'f>) -> Stored<'f, 'r, R, F> {
        Stored {
            rt,
            files,
            served,
            slots: Slots::vacant(),
        }
    }

    // Returns the number of a free slot. Fails if no slot is free.
    fn free(&self) -> Result<u64, NotOpened> {
        for number in 0..MAX_OPEN {
            if self.slots.at(number).is_free() {
                return Ok(number);
            }
        }
        Err(NotOpened::busy(self.rt.alloc()))
    }

    // Stores a packer in the slot with this number, and returns a ticket for its object store.
    fn keep(&self, number: u64, packer: ObjectPacker<'f, F>) -> Result<Ticket, AllocError> {
        let Ok(ticket) = Rc::new(self.rt.alloc(), number) else {
            return Err(AllocError);
        };
        let tickets = Rc::downgrade(&ticket)?;
        if self.slots.at(number).fill(tickets, packer) {
            Ok(ticket)
        } else {
            Err(AllocError)
        }
    }
}

impl<R: Files + AllocGlobal, F: ObjectFiles> Disk for Stored<'_, '_, R, F> {
    fn find(&self, path: &[u8]) -> Result<Option<Directories>, Fault> {
        match self.served {
            ServedFrom::Below(exports) => find_served(self.rt, exports, path),
            ServedFrom::Only(found) => Ok(Some(found.copy_in(self.rt.alloc())?)),
        }
    }

    fn list(&self, found: &Directories) -> Result<Listed, NotOpened> {
        read_listed(self.rt.alloc(), self.rt, self.files, found)
    }

    fn open_for_ls_refs(&self, found: &Directories, listed: Listed) -> Result<Extent, NotOpened> {
        open_for_ls_refs(self.rt.alloc(), self.files, found, listed)
    }

    fn pack_directory(&self, found: &Directories) -> PackDirectory {
        let Ok(path) = found.packs(self.rt.alloc()) else {
            return PackDirectory::Unknown;
        };
        match self.rt.metadata(path.as_str()) {
            Ok(metadata) => match metadata.modified() {
                Ok(time) => PackDirectory::ChangedAt(time),
                Err(_) => PackDirectory::Unknown,
            },
            Err(error) if error.kind() == ErrorKind::NotFound => PackDirectory::Missing,
            Err(_) => PackDirectory::Unknown,
        }
    }

    fn open_objects(&self, found: &Directories) -> Result<Ticket, NotOpened> {
        let number = self.free()?;
        let packer = open_objects(self.rt.alloc(), self.files, found)?;
        Ok(self.keep(number, packer)?)
    }

    fn open_history(
        &self,
        found: &Directories,
        tips: &Server<Global>,
    ) -> Result<(Server<Global>, Ticket), NotOpened> {
        let number = self.free()?;
        let (server, packer) = open_history(self.rt.alloc(), self.files, found, tips)?;
        Ok((server, self.keep(number, packer)?))
    }

    fn close_unused(&self) {
        for number in 0..MAX_OPEN {
            self.slots.at(number).close_unused();
        }
    }

    fn begin(
        &self,
        ticket: &Ticket,
        alloc: Global,
        entries: &[Entry<Global>],
    ) -> Result<StoreParts<Global>, PackFault> {
        self.slots.at(**ticket).begin(alloc, entries)
    }

    fn copy_part(
        &self,
        ticket: &Ticket,
        parts: &mut StoreParts<Global>,
        out: &mut [u8],
    ) -> Result<usize, PackFault> {
        self.slots.at(**ticket).copy_part(parts, out)
    }

    fn take_fault(&self, ticket: &Ticket, found: &Directories) -> Option<Fault> {
        let cause = self.slots.at(**ticket).take_fault()?;
        Some(repository_fault(self.rt.alloc(), found.common.as_str(), &cause))
    }
}

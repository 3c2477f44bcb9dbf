//! Details for the log line of a connection.

use crate::fault::Fault;
use std::alloc::{AllocError, Global};
use std::cell::{Cell, RefCell};

/// Details for the log line of a connection. `Repositories` records the details while it answers a
/// message.
#[derive(Drop)]
pub(crate) struct Notes {
    alloc: Global,
    // The requested path, from the first line of a connection.
    path: RefCell<Vec<u8>>,
    // The fault of the most recent failed call.
    fault: RefCell<Option<Fault>>,
    // Whether the message that is being refused is the first line of a connection, and not a
    // request.
    is_first: Cell<bool>,
}

impl Notes {
    /// Returns `Notes` without details.
    pub(crate) fn new(alloc: Global) -> Notes {
        Notes {
            alloc,
            path: RefCell::new(Vec::new(alloc)),
            fault: RefCell::new(None),
            is_first: Cell::new(true),
        }
    }

    /// Records the path in the first line of a connection. Fails only if out of memory.
    pub(crate) fn note_path(&self, path: &[u8]) -> Result<(), AllocError> {
        let mut copy = Vec::new(self.alloc);
        copy.extend_from_slice(path)?;
        let _ = self.path.try_replace(copy);
        Ok(())
    }

    /// Records the fault of a failed call.
    pub(crate) fn note_fault(&self, fault: Fault) {
        let _ = self.fault.try_replace(Some(fault));
    }

    /// Records whether the message that is being refused is the first line of a connection.
    pub(crate) fn note_first(&self, is_first: bool) {
        self.is_first.set(is_first);
    }

    /// Returns whether the message that is being refused is the first line of a connection.
    pub(crate) fn is_first(&self) -> bool {
        self.is_first.get()
    }

    /// Removes and returns the recorded path, which is empty if no path was recorded.
    pub(crate) fn take_path(&self) -> Vec<u8> {
        match self.path.try_replace(Vec::new(self.alloc)) {
            Ok(path) => path,
            Err(path) => path,
        }
    }

    /// Removes and returns the recorded fault, or returns `None` if no fault was recorded.
    pub(crate) fn take_fault(&self) -> Option<Fault> {
        match self.fault.try_replace(None) {
            Ok(fault) => fault,
            Err(_) => None,
        }
    }
}

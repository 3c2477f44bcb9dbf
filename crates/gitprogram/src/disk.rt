//! The repositories on disk that a server can open.

ghost use Rattle.std.specs.Prelude.{◌<◌, [], IfOk, MatchResult, Some, length};
ghost use Rattle.gparts.specs.Parts.{Begins, GivesPart};
ghost use Rattle.gitprogram.specs.Sharing.{fails_any, gives_rest, most_left, packs_listed};

use crate::directory::Directories;
use crate::fault::Fault;
use crate::opening::{Extent, Listed, NotOpened};
use ganswer::Server;
use ggraph::{Entry, PackFault};
use gitrepository::StoreParts;
use std::alloc::Global;
use std::rc::Rc;
use std::time::SystemTime;

/// A handle to an open object store: the number of the store's slot. The store stays open while a
/// ticket for it exists.
pub(crate) type Ticket = Rc<u64, Global>;

/// The state of the pack directory of a repository.
#[derive(Clone, Copy, PartialEq, Eq)]
pub(crate) enum PackDirectory {
    /// The state is unknown.
    Unknown,
    /// There is no pack directory.
    Missing,
    /// The pack directory was modified last at this time.
    ChangedAt(SystemTime),
}

/// Access to the repositories on a disk, and to the open object stores.
pub(crate) trait Disk {
    /// Returns the repository that a client's path names, or `None` if no served repository has
    /// this path.
    fn find(&self, path: &[u8]) -> Result<Option<Directories>, Fault>;

    /// Returns the current refs and HEAD of a repository.
    fn list(&self, found: &Directories) -> Result<Listed, NotOpened>;

    /// Opens a repository to answer ls-refs. If the objects that these refs and HEAD point to can't
    /// be determined without the history, reads the whole history.
    fn open_for_ls_refs(&self, found: &Directories, listed: Listed) -> Result<Extent, NotOpened>;

    /// Returns the state of the pack directory.
    fn pack_directory(&self, found: &Directories) -> PackDirectory;

    /// Opens the objects of a repository, and returns a ticket for them.
    fn open_objects(&self, found: &Directories) -> Result<Ticket, NotOpened>;

    /// Opens the objects of a repository, and reads the history of the refs and HEAD in `tips`.
    /// Returns a server with this history, and a ticket for the objects.
    fn open_history(
        &self,
        found: &Directories,
        tips: &Server<Global>,
    ) -> Result<(Server<Global>, Ticket), NotOpened>;

    /// Closes each object store for which no ticket exists.
    fn close_unused(&self);

    /// Begins a pack of these entries, whose objects are read from the ticket's object store.
    fn begin(
        &self,
        ticket: &Ticket,
        alloc: Global,
        entries: &[Entry<Global>],
    ) -> Result<StoreParts<Global>, PackFault>
        ensures { IfOk result
            (λ parts. Begins packs_listed fails_any entries.now (gives_rest parts) (most_left parts)) };

    /// Copies the next bytes of a pack to the front of `out`. Returns the number of copied bytes,
    /// which is 0 at the end of the pack.
    fn copy_part(
        &self,
        ticket: &Ticket,
        parts: &mut StoreParts<Global>,
        out: &mut [u8],
    ) -> Result<usize, PackFault>
        requires { 0 < length out.old }
        ensures { MatchResult result
            (λ count. GivesPart (gives_rest parts.old) (most_left parts.old)
            (gives_rest parts.new) (most_left parts.new) count out.new)
            (λ fault. gives_rest parts.old [] (Some fault)) };

    /// Removes and returns the detailed fault of the last call with this ticket that failed with
    /// `Other`. Returns `None` if no fault is stored.
    fn take_fault(&self, ticket: &Ticket, found: &Directories) -> Option<Fault>;
}

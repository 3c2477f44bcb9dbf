//! The faults of calls on a repository.

ghost use Rattle.std.specs.Prelude.{◌≡◌, Some};
ghost use Rattle.gdag.specs.declared.fault.GraphFault.TheVariants.{Memory};
ghost use Rattle.gclientrepo.specs.Faults.{repo_fault_row, repo_fault_text};
ghost use Rattle.gclientrepo.specs.declared.fault.RepoFault.TheVariants as repo;

use gdag::GraphFault;
use gname::{MISSING_PARENT, Oid, RefName};
use grefs::RefsFault;
use std::alloc::{AllocError, AllocFailed, Allocator, Global};
use std::error::Error;
use std::fmt;

/// The reason why a call on a repository failed.
#[derive(Debug, Drop)]
pub enum RepoFault<A: Allocator + Copy = Global> {
    /// The object to add has the parent `id`, which the repository does not hold.
    MissingParent { id: Oid },
    /// The ref `name` is not connected. All refs before it, in the order of the names, are
    /// connected.
    UnconnectedRef { name: RefName<A> },
    /// The id to which `Repo::set_local_ref` should set a ref is not connected: it reaches the id
    /// `missing`, which the repository does not hold.
    UnconnectedId { missing: Oid },
    /// The new id of an update that `Repo::settle` should make is not connected: it reaches the id
    /// `missing`, which the repository does not hold.
    NotConnected { missing: Oid },
    /// The graph rejected the change, or there is not enough memory for a walk or a copy.
    Graph(GraphFault),
    /// A ref can't be set, or there is not enough memory to set the ref.
    Refs(RefsFault),
}

impl<A: Allocator + Copy> RepoFault<A> {
    /// Returns the number of the fault.
    pub fn code(&self) -> u32
        ensures { result ≡ (repo_fault_row self.now).0 }
    {
        self.fault_row().0
    }

    /// Returns the name of the fault.
    pub fn name(&self) -> &'static str
        ensures { result.now ≡ (repo_fault_row self.now).1 }
    {
        self.fault_row().1
    }

    /// Returns the number and the name of the fault.
    pub fn fault_row(&self) -> (u32, &'static str)
        ensures { (result.0, result.1.now) ≡ repo_fault_row self.now }
    {
        match self {
            RepoFault::MissingParent { .. } => MISSING_PARENT,
            RepoFault::UnconnectedRef { .. } => (80, "UnsafeRef"),
            RepoFault::UnconnectedId { .. } => (81, "NotHeld"),
            RepoFault::NotConnected { .. } => (85, "NotConnected"),
            RepoFault::Graph(fault) => fault.fault_row(),
            RepoFault::Refs(fault) => fault.fault_row(),
        }
    }
}

impl<A: Allocator + Copy> fmt::Display for RepoFault<A> {
    ghost output = { λ fault. Some (repo_fault_text fault) };

    fn fmt<W: fmt::Write>(&self, f: &mut fmt::Formatter<W>) -> fmt::Result {
        match self {
            RepoFault::MissingParent { .. } => f.write_str("a parent is not held"),
            RepoFault::UnconnectedRef { .. } => f.write_str("the ancestry of a ref is not held"),
            RepoFault::UnconnectedId { .. } => f.write_str("the ancestry of an id is not held"),
            RepoFault::NotConnected { .. } => f.write_str(
                "the ancestries of the asked ids are not held",
            ),
            RepoFault::Graph(fault) => fmt::Display::fmt(fault, f),
            RepoFault::Refs(fault) => fmt::Display::fmt(fault, f),
        }
    }
}

impl<A: Allocator + Copy + fmt::Debug> Error for RepoFault<A> {}

impl<A: Allocator + Copy> From<GraphFault> for RepoFault<A> {
    ghost from_gives = { λ cause fault. fault ≡ repo.Graph cause };

    fn from(cause: GraphFault) -> RepoFault<A> {
        RepoFault::Graph(cause)
    }
}

impl<A: Allocator + Copy> From<RefsFault> for RepoFault<A> {
    ghost from_gives = { λ cause fault. fault ≡ repo.Refs cause };

    fn from(cause: RefsFault) -> RepoFault<A> {
        RepoFault::Refs(cause)
    }
}

impl<A: Allocator + Copy> From<AllocError> for RepoFault<A> {
    ghost from_gives = { λ _ fault. fault ≡ repo.Graph Memory };

    fn from(_refused: AllocError) -> RepoFault<A> {
        RepoFault::Graph(GraphFault::Memory)
    }
}

impl<A: Allocator + Copy, T: Drop> From<AllocFailed<T>> for RepoFault<A> {
    ghost from_gives = { λ _ fault. fault ≡ repo.Graph Memory };

    fn from(_refused: AllocFailed<T>) -> RepoFault<A> {
        RepoFault::Graph(GraphFault::Memory)
    }
}

//! The faults of calls on a graph.

ghost use Rattle.std.specs.Prelude.{◌≡◌, Some};
ghost use Rattle.gdag.specs.Faults.{graph_fault_row, graph_fault_text};
ghost use Rattle.gdag.specs.declared.fault.GraphFault.TheVariants.{Memory};

use gname::{OUT_OF_MEMORY, OUT_OF_MEMORY_TEXT, Oid};
use std::alloc::{AllocError, AllocFailed};
use std::error::Error;
use std::fmt;

/// The reason why a call on a graph failed.
#[derive(Clone, Copy, Debug, PartialEq, Eq, Drop)]
pub enum GraphFault {
    /// In the entry with this id, this id or the id of a parent does not have the object format of
    /// the graph.
    OtherFormat { id: Oid },
    /// The graph, or an earlier entry of the list, has a different node for this id.
    Conflict { id: Oid },
    /// The graph would have more than `MAX_NODES` nodes.
    TooMany,
    /// The node has more than `MAX_PARENTS` parents.
    TooManyParents,
    /// The node is a tag without exactly one parent.
    TagShape,
    /// Out of memory.
    Memory,
}

impl GraphFault {
    /// Returns the number of the fault.
    pub fn code(&self) -> u32
        ensures { result ≡ (graph_fault_row self.now).0 }
    {
        self.fault_row().0
    }

    /// Returns the name of the fault.
    pub fn name(&self) -> &'static str
        ensures { result.now ≡ (graph_fault_row self.now).1 }
    {
        self.fault_row().1
    }

    /// Returns the number and the name of the fault.
    pub fn fault_row(&self) -> (u32, &'static str)
        ensures { (result.0, result.1.now) ≡ graph_fault_row self.now }
    {
        match self {
            GraphFault::Conflict { .. } => (60, "Conflict"),
            GraphFault::TooMany => (61, "TooMany"),
            GraphFault::TooManyParents => (62, "TooManyParents"),
            GraphFault::TagShape => (63, "TagShape"),
            GraphFault::Memory => OUT_OF_MEMORY,
            GraphFault::OtherFormat { .. } => (75, "OtherFormat"),
        }
    }
}

impl fmt::Display for GraphFault {
    ghost output = { λ fault. Some (graph_fault_text fault) };

    fn fmt<W: fmt::Write>(&self, f: &mut fmt::Formatter<W>) -> fmt::Result {
        match self {
            GraphFault::OtherFormat { .. } => f.write_str("an id is of another object format"),
            GraphFault::Conflict { .. } => f.write_str("another object has this id"),
            GraphFault::TooMany => f.write_str("too many objects"),
            GraphFault::TooManyParents => f.write_str("too many parents"),
            GraphFault::TagShape => f.write_str("a tag has one parent"),
            GraphFault::Memory => f.write_str(OUT_OF_MEMORY_TEXT),
        }
    }
}

impl Error for GraphFault {}

impl From<AllocError> for GraphFault {
    ghost from_gives = { λ _ fault. fault ≡ Memory };

    fn from(_refused: AllocError) -> GraphFault {
        GraphFault::Memory
    }
}

impl<T: Drop> From<AllocFailed<T>> for GraphFault {
    ghost from_gives = { λ _ fault. fault ≡ Memory };

    fn from(_refused: AllocFailed<T>) -> GraphFault {
        GraphFault::Memory
    }
}

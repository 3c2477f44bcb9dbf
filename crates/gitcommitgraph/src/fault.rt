//! The reasons why a file cannot be added to a commit-graph.

ghost use Rattle.std.specs.Prelude.{◌≡◌, Some};
ghost use Rattle.gitcommitgraph.specs.Faults.{commit_graph_fault_text};
ghost use Rattle.gitcommitgraph.specs.declared.fault.CommitGraphFault.TheVariants.{Memory};

use gname::OUT_OF_MEMORY_TEXT;
use std::alloc::{AllocError, AllocFailed};
use std::error::Error;
use std::fmt;

/// The reason why a file cannot be added to a commit-graph.
#[derive(Clone, Copy, Debug, PartialEq, Eq, Drop)]
pub enum CommitGraphFault {
    /// Out of memory.
    Memory,
    /// The file is too short, or does not begin with the header of a commit-graph of version 1 with
    /// SHA-1 ids.
    Header,
    /// The table of contents is wrong: the chunks do not fill the file up to the trailer, or two
    /// chunks have the same name.
    Contents,
    /// A required chunk is missing, or a chunk has a wrong length.
    Chunk,
    /// The ids of the file are not in ascending order.
    Order,
    /// The fan-out table does not match the ids.
    FanOut,
    /// An edge list has no end, or begins outside the edge table.
    Edges,
    /// The base graphs of the file are not the files that were added earlier.
    Bases,
    /// The commit-graph would have more than 0x7000_0000 commits.
    TooMany,
    /// The file lists a parent position at which there is no commit.
    Parents,
}

impl CommitGraphFault {
    // Returns the displayed text of the fault.
    fn text(&self) -> &'static str
        ensures { result.now ≡ commit_graph_fault_text self.now }
    {
        match self {
            CommitGraphFault::Memory => OUT_OF_MEMORY_TEXT,
            CommitGraphFault::Header => "the file is not a version 1 commit-graph with SHA-1 ids",
            CommitGraphFault::Contents => "the table of contents of the commit-graph is wrong",
            CommitGraphFault::Chunk => {
                "a chunk of the commit-graph is missing or has a wrong length"
            }
            CommitGraphFault::Order => "the ids of the commit-graph are not in ascending order",
            CommitGraphFault::FanOut => "the fan-out table of the commit-graph is wrong",
            CommitGraphFault::Edges => "an edge list of the commit-graph has no end",
            CommitGraphFault::Bases => {
                "the base graphs of the commit-graph are not the earlier files"
            }
            CommitGraphFault::TooMany => "the commit-graph has too many commits",
            CommitGraphFault::Parents => "a parent is not in the commit-graph",
        }
    }
}

impl fmt::Display for CommitGraphFault {
    ghost output = { λ fault. Some (commit_graph_fault_text fault) };

    fn fmt<W: fmt::Write>(&self, f: &mut fmt::Formatter<W>) -> fmt::Result {
        f.write_str(self.text())
    }
}

impl Error for CommitGraphFault {}

impl From<AllocError> for CommitGraphFault {
    ghost from_gives = { λ _ fault. fault ≡ Memory };

    fn from(_refused: AllocError) -> CommitGraphFault {
        CommitGraphFault::Memory
    }
}

impl<T: Drop> From<AllocFailed<T>> for CommitGraphFault {
    ghost from_gives = { λ _ fault. fault ≡ Memory };

    fn from(_refused: AllocFailed<T>) -> CommitGraphFault {
        CommitGraphFault::Memory
    }
}

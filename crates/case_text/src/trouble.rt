//! The reasons why the cases can't run.

use std::alloc::{AllocError, AllocFailed};
use std::io;

/// The reason why the cases can't run.
#[derive(Clone, Copy)]
pub enum Trouble {
    /// The test program itself is out of memory.
    Memory,
    /// A brace is not closed.
    OpenBrace,
    /// A line names a text or talk that does not exist.
    UnknownName,
    /// A line that belongs to a case precedes the first case.
    NoCurrentRow,
    /// A case names no program.
    RowWithoutProgram,
    /// The form of a line is unknown.
    UnknownLine,
    /// A `run` line names an unknown program.
    UnknownProgram,
    /// A line names an unknown packer or indexer.
    UnknownPackTool,
    /// The pack size limit of a command line is not a number.
    InvalidLimit,
    /// The text that must hold the graph of a fact is not a valid repository.
    InvalidGraph,
    /// An id is invalid.
    InvalidId,
    /// The texts of a simulation's repositories do not describe a server and a client.
    InvalidWorld,
    /// The text of a scenario is invalid.
    InvalidScenario,
    /// An operation of the test itself on a socket or a file failed.
    TestIo,
}

impl Trouble {
    /// Returns the printed text of the reason.
    pub fn text(self) -> &'static str {
        match self {
            Trouble::Memory => "out of memory",
            Trouble::OpenBrace => "a brace is not closed",
            Trouble::UnknownName => "no text or talk has this name",
            Trouble::NoCurrentRow => "there is no row yet",
            Trouble::RowWithoutProgram => "the row before names no program",
            Trouble::UnknownLine => "no line begins so",
            Trouble::UnknownProgram => "no program has this name",
            Trouble::UnknownPackTool => "no packer or indexer has this name",
            Trouble::InvalidLimit => "the limit is no number",
            Trouble::InvalidGraph => "the graph is no repository",
            Trouble::InvalidId => "a word is no id",
            Trouble::InvalidWorld => "there is no such world",
            Trouble::InvalidScenario => "the text is no scenario",
            Trouble::TestIo => "a socket or a file of the test failed",
        }
    }
}

impl From<AllocError> for Trouble {
    fn from(_error: AllocError) -> Trouble {
        Trouble::Memory
    }
}

impl From<io::Error> for Trouble {
    fn from(_error: io::Error) -> Trouble {
        Trouble::TestIo
    }
}

impl<T: Drop> From<AllocFailed<T>> for Trouble {
    fn from(_error: AllocFailed<T>) -> Trouble {
        Trouble::Memory
    }
}

//! Reasons why the tests can't run.

use std::alloc::{AllocError, AllocFailed};
use std::io;

/// The reason why the tests can't run.
#[derive(Clone, Copy, Drop)]
pub(crate) enum Trouble {
    /// The test program itself is out of memory.
    Memory,
    /// A brace is not closed.
    OpenBrace,
    /// A line names an item that does not exist.
    UnknownName,
    /// A word is not a number.
    InvalidNumber,
    /// A line belongs to an item that has not begun.
    NoCurrentItem,
    /// The form of a line is unknown.
    UnknownLine,
    /// A text is not UTF-8.
    NotUtf8,
    /// A folder or a file can't be created or removed.
    FileSystem,
    /// A write to standard output failed.
    StandardOutput,
}

impl Trouble {
    pub(crate) fn text(self) -> &'static str {
        match self {
            Trouble::Memory => "out of memory",
            Trouble::OpenBrace => "a brace is not closed",
            Trouble::UnknownName => "nothing has this name",
            Trouble::InvalidNumber => "a word is no number",
            Trouble::NoCurrentItem => "the line does not go on with what is begun",
            Trouble::UnknownLine => "no line begins so",
            Trouble::NotUtf8 => "a text is not UTF-8",
            Trouble::FileSystem => "a folder or a file can't be made",
            Trouble::StandardOutput => "the output is closed",
        }
    }
}

impl From<AllocError> for Trouble {
    fn from(_error: AllocError) -> Trouble {
        Trouble::Memory
    }
}

impl<T: Drop> From<AllocFailed<T>> for Trouble {
    fn from(_error: AllocFailed<T>) -> Trouble {
        Trouble::Memory
    }
}

impl From<io::Error> for Trouble {
    fn from(_error: io::Error) -> Trouble {
        Trouble::StandardOutput
    }
}

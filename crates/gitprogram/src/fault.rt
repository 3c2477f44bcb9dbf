//! The faults of the commands.

use crate::sentences::Sentence;
use gname::OUT_OF_MEMORY_TEXT;
use std::alloc::{AllocError, AllocFailed, Global};
use std::{fmt, io};

/// The reason for a failed command, which is printed on one line after the program name.
#[derive(Drop)]
pub(crate) enum Fault {
    /// Out of memory.
    Memory,
    /// The text of a [`Sentence`].
    Said(String),
}

impl Fault {
    /// Returns the fault with the text of this sentence.
    pub(crate) fn of(alloc: Global, sentence: Sentence<'_>) -> Fault {
        match format!(in alloc; "{sentence}") {
            Ok(text) => Fault::Said(text),
            Err(_) => Fault::Memory,
        }
    }

    /// Returns the fault for a system call that failed. The message names the call and its object.
    pub(crate) fn of_call(
        alloc: Global,
        call: &'static str,
        name: &str,
        error: &io::Error,
    ) -> Fault {
        Fault::of(alloc, Sentence::Refused { call, name, error })
    }
}

impl fmt::Display for Fault {
    fn fmt<W: fmt::Write>(&self, f: &mut fmt::Formatter<W>) -> fmt::Result {
        match self {
            Fault::Memory => f.write_str(OUT_OF_MEMORY_TEXT),
            Fault::Said(text) => write_shown(text.as_str(), f),
        }
    }
}

// Writes a text with a question mark in place of each control character, so that the text is safe
// on a terminal.
fn write_shown<W: fmt::Write>(text: &str, f: &mut fmt::Formatter<W>) -> fmt::Result {
    for letter in text.chars() {
        f.write_char(if letter.is_control() { '?' } else { letter })?;
    }
    Ok(())
}

impl From<AllocError> for Fault {
    fn from(_refused: AllocError) -> Fault {
        Fault::Memory
    }
}

impl<T: Drop> From<AllocFailed<T>> for Fault {
    fn from(_refused: AllocFailed<T>) -> Fault {
        Fault::Memory
    }
}

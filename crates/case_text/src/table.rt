//! Tables that list the expected results for truncated requests, and for requests with one changed
//! byte. A line of a table covers a range of positions:
//!
//! | Line | Meaning |
//! |---|---|
//! | `cut 1-17 = OUTCOME` | the input ends after 1 to 17 bytes |
//! | `change 18 2-9 a-f = OUTCOME` | the byte at offset 18 becomes one of the listed bytes |
//! | `change 18 other = OUTCOME` | the byte at offset 18 gets a value that no earlier line lists |
//!
//! An outcome is `nothing`, `as it stands`, `use NAME`, or `TEXT` and `FAULT` separated by ` | `.
//! `nothing` means no reply. `as it stands` means the result of the unchanged request. `use NAME`
//! means the messages of the talk (named list of lines) `NAME`. In the last form, `TEXT` is the
//! text of an error to the client, and `FAULT` is the printed line of the fault. In `TEXT` and
//! `FAULT`, `{}` is replaced by the input bytes at the line's positions, in lower case.

use crate::command::split_first_word;
use crate::escapes::{hex_byte, hex_value, parse_number};
use crate::packets::{concatenate, packet};
use crate::trouble::Trouble;
use std::alloc::Global;

/// A change to the input of a case.
#[derive(Clone, Copy, PartialEq, Eq)]
pub enum Change {
    /// The input is truncated to this many bytes.
    Cut(usize),
    /// The byte at this offset is replaced by this value.
    Byte(usize, u8),
}

/// The kind of result expected for a changed input.
#[derive(Clone, Copy, PartialEq, Eq)]
pub enum OutcomeKind {
    /// The same result as for the unchanged input.
    Unchanged,
    /// Exactly the listed bytes as output, and no fault.
    Output,
    /// An error packet with this text, and the printed line of this fault.
    ErrorPacket,
}

/// The expected output for a changed request. Output that precedes the request is not included.
#[derive(Drop)]
pub struct ExpectedOutcome<'a> {
    pub kind: OutcomeKind,
    pub output: Vec<u8>,
    pub error_text: &'a str,
    pub fault: &'a str,
}

impl<'a> ExpectedOutcome<'a> {
    /// Returns an outcome that expects the result of the unchanged input.
    pub(crate) fn unchanged(alloc: Global) -> ExpectedOutcome<'a> {
        ExpectedOutcome {
            kind: OutcomeKind::Unchanged,
            output: Vec::new(alloc),
            error_text: "",
            fault: "",
        }
    }

    /// Returns an outcome that expects exactly these bytes as output.
    pub(crate) fn with_output(output: Vec<u8>) -> ExpectedOutcome<'a> {
        ExpectedOutcome {
            kind: OutcomeKind::Output,
            output,
            error_text: "",
            fault: "",
        }
    }

    /// Returns an outcome that expects an error packet for the client, and a printed fault.
    pub(crate) fn with_error_packet(
        alloc: Global,
        text: &'a str,
        fault: &'a str,
    ) -> ExpectedOutcome<'a> {
        ExpectedOutcome {
            kind: OutcomeKind::ErrorPacket,
            output: Vec::new(alloc),
            error_text: text,
            fault,
        }
    }
}

/// A line of a table, which covers a range of positions.
#[derive(Drop)]
pub struct TableLine<'a> {
    is_cut: bool,
    first_offset: usize,
    last_offset: usize,
    // The new values of the changed byte, or `other`, which covers all values.
    byte_list: &'a str,
    pub expected: ExpectedOutcome<'a>,
}

impl<'a> TableLine<'a> {
    /// Returns a line of a table. `offsets` is the text before ` = `: a range of positions and, in
    /// a `change` line, the new values of the byte.
    pub(crate) fn new(
        is_cut: bool,
        offsets: &'a str,
        expected: ExpectedOutcome<'a>,
    ) -> TableLine<'a> {
        let (offsets, byte_list) = split_first_word(offsets);
        let (first, last) = split_range(offsets);
        TableLine {
            is_cut,
            first_offset: parse_number(first.as_bytes()),
            last_offset: parse_number(last.as_bytes()),
            byte_list,
            expected,
        }
    }

    /// Returns whether this line covers the change.
    pub fn covers(&self, change: Change) -> bool {
        match change {
            Change::Cut(offset) => self.is_cut && self.covers_offset(offset),
            Change::Byte(offset, byte) => {
                !self.is_cut && self.covers_offset(offset) && lists_byte(self.byte_list, byte)
            }
        }
    }

    fn covers_offset(&self, offset: usize) -> bool {
        self.first_offset <= offset && offset <= self.last_offset
    }

    /// Returns the text, with `{}` replaced by the input bytes at the line's positions.
    pub fn fill_placeholder(
        &self,
        alloc: Global,
        text: &str,
        input: &[u8],
    ) -> Result<Vec<u8>, Trouble> {
        let Some((before, after)) = text.split_once("{}") else {
            return concatenate(alloc, text.as_bytes(), b"");
        };
        let mut bytes = Vec::new(alloc);
        bytes.extend_from_slice(before.as_bytes())?;
        if let Some(part) = input.get(self.first_offset..self.last_offset.saturating_add(1)) {
            for byte in part {
                bytes.push(byte.to_ascii_lowercase())?;
            }
        }
        bytes.extend_from_slice(after.as_bytes())?;
        Ok(bytes)
    }
}

// Returns whether the list contains `byte`. The list `other` contains every byte. Any other list
// consists of bytes and ranges of bytes. Each byte is a character, or `x` with two hexadecimal
// digits.
fn lists_byte(byte_list: &str, byte: u8) -> bool {
    for token in byte_list.split(' ') {
        let (first, last) = split_range(token);
        if token == "other" || (parse_byte(first) <= byte && byte <= parse_byte(last)) {
            return true;
        }
    }
    false
}

// Returns the first and the last item of a range, or the item twice if the text is a single item.
fn split_range(text: &str) -> (&str, &str) {
    match text.split_once('-') {
        Some((first, last)) => (first, last),
        None => (text, text),
    }
}

// Parses a single character, or `x` and two hexadecimal digits.
fn parse_byte(token: &str) -> u8 {
    match token.as_bytes() {
        [byte] => *byte,
        [b'x', high, low] => hex_byte(*high, *low),
        _ => 0,
    }
}

/// Returns an error packet for the client.
pub fn error_packet(alloc: Global, text: &[u8]) -> Result<Vec<u8>, Trouble> {
    packet(alloc, b"ERR upload-pack: ", text, b"\n")
}

/// Returns whether the bytes are exactly one error packet.
pub fn is_error_packet(written: &[u8]) -> bool {
    let Some(digits) = written.get(..4) else {
        return false;
    };
    let mut len = 0usize;
    for letter in digits {
        let value = usize::from(hex_value(*letter));
        len = len.saturating_mul(16).saturating_add(value);
    }
    len == written.len()
        && written
            .get(4..)
            .is_some_and(|rest| rest.starts_with(b"ERR "))
}

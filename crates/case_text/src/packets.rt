//! Packets from the lines of a test case.

use crate::case::{Speaker, TranscriptEntry};
use crate::trouble::Trouble;
use std::alloc::Global;

/// Returns the transcript entry of a line with this keyword. Fails with `UnknownLine` if the
/// keyword is unknown.
pub(crate) fn read_entry(
    alloc: Global,
    keyword: &str,
    bytes: &[u8],
) -> Result<TranscriptEntry, Trouble> {
    let (speaker, form) = match keyword.as_bytes() {
        [b'C', form] => (Speaker::Client, *form),
        [b'S', form] => (Speaker::Server, *form),
        [b'|'] => (Speaker::Output, b'|'),
        [b'!'] => (Speaker::Errors, b'|'),
        b"report" => (Speaker::Report, b'|'),
        _ => return Err(Trouble::UnknownLine),
    };
    let bytes = entry_bytes(alloc, form, bytes)?;
    Ok(TranscriptEntry { speaker, bytes })
}

// Returns the text as a packet, as bytes or as a line. The form is the last character of the
// keyword, or `|` for the keywords `!` and `report`.
fn entry_bytes(alloc: Global, form: u8, text: &[u8]) -> Result<Vec<u8>, Trouble> {
    let band: &[u8] = match form {
        b':' => return text_packet(alloc, text),
        b'=' => return concatenate(alloc, text, b""),
        b'|' => return concatenate(alloc, text, b"\n"),
        b'.' => b"",
        b'1' => b"\x01",
        b'2' => b"\x02",
        b'3' => b"\x03",
        _ => return Err(Trouble::UnknownLine),
    };
    packet(alloc, band, text, b"")
}

/// Returns the special packet `0000`, `0001` or `0002` if the text is that packet. Otherwise
/// returns a pkt-line of the text and a line feed.
pub fn text_packet(alloc: Global, text: &[u8]) -> Result<Vec<u8>, Trouble> {
    match text {
        b"0000" | b"0001" | b"0002" => concatenate(alloc, text, b""),
        _ => packet(alloc, b"", text, b"\n"),
    }
}

/// Returns a pkt-line that contains the three parts in order. The length field of a packet of more
/// than 65,535 bytes is `ffff`.
pub fn packet(alloc: Global, first: &[u8], text: &[u8], last: &[u8]) -> Result<Vec<u8>, Trouble> {
    let len = first
        .len()
        .saturating_add(text.len())
        .saturating_add(last.len());
    let mut bytes = Vec::new(alloc);
    bytes.extend_from_slice(&length_field(len))?;
    bytes.extend_from_slice(first)?;
    bytes.extend_from_slice(text)?;
    bytes.extend_from_slice(last)?;
    Ok(bytes)
}

// Returns the length field of a packet that contains this many bytes.
fn length_field(len: usize) -> [u8; 4] {
    let len = len.saturating_add(4).min(0xffff);
    [
        hex_digit(len >> 12),
        hex_digit(len >> 8),
        hex_digit(len >> 4),
        hex_digit(len),
    ]
}

fn hex_digit(number: usize) -> u8 {
    let digits = b"0123456789abcdef";
    match digits.get(number % 16) {
        Some(digit) => *digit,
        None => b'0',
    }
}

/// Returns the bytes of `text` and then of `last`.
pub(crate) fn concatenate(alloc: Global, text: &[u8], last: &[u8]) -> Result<Vec<u8>, Trouble> {
    let mut bytes = Vec::new(alloc);
    bytes.extend_from_slice(text)?;
    bytes.extend_from_slice(last)?;
    Ok(bytes)
}

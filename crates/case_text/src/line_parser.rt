//! Transcript entries from the lines of a test case.

use crate::case::TranscriptEntry;
use crate::command::split_first_word;
use crate::escapes::{EscapeContext, expand_escapes};
use crate::packets::read_entry;
use crate::trouble::Trouble;
use gname::Format;
use std::alloc::Global;

/// The maximum number of side-band bytes in one packet.
const MAX_SIDE_BAND_BYTES: usize = 65_515;

/// Appends the transcript entries of a line.
pub(crate) fn add_entries(
    alloc: Global,
    line: &str,
    escape_context: EscapeContext<'_, '_>,
    transcript: &mut Vec<TranscriptEntry>,
) -> Result<(), Trouble> {
    let (keyword, value) = split_first_word(line);
    add_keyword_entries(alloc, keyword, value, escape_context, transcript)
}

/// Appends the transcript entries of a line with this keyword. An `object-format` packet follows
/// the command of a SHA-256 request.
pub(crate) fn add_keyword_entries(
    alloc: Global,
    keyword: &str,
    value: &str,
    escape_context: EscapeContext<'_, '_>,
    transcript: &mut Vec<TranscriptEntry>,
) -> Result<(), Trouble> {
    let format = escape_context.format;
    let bytes = expand_escapes(alloc, adapt_to_format(format, value), escape_context)?;
    if keyword == "S1*" {
        return add_band_packets(alloc, bytes.as_slice(), transcript);
    }
    add_entry(alloc, keyword, bytes.as_slice(), transcript)?;
    let is_request = (keyword == "C:" || keyword == "C.") && value.starts_with("command=");
    if is_request && format == Format::Sha256 {
        return add_entry(alloc, keyword, b"object-format=sha256", transcript);
    }
    Ok(())
}

fn add_entry(
    alloc: Global,
    keyword: &str,
    bytes: &[u8],
    transcript: &mut Vec<TranscriptEntry>,
) -> Result<(), Trouble> {
    transcript.push(read_entry(alloc, keyword, bytes)?)?;
    Ok(())
}

// Splits the bytes into packets of side band 1, each as long as possible, and appends these
// packets.
fn add_band_packets(
    alloc: Global,
    bytes: &[u8],
    transcript: &mut Vec<TranscriptEntry>,
) -> Result<(), Trouble> {
    for part in bytes.chunks(MAX_SIDE_BAND_BYTES) {
        add_entry(alloc, "S1", part, transcript)?;
    }
    Ok(())
}

/// Adapts a line to the object format, if the line begins a repository's text or advertises a
/// format.
pub(crate) fn adapt_to_format<'a>(format: Format, line: &'a str) -> &'a str {
    match (format, line) {
        (Format::Sha256, "gitv2 1") => "gitv2 2 sha256",
        (Format::Sha256, "object-format=sha1") => "object-format=sha256",
        _ => line,
    }
}

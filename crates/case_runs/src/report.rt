//! A second implementation of the report on a fetch, to be compared with the program's report.

use case_text::Trouble;
use gclient::{Fetched, RefUpdate};
use gname::{MAX_ID_TEXT, Oid, RefName};
use std::alloc::{Allocator, Global};

/// Returns one line for each requested ref update. If the server's `HEAD` is unborn, adds a line
/// for its target.
pub(crate) fn format_report<A: Allocator + Copy>(
    alloc: Global,
    fetched: &Fetched<A>,
) -> Result<Vec<u8>, Trouble> {
    let mut text = Vec::new(alloc);
    let updates = fetched.settled.updates.as_slice();
    for (index, update) in updates.iter().enumerate() {
        if let Some((name, id)) = fetched.settled.asks.at(index) {
            add_update(&mut text, *update, name, id)?;
        }
    }
    if let Some(name) = &fetched.unborn {
        add_report_line(&mut text, b"unborn ", name, b"")?;
    }
    Ok(text)
}

fn add_update<A: Allocator + Copy>(
    text: &mut Vec<u8>,
    update: RefUpdate,
    name: &RefName<A>,
    id: Oid,
) -> Result<(), Trouble> {
    let mut digits = [b' '; MAX_ID_TEXT];
    let count = id.to_hex(&mut digits);
    match update {
        RefUpdate::Moved => add_report_line(text, b"moved ", name, &digits[..count]),
        RefUpdate::Same => add_report_line(text, b"same ", name, b""),
        RefUpdate::NotForward => add_report_line(text, b"notforward ", name, b""),
    }
}

// Appends a line with a word, a ref name and an optional id.
fn add_report_line<A: Allocator + Copy>(
    text: &mut Vec<u8>,
    word: &[u8],
    name: &RefName<A>,
    id: &[u8],
) -> Result<(), Trouble> {
    text.extend_from_slice(word)?;
    text.extend_from_slice(name.as_bytes())?;
    if !id.is_empty() {
        text.push(b' ')?;
        text.extend_from_slice(id)?;
    }
    text.push(b'\n')?;
    Ok(())
}

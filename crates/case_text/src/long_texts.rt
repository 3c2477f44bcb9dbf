//! Large generated texts: a chain of commits as a repository or as a pack.
//!
//! The line `long 2000` generates a repository with the name `2000`. The repository's commits are
//! numbered from 1, and the parent of commit N is commit N + 1. Each commit follows its parent in
//! the text. The only ref, `refs/heads/main`, points to commit 1. In the repository `2000-late`
//! each commit precedes its parent. The text `pack-2000` is the pack of the repository `2000`.

use crate::escapes::{add_padded_number, parse_number};
use crate::trouble::Trouble;
use gname::Format;
use std::alloc::Global;

/// Returns the generated text with this name.
pub(crate) fn long_text(alloc: Global, name: &str, format: Format) -> Result<Vec<u8>, Trouble> {
    let count = parse_number(name.as_bytes());
    if name.starts_with("pack-") {
        pack(alloc, count, format)
    } else {
        repository(alloc, count, format, name.ends_with("-late"))
    }
}

fn pack(alloc: Global, count: usize, format: Format) -> Result<Vec<u8>, Trouble> {
    let mut text = Vec::new(alloc);
    text.extend_from_slice(b"GPK1\n")?;
    add_chain(alloc, count, format, false, &mut text)?;
    let end = format!(in alloc; "end {count}\n")?;
    text.extend_from_slice(end.as_bytes())?;
    Ok(text)
}

fn repository(
    alloc: Global,
    count: usize,
    format: Format,
    parents_come_last: bool,
) -> Result<Vec<u8>, Trouble> {
    let mut text = Vec::new(alloc);
    text.extend_from_slice(first_line(format))?;
    add_chain(alloc, count, format, parents_come_last, &mut text)?;
    text.extend_from_slice(b"r ")?;
    add_id(alloc, 1, format, &mut text)?;
    text.extend_from_slice(b" refs/heads/main\nh none\nend\n")?;
    Ok(text)
}

/// Returns the first line of a repository's text.
pub(crate) fn first_line(format: Format) -> &'static [u8] {
    match format {
        Format::Sha1 => b"gitv2 1\n",
        Format::Sha256 => b"gitv2 2 sha256\n",
    }
}

// Appends a chain of commits, each after its parent, or each before its parent if
// `parents_come_last`.
fn add_chain(
    alloc: Global,
    count: usize,
    format: Format,
    parents_come_last: bool,
    text: &mut Vec<u8>,
) -> Result<(), Trouble> {
    for index in 0..count {
        let number = if parents_come_last {
            index.saturating_add(1)
        } else {
            count.saturating_sub(index)
        };
        add_commit(alloc, number, count, format, text)?;
    }
    Ok(())
}

// Appends the commit with this number. Commit `count`, the last of the chain, has no parent.
fn add_commit(
    alloc: Global,
    number: usize,
    count: usize,
    format: Format,
    text: &mut Vec<u8>,
) -> Result<(), Trouble> {
    text.extend_from_slice(b"c ")?;
    add_id(alloc, number, format, text)?;
    if number < count {
        text.push(b' ')?;
        add_id(alloc, number.saturating_add(1), format, text)?;
    }
    text.push(b'\n')?;
    Ok(())
}

fn add_id(alloc: Global, number: usize, format: Format, text: &mut Vec<u8>) -> Result<(), Trouble> {
    add_padded_number(alloc, format.id_text_length(), number, text)
}

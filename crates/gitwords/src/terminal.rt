//! Replacing those bytes of a peer's text that a terminal must not show.

ghost use Rattle.std.specs.Prelude.{◌≡◌, ◌++◌, IfOk, OnOk};
ghost use Rattle.gitwords.specs.Clean.{clean_byte, clean_text};

use std::alloc::{AllocError, Allocator};

/// A kind of text that a terminal shows.
#[derive(Clone, Copy, Debug, PartialEq, Eq, Drop)]
pub enum Shown {
    /// Lines of text.
    Lines,
    /// Progress lines, in which a carriage return restarts the line.
    Progress,
}

/// Returns the byte itself if it is printable ASCII, a line feed or a tab, or a carriage return in
/// a progress line. Returns a question mark for any other byte.
pub fn clean_byte(byte: u8, shown: Shown) -> u8
    ensures { result ≡ clean_byte shown byte }
{
    match byte {
        b' '..=b'~' | b'\n' | b'\t' => byte,
        b'\r' if shown == Shown::Progress => byte,
        _ => b'?',
    }
}

/// Returns a text with each byte replaced as in [`clean_byte`]. Fails only if out of memory.
pub fn clean<A: Allocator + Copy>(
    alloc: A,
    bytes: &[u8],
    shown: Shown,
) -> Result<Vec<u8, A>, AllocError>
    ensures { IfOk result (λ text. text.items ≡ clean_text shown bytes.now) }
{
    bytes
        .iter()
        .map(|byte| clean_byte(*byte, shown))
        .collect(alloc)
}

/// Appends these bytes to a text, each replaced as in [`clean_byte`]. Fails only if out of memory,
/// possibly after appending some of the bytes.
pub fn push_clean<A: Allocator + Copy>(
    text: &mut Vec<u8, A>,
    bytes: &[u8],
    shown: Shown,
) -> Result<(), AllocError>
    ensures { OnOk result (text.new.items ≡ text.old.items ++ clean_text shown bytes.now) }
{
    for byte in bytes {
        text.push(clean_byte(*byte, shown))?;
    }
    Ok(())
}

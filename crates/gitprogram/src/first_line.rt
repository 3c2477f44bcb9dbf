//! The first line of a connection to `upload-pack`.

ghost use Rattle.std.specs.Prelude.{◌≤◌, None, length};

use gpkt::{Down, Source};

// A first line of the `git://` protocol (gitprotocol-pack(5), "Git Transport"), which requests
// version 2. The path and the host are not used.
const FIRST_LINE: &[u8] = b"0030git-upload-pack /\0host=localhost\0\0version=2\0";

/// A source that returns a first line, and then the bytes of another source.
///
/// A client of `upload-pack` sends no first line, since it starts `upload-pack` with the path of
/// the repository. With this source the server answers the client as over `git://`.
#[derive(Drop)]
pub(crate) struct FirstLine<'s, S> {
    source: &'s mut S,
    // The part of the first line that no call has returned yet.
    rest: &'static [u8],
    is_down: bool,
}

impl<'s, S: Source> FirstLine<'s, S> {
    /// Returns a source that returns the whole first line, and then the bytes of `source`.
    pub(crate) fn new(source: &'s mut S) -> FirstLine<'s, S> {
        FirstLine {
            source,
            rest: FIRST_LINE,
            is_down: false,
        }
    }
}

// Copies bytes until `room` is full or no bytes remain. Returns the number of copied bytes.
fn copy_front(bytes: &[u8], room: &mut [u8]) -> usize
    ensures { result ≤ length room.new }
{
    let count = bytes.len().min(room.len());
    room[..count].copy_from_slice(&bytes[..count]);
    count
}

impl<S: Source> Source for FirstLine<'_, S> {
    ghost remaining = { λ _. None };

    ghost is_down = { λ line. line.is_down };

    ghost loans = { λ line. S.loans line.source.now };

    fn read(&mut self, buf: &mut [u8]) -> Result<usize, Down> {
        if self.is_down {
            return Err(Down);
        }
        if !self.rest.is_empty() {
            let count = copy_front(self.rest, buf);
            self.rest = self.rest.get(count..).unwrap_or(b"");
            return Ok(count);
        }
        match self.source.read(buf) {
            Ok(count) => Ok(count),
            Err(_) => {
                self.is_down = true;
                Err(Down)
            }
        }
    }
}

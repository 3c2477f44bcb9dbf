//! The peeled objects that `packed-refs` lists.

use crate::words::{cut_line, strip};
use gname::Oid;

/// The peeled object of an object that a ref in `packed-refs` points to.
#[derive(Clone, Copy, Debug, PartialEq, Eq, Drop)]
pub enum Peel {
    /// The object is not a tag, so it is its own peeled object.
    Itself,
    /// The object is a tag that peels to the object with this id.
    To(Oid),
}

/// Returns the peeled object of a ref in `packed-refs`. `are_peeled` is whether the header claims
/// that the peeled id of each tag is listed. `peeled` is the peeled id that is listed for the ref.
/// Returns `None` if the file does not say.
pub(crate) fn peel_of(are_peeled: bool, peeled: Option<Oid>) -> Option<Peel> {
    match peeled {
        _ if !are_peeled => None,
        Some(id) => Some(Peel::To(id)),
        None => Some(Peel::Itself),
    }
}

/// Returns whether the header of `packed-refs` contains `fully-peeled`, which claims that the
/// peeled id of each tag is listed.
pub(crate) fn is_fully_peeled(text: &[u8]) -> bool {
    let Some(words) = strip(b"# pack-refs with:", text) else {
        return false;
    };
    match cut_line(words) {
        Some((words, _)) => words
            .split(|byte| *byte == b' ')
            .any(|word| word == b"fully-peeled".as_slice()),
        None => false,
    }
}

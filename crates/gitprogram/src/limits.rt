//! The limits on the messages that `gitrepo` reads and writes.

use gfetchreply::MAX_STREAM;
use ggrammar::Limits;

/// The maximum size of a received pack in bytes.
pub(crate) const MAX_FETCHED_PACK: usize = MAX_STREAM;

/// The limits on requests and replies.
///
/// A request that reaches every limit uses less than 5 MiB of memory. With `Limits::default()`, a
/// request uses less than 256 KiB.
pub(crate) const LIMITS: Limits = Limits {
    prefixes: 1_024,
    wants: 65_537,
    haves: 65_536,
};

// The maximum number of connections with the limits `LIMITS`.
const LARGE: usize = 64;

/// Returns the limits on the requests of a new connection, while `others` other connections are
/// open.
pub(crate) fn limits_beside(others: usize) -> Limits {
    if others < LARGE {
        LIMITS
    } else {
        Limits::default()
    }
}

//! The limits of an event loop.

use std::time::Duration;

/// The maximum number of connections of an event loop, and the time limits of each peer.
/// `Duration::MAX` means no limit.
#[derive(Clone, Copy, Debug, Drop)]
pub struct Limits {
    /// The number of connections to accept before the loop ends, or `None` for no limit.
    pub accepted: Option<u32>,
    /// The maximum number of connections at once.
    pub at_once: usize,
    /// The maximum number of connections at once from one IPv4 address, or from the IPv6 addresses
    /// with the same first 64 bits.
    pub at_once_of_address: usize,
    /// The time limit for a peer to send all packets that precede the first answer, counted from
    /// the moment when the loop accepts the connection.
    pub first_line: Duration,
    /// The time limit for the first byte of a request, counted from the end of the last answer.
    pub silence: Duration,
    /// The time limit for the rest of a request, counted from the first byte of the request.
    pub request: Duration,
    /// The maximum time during which the peer accepts no byte while bytes are pending for it.
    pub taking: Duration,
    /// The time limit of the whole connection. The field `pace` extends this limit.
    pub whole: Duration,
    /// The number of sent bytes that extend the time limit `whole` by one second, or 0 for no
    /// extension.
    pub pace: u64,
}

impl Default for Limits {
    fn default() -> Limits {
        Limits {
            accepted: None,
            at_once: 1_024,
            at_once_of_address: 64,
            first_line: Duration::from_secs(10),
            silence: Duration::from_secs(60),
            request: Duration::from_secs(60),
            taking: Duration::from_secs(60),
            whole: Duration::from_secs(600),
            pace: 8_192,
        }
    }
}

//! The time limits of a peer.

use crate::limits::Limits;
use std::time::{Duration, Instant};

// The action that is expected next from a peer.
#[derive(Clone, Copy, PartialEq, Eq)]
enum Expected {
    // The peer sends all packets that precede the first answer.
    FirstMessage,
    // The peer sends the first byte of a request.
    Request,
    // The peer sends the rest of a request.
    RestOfRequest,
    // The peer accepts bytes.
    AcceptBytes,
}

/// The action that is expected next from a peer, and the deadline of the action.
#[derive(Clone, Copy)]
pub(crate) struct Patience {
    began: Instant,
    expected: Expected,
    // The deadline, or `None` if it is outside the range of the clock.
    deadline: Option<Instant>,
}

impl Patience {
    /// Returns the state of a peer that connects now: its first message is expected.
    pub(crate) fn new(now: Instant, limits: &Limits) -> Patience {
        Patience {
            began: now,
            expected: Expected::FirstMessage,
            deadline: after(now, limits.first_line),
        }
    }

    /// Returns the time at which the peer connected.
    pub(crate) fn began(&self) -> Instant {
        self.began
    }

    /// Records that bytes are expected from the peer from now on.
    pub(crate) fn listens(&mut self, now: Instant, limits: &Limits) {
        if self.expected == Expected::AcceptBytes {
            self.expected = Expected::Request;
            self.deadline = after(now, limits.silence);
        }
    }

    /// Records that bytes arrived from the peer.
    pub(crate) fn note_received(&mut self, now: Instant, limits: &Limits) {
        if self.expected == Expected::Request {
            self.expected = Expected::RestOfRequest;
            self.deadline = after(now, limits.request);
        }
    }

    /// Records that bytes are to be sent to the peer.
    pub(crate) fn speaks(&mut self, now: Instant, limits: &Limits) {
        if self.expected != Expected::AcceptBytes {
            self.note_sent(now, limits);
        }
    }

    /// Records that bytes were sent to the peer.
    pub(crate) fn note_sent(&mut self, now: Instant, limits: &Limits) {
        self.expected = Expected::AcceptBytes;
        self.deadline = after(now, limits.taking);
    }

    /// Postpones the deadline.
    pub(crate) fn postpone(&mut self, time: Duration) {
        if let Some(deadline) = self.deadline {
            self.deadline = after(deadline, time);
        }
    }

    /// Returns whether the deadline of the expected action has passed.
    pub(crate) fn is_late(&self, now: Instant) -> bool {
        match self.deadline {
            Some(deadline) => deadline <= now,
            None => false,
        }
    }

    /// Returns whether the time limit of the whole connection has passed, given the number of sent
    /// bytes.
    pub(crate) fn is_overdue(&self, now: Instant, limits: &Limits, sent: u64) -> bool {
        let more = Duration::from_secs(sent.checked_div(limits.pace).unwrap_or(0));
        now.duration_since(self.began) >= limits.whole.saturating_add(more)
    }
}

// Returns the time at the end of this duration, or `None` if the clock can't represent that time.
fn after(now: Instant, time: Duration) -> Option<Instant> {
    now.checked_add(time)
}

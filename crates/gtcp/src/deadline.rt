//! The time limits for a peer.

ghost use Rattle.std.specs.Prelude.{◌≡◌, ◌≤◌};
ghost use Rattle.std.specs.Duration.{as_nanos};
ghost use Rattle.std.specs.Time.{instant_nanos};
ghost use Rattle.gtcp.specs.Deadlines.{longest_wait};
ghost use Rattle.gtcp.specs.steps.Deadlines.{LeavesOf, first_line_time, request_time};

use std::marker::Model;
use std::time::{Duration, Instant};

/// The maximum time in seconds from accepting a connection to the end of the client's first line.
pub const MAX_FIRST_LINE: u64 = 10;

/// The maximum time in seconds from the moment when the server starts to wait for a request to the
/// end of the request.
pub const MAX_REQUEST: u64 = 60;

/// The maximum time in seconds during which a peer accepts no byte, or a server sends no byte.
pub const MAX_SILENCE: u64 = 60;

/// The maximum time in seconds until an address accepts a connection.
pub const MAX_CONNECT: u64 = 60;

/// The time that a client of the server has left for its message.
#[derive(Drop)]
pub(crate) struct TimeLeft {
    left: Duration,
    // The moment at which `left` was measured.
    at: Instant,
}

impl Model for TimeLeft {
    ghost use Rattle.std.specs.Prelude.{ℕ, ◌≤◌};
    ghost use Rattle.std.specs.Duration.{as_nanos};
    ghost use Rattle.std.specs.Time.{instant_nanos};
    ghost use Rattle.gtcp.specs.Deadlines.{longest_wait};

    ghost Value = { ℕ × ℕ };

    ghost view = { λ time. (as_nanos time.left, instant_nanos time.at) };

    ghost invariant = { λ time. as_nanos time.left ≤ longest_wait };
}

impl TimeLeft {
    /// Returns the full time for a client's first line, counted from `now`.
    pub(crate) fn for_first_line(now: Instant) -> TimeLeft
        ensures { result ≡ (first_line_time, instant_nanos now) }
    {
        TimeLeft {
            left: Duration::from_secs(MAX_FIRST_LINE),
            at: now,
        }
    }

    /// Returns the full time for a client's request, counted from `now`.
    pub(crate) fn for_request(now: Instant) -> TimeLeft
        ensures { result ≡ (request_time, instant_nanos now) }
    {
        TimeLeft {
            left: Duration::from_secs(MAX_REQUEST),
            at: now,
        }
    }

    /// Returns the time that remains at `now`. Returns `None` if no time remains, or if the clock
    /// went backwards.
    pub(crate) fn until(self, now: Instant) -> Option<TimeLeft>
        ensures { LeavesOf self (instant_nanos now) result }
    {
        let spent = now.checked_duration_since(self.at)?;
        let left = self.left.checked_sub(spent)?;
        if left.is_zero() {
            return None;
        }
        Some(TimeLeft { left, at: now })
    }

    /// Returns the maximum duration of the next read, which is the remaining time.
    pub(crate) fn wait(&self) -> Duration
        ensures wait { as_nanos result ≡ self.now.0 }
        ensures most { as_nanos result ≤ longest_wait }
    {
        self.left
    }
}

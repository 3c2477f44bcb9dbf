//! Timers that limit the duration of reads.

ghost use Rattle.std.specs.Prelude.{◌≤◌, ◌<◌, IfOk, IfSome};
ghost use Rattle.std.specs.Duration.{as_nanos};
ghost use Rattle.std.specs.Time.{instant_nanos};
ghost use Rattle.gtcp.specs.Deadlines.{longest_wait};
ghost use Rattle.gtcp.specs.steps.Turns.{LeavesTurn};

use crate::deadline::{MAX_SILENCE, TimeLeft};
use std::cell::Cell;
use std::io;
use std::time::{Clock, Duration, Instant};

/// A timer that limits the duration of each read of a stream.
pub trait Timer {
    /// Returns the maximum duration of the next read: more than zero, and at most 60 seconds. Fails
    /// with `TimedOut` if the peer has no time left.
    fn next_read(&self) -> io::Result<Duration>
        ensures some { IfOk result (λ limit. 0 < as_nanos limit) }
        ensures most { IfOk result (λ limit. as_nanos limit ≤ longest_wait) };

    /// Records that bytes were written, and thus that the peer's last message is complete.
    fn note_write(&self);
}

/// A client's timer for its server: each read may last [`MAX_SILENCE`] seconds.
#[derive(Clone, Copy)]
pub struct Silence;

impl Timer for Silence {
    fn next_read(&self) -> io::Result<Duration> {
        Ok(Duration::from_secs(MAX_SILENCE))
    }

    fn note_write(&self) {}
}

// The message that a client of the server may send now.
#[derive(Drop)]
enum Turn {
    // The first line or a request that has started, with the remaining time.
    Given(TimeLeft),
    // A request that the server awaits. The time for the request starts at the next read.
    Awaited,
    // No message. The time is over, or the clock failed.
    Over,
}

impl Turn {
    // Returns the client's remaining time, or `None` if no time remains or the clock went
    // backwards.
    fn time_left(self, now: Instant) -> Option<TimeLeft>
        ensures { LeavesTurn self (instant_nanos now) result }
    {
        match self {
            Turn::Given(time) => time.until(now),
            Turn::Awaited => Some(TimeLeft::for_request(now)),
            Turn::Over => None,
        }
    }
}

/// A server's timer for one client. The client has [`MAX_FIRST_LINE`](crate::MAX_FIRST_LINE)
/// seconds for its first line, and [`MAX_REQUEST`](crate::MAX_REQUEST) seconds for each later
/// request, regardless of the number of reads.
#[derive(Drop)]
pub struct Turns<'c, C> {
    clock: &'c C,
    turn: Cell<Turn>,
}

impl<'c, C: Clock> Turns<'c, C> {
    /// Returns the timer for a connection that is accepted now.
    pub fn from_accept(clock: &'c C) -> Turns<'c, C> {
        let turn = match Instant::now(clock) {
            Ok(now) => Turn::Given(TimeLeft::for_first_line(now)),
            Err(_) => Turn::Over,
        };
        Turns {
            clock,
            turn: Cell::new(turn),
        }
    }

    // Returns the client's remaining time. Returns `None` if no time remains, or if the clock fails
    // or went backwards. After `None`, each call returns `None` until bytes are written.
    fn take_time(&self) -> Option<TimeLeft>
        ensures { IfSome result (λ time. 0 < time.0) }
    {
        let turn = self.turn.replace(Turn::Over);
        match Instant::now(self.clock) {
            Ok(now) => turn.time_left(now),
            Err(_) => None,
        }
    }
}

impl<C: Clock> Timer for Turns<'_, C> {
    fn next_read(&self) -> io::Result<Duration> {
        match self.take_time() {
            Some(time) => {
                let limit = time.wait();
                self.turn.set(Turn::Given(time));
                Ok(limit)
            }
            None => Err(io::Error::from(io::ErrorKind::TimedOut)),
        }
    }

    fn note_write(&self) {
        self.turn.set(Turn::Awaited);
    }
}

//! The event loop.

ghost use Rattle.gtalk.specs.Talks.{no_talk};

use crate::addresses::Addresses;
use crate::event::{Ended, Event};
use crate::limits::Limits;
use crate::slot::Slot;
use gtalk::Conversation;
use mio::net::{TcpListener, TcpStream};
use mio::{Events, Interest, Poll, Token};
use slab::Slab;
use std::alloc::Allocator;
use std::io::{self, ErrorKind};
use std::net::{Net, SocketAddr};
use std::time::{Clock, Duration, Instant};

// The token that identifies the listener in the reports of ready sockets.
const LISTENER: Token = Token(usize::MAX);

// The interval at which deadlines are checked while there are peers, in milliseconds.
const TICK: u64 = 100;

// The maximum number of sockets that one poll reports.
const EVENTS: usize = 256;

// The maximum number of connections to accept in each round of the loop.
const ACCEPTS: u32 = 64;

/// Whether connections are pending at the listener.
#[derive(Clone, Copy, PartialEq, Eq)]
pub(crate) enum Pending {
    /// No connection is pending.
    None,
    /// Connections may be pending.
    Some,
    /// Connections may be pending, but the system can't accept any connection for now.
    Later,
}

/// A newly accepted peer, kept until the next call of `EventLoop::next`.
#[derive(Drop)]
pub(crate) enum NewPeer {
    /// A peer within the limits. A conversation with this peer may start.
    Welcome(TcpStream, SocketAddr),
    /// A peer that exceeds a limit.
    Refused(TcpStream),
}

// The next step of a round of the loop.
#[derive(Clone, Copy)]
enum LoopStep {
    // The loop waits until sockets are ready.
    Polls,
    // The loop gives the peer of each reported socket its turn.
    Moves,
    // The loop accepts at most this number of further connections.
    Accepts(u32),
    // The loop times out late peers, starting at this key.
    TimesOut(usize),
}

/// An event loop that has conversations with many peers of a listener at once.
///
/// Call [`next`](EventLoop::next) for each event.
#[derive(Drop)]
pub struct EventLoop<'l, C: Conversation, A: Allocator + Copy> {
    pub(crate) alloc: A,
    pub(crate) limits: &'l Limits,
    pub(crate) poll: Poll,
    pub(crate) listener: TcpListener,
    events: Events<A>,
    // The keys of the reported sockets whose peers still wait for their turn. There is room for all
    // sockets that one poll reports.
    ready: Vec<usize, A>,
    next_step: LoopStep,
    pub(crate) pending: Pending,
    pub(crate) new_peer: Option<NewPeer>,
    // A connection that ended as soon as it started, if this end is not reported yet.
    pub(crate) ended_at_start: Option<Ended<C, A>>,
    pub(crate) slots: Slab<Slot<C, A>, A>,
    /// The number of served peers from each network.
    pub(crate) addresses: Addresses<A>,
    /// The number of slots of peers whose connections have ended, and whose sockets are still open.
    pub(crate) closing_count: u32,
    /// The number of accepted connections, saturated at `u32::MAX`.
    pub(crate) accepted: u32,
    pub(crate) now: Instant,
    // The time of the next check of the deadlines.
    next_check: Instant,
}

impl<'l, C: Conversation + Drop, A: Allocator + Copy> EventLoop<'l, C, A> {
    /// Returns an event loop over a listener. Fails if the system cannot report ready sockets, if
    /// the clock fails, or if there is not enough memory.
    pub fn new<R: Net + Clock>(
        rt: &R,
        alloc: A,
        mut listener: TcpListener,
        limits: &'l Limits,
    ) -> io::Result<EventLoop<'l, C, A>> {
        let poll = Poll::new(rt)?;
        poll.registry()
            .register(&mut listener, LISTENER, Interest::READABLE)?;
        let events = Events::with_capacity(alloc, EVENTS)?;
        let now = Instant::now(rt)?;
        Ok(EventLoop {
            alloc,
            limits,
            poll,
            listener,
            events,
            ready: Vec::with_capacity(alloc, EVENTS)?,
            next_step: LoopStep::Accepts(ACCEPTS),
            pending: Pending::Some,
            new_peer: None,
            ended_at_start: None,
            slots: Slab::new(alloc),
            addresses: Addresses::new(alloc),
            closing_count: 0,
            accepted: 0,
            now,
            next_check: now,
        })
    }

    /// Waits for the next event. Returns `None` once [`Limits::accepted`] connections were accepted
    /// and all of them have ended. Every later call also returns `None`.
    ///
    /// Fails if the system can't report ready sockets, or if no further connection can be accepted.
    /// The caller may call `next` again after a failure.
    pub fn next<R: Clock>(&mut self, rt: &R) -> io::Result<Option<Event<C, A>>> {
        self.new_peer = None;
        if let Some(ended) = self.ended_at_start.take() {
            return Ok(Some(Event::Ended(ended)));
        }
        for _ in 0..u64::MAX {
            if self.is_over() {
                break;
            }
            if let Some(event) = self.step(rt)? {
                return Ok(Some(event));
            }
        }
        Ok(None)
    }

    /// Returns the number of peers whose connection has not ended. A new peer counts once
    /// [`begin`](EventLoop::begin) is called.
    pub fn peer_count(&self) -> usize {
        self.slots.len().saturating_sub(self.closing_count as usize)
    }

    /// Closes the listener, and all connections that have not ended.
    pub fn close(self) {
        drop(self);
    }

    // Returns whether the loop accepts no more connections, and all connections have ended.
    fn is_over(&self) -> bool {
        self.is_full() && self.slots.is_empty()
    }

    /// Returns whether the loop has accepted as many connections as its limits allow.
    pub(crate) fn is_full(&self) -> bool {
        match self.limits.accepted {
            Some(most) => self.accepted >= most,
            None => false,
        }
    }

    // Takes one step of a round, and returns the event that the step causes, if any.
    fn step<R: Clock>(&mut self, rt: &R) -> io::Result<Option<Event<C, A>>> {
        match self.next_step {
            LoopStep::Polls => {
                self.wait(rt)?;
                self.next_step = LoopStep::Moves;
                Ok(None)
            }
            LoopStep::Moves => {
                self.read_clock(rt);
                Ok(self.move_one(rt))
            }
            LoopStep::Accepts(left) => {
                self.read_clock(rt);
                self.accept_one(left)
            }
            LoopStep::TimesOut(key) => {
                self.read_clock(rt);
                Ok(self.time_out_next(rt, key))
            }
        }
    }

    // Waits until sockets are ready or the time to wait is over, and stores the keys of the ready
    // sockets.
    fn wait<R: Clock>(&mut self, rt: &R) -> io::Result<()> {
        let timeout = self.timeout();
        match self.poll.poll(&mut self.events, timeout) {
            Err(error) if error.kind() != ErrorKind::Interrupted => return Err(error),
            _ => {}
        }
        for event in self.events.iter() {
            match event.token() {
                LISTENER => self.pending = Pending::Some,
                Token(key) => self.ready.push(key)?,
            }
        }
        Ok(())
    }

    // Returns the maximum time to wait for a ready socket. Returns `None`, which means no maximum,
    // if there is no peer and no pending connection.
    fn timeout(&self) -> Option<Duration> {
        match self.pending {
            Pending::Some => Some(Duration::ZERO),
            Pending::None if self.slots.is_empty() => None,
            Pending::None | Pending::Later => Some(Duration::from_millis(TICK)),
        }
    }

    // Stores the current time. If the clock fails, the stored time is unchanged.
    fn read_clock<R: Clock>(&mut self, rt: &R) {
        if let Ok(now) = Instant::now(rt) {
            self.now = now;
        }
    }

    // Gives the peer of one reported socket its turn. Returns an event if the turn ended the
    // connection.
    fn move_one<R: Clock>(&mut self, rt: &R) -> Option<Event<C, A>> {
        match self.ready.pop() {
            Some(key) => self.advance(rt, key),
            None => {
                self.next_step = LoopStep::Accepts(ACCEPTS);
                None
            }
        }
    }

    // Accepts a connection, if one is pending and the limits allow it. In this round, at most
    // `left` further connections may be accepted. Returns the event that reports the connection, if
    // any.
    fn accept_one(&mut self, left: u32) -> io::Result<Option<Event<C, A>>> {
        if left == 0 || self.is_full() || self.pending == Pending::None {
            if self.is_full() {
                self.pending = Pending::None;
            }
            self.next_step = self.after_accepts();
            return Ok(None);
        }
        self.next_step = LoopStep::Accepts(left - 1);
        let accepted = self.accept()?;
        if self.pending == Pending::Later {
            self.next_step = self.after_accepts();
        }
        Ok(accepted)
    }

    // Returns the step that follows accepting connections: a check for late peers if the time of
    // the next check has come, and otherwise a poll.
    fn after_accepts(&mut self) -> LoopStep {
        if self.now < self.next_check {
            return LoopStep::Polls;
        }
        let tick = Duration::from_millis(TICK);
        self.next_check = self.now.checked_add(tick).unwrap_or(self.now);
        LoopStep::TimesOut(0)
    }

    // Times out the peer at this key, if the peer is late. Returns an event if this ended the
    // connection.
    fn time_out_next<R: Clock>(&mut self, rt: &R, key: usize) -> Option<Event<C, A>> {
        if key >= self.slots.capacity() {
            self.next_step = LoopStep::Polls;
            return None;
        }
        self.next_step = LoopStep::TimesOut(key + 1);
        self.time_out_one(rt, key)
    }
}

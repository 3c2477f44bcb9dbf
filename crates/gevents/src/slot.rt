//! The slots for served peers, and for peers whose connections have ended.

ghost use Rattle.slab.specs.Slab.{get};
ghost use Rattle.gevents.specs.Turns.{EndsAt, EndsSlot, HandsOut, HandsOutAfter, ended_in};

use crate::event::{End, Ended, Event};
use crate::event_loop::EventLoop;
use crate::leaver::ClosingPeer;
use crate::limits::Limits;
use crate::moving::After;
use crate::peer::Peer;
use gtalk::Conversation;
use mio::net::TcpStream;
use mio::{Interest, Token};
use slab::Slab;
use std::alloc::Allocator;
use std::net::Shutdown;
use std::time::{Clock, Instant};

// The maximum number of sockets that the loop keeps open after their connections have ended.
const MAX_CLOSING: u32 = 256;

/// A slot of the loop: a peer with an open socket.
#[derive(Drop)]
pub(crate) enum Slot<C: Conversation, A: Allocator + Copy> {
    /// A peer whose connection has not ended.
    Talks(Peer<C, A>),
    /// A peer whose connection has ended.
    Leaves(ClosingPeer),
}

impl<C: Conversation, A: Allocator + Copy> Slot<C, A> {
    fn stream(&mut self) -> &mut TcpStream {
        match self {
            Slot::Talks(peer) => &mut peer.stream,
            Slot::Leaves(closing) => &mut closing.stream,
        }
    }

    // Gives the peer its turn.
    fn advance<R: Clock>(&mut self, rt: &R, now: Instant, limits: &Limits) -> After
        ensures { EndsSlot C.turn self.new result }
    {
        match self {
            Slot::Talks(peer) => peer.advance(rt, now, limits),
            Slot::Leaves(closing) => closing.advance(),
        }
    }

    // Times out the peer, if it is late.
    fn time_out<R: Clock>(&mut self, rt: &R, now: Instant, limits: &Limits) -> After
        ensures { EndsSlot C.turn self.new result }
    {
        match self {
            Slot::Talks(peer) => peer.time_out(rt, now, limits),
            Slot::Leaves(closing) => closing.time_out(now),
        }
    }
}

impl<C: Conversation + Drop, A: Allocator + Copy> EventLoop<'_, C, A> {
    /// Gives the peer at this key its turn. Returns an event if the turn ended the connection.
    pub(crate) fn advance<R: Clock>(&mut self, rt: &R, key: usize) -> Option<Event<C, A>> {
        let after = advance_at(rt, &mut self.slots, key, self.now, self.limits);
        self.settle(key, after)
    }

    /// Times out the peer at this key, if it is late. Returns an event if this ended the
    /// connection.
    pub(crate) fn time_out_one<R: Clock>(&mut self, rt: &R, key: usize) -> Option<Event<C, A>> {
        let after = time_out_at(rt, &mut self.slots, key, self.now, self.limits);
        self.settle(key, after)
    }

    // Completes a turn: watches the socket again if more bytes can be moved immediately, and
    // removes the peer if its connection has ended. Returns an event if this turn ended a
    // connection.
    fn settle(&mut self, key: usize, after: After) -> Option<Event<C, A>>
        requires { EndsAt C.turn (get self.old.slots key) after }
        ensures { HandsOutAfter (get self.old.slots key) after (ended_in result) }
    {
        match self.end_of_turn(key, after) {
            Some(ended) => Some(Event::Ended(ended)),
            None => None,
        }
    }

    // Returns the connection of the peer at this key if this turn ended the connection, and
    // otherwise `None`.
    fn end_of_turn(&mut self, key: usize, after: After) -> Option<Ended<C, A>>
        requires { EndsAt C.turn (get self.old.slots key) after }
        ensures { HandsOutAfter (get self.old.slots key) after result }
    {
        match after {
            After::Waits => None,
            After::GoesOn if self.watch(key, false) => None,
            After::GoesOn => self.part_with(key, End::Lost),
            After::Ends(end) => self.part_with(key, end),
        }
    }

    /// Asks the system to report the socket at this key when the socket is ready, even if it is
    /// ready now. Returns whether the system accepted the request.
    pub(crate) fn watch(&mut self, key: usize, is_new: bool) -> bool {
        let Some(slot) = self.slots.get_mut(key) else {
            return false;
        };
        let interests = Interest::READABLE | Interest::WRITABLE;
        let registry = self.poll.registry();
        let watched = if is_new {
            registry.register(slot.stream(), Token(key), interests)
        } else {
            registry.reregister(slot.stream(), Token(key), interests)
        };
        watched.is_ok()
    }

    /// Removes the peer at this key. Returns its connection, or `None` if that connection had ended
    /// earlier. If the connection ends because the conversation is done, the loop then waits for
    /// the peer to close its socket.
    pub(crate) fn part_with(&mut self, key: usize, end: End) -> Option<Ended<C, A>>
        requires { EndsAt C.turn (get self.old.slots key) (After.Ends end) }
        ensures { HandsOut (get self.old.slots key) end result }
    {
        match self.slots.try_remove(key) {
            Some(Slot::Talks(peer)) => {
                self.addresses.remove(peer.address.ip());
                let (ended, stream) = peer.end(end, self.now);
                if matches!(end, End::Over | End::Silent) {
                    self.close_gracefully(stream, false);
                }
                Some(ended)
            }
            Some(Slot::Leaves(_)) => {
                self.closing_count = self.closing_count.saturating_sub(1);
                None
            }
            None => None,
        }
    }

    /// Shuts down the sending side of a socket, and keeps the socket until the peer closes its
    /// side. If the loop already waits for too many peers to close their sockets, the loop closes
    /// this socket immediately.
    pub(crate) fn close_gracefully(&mut self, stream: TcpStream, is_new: bool) {
        let _ = stream.shutdown(Shutdown::Write);
        let mut closing = ClosingPeer::new(stream, self.now);
        if self.closing_count >= MAX_CLOSING || matches!(closing.advance(), After::Ends(_)) {
            return;
        }
        if let Ok(key) = self.slots.insert(Slot::Leaves(closing)) {
            if self.watch(key, is_new) {
                self.closing_count = self.closing_count.saturating_add(1);
            } else {
                let _ = self.slots.try_remove(key);
            }
        }
    }
}

// Gives the peer at this key its turn.
fn advance_at<R: Clock, C: Conversation, A: Allocator + Copy>(
    rt: &R,
    slots: &mut Slab<Slot<C, A>, A>,
    key: usize,
    now: Instant,
    limits: &Limits,
) -> After
    ensures { EndsAt C.turn (get slots.new key) result }
{
    match slots.get_mut(key) {
        Some(slot) => slot.advance(rt, now, limits),
        None => After::Waits,
    }
}

// Times out the peer at this key, if it is late.
fn time_out_at<R: Clock, C: Conversation, A: Allocator + Copy>(
    rt: &R,
    slots: &mut Slab<Slot<C, A>, A>,
    key: usize,
    now: Instant,
    limits: &Limits,
) -> After
    ensures { EndsAt C.turn (get slots.new key) result }
{
    match slots.get_mut(key) {
        Some(slot) => slot.time_out(rt, now, limits),
        None => After::Waits,
    }
}

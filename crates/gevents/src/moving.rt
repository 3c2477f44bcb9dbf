//! Moving bytes between the conversation with a peer and the peer's nonblocking socket.

ghost use Rattle.std.specs.Prelude.{◌≡◌, ◌<◌, ◌≤◌, [], Ok, IfOk, OnErr, Some, drop, length, take};
ghost use Rattle.std.specs.Io.KnownBytes.{Consumes, IsAtEnd, Keeps};
ghost use Rattle.gpkt.specs.Change.{change_of};
ghost use Rattle.gtalk.specs.Connections.{IsTurn, conversation_of, has_stopped, pending_of};
ghost use Rattle.gtalk.specs.Partial.{IsByEnd};
ghost use Rattle.gtalk.specs.declared.conversation.Stop.TheVariants as stop;
ghost use Rattle.gevents.specs.Peers.{HasEnded, HearsOnce, SendsCounted, written_count};
ghost use Rattle.gevents.specs.Turns.{EndsBy, EndsByMove, IsEndOf, LosesAtMost};

use crate::event::{End, Ended};
use crate::limits::Limits;
use crate::peer::Peer;
use gtalk::{Connection, Conversation, Turn};
use mio::net::TcpStream;
use std::alloc::Allocator;
use std::io::{self, ErrorKind, Read, Write};
use std::time::{Clock, Instant};

// The maximum number of bytes of one read.
const PIECE: usize = 4_096;

// The maximum number of steps in one turn of a peer. A step sends or receives bytes once, or makes
// the conversation queue packets.
const MOVES: u32 = 256;

// In one turn, this number of steps may queue packets without ending the turn. The next step that
// may queue packets ends the turn.
const SPEAK_CALLS: u32 = 16;

/// The state of a peer after its turn.
#[derive(Clone, Copy)]
pub(crate) enum After {
    /// No bytes can be moved until the socket of the peer is ready.
    Waits,
    /// More bytes can be moved immediately.
    GoesOn,
    /// The connection has ended.
    Ends(End),
}

// The outcome of one step of a turn.
enum Move {
    // Bytes were sent, a call was interrupted, or the conversation was notified of a failed source.
    Moved,
    // Bytes or the end of the input were received.
    Heard,
    // The conversation queued packets, perhaps none.
    Spoke,
    // The socket would block.
    Blocked,
    // The connection has ended.
    Ended(End),
}

impl<C: Conversation, A: Allocator + Copy> Peer<C, A> {
    /// Gives the peer its turn, and postpones the deadline of the peer by the duration of the turn.
    /// So the time that an answer takes to compute does not count as the peer's time.
    pub(crate) fn advance<R: Clock>(&mut self, rt: &R, now: Instant, limits: &Limits) -> After
        ensures { EndsBy C.turn self.new.connection result }
    {
        let after = self.move_bytes(now, limits);
        if let Ok(then) = Instant::now(rt) {
            self.patience.postpone(then.duration_since(now));
        }
        after
    }

    // Moves bytes until the socket would block, the connection has ended, or the turn reaches its
    // limits. The turn also ends when bytes arrive after the conversation has queued packets,
    // because computing the next answer may take a long time.
    fn move_bytes(&mut self, now: Instant, limits: &Limits) -> After
        ensures { EndsBy C.turn self.new.connection result }
    {
        let mut speak_calls = 0;
        for _ in 0..MOVES {
            match self.step(now, limits) {
                Move::Heard if speak_calls > 0 => return After::GoesOn,
                Move::Spoke if speak_calls >= SPEAK_CALLS => return After::GoesOn,
                Move::Spoke => speak_calls += 1,
                Move::Moved | Move::Heard => {}
                Move::Blocked => return After::Waits,
                Move::Ended(end) => return After::Ends(end),
            }
        }
        After::GoesOn
    }

    /// Times out the peer, if it is late. First gives the peer one more turn, because its socket
    /// may be ready but not reported yet. Does not time out the peer if more bytes can then be
    /// moved immediately. Gives no turn if the whole connection lasted too long.
    pub(crate) fn time_out<R: Clock>(&mut self, rt: &R, now: Instant, limits: &Limits) -> After
        ensures { EndsBy C.turn self.new.connection result }
    {
        if self.patience.is_overdue(now, limits, self.sent) {
            return After::Ends(End::Overdue);
        }
        if !self.patience.is_late(now) {
            return After::Waits;
        }
        match self.advance(rt, now, limits) {
            After::Waits if self.patience.is_late(now) => self.time_out_late(now, limits),
            after => after,
        }
    }

    // Times out a late peer. If the peer was expected to send, the conversation is notified and may
    // queue its last packets.
    fn time_out_late(&mut self, now: Instant, limits: &Limits) -> After
        ensures { EndsBy C.turn self.new.connection result }
    {
        if !self.connection.output().is_empty() {
            return After::Ends(End::Stalled);
        }
        match self.connection.turn() {
            Turn::Listens => {}
            Turn::Speaks | Turn::Done => return After::Ends(End::Stalled),
        }
        self.was_silent = true;
        self.fail();
        self.move_bytes(now, limits)
    }

    /// Returns the ended connection and the socket.
    pub(crate) fn end(self, end: End, now: Instant) -> (Ended<C, A>, TcpStream)
        requires { HasEnded C.turn self.connection end }
        ensures { IsEndOf self end result.0 }
    {
        let Peer {
            stream,
            address,
            connection,
            patience,
            sent,
            ..
        } = self;
        let took = now.duration_since(patience.began());
        let ended = Ended {
            connection,
            address,
            end,
            sent,
            took,
        };
        (ended, stream)
    }

    // Sends or receives bytes once, or makes the conversation queue packets.
    fn step(&mut self, now: Instant, limits: &Limits) -> Move
        ensures { EndsByMove C.turn self.new.connection result }
    {
        if !self.connection.output().is_empty() {
            return self.write(now, limits);
        }
        match self.connection.turn() {
            Turn::Speaks => self.speak(now, limits),
            Turn::Listens => self.read(now, limits),
            Turn::Done if self.was_silent => Move::Ended(End::Silent),
            Turn::Done => Move::Ended(End::Over),
        }
    }

    fn write(&mut self, now: Instant, limits: &Limits) -> Move
        ensures { LosesAtMost result }
    {
        match self.write_once() {
            Ok(0) => Move::Ended(End::Lost),
            Ok(_) => {
                self.patience.note_sent(now, limits);
                Move::Moved
            }
            Err(error) => failed_move(error.kind()),
        }
    }

    fn write_once(&mut self) -> io::Result<usize> {
        let written = write_some(&mut self.connection, &mut self.stream);
        let sent = self.sent.saturating_add(written_count(&written) as u64);
        self.sent = sent;
        written
    }

    fn speak(&mut self, now: Instant, limits: &Limits) -> Move
        requires turn { IsTurn C.turn self.old.connection Turn.Speaks }
        requires all_sent { pending_of self.old.connection ≡ [] }
        ensures { EndsByMove C.turn self.new.connection result }
    {
        self.patience.speaks(now, limits);
        match self.connection.speak() {
            Ok(()) => Move::Spoke,
            Err(_) => Move::Ended(End::Memory),
        }
    }

    fn read(&mut self, now: Instant, limits: &Limits) -> Move
        requires { IsTurn C.turn self.old.connection Turn.Listens }
        ensures { LosesAtMost result }
    {
        self.patience.listens(now, limits);
        match self.read_once() {
            Ok(()) => {
                self.patience.note_received(now, limits);
                Move::Heard
            }
            Err(error) if is_temporary(error.kind()) => {
                self.rest();
                failed_move(error.kind())
            }
            Err(_) => {
                self.fail();
                Move::Moved
            }
        }
    }

    fn read_once(&mut self) -> io::Result<()>
        requires { IsTurn C.turn self.old.connection Turn.Listens }
        ensures { OnErr result (self.new.connection ≡ self.old.connection) }
    {
        read_some(&mut self.connection, &mut self.stream)
    }

    // Frees the send queue if all of its bytes were sent.
    fn rest(&mut self) {
        self.connection.give_back();
    }

    // Notifies the conversation that its source has failed.
    fn fail(&mut self)
        requires { IsTurn C.turn self.old.connection Turn.Listens }
        ensures { has_stopped self.new.connection ≡ Some stop.Failed }
    {
        self.connection.receive_failure();
    }
}

// Returns whether a call that failed with this error may be repeated later.
fn is_temporary(kind: ErrorKind) -> bool {
    matches!(kind, ErrorKind::WouldBlock | ErrorKind::Interrupted)
}

// Returns the outcome of a step in which reading or writing the socket failed with this error.
fn failed_move(kind: ErrorKind) -> Move
    ensures { LosesAtMost result }
{
    match kind {
        ErrorKind::WouldBlock => Move::Blocked,
        ErrorKind::Interrupted => Move::Moved,
        _ => Move::Ended(End::Lost),
    }
}

// Returns the number of bytes that a write accepted, or 0 if the write failed.
fn written_count(written: &io::Result<usize>) -> usize
    ensures { result ≡ written_count written.now }
{
    match written {
        Ok(count) => *count,
        Err(_) => 0,
    }
}

// Writes the pending bytes with one call, and removes the bytes that the writer accepted. After a
// failed write, all pending bytes remain.
fn write_some<C: Conversation, A: Allocator + Copy, W: Write>(
    connection: &mut Connection<C, A>,
    writer: &mut W,
) -> io::Result<usize>
    ensures sends { SendsCounted C.holds connection.old connection.new
        (change_of W.contents writer.old writer.new) (written_count result) }
    ensures pending { pending_of connection.new
        ≡ drop (written_count result) (pending_of connection.old) }
    ensures conversation { conversation_of connection.new ≡ conversation_of connection.old }
    ensures stopped { has_stopped connection.new ≡ has_stopped connection.old }
{
    match writer.write(connection.output()) {
        Ok(count) => {
            connection.note_sent(count);
            Ok(count)
        }
        Err(error) => Err(error),
    }
}

// Reads once, at most up to the end of the current packet. The connection receives the bytes that
// were read, or the end of the input.
fn read_some<C: Conversation, A: Allocator + Copy, R: Read>(
    connection: &mut Connection<C, A>,
    reader: &mut R,
) -> io::Result<()>
    requires { IsTurn C.turn connection.old Turn.Listens }
    ensures hears { HearsOnce C.holds connection.old connection.new
        (change_of R.remaining reader.old reader.new) result }
    ensures end { IsByEnd (has_stopped connection.new) → IsAtEnd (R.remaining reader.new) }
    ensures err { OnErr result (connection.new ≡ connection.old) }
{
    let mut piece = [0; PIECE];
    let most = connection.receive_limit().min(PIECE);
    match read_front(reader, &mut piece, most) {
        Ok(0) => connection.receive_end(),
        Ok(count) => connection.receive(&piece[..count]),
        Err(error) => return Err(error),
    }
    Ok(())
}

// Reads at most `most` bytes into the front of `piece`.
fn read_front<R: Read>(reader: &mut R, piece: &mut [u8], most: usize) -> io::Result<usize>
    requires { most ≤ length piece.old }
    ensures few { IfOk result (λ n. n ≤ most) }
    ensures bytes { IfOk result
        (λ n. Consumes (R.remaining reader.old) (R.remaining reader.new) (take n piece.new)) }
    ensures end { result ≡ Ok 0 → 0 < most → IsAtEnd (R.remaining reader.new) }
    ensures err { OnErr result (Keeps (R.remaining reader.old) (R.remaining reader.new)) }
{
    reader.read(&mut piece[..most])
}

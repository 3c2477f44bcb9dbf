//! Messages that a sink holds back until they are complete.

ghost use Rattle.std.specs.Prelude.{◌≡◌, ◌≤◌, ◌<◌, ◌+◌, ◌++◌, ◌||◌, [], false, true, ◌&&◌, length, take, drop, nat_lt, not, is_err, IsErr, OnErr, OnOk};
ghost use Rattle.std.specs.Io.KnownBytes.{Appends, Keeps, append_known};
ghost use Rattle.gpkt.specs.Change.{change_of};
ghost use Rattle.gpkt.specs.Devices.{KeepsPassed};
ghost use Rattle.gpair.specs.Messages.{max_message};

use crate::counting::CountsBytes;
use gpkt::{Down, Sink};
use std::alloc::{Allocator, Global};
use std::marker::Model;

/// The maximum length in bytes of a message between the client and the server of a pair. The
/// system's buffers of a socket usually have room for one unread message of this length.
pub const MAX_MESSAGE: usize = 32_768;

/// A sink that holds a message back until a flush. If a message is too long, the sink fails, and no
/// byte of the message is written to the inner sink.
#[derive(Drop)]
pub struct MessageSink<W, A: Allocator + Copy = Global> {
    sink: W,
    held: Vec<u8, A>,
    // The number of bytes that were flushed.
    flushed: usize,
    is_too_long: bool,
    lacks_memory: bool,
    is_down: bool,
}

impl<W, A: Allocator + Copy> Model for MessageSink<W, A> {
    ghost use Rattle.std.specs.Prelude.{◌≤◌, length};
    ghost use Rattle.gpair.specs.Messages.{Holding, max_message};
    ghost use Rattle.gpair.specs.steps.Messages.{holding_code};

    ghost Value = { Holding W };

    ghost coded = { holding_code W.code };

    ghost view = { λ s. record {
      inner = s.sink;
      held = s.held.items;
      flushed = s.flushed;
      too_long = s.is_too_long;
      lacks_memory = s.lacks_memory;
      down = s.is_down;
    } };

    ghost invariant = { λ s. length s.held.items ≤ max_message };
}

impl<W, A: Allocator + Copy> MessageSink<W, A> {
    /// Returns a sink that holds no bytes. Allocates no memory yet.
    pub fn new(alloc: A, sink: W) -> MessageSink<W, A>
        ensures { result ≡ record {
          inner = sink;
          held = [];
          flushed = 0;
          too_long = false;
          lacks_memory = false;
          down = false;
        } }
    {
        MessageSink {
            sink,
            held: Vec::new(alloc),
            flushed: 0,
            is_too_long: false,
            lacks_memory: false,
            is_down: false,
        }
    }

    /// Returns whether a message was too long.
    pub fn is_too_long(&self) -> bool
        ensures { result ≡ self.now.too_long }
    {
        self.is_too_long
    }

    /// Returns whether memory for a message ran out.
    pub fn lacks_memory(&self) -> bool
        ensures { result ≡ self.now.lacks_memory }
    {
        self.lacks_memory
    }

    // Marks the sink as failed, and returns the error.
    fn fail<T>(&mut self) -> Result<T, Down>
        ensures same { self.new ≡ record self.old { down = true } }
        ensures err { IsErr result }
    {
        self.is_down = true;
        Err(Down)
    }
}

impl<W: Sink, A: Allocator + Copy> MessageSink<W, A> {
    /// Appends bytes to the held message, and writes nothing to the inner sink.
    ///
    /// Fails if the message would have more than [`MAX_MESSAGE`] bytes, or if out of memory. After
    /// a fault the held bytes are unchanged, and the sink has failed.
    pub fn hold(&mut self, bytes: &[u8]) -> Result<(), Down>
        requires { self.old.down ≡ false }
        ensures inner { self.new.inner ≡ self.old.inner }
        ensures held { OnOk result (self.new.held ≡ self.old.held ++ bytes.now) }
        ensures kept { OnErr result (self.new.held ≡ self.old.held) }
        ensures fits { OnOk result (length (self.old.held ++ bytes.now) ≤ max_message) }
        ensures too_long { self.new.too_long
            ≡ (nat_lt max_message (length self.old.held + length bytes.now) || self.old.too_long) }
        ensures lacks { self.new.lacks_memory
            ≡ ((is_err result && not (nat_lt max_message
            (length self.old.held + length bytes.now))) || self.old.lacks_memory) }
        ensures flushed { self.new.flushed ≡ self.old.flushed }
        ensures down { OnErr result (self.new.down ≡ true) }
        ensures up { OnOk result (self.new.down ≡ false) }
    {
        if bytes.len() > MAX_MESSAGE - self.held.len() {
            self.is_too_long = true;
            return self.fail();
        }
        match self.held.extend_from_slice(bytes) {
            Ok(()) => Ok(()),
            Err(_) => {
                self.lacks_memory = true;
                self.fail()
            }
        }
    }

    // Writes the held bytes to the inner sink. After an error the unwritten bytes are still held.
    fn write_held(&mut self) -> Result<(), Down>
        ensures bytes { Keeps (append_known (W.contents self.old.inner) self.old.held)
            (append_known (W.contents self.new.inner) self.new.held) }
        ensures grows { KeepsPassed (change_of W.contents self.old.inner self.new.inner) }
        ensures all { OnOk result (self.new.held ≡ []) }
        ensures down { self.new.down ≡ self.old.down }
        ensures loans { W.loans self.new.inner ≡ W.loans self.old.inner }
    {
        let (count, sent) = write_front(self.held.as_slice(), &mut self.sink);
        remove_front(&mut self.held, count);
        sent
    }
}

// Writes the bytes in order. Returns the number of written bytes, and an error if the sink failed
// before all bytes were written.
fn write_front<W: Sink>(bytes: &[u8], sink: &mut W) -> (usize, Result<(), Down>)
    ensures bound { result.0 ≤ length bytes.now }
    ensures all { OnOk result.1 (result.0 ≡ length bytes.now) }
    ensures bytes { Appends (W.contents sink.old) (W.contents sink.new) (take result.0 bytes.now) }
    ensures loans { W.loans sink.new ≡ W.loans sink.old }
{
    let mut count = 0;
    while count < bytes.len() {
        match sink.write(&bytes[count..]) {
            Ok(more) => count += more,
            Err(down) => return (count, Err(down)),
        }
    }
    (count, Ok(()))
}

// Removes the first `count` bytes.
fn remove_front<A: Allocator>(held: &mut Vec<u8, A>, count: usize)
    requires { count ≤ length held.old.items }
    ensures { held.new.items ≡ drop count held.old.items }
{
    let len = held.len();
    held.as_mut_slice().copy_within(count..len, 0);
    held.truncate(len - count);
}

// Every byte in the inner sink counts as flushed. A `MessageSink` therefore writes to the inner
// sink only during a flush.
impl<W: Sink, A: Allocator + Copy> Sink for MessageSink<W, A> {
    ghost contents = { λ h. append_known (W.contents h.inner) h.held };

    ghost passed_on = { λ h. W.contents h.inner };

    ghost is_down = { λ h. h.down };

    ghost loans = { λ h. W.loans h.inner };

    fn write(&mut self, buf: &[u8]) -> Result<usize, Down> {
        if self.is_down {
            return Err(Down);
        }
        match self.hold(buf) {
            Ok(()) => Ok(buf.len()),
            Err(down) => Err(down),
        }
    }

    fn flush(&mut self) -> Result<(), Down> {
        let count = self.held.len();
        if self.is_down || self.write_held().is_err() {
            return self.fail();
        }
        match self.sink.flush() {
            Ok(()) => {
                self.flushed = self.flushed.saturating_add(count);
                Ok(())
            }
            Err(_) => self.fail(),
        }
    }
}

impl<W, A: Allocator + Copy> CountsBytes for MessageSink<W, A> {
    fn byte_count(&self) -> usize {
        self.flushed
    }
}

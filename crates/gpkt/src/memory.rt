//! Sources and sinks in memory, and a wrapper that limits a source or sink. The module is for
//! tests, and for callers whose bytes are in memory.

ghost use Rattle.std.specs.Prelude.{◌≡◌, ◌<◌, ◌≤◌, ◌⊎◌, ◌++◌, [], false, Some, length, take, drop};

use crate::device::{Down, FailureFlag, Sink, Source};
use std::alloc::{Allocator, Global};
use std::marker::Model;

/// A source that reads from a slice and never fails.
#[derive(Drop)]
pub struct SliceSource<'a> {
    rest: &'a [u8],
}

impl<'a> Model for SliceSource<'a> {
    ghost use Rattle.std.specs.Prelude.{List, ℕ};

    ghost Value = { List ℕ };

    ghost view = { λ s. s.rest.now };
}

impl<'a> SliceSource<'a> {
    /// Returns a source that reads these bytes.
    pub fn new(bytes: &'a [u8]) -> SliceSource<'a>
        ensures { result ≡ bytes.now }
    {
        SliceSource { rest: bytes }
    }

    /// Returns the unread bytes.
    pub fn rest(&self) -> &'a [u8]
        ensures { result.now ≡ self.now }
    {
        self.rest
    }
}

impl Source for SliceSource<'_> {
    ghost remaining = { λ s. Some s };

    ghost is_down = { λ _. false };

    ghost loans = { λ _. [] };

    fn read(&mut self, buf: &mut [u8]) -> Result<usize, Down> {
        let rest = self.rest;
        let count = copy_front(rest, buf);
        self.rest = &rest[count..];
        Ok(count)
    }
}

// Copies as many bytes as fit from the front of `from` to the front of `to`, and returns the number
// of copied bytes.
fn copy_front(from: &[u8], to: &mut [u8]) -> usize
    ensures bound { result ≤ length from.now }
    ensures room { result ≤ length to.old }
    ensures some { result ≡ 0 → (length from.now ≡ 0) ⊎ (length to.old ≡ 0) }
    ensures copied { to.new ≡ take result from.now ++ drop result to.old }
{
    let count = from.len().min(to.len());
    to[..count].copy_from_slice(&from[..count]);
    count
}

/// A sink that stores the written bytes. The sink fails only if there is not enough memory.
#[derive(Drop)]
pub struct VecSink<A: Allocator + Copy = Global> {
    written: Vec<u8, A>,
    // The number of written bytes that were flushed.
    passed_on: usize,
    flushes: usize,
    down: FailureFlag,
}

impl<A: Allocator + Copy> Model for VecSink<A> {
    ghost use Rattle.std.specs.Prelude.{◌≤◌, length, take};
    ghost use Rattle.gpkt.specs.Devices.{Written};
    ghost use Rattle.gpkt.specs.steps.Devices.{written_code};

    ghost Value = { Written };

    ghost coded = { written_code };

    ghost view = { λ s. record {
      bytes = s.written.items;
      passed_on = take s.passed_on s.written.items;
      flushes = s.flushes;
      down = s.down;
    } };

    ghost invariant = { λ s. s.passed_on ≤ length s.written.items };
}

impl<A: Allocator + Copy> VecSink<A> {
    /// Returns an empty sink, without allocating.
    pub fn new(alloc: A) -> VecSink<A>
        ensures { result ≡ record { bytes = []; passed_on = []; flushes = 0; down = false } }
    {
        VecSink {
            written: Vec::new(alloc),
            passed_on: 0,
            flushes: 0,
            down: FailureFlag::new(),
        }
    }

    /// Returns the written bytes.
    pub fn written_bytes(&self) -> &[u8]
        ensures { result.now ≡ self.now.bytes }
    {
        self.written.as_slice()
    }

    /// Returns the flushed bytes: all bytes written before the last flush.
    pub fn passed_on(&self) -> &[u8]
        ensures { result.now ≡ self.now.passed_on }
    {
        &self.written.as_slice()[..self.passed_on]
    }

    /// Returns the number of flushes.
    pub fn flushes(&self) -> usize
        ensures { result ≡ self.now.flushes }
    {
        self.flushes
    }

    /// Returns the written bytes as a vector.
    pub fn into_written(self) -> Vec<u8, A>
        ensures { result.items ≡ self.bytes }
    {
        let VecSink {
            written,
            passed_on: _,
            flushes: _,
            down: _,
        } = self;
        written
    }
}

impl<A: Allocator + Copy> Sink for VecSink<A> {
    ghost contents = { λ s. Some s.bytes };

    ghost passed_on = { λ s. Some s.passed_on };

    ghost is_down = { λ s. s.down };

    ghost loans = { λ _. [] };

    fn write(&mut self, buf: &[u8]) -> Result<usize, Down> {
        if self.down.is_down() {
            return Err(Down);
        }
        match self.written.extend_from_slice(buf) {
            Ok(()) => Ok(buf.len()),
            Err(_) => self.down.fail(),
        }
    }

    fn flush(&mut self) -> Result<(), Down> {
        if self.down.is_down() {
            return Err(Down);
        }
        self.passed_on = self.written.len();
        self.flushes = self.flushes.saturating_add(1);
        Ok(())
    }
}

/// A source or sink that transfers only a limited number of bytes per call, and fails at a chosen
/// call.
///
/// The contracts describe only the wrapped source or sink, and whether the wrapper has failed. The
/// limit and the failing call are only tested.
#[derive(Drop)]
pub struct Limited<D> {
    device: D,
    most: usize,
    calls_left: Option<usize>,
    down: FailureFlag,
}

impl<D> Model for Limited<D> {
    ghost use Rattle.gpkt.specs.Devices.{Device};
    ghost use Rattle.gpkt.specs.steps.Devices.{device_code};

    ghost Value = { Device D };

    ghost coded = { device_code D.code };

    ghost view = { λ h. record { inner = h.device; down = h.down } };
}

impl<D> Limited<D> {
    /// Returns a wrapper that sets no limits.
    pub fn new(device: D) -> Limited<D>
        ensures inner { result.inner ≡ device }
        ensures down { result.down ≡ false }
    {
        Limited {
            device,
            most: usize::MAX,
            calls_left: None,
            down: FailureFlag::new(),
        }
    }

    /// Limits each call to `most` bytes. A limit of 0 counts as 1.
    pub fn with_most(mut self, most: usize) -> Limited<D>
        ensures { result ≡ self }
    {
        self.most = most.max(1);
        self
    }

    /// Lets `calls` reads or writes proceed, and makes the next read or write fail. Flushes are not
    /// counted.
    pub fn failing_after(mut self, calls: usize) -> Limited<D>
        ensures { result ≡ self }
    {
        self.calls_left = Some(calls);
        self
    }

    /// Returns the wrapped source or sink in its current state.
    pub fn into_inner(self) -> D
        ensures { result ≡ self.inner }
    {
        let Limited {
            device,
            most: _,
            calls_left: _,
            down: _,
        } = self;
        device
    }
}

// Counts a call, and returns whether the call may proceed.
fn allows_call(calls_left: &mut Option<usize>) -> bool {
    match *calls_left {
        None => true,
        Some(0) => false,
        Some(left) => {
            *calls_left = Some(left - 1);
            true
        }
    }
}

impl<S: Source> Source for Limited<S> {
    ghost remaining = { λ h. S.remaining h.inner };

    ghost is_down = { λ h. h.down };

    ghost loans = { λ h. S.loans h.inner };

    fn read(&mut self, buf: &mut [u8]) -> Result<usize, Down> {
        if self.down.is_down() || !allows_call(&mut self.calls_left) {
            return self.down.fail();
        }
        let room = buf.len().min(self.most.max(1));
        match self.device.read(&mut buf[..room]) {
            Ok(count) => Ok(count),
            Err(_) => self.down.fail(),
        }
    }
}

impl<W: Sink> Sink for Limited<W> {
    ghost contents = { λ h. W.contents h.inner };

    ghost passed_on = { λ h. W.passed_on h.inner };

    ghost is_down = { λ h. h.down };

    ghost loans = { λ h. W.loans h.inner };

    fn write(&mut self, buf: &[u8]) -> Result<usize, Down> {
        if self.down.is_down() || !allows_call(&mut self.calls_left) {
            return self.down.fail();
        }
        let part = buf.len().min(self.most.max(1));
        match self.device.write(&buf[..part]) {
            Ok(count) => Ok(count),
            Err(_) => self.down.fail(),
        }
    }

    fn flush(&mut self) -> Result<(), Down> {
        if self.down.is_down() {
            return Err(Down);
        }
        match self.device.flush() {
            Ok(()) => Ok(()),
            Err(_) => self.down.fail(),
        }
    }
}

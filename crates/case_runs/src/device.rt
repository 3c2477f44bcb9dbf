//! In-memory sources and sinks that transfer a limited number of bytes in each call, and fail at a
//! chosen call. `StdAdapter` turns a source into a std reader, and a sink into a std writer.

ghost use Rattle.std.specs.Prelude.{◌≡◌, is_err, None, []};
ghost use Rattle.gpkt.specs.Devices.{AnswersDown};

use crate::indexer_check::IndexerCheck;
use gpkt::{Down, Sink, Source};
use std::alloc::{AllocError, Global};
use std::io;
use std::io::{ErrorKind, Read, Write};

/// The limits of a source or sink. A call transfers at most `max_per_call` bytes. The call with the
/// number `failing_call`, counted from 1, fails. If the number is 0, no call fails.
#[derive(Clone, Copy)]
pub struct DeviceLimits {
    max_per_call: usize,
    failing_call: usize,
}

impl DeviceLimits {
    /// No limit on the bytes of a call, and no failure.
    pub const NONE: DeviceLimits = DeviceLimits {
        max_per_call: usize::MAX,
        failing_call: 0,
    };

    /// Returns limits of `max_per_call` bytes per call, without a failure.
    pub fn with_max_per_call(max_per_call: usize) -> DeviceLimits {
        DeviceLimits {
            max_per_call,
            failing_call: 0,
        }
    }

    /// Returns limits of one byte per call, with a failure at the call with this number.
    pub fn with_failing_call(call: usize) -> DeviceLimits {
        DeviceLimits {
            max_per_call: 1,
            failing_call: call,
        }
    }
}

// A counter of calls. `count_call` fails at the chosen call and at each later call.
#[derive(Drop)]
struct CallCounter {
    limits: DeviceLimits,
    calls: usize,
    is_down: bool,
    // Whether a call followed a failed call, or a read had an empty buffer.
    was_misused: bool,
}

impl CallCounter {
    fn new(limits: DeviceLimits) -> CallCounter {
        CallCounter {
            limits,
            calls: 0,
            is_down: false,
            was_misused: false,
        }
    }

    fn count_call(&mut self) -> Result<(), Down>
        ensures is_down { self.new.is_down ≡ is_err result }
        ensures stays_down { AnswersDown self.old.is_down result }
    {
        self.calls = self.calls.saturating_add(1);
        self.was_misused = self.was_misused || self.is_down;
        self.is_down = self.is_down || self.calls == self.limits.failing_call;
        if self.is_down { Err(Down) } else { Ok(()) }
    }
}

/// A source of bytes in memory.
#[derive(Drop)]
pub struct Reader<'a, 'w> {
    unread: &'a [u8],
    indexer_check: &'w IndexerCheck,
    call_counter: CallCounter,
}

impl<'a, 'w> Reader<'a, 'w> {
    /// Returns a source that yields these bytes.
    pub fn new(
        bytes: &'a [u8],
        limits: DeviceLimits,
        indexer_check: &'w IndexerCheck,
    ) -> Reader<'a, 'w> {
        Reader {
            unread: bytes,
            indexer_check,
            call_counter: CallCounter::new(limits),
        }
    }

    /// Returns the number of bytes not yet read.
    pub fn unread_len(&self) -> usize {
        self.unread.len()
    }

    /// Returns whether a call to the source failed.
    pub fn has_failed(&self) -> bool {
        self.call_counter.is_down
    }

    /// Returns whether a read followed a failed read, or a read had an empty buffer.
    pub fn was_misused(&self) -> bool {
        self.call_counter.was_misused
    }
}

impl Source for Reader<'_, '_> {
    ghost remaining = { λ _. None };

    ghost is_down = { λ s. s.call_counter.is_down };

    ghost loans = { λ _. [] };

    fn read(&mut self, buf: &mut [u8]) -> Result<usize, Down> {
        self.call_counter.was_misused = self.call_counter.was_misused || buf.is_empty();
        self.call_counter.count_call()?;
        let count = self
            .unread
            .len()
            .min(buf.len())
            .min(self.call_counter.limits.max_per_call);
        let (part, unread) = self.unread.split_at(count);
        buf[..count].copy_from_slice(part);
        self.unread = unread;
        self.indexer_check.note_read(count);
        Ok(count)
    }
}

/// A sink in memory, which counts how many of its bytes are flushed.
#[derive(Drop)]
pub struct Writer {
    written: Vec<u8>,
    flushed_len: usize,
    call_counter: CallCounter,
}

impl Writer {
    /// Returns a sink without any bytes.
    pub fn new(alloc: Global, limits: DeviceLimits) -> Writer {
        Writer {
            written: Vec::new(alloc),
            flushed_len: 0,
            call_counter: CallCounter::new(limits),
        }
    }

    /// Returns a sink that already holds these bytes. The bytes count as flushed if `is_flushed`
    /// is set.
    pub fn with_bytes(alloc: Global, bytes: &[u8], is_flushed: bool) -> Result<Writer, AllocError> {
        let mut writer = Writer::new(alloc, DeviceLimits::NONE);
        writer.written.extend_from_slice(bytes)?;
        writer.flushed_len = if is_flushed { bytes.len() } else { usize::MAX };
        Ok(writer)
    }

    /// Returns all bytes written so far.
    pub fn written_bytes(&self) -> &[u8] {
        self.written.as_slice()
    }

    /// Returns whether all written bytes are flushed.
    pub fn is_flushed(&self) -> bool {
        self.flushed_len == self.written.len()
    }

    /// Returns whether a call to the sink failed.
    pub fn has_failed(&self) -> bool {
        self.call_counter.is_down
    }

    /// Returns whether a call followed a failed call.
    pub fn was_misused(&self) -> bool {
        self.call_counter.was_misused
    }
}

impl Sink for Writer {
    ghost contents = { λ _. None };

    ghost passed_on = { λ _. None };

    ghost is_down = { λ s. s.call_counter.is_down };

    ghost loans = { λ _. [] };

    fn write(&mut self, buf: &[u8]) -> Result<usize, Down> {
        self.call_counter.count_call()?;
        let count = buf.len().min(self.call_counter.limits.max_per_call.max(1));
        match self.written.extend_from_slice(&buf[..count]) {
            Ok(()) => Ok(count),
            Err(_) => {
                self.call_counter.is_down = true;
                Err(Down)
            }
        }
    }

    fn flush(&mut self) -> Result<(), Down> {
        self.call_counter.count_call()?;
        self.flushed_len = self.written.len();
        Ok(())
    }
}

// The error or result with which a std reader or writer fails.
#[derive(Clone, Copy)]
enum Failure {
    // Errors of kinds that callers often retry, or mistake for the end of the input.
    Interrupted,
    WouldBlock,
    UnexpectedEof,
    // A write that returns 0, or a read that fails with `ErrorKind::Interrupted`.
    WritesZero,
}

impl Failure {
    // Returns one of the four failures, which the number of the failing call determines.
    fn for_limits(limits: DeviceLimits) -> Failure {
        match limits.failing_call % 4 {
            0 => Failure::WritesZero,
            1 => Failure::Interrupted,
            2 => Failure::WouldBlock,
            _ => Failure::UnexpectedEof,
        }
    }

    fn error(self) -> io::Error {
        match self {
            Failure::Interrupted | Failure::WritesZero => io::Error::from(ErrorKind::Interrupted),
            Failure::WouldBlock => io::Error::from(ErrorKind::WouldBlock),
            Failure::UnexpectedEof => io::Error::from(ErrorKind::UnexpectedEof),
        }
    }
}

/// A std reader over a source, or a std writer over a sink. The field `failure` determines how the
/// adapter reports a failure of the source or sink.
#[derive(Drop)]
pub struct StdAdapter<D> {
    device: D,
    failure: Failure,
}

impl<D> StdAdapter<D> {
    /// Wraps a source or sink that has these limits.
    pub fn new(device: D, limits: DeviceLimits) -> StdAdapter<D> {
        StdAdapter {
            device,
            failure: Failure::for_limits(limits),
        }
    }

    /// Returns the wrapped source or sink.
    pub fn into_inner(self) -> D {
        let StdAdapter { device, failure: _ } = self;
        device
    }
}

impl<D: Source> Read for StdAdapter<D> {
    fn read(&mut self, buf: &mut [u8]) -> io::Result<usize> {
        match self.device.read(buf) {
            Ok(count) => Ok(count),
            Err(_) => Err(self.failure.error()),
        }
    }
}

impl<D: Sink> Write for StdAdapter<D> {
    fn write(&mut self, buf: &[u8]) -> io::Result<usize> {
        match (self.device.write(buf), self.failure) {
            (Ok(count), _) => Ok(count),
            (Err(_), Failure::WritesZero) => Ok(0),
            (Err(_), failure) => Err(failure.error()),
        }
    }

    fn flush(&mut self) -> io::Result<()> {
        match self.device.flush() {
            Ok(()) => Ok(()),
            Err(_) => Err(self.failure.error()),
        }
    }
}

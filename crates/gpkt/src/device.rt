//! Sources that a reader reads from, and sinks that a writer writes to.

ghost use Rattle.std.specs.Prelude.{◌≡◌, ◌≢◌, ◌⊎◌, ◌↔◌, ℕ, ◌∷◌, [], List, Bool, Option, Some, IfOk, OnErr, OnOk, IsErr, is_err, true, false};
ghost use Rattle.std.specs.Io.{ReadsAtMost, WritesAtMost};
ghost use Rattle.std.specs.Io.KnownBytes.{Keeps, ReadConsumes, WriteAppends};
ghost use Rattle.gpkt.specs.Change.{change_of};
ghost use Rattle.gpkt.specs.Devices.{AnswersDown, KeepsPassed, PassesAll, TakesSome};
ghost use Rattle.gpkt.specs.Faults.{down_text};

use std::error::Error;
use std::marker::Model;
use std::{fmt, io};

/// The failure of a source or sink. Every later call to the source or sink also fails.
#[derive(Clone, Copy, Debug, PartialEq, Eq)]
pub struct Down;

impl fmt::Display for Down {
    ghost output = { λ fault. Some (down_text fault) };

    fn fmt<W: fmt::Write>(&self, f: &mut fmt::Formatter<W>) -> fmt::Result {
        f.write_str("the device failed")
    }
}

impl Error for Down {}

/// A source of bytes.
///
/// After any error, every later call to the source also fails.
pub trait Source {
    // The bytes still to be read, or `None` if the contracts do not state them.
    ghost remaining: { Self → Option (List ℕ) };

    // Whether the source has failed.
    ghost is_down: { Self → Bool };

    // The identifiers of the borrows through which the source is accessed, outermost first.
    ghost loans: { Self → List ℕ };

    /// Reads bytes into the front of `buf` and returns their number. Returns 0 only at the end of
    /// the input, or if `buf` is empty.
    fn read(&mut self, buf: &mut [u8]) -> Result<usize, Down>
        ensures bound { ReadsAtMost result buf.new }
        ensures bytes { ReadConsumes (remaining self.old) (remaining self.new) result buf.new }
        ensures down { is_down self.new ≡ is_err result }
        ensures stays_down { AnswersDown (is_down self.old) result }
        ensures loans { loans self.new ≡ loans self.old };
}

/// A sink for bytes.
///
/// After any error, every later call to the sink also fails.
pub trait Sink {
    // The bytes written so far, or `None` if the contracts do not state them.
    ghost contents: { Self → Option (List ℕ) };

    // The bytes that were flushed, or `None` if the contracts do not state them.
    ghost passed_on: { Self → Option (List ℕ) };

    // Whether the sink has failed.
    ghost is_down: { Self → Bool };

    // The identifiers of the borrows through which the sink is accessed, outermost first.
    ghost loans: { Self → List ℕ };

    /// Writes bytes from the front of `buf` and returns their number. Returns 0 only if `buf` is
    /// empty.
    fn write(&mut self, buf: &[u8]) -> Result<usize, Down>
        ensures bound { WritesAtMost result buf.now }
        ensures some { TakesSome result buf.now }
        ensures bytes { WriteAppends (contents self.old) (contents self.new) result buf.now }
        ensures passed_on { Keeps (passed_on self.old) (passed_on self.new) }
        ensures down { is_down self.new ≡ is_err result }
        ensures stays_down { AnswersDown (is_down self.old) result }
        ensures loans { loans self.new ≡ loans self.old };

    /// Flushes the bytes that are still buffered. A flush that fails may have flushed some of these
    /// bytes.
    fn flush(&mut self) -> Result<(), Down>
        ensures bytes { Keeps (contents self.old) (contents self.new) }
        ensures passed_on { OnOk result
            (PassesAll (contents self.new) (change_of passed_on self.old self.new)) }
        ensures kept { OnErr result (KeepsPassed (change_of passed_on self.old self.new)) }
        ensures down { is_down self.new ≡ is_err result }
        ensures stays_down { AnswersDown (is_down self.old) result }
        ensures loans { loans self.new ≡ loans self.old };
}

impl<S: Source> Source for &mut S {
    ghost remaining = { λ s. S.remaining s.now };

    ghost is_down = { λ s. S.is_down s.now };

    ghost loans = { λ s. s.ghost_name ∷ S.loans s.now };

    fn read(&mut self, buf: &mut [u8]) -> Result<usize, Down> {
        (**self).read(buf)
    }
}

impl<W: Sink> Sink for &mut W {
    ghost contents = { λ w. W.contents w.now };

    ghost passed_on = { λ w. W.passed_on w.now };

    ghost is_down = { λ w. W.is_down w.now };

    ghost loans = { λ w. w.ghost_name ∷ W.loans w.now };

    fn write(&mut self, buf: &[u8]) -> Result<usize, Down> {
        (**self).write(buf)
    }

    fn flush(&mut self) -> Result<(), Down> {
        (**self).flush()
    }
}

/// Whether a source or sink has failed. After a failure, every later call also fails.
#[derive(Drop)]
pub(crate) struct FailureFlag {
    down: bool,
}

impl Model for FailureFlag {
    ghost use Rattle.std.specs.Coded.{coded_bool};
    ghost use Rattle.std.specs.Prelude.{Bool};

    ghost Value = { Bool };

    ghost view = { λ l. l.down };
}

impl FailureFlag {
    pub(crate) fn new() -> FailureFlag
        ensures { result ≡ false }
    {
        FailureFlag { down: false }
    }

    pub(crate) fn is_down(&self) -> bool
        ensures { result ≡ self.now }
    {
        self.down
    }

    /// Records the result of a call to the wrapped reader or writer. The source or sink fails
    /// exactly when that call failed.
    pub(crate) fn note<T>(&mut self, answer: io::Result<T>) -> Result<T, Down>
        ensures failed { IsErr result ↔ IsErr answer }
        ensures value { IfOk result (λ value. answer ≡ Ok value) }
        ensures down { OnErr result (self.new ≡ true) }
        ensures same { OnOk result (self.new ≡ self.old) }
    {
        match answer {
            Ok(value) => Ok(value),
            Err(_) => self.fail(),
        }
    }

    /// Records the result of a write of `buf` to the wrapped writer. The sink fails exactly when
    /// that write failed, or wrote no byte of a nonempty `buf`.
    pub(crate) fn note_write(
        &mut self,
        answer: io::Result<usize>,
        buf: &[u8],
    ) -> Result<usize, Down>
        ensures failed { IsErr result ↔ (IsErr answer ⊎ (answer ≡ Ok 0 × buf.now ≢ [])) }
        ensures count { IfOk result (λ count. answer ≡ Ok count) }
        ensures down { OnErr result (self.new ≡ true) }
        ensures same { OnOk result (self.new ≡ self.old) }
    {
        match answer {
            Ok(0) if !buf.is_empty() => self.fail(),
            Ok(count) => Ok(count),
            Err(_) => self.fail(),
        }
    }

    /// Records that the source or sink has failed, and returns the error.
    pub(crate) fn fail<T>(&mut self) -> Result<T, Down>
        ensures down { self.new ≡ true }
        ensures err { IsErr result }
    {
        self.down = true;
        Err(Down)
    }
}

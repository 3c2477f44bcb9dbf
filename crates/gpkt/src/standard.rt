//! Sources and sinks over std's readers and writers.

ghost use Rattle.std.specs.Prelude.{◌≡◌, ◌∷◌, [], false, None};

use crate::device::{Down, FailureFlag, Sink, Source};
use std::io::{Read, Write};

/// A source that borrows one of std's readers and reads from it.
///
/// The source fails after any error of the reader, even `Interrupted`.
#[derive(Drop)]
pub struct FromRead<'a, R> {
    reader: &'a mut R,
    down: FailureFlag,
}

impl<'a, R> FromRead<'a, R> {
    /// Returns a source that has not failed.
    pub fn new(reader: &'a mut R) -> FromRead<'a, R>
        ensures same { result.reader.ghost_name ≡ reader.entry.ghost_name }
        ensures reader { result.reader.now ≡ reader.old }
        ensures down { result.down ≡ false }
    {
        FromRead {
            reader,
            down: FailureFlag::new(),
        }
    }

    /// Returns the reader in its current state.
    pub fn into_inner(self) -> &'a mut R
        ensures same { result.ghost_name ≡ self.entry.reader.ghost_name }
        ensures reader { result.now ≡ self.entry.reader.now }
    {
        let FromRead { reader, down: _ } = self;
        reader
    }
}

impl<R: Read> Source for FromRead<'_, R> {
    ghost remaining = { λ s. R.remaining s.reader.now };

    ghost is_down = { λ s. s.down };

    ghost loans = { λ s. s.reader.ghost_name ∷ [] };

    fn read(&mut self, buf: &mut [u8]) -> Result<usize, Down> {
        if self.down.is_down() {
            return Err(Down);
        }
        let answer = self.reader.read(buf);
        self.down.note(answer)
    }
}

/// A sink that borrows one of std's writers and writes to it. The flushed bytes of the sink are
/// unknown.
///
/// The sink fails after any error of the writer, even `Interrupted`. The sink also fails if a write
/// accepts no byte of a nonempty slice.
#[derive(Drop)]
pub struct ToWrite<'a, W> {
    writer: &'a mut W,
    down: FailureFlag,
}

impl<'a, W> ToWrite<'a, W> {
    /// Returns a sink that has not failed.
    pub fn new(writer: &'a mut W) -> ToWrite<'a, W>
        ensures same { result.writer.ghost_name ≡ writer.entry.ghost_name }
        ensures writer { result.writer.now ≡ writer.old }
        ensures down { result.down ≡ false }
    {
        ToWrite {
            writer,
            down: FailureFlag::new(),
        }
    }

    /// Returns the writer in its current state.
    pub fn into_inner(self) -> &'a mut W
        ensures same { result.ghost_name ≡ self.entry.writer.ghost_name }
        ensures writer { result.now ≡ self.entry.writer.now }
    {
        let ToWrite { writer, down: _ } = self;
        writer
    }
}

impl<W: Write> Sink for ToWrite<'_, W> {
    ghost contents = { λ s. W.contents s.writer.now };

    ghost passed_on = { λ _. None };

    ghost is_down = { λ s. s.down };

    ghost loans = { λ s. s.writer.ghost_name ∷ [] };

    fn write(&mut self, buf: &[u8]) -> Result<usize, Down> {
        if self.down.is_down() {
            return Err(Down);
        }
        let answer = self.writer.write(buf);
        self.down.note_write(answer, buf)
    }

    fn flush(&mut self) -> Result<(), Down> {
        if self.down.is_down() {
            return Err(Down);
        }
        let answer = self.writer.flush();
        self.down.note(answer)
    }
}

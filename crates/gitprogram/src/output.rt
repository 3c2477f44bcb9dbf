//! Standard output, and lines on standard error.

ghost use Rattle.std.specs.Prelude.{◌≤◌, IfOk, length};

use crate::fault::Fault;
use crate::sentences::{NO_OUTPUT, Sentence};
use gitwords::{Shown, clean_byte};
use std::alloc::Global;
use std::fmt::Display;
use std::io;
use std::io::Write;

// The maximum number of bytes that one write to a terminal accepts.
const PIECE: usize = 512;

/// A writer of standard output, which replaces non-printable bytes if `is_terminal` is set.
#[derive(Drop)]
pub(crate) struct Output<W> {
    writer: W,
    is_terminal: bool,
    // The error of the last failed write.
    error: Option<io::Error>,
}

impl<W: Write> Output<W> {
    /// Returns an `Output` that writes to `writer`.
    pub(crate) fn new(writer: W, is_terminal: bool) -> Output<W> {
        Output {
            writer,
            is_terminal,
            error: None,
        }
    }

    /// Returns the fault for a failed write. The cause is the error of the last one.
    pub(crate) fn take_fault(&mut self, alloc: Global) -> Fault {
        match self.error.take() {
            Some(error) => Fault::of_call(alloc, "write to", "standard output", &error),
            None => Fault::of(alloc, Sentence::Text(NO_OUTPUT)),
        }
    }

    // Writes the front of the bytes.
    fn write_front(&mut self, buf: &[u8]) -> io::Result<usize>
        ensures { IfOk result (λ count. count ≤ length buf.now) }
    {
        if !self.is_terminal {
            return self.writer.write(buf);
        }
        let mut piece = [0u8; PIECE];
        for (clean, byte) in piece.iter_mut().zip(buf) {
            *clean = clean_byte(*byte, Shown::Lines);
        }
        let count = buf.len().min(PIECE);
        self.writer.write(&piece[..count])
    }
}

impl<W: Write> Write for Output<W> {
    fn write(&mut self, buf: &[u8]) -> io::Result<usize> {
        match self.write_front(buf) {
            Ok(count) => Ok(count),
            Err(error) => {
                let kind = error.kind();
                self.error = Some(error);
                Err(io::Error::from(kind))
            }
        }
    }

    fn flush(&mut self) -> io::Result<()> {
        self.writer.flush()
    }
}

/// Writes a text to standard output.
pub(crate) fn print<R: Print + AllocGlobal>(rt: &R, text: &[u8]) -> Result<(), Fault> {
    print_peer(rt, false, text)
}

/// Writes to standard output a text that contains bytes from a peer. On a terminal, non-printable
/// bytes are replaced.
pub(crate) fn print_peer<R: Print + AllocGlobal>(
    rt: &R,
    is_terminal: bool,
    text: &[u8],
) -> Result<(), Fault> {
    let mut output = Output::new(io::writer(rt), is_terminal);
    match output.write_all(text) {
        Ok(()) => Ok(()),
        Err(_) => Err(output.take_fault(rt.alloc())),
    }
}

/// Writes a line to `errors` in one piece, so that lines of several processes do not mix. If memory
/// runs out, writes the line in several pieces.
pub(crate) fn write_line<W: Write, D: Display>(alloc: Global, line: &D, errors: &mut W) {
    let _ = match format!(in alloc; "{line}\n") {
        Ok(text) => errors.write_all(text.as_bytes()),
        Err(_) => writeln!(errors, "{line}"),
    };
}

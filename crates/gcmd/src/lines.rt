//! `gitv2 lines`, as a function over bytes, sources and sinks.

ghost use Rattle.std.specs.Prelude.{◌≡◌, ◌+◌, ◌≤◌, ◌++◌, codes, false, length, []};
ghost use Rattle.std.specs.Fmt.{decimal};
ghost use Rattle.hex.specs.Hex.{encode_lower};
ghost use Rattle.gpkt.specs.Packets.{packet_of};
ghost use Rattle.gcmd.specs.steps.Lines.{chunk, ShowsEach, ShowsAndFlushes};
ghost use Rattle.gcmd.specs.Lines.{digits_part, shown_line, ShowsLines};
ghost use Rattle.gcmd.specs.Programs.{Runs};
ghost use Rattle.gpkt.specs.Streams.{given, OnBoth, SameSink, SameSource, taken};
ghost use Rattle.gcmd.specs.steps.Outputs.{Puts};

use crate::compose::add_number;
use crate::fault::ProgramFault;
use crate::program::finish;
use crate::send::put;
use arrayvec::ArrayVec;
use ggrammar::compose::add;
use gpkt::{Down, Packet, PacketBuffer, PacketFault, PacketReader, Sink, Source, laws};
use std::alloc::Allocator;

/// The maximum length in bytes of the start of a data packet's line: `data `, and a number of 20
/// digits.
const MAX_DATA_HEAD: usize = 25;

/// The maximum number of payload bytes that are written at a time.
const CHUNK: usize = 512;

/// `gitv2 lines`: shows each packet of `input` on a line of `output`, until the input ends
/// (gitprotocol-common(5), "pkt-line Format"). A line is `flush`, `delim` or `response-end`, or is
/// `data` with the length and the hexadecimal digits of the payload. The program reads at most
/// 4,294,967,295 packets.
///
/// Returns exit status 0 if all packets are shown and flushed. Otherwise prints a fault as one line
/// on `errors`, and returns 1. The packets before a refused packet are shown and flushed. If memory
/// for the reader's buffer runs out, nothing is read or written.
pub fn cmd_lines<A: Allocator + Copy, S: Source, W: Sink, E: Sink>(
    alloc: A,
    input: &mut S,
    output: &mut W,
    errors: &mut E,
) -> u8
    ensures runs { Runs {A = A} (ShowsLines (taken S.Source input.old input.new)
        (given W.Sink output.old output.new))
        (given E.Sink errors.old errors.new) result }
    ensures input_loans { SameSource S.Source input.old input.new }
    ensures output_loans { SameSink W.Sink output.old output.new }
    ensures errors_loans { SameSink E.Sink errors.old errors.new }
{
    finish(show_lines(alloc, input, output), errors)
}

// Shows all packets of the input on the output.
fn show_lines<A: Allocator + Copy, S: Source, W: Sink>(
    alloc: A,
    input: &mut S,
    output: &mut W,
) -> Result<(), ProgramFault<A>>
    ensures { OnBoth S.Source input.old input.new W.Sink output.old output.new
        (λ read written. ShowsLines {A = A} read written result) }
{
    let buffer = PacketBuffer::new(alloc)?;
    let mut reader = PacketReader::with_buffer(buffer, input);
    let passed = pass_each(&mut reader, output);
    let _input = reader.into_inner();
    match passed {
        Ok(Ok(())) => Ok(()),
        Ok(Err(fault)) => Err(ProgramFault::Line(fault)),
        Err(_) => Err(ProgramFault::WriteFailed),
    }
}

// Shows each packet, and flushes the output. Returns the reason why reading stopped.
fn pass_each<A: Allocator + Copy, S: Source, W: Sink>(
    reader: &mut PacketReader<S, A>,
    output: &mut W,
) -> Result<Result<(), PacketFault>, Down>
    requires { reader.old.failed ≡ false }
    ensures { OnBoth S.Source reader.old.source reader.new.source W.Sink output.old output.new
        (λ read written. ShowsAndFlushes read written result) }
{
    let ended = show_each(reader, output)?;
    output.flush()?;
    Ok(ended)
}

// Shows each packet of the reader, without a flush.
fn show_each<A: Allocator + Copy, S: Source, W: Sink>(
    reader: &mut PacketReader<S, A>,
    output: &mut W,
) -> Result<Result<(), PacketFault>, Down>
    requires { reader.old.failed ≡ false }
    ensures { OnBoth S.Source reader.old.source reader.new.source W.Sink output.old output.new
        (λ read written. ShowsEach read written result) }
{
    // Laws that the proof uses.
    laws::reads_join();
    for count in 0..u32::MAX {
        let line = match reader.next() {
            Ok(Some(line)) => line,
            Ok(None) => return Ok(Ok(())),
            Err(fault) => return Ok(Err(fault)),
        };
        match show_line(line, output) {
            Ok(()) => {}
            Err(down) => return Err(down),
        }
    }
    Ok(Ok(()))
}

fn show_line<W: Sink>(line: Packet<'_>, output: &mut W) -> Result<(), Down>
    ensures { Puts W.Sink output.old output.new result (shown_line (packet_of line.entry)) }
{
    match line {
        Packet::Data(payload) => show_data(payload, output),
        Packet::Flush => put(b"flush\n", output),
        Packet::Delim => put(b"delim\n", output),
        Packet::ResponseEnd => put(b"response-end\n", output),
    }
}

fn show_data<W: Sink>(payload: &[u8], output: &mut W) -> Result<(), Down>
    ensures { Puts W.Sink output.old output.new result
        ((codes "data " ++ decimal (length payload.now))
        ++ (digits_part payload.now ++ codes "\n")) }
{
    let mut head = ArrayVec::new();
    compose_head(payload.len(), &mut head);
    put(head.as_slice(), output)?;
    show_digits(payload, output)?;
    put(b"\n", output)
}

// Composes the part of a data packet's line before the digits.
fn compose_head(len: usize, head: &mut ArrayVec<u8, MAX_DATA_HEAD>)
    requires { head.old.items ≡ [] }
    ensures { head.new.items ≡ codes "data " ++ decimal len }
{
    add(b"data ", head);
    add_number(len as u64, head);
}

// Writes a space and the digits of the payload, unless the payload is empty.
fn show_digits<W: Sink>(payload: &[u8], output: &mut W) -> Result<(), Down>
    ensures { Puts W.Sink output.old output.new result (digits_part payload.now) }
{
    if payload.is_empty() {
        return Ok(());
    }
    put(b" ", output)?;
    put_digits(payload, output)
}

// Writes the hexadecimal digits of the bytes, chunk by chunk.
fn put_digits<W: Sink>(bytes: &[u8], output: &mut W) -> Result<(), Down>
    ensures { Puts W.Sink output.old output.new result (encode_lower bytes.now) }
{
    let mut rest = bytes;
    while !rest.is_empty() {
        let count = rest.len().min(CHUNK);
        put_chunk(&rest[..count], output)?;
        rest = &rest[count..];
    }
    Ok(())
}

fn put_chunk<W: Sink>(bytes: &[u8], output: &mut W) -> Result<(), Down>
    requires { length bytes.now ≤ chunk }
    ensures { Puts W.Sink output.old output.new result (encode_lower bytes.now) }
{
    let mut buffer = [0u8; 2 * CHUNK];
    let digits = &mut buffer[..2 * bytes.len()];
    hex::encode_to_slice(bytes, digits).unwrap();
    put(digits, output)
}

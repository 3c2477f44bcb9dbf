//! Packets of Git's protocol (gitprotocol-common(5), "pkt-line Format"), read from sources and
//! written to sinks, and the side bands of a payload (gitprotocol-pack(5), "Packfile Data").
//!
//! A packet starts with four hexadecimal digits. The digits `0000` announce a flush packet, `0001`
//! a delimiter packet, and `0002` a response-end packet. Any other valid digits are the length of a
//! data packet, including the four digits. [`PacketReader`] reads packets from a [`Source`].
//! [`PacketWriter`] writes packets to a [`Sink`], and [`write_all`] writes any bytes. [`FromRead`]
//! and [`ToWrite`] borrow std's readers and writers as sources and sinks. [`memory`] defines
//! sources and sinks in memory. [`band_of`] decodes the side band of a payload.
//!
//! # Proved
//!
//! - The bytes of a source or sink are known if its contract states them. If the input is known,
//!   the consumed bytes encode the packet that is read. The reader consumes no byte after the
//!   packet, however the source splits the input. The reader reports the end only if no byte is
//!   left. For each fault, the contract states when the reader may report it and which bytes are
//!   consumed (`HasRead` in `specs/PacketReading.antt`).
//! - For any source, a reader that has failed returns `Failed` and reads nothing. After any fault,
//!   the reader has failed. If the reader had not failed before a call, the call reports `Io`
//!   exactly when the source has failed after the call. A payload has at most 65,516 bytes. Only
//!   the constructor reports `Memory`.
//! - A successful write appends exactly the canonical encoding, if the written bytes are known. A
//!   write reports `Payload` exactly when the payload is too long for a packet, and then changes
//!   nothing. After `Io`, a proper prefix of the encoding was written. A writer that has failed
//!   returns `Failed` and writes nothing (`HasWritten` in `specs/PacketWriting.antt`).
//! - If the flushed bytes are known, writing flushes nothing, and a successful
//!   [`push`](PacketWriter::push) flushes all written bytes (`HasPushed`).
//! - [`write_all`] writes all of its bytes, or a prefix of the bytes if the sink fails.
//! - A source over one of std's readers fails exactly when a call to the reader fails. A sink over
//!   one of std's writers fails exactly when a call to the writer fails, or a write accepts no byte
//!   of a nonempty slice. The contracts of two private functions, which receive the result of the
//!   call, state these conditions.
//! - A sequence of bytes begins with at most one encoded packet, which ends at only one position. A
//!   sequence that a reader rejects begins with no encoded packet, and there is only one possible
//!   reason to reject it. The canonical form of a packet is one of its encodings. If the same bytes
//!   begin with the encodings of two lists of packets, one list is a prefix of the other. Every
//!   byte sequence is empty, or begins with an encoded packet, or is rejected by a reader with a
//!   fault. Consecutive reads consume the encodings of all their packets, in sequence. Consecutive
//!   writes have the effect of a single write of all the bytes. A payload decodes to a band exactly
//!   when it consists of the band byte followed by the bytes of that band ([`laws`]).
//! - Each fault has the number, the name and the text that `specs/Faults.antt` states.
//!
//! # Only tested
//!
//! - A source or sink over std's readers and writers makes one call to the reader or writer for
//!   each call that it receives. A flush of the sink flushes the writer.
//! - A failed call is never retried. No read has an empty buffer.
//!
//! # What the contracts do not rule out
//!
//! - No contract rules out that a source or sink fails at any call, or transfers only one byte per
//!   call. No contract rules out that a sink over std's writers flushes twice, or flushes without a
//!   call to `flush`.
//! - No contract rules out that allocating a buffer fails at any time, or that a constructor reads
//!   from the source before it fails.
//! - No contract rules out that a [`memory::Limited`] ignores its limits, or that a
//!   [`memory::VecSink`] does not count flushes.
//! - A write must leave the flushed bytes unchanged if they are known. So the contracts treat the
//!   flushed bytes of a sink that flushes at every write as unknown. No contract rules out that a
//!   failed flush has flushed any part of the buffered bytes.
//! - No contract rules out that formatting a fault returns `fmt::Error` although the text was
//!   written correctly.
//!
//! # Dependencies
//!
//! `hex` reads and writes the hexadecimal digits. Sources and sinks may wrap std's `Read` and
//! `Write`.
#![tactic(auto)]

mod band;
mod buffer;
pub mod compat;
mod device;
mod fault;
mod head;
pub mod laws;
pub mod memory;
mod packet;
mod put;
mod reading;
mod standard;
mod text;
mod writing;

pub use crate::band::{Band, MAX_BAND, band_of};
pub use crate::buffer::PacketBuffer;
pub use crate::device::{Down, Sink, Source};
pub use crate::fault::{BandFault, PacketFault, WriteFault};
pub use crate::packet::{MAX_PACKET, MAX_PAYLOAD, Packet};
pub use crate::put::write_all;
pub use crate::reading::PacketReader;
pub use crate::standard::{FromRead, ToWrite};
pub use crate::text::text_of;
pub use crate::writing::PacketWriter;

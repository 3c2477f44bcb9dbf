//! The reason that a message is rejected, and the position of the rejected packet.

ghost use Rattle.std.specs.Prelude.{◌≡◌, ◌+◌, ◌≤◌, ◌++◌, length, Some};
ghost use Rattle.ggrammar.specs.Faults.{why_row, row_of, line_phrase, kept_text, max_peer_text, message_fault_text};
ghost use Rattle.ggrammar.specs.FaultViews.{row_view};

use crate::compose::add;
use arrayvec::ArrayVec;
use gname::OUT_OF_MEMORY_TEXT;
use gpkt::{BandFault, PacketFault, text_of};
use std::error::Error;
use std::fmt;
use std::marker::Model;

/// The maximum length of the stored part of a peer's error text, in bytes.
pub const MAX_PEER_TEXT: usize = 256;

/// The text of an error that a peer reports, truncated to 256 bytes.
#[derive(Drop)]
pub struct PeerText {
    text: ArrayVec<u8, MAX_PEER_TEXT>,
}

impl Model for PeerText {
    ghost use Rattle.std.specs.Prelude.{List, ℕ};

    ghost Value = { List ℕ };

    ghost view = { λ t. t.text.items };
}

impl PeerText {
    /// Copies the text of an error from an `ERR` packet, or from the side band for fatal errors.
    /// Removes one trailing line feed, and keeps at most the first 256 bytes. Allocates nothing.
    pub fn new(error: &[u8]) -> PeerText
        ensures { result ≡ kept_text error.now }
    {
        let text = text_of(error);
        let mut kept = ArrayVec::new();
        add(&text[..text.len().min(MAX_PEER_TEXT)], &mut kept);
        PeerText { text: kept }
    }

    /// Returns the bytes of the text, at most 256.
    pub fn as_bytes(&self) -> &[u8]
        ensures bytes { result.now ≡ self.now }
        ensures short { length result.now ≤ max_peer_text }
    {
        self.text.as_slice()
    }
}

impl fmt::Debug for PeerText {
    fn fmt<W: fmt::Write>(&self, f: &mut fmt::Formatter<W>) -> fmt::Result {
        write!(f, "PeerText")
    }
}

/// The reason that a message is rejected at a packet, or at the end of the input.
#[derive(Debug, Drop)]
pub enum Why {
    /// The packet could not be read (faults 20 to 25).
    Line(PacketFault),
    /// The payload does not begin with a valid side band (faults 29 and 30).
    Band(BandFault),
    /// The grammar does not allow this flush, delimiter or response-end here, or the packet is not
    /// the response-end that the grammar requires (fault 41).
    UnexpectedFrame,
    /// The text matches no rule of the grammar (fault 42).
    BadText,
    /// The server does not support the command (fault 43).
    UnknownCommand,
    /// The server does not support the capability (fault 44).
    UnknownCapability,
    /// The command does not accept the argument (fault 45).
    UnknownArgument,
    /// The packet has no valid object id where the grammar requires one (fault 46).
    BadId,
    /// The packet has no valid ref name, or prefix of ref names, where the grammar requires one
    /// (fault 47).
    BadName,
    /// Accepting the packet would exceed a limit (fault 48).
    Limit,
    /// The peer reported an error (fault 49).
    RemoteErr(PeerText),
    /// The peer reported an error on the side band for fatal errors (fault 50).
    RemoteFatal(PeerText),
    /// The parts of a fetch reply are in the wrong order (fault 51).
    WrongSection,
    /// The peer's object format is not the expected format (fault 52).
    Format,
    /// There is not enough memory for the contents of the packet (fault 53).
    Memory,
    /// The input ends before the end of the message (fault 54).
    Ended,
}

// The number and the name of a fault, and its text for the peer.
#[derive(Clone, Copy)]
struct WhyRow {
    code: u32,
    name: &'static str,
    phrase: &'static str,
}

fn why_row(code: u32, name: &'static str, phrase: &'static str) -> WhyRow
    ensures { row_view result ≡ row_of (code, name.now) phrase.now }
{
    WhyRow { code, name, phrase }
}

// Returns the text that reports a fault of the packet reader to the peer.
fn line_phrase(fault: &PacketFault) -> &'static str
    ensures { result.now ≡ line_phrase fault.now }
{
    match fault {
        PacketFault::BadDigits | PacketFault::Reserved | PacketFault::TooLong => "bad packet line",
        PacketFault::Truncated => "unexpected end",
        PacketFault::Io | PacketFault::Failed => "read failed",
        PacketFault::Memory => OUT_OF_MEMORY_TEXT,
    }
}

impl Why {
    /// Returns the number of the fault.
    pub fn code(&self) -> u32
        ensures { result ≡ (why_row self.now).code }
    {
        self.fault_row().code
    }

    /// Returns the name of the fault.
    pub fn name(&self) -> &'static str
        ensures { result.now ≡ (why_row self.now).name }
    {
        self.fault_row().name
    }

    /// Returns the text for the peer, such as `bad line` in `ERR upload-pack: bad line`. The
    /// `Display` implementation writes this text.
    pub fn phrase(&self) -> &'static str
        ensures { result.now ≡ (why_row self.now).phrase }
    {
        self.fault_row().phrase
    }

    // Returns the number and the name of the fault, and its text for the peer.
    fn fault_row(&self) -> WhyRow
        ensures { row_view result ≡ why_row self.now }
    {
        match self {
            Why::Line(fault) => why_row(fault.code(), fault.name(), line_phrase(fault)),
            Why::Band(fault) => why_row(fault.code(), fault.name(), "refused"),
            Why::UnexpectedFrame => why_row(41, "UnexpectedFrame", "unexpected packet"),
            Why::BadText => why_row(42, "BadText", "bad line"),
            Why::UnknownCommand => why_row(43, "UnknownCommand", "unknown command"),
            Why::UnknownCapability => why_row(44, "UnknownCapability", "unknown capability"),
            Why::UnknownArgument => why_row(45, "UnknownArgument", "unknown argument"),
            Why::BadId => why_row(46, "BadId", "bad object id"),
            Why::BadName => why_row(47, "BadName", "bad ref name"),
            Why::Limit => why_row(48, "Limit", "limit exceeded"),
            Why::RemoteErr(_) => why_row(49, "RemoteErr", "peer reported an error"),
            Why::RemoteFatal(_) => why_row(50, "RemoteFatal", "refused"),
            Why::WrongSection => why_row(51, "WrongSection", "refused"),
            Why::Format => why_row(52, "Format", "object format mismatch"),
            Why::Memory => why_row(53, "Memory", OUT_OF_MEMORY_TEXT),
            Why::Ended => why_row(54, "Ended", "unexpected end"),
        }
    }
}

impl fmt::Display for Why {
    ghost output = { λ why. Some (why_row why).phrase };

    fn fmt<W: fmt::Write>(&self, f: &mut fmt::Formatter<W>) -> fmt::Result {
        f.write_str(self.phrase())
    }
}

impl Error for Why {}

/// The fault of a rejected message: the position of the rejected packet, and the reason.
#[derive(Debug, Drop)]
pub struct MessageFault {
    /// The position of the rejected packet in the message, counted from 0.
    pub frame: u64,
    /// The reason for the rejection.
    pub why: Why,
}

impl MessageFault {
    /// Returns the fault of a call that builds a message value. No packet caused the fault, so the
    /// position is 0.
    pub fn of_value(why: Why) -> MessageFault
        ensures { result ≡ record { frame = 0; why = why } }
    {
        MessageFault { frame: 0, why }
    }

    /// Returns the number of the fault.
    pub fn code(&self) -> u32
        ensures { result ≡ (why_row self.now.why).code }
    {
        self.why.code()
    }

    /// Returns the name of the fault.
    pub fn name(&self) -> &'static str
        ensures { result.now ≡ (why_row self.now.why).name }
    {
        self.why.name()
    }
}

impl fmt::Display for MessageFault {
    ghost output = { λ fault. Some (message_fault_text fault) };

    fn fmt<W: fmt::Write>(&self, f: &mut fmt::Formatter<W>) -> fmt::Result {
        let MessageFault { frame, why } = self;
        write!(f, "packet {frame}: {why}")
    }
}

impl Error for MessageFault {}

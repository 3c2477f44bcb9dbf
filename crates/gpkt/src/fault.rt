//! The faults of reading a packet, writing a packet and reading a band.

ghost use Rattle.std.specs.Prelude.{◌≡◌, Some};
ghost use Rattle.gpkt.specs.Faults.{band_fault_row, band_fault_text, packet_fault_row, packet_fault_text, write_fault_row, write_fault_text};
ghost use Rattle.gpkt.specs.declared.fault.PacketFault.TheVariants as packet_fault;

use std::alloc::{AllocError, AllocFailed};
use std::error::Error;
use std::fmt;

/// The reason why a packet was not read.
#[derive(Clone, Copy, Debug, PartialEq, Eq)]
pub enum PacketFault {
    /// One of the four digits is not a hexadecimal digit. No byte after the digits is read.
    BadDigits,
    /// The digits are the reserved `0003`. No byte after the digits is read.
    Reserved,
    /// The digits announce more than 65,520 bytes. No byte after the digits is read.
    TooLong,
    /// The input ends inside the four digits or the payload.
    Truncated,
    /// The source failed in this call.
    Io,
    /// An earlier call failed, so this call reads nothing.
    Failed,
    /// There was not enough memory for the buffer.
    Memory,
}

impl PacketFault {
    /// Returns the number of the fault.
    pub fn code(&self) -> u32
        ensures { result ≡ (packet_fault_row self.now).0 }
    {
        self.fault_row().0
    }

    /// Returns the name of the fault.
    pub fn name(&self) -> &'static str
        ensures { result.now ≡ (packet_fault_row self.now).1 }
    {
        self.fault_row().1
    }

    /// Returns the number and the name of the fault.
    pub fn fault_row(&self) -> (u32, &'static str)
        ensures { (result.0, result.1.now) ≡ packet_fault_row self.now }
    {
        match self {
            PacketFault::BadDigits => (20, "BadDigits"),
            PacketFault::Reserved => (21, "Reserved"),
            PacketFault::TooLong => (22, "TooLong"),
            PacketFault::Truncated => (23, "Truncated"),
            PacketFault::Io => (24, "Io"),
            PacketFault::Failed => (25, "Failed"),
            PacketFault::Memory => (28, "Memory"),
        }
    }
}

impl fmt::Display for PacketFault {
    ghost output = { λ fault. Some (packet_fault_text fault) };

    fn fmt<W: fmt::Write>(&self, f: &mut fmt::Formatter<W>) -> fmt::Result {
        match self {
            PacketFault::BadDigits => f.write_str("bad packet length"),
            PacketFault::Reserved => f.write_str("reserved packet length"),
            PacketFault::TooLong => f.write_str("packet too long"),
            PacketFault::Truncated => f.write_str("unexpected end of input inside a packet"),
            PacketFault::Io => f.write_str("the source failed"),
            PacketFault::Failed => f.write_str("an earlier read had failed"),
            PacketFault::Memory => f.write_str("out of memory"),
        }
    }
}

impl Error for PacketFault {}

impl From<AllocError> for PacketFault {
    ghost from_gives = { λ _ fault. fault ≡ packet_fault.Memory };

    fn from(_refused: AllocError) -> PacketFault {
        PacketFault::Memory
    }
}

impl<T: Drop> From<AllocFailed<T>> for PacketFault {
    ghost from_gives = { λ _ fault. fault ≡ packet_fault.Memory };

    fn from(_refused: AllocFailed<T>) -> PacketFault {
        PacketFault::Memory
    }
}

/// The reason why a packet was not written.
#[derive(Clone, Copy, Debug, PartialEq, Eq)]
pub enum WriteFault {
    /// An earlier call failed, so this call writes nothing.
    Failed,
    /// The payload, with its line feed if any, has more than 65,516 bytes. Nothing is written, and
    /// the writer stays usable.
    Payload,
    /// The sink failed in this call. If the call was writing a packet, only a part of the packet
    /// was written.
    Io,
}

impl WriteFault {
    /// Returns the number of the fault.
    pub fn code(&self) -> u32
        ensures { result ≡ (write_fault_row self.now).0 }
    {
        self.fault_row().0
    }

    /// Returns the name of the fault.
    pub fn name(&self) -> &'static str
        ensures { result.now ≡ (write_fault_row self.now).1 }
    {
        self.fault_row().1
    }

    /// Returns the number and the name of the fault.
    pub fn fault_row(&self) -> (u32, &'static str)
        ensures { (result.0, result.1.now) ≡ write_fault_row self.now }
    {
        match self {
            WriteFault::Failed => PacketFault::Failed.fault_row(),
            WriteFault::Payload => (26, "Payload"),
            WriteFault::Io => (27, "Io"),
        }
    }
}

impl fmt::Display for WriteFault {
    ghost output = { λ fault. Some (write_fault_text fault) };

    fn fmt<W: fmt::Write>(&self, f: &mut fmt::Formatter<W>) -> fmt::Result {
        match self {
            WriteFault::Failed => f.write_str("an earlier write had failed"),
            WriteFault::Payload => f.write_str("payload too long"),
            WriteFault::Io => f.write_str("the sink failed"),
        }
    }
}

impl Error for WriteFault {}

/// The reason why a payload has no valid band.
#[derive(Clone, Copy, Debug, PartialEq, Eq)]
pub enum BandFault {
    /// The payload is empty and has no band byte.
    NoBand,
    /// The first byte of the payload is not 1, 2 or 3.
    BadBand,
}

impl BandFault {
    /// Returns the number of the fault.
    pub fn code(&self) -> u32
        ensures { result ≡ (band_fault_row self.now).0 }
    {
        self.fault_row().0
    }

    /// Returns the name of the fault.
    pub fn name(&self) -> &'static str
        ensures { result.now ≡ (band_fault_row self.now).1 }
    {
        self.fault_row().1
    }

    // Returns the number and the name of the fault.
    fn fault_row(&self) -> (u32, &'static str)
        ensures { (result.0, result.1.now) ≡ band_fault_row self.now }
    {
        match self {
            BandFault::NoBand => (29, "NoBand"),
            BandFault::BadBand => (30, "BadBand"),
        }
    }
}

impl fmt::Display for BandFault {
    ghost output = { λ fault. Some (band_fault_text fault) };

    fn fmt<W: fmt::Write>(&self, f: &mut fmt::Formatter<W>) -> fmt::Result {
        match self {
            BandFault::NoBand => f.write_str("no band"),
            BandFault::BadBand => f.write_str("bad band"),
        }
    }
}

impl Error for BandFault {}

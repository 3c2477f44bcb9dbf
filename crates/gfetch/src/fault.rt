//! Reasons why a conversation fails.

ghost use Rattle.std.specs.Prelude.{◌≡◌, Some};
ghost use Rattle.gfetch.specs.Faults.{fetch_fault_row, fetch_fault_text};
ghost use Rattle.gfetch.specs.declared.fault.FetchFault.TheVariants as fetch;
ghost use Rattle.gsession.specs.declared.fault.ClientFault.TheVariants.{Message};

use ggrammar::MessageFault;
use gpkt::{PacketFault, WriteFault};
use gsession::ClientFault;
use std::alloc::{Allocator, Global};
use std::error::Error;
use std::fmt;

/// The reason why a conversation failed.
#[derive(Debug, Drop)]
pub enum FetchFault<A: Allocator + Copy = Global> {
    /// A fault of the session. With faults 20 to 25, 29, 30 and 41 to 54, a packet of the
    /// advertisement or of a reply was rejected. Faults 60 to 63, 66, 69, 75, 82 and 84 to 86
    /// reject the refspecs, the content of a reply or the update of refs. With fault 64, memory ran
    /// out.
    Client(ClientFault<A>),
    /// Fault 28: there is not enough memory for the buffers. Nothing was read.
    NoBuffer,
    /// Fault 27: the sink failed. A prefix of the client's output was written.
    WriteFailed,
}

impl<A: Allocator + Copy> FetchFault<A> {
    /// Returns the number of the fault.
    pub fn code(&self) -> u32
        ensures { result ≡ (fetch_fault_row self.now).0 }
    {
        self.fault_row().0
    }

    /// Returns the name of the fault.
    pub fn name(&self) -> &'static str
        ensures { result.now ≡ (fetch_fault_row self.now).1 }
    {
        self.fault_row().1
    }

    // Returns the number and the name of the fault.
    fn fault_row(&self) -> (u32, &'static str)
        ensures { (result.0, result.1.now) ≡ fetch_fault_row self.now }
    {
        match self {
            FetchFault::Client(fault) => fault.fault_row(),
            FetchFault::NoBuffer => PacketFault::Memory.fault_row(),
            FetchFault::WriteFailed => WriteFault::Io.fault_row(),
        }
    }
}

impl<A: Allocator + Copy> fmt::Display for FetchFault<A> {
    ghost output = { λ fault. Some (fetch_fault_text fault) };

    fn fmt<W: fmt::Write>(&self, f: &mut fmt::Formatter<W>) -> fmt::Result {
        match self {
            FetchFault::Client(fault) => fmt::Display::fmt(fault, f),
            FetchFault::NoBuffer => fmt::Display::fmt(&PacketFault::Memory, f),
            FetchFault::WriteFailed => fmt::Display::fmt(&WriteFault::Io, f),
        }
    }
}

impl<A: Allocator + Copy + fmt::Debug> Error for FetchFault<A> {}

impl<A: Allocator + Copy> From<ClientFault<A>> for FetchFault<A> {
    ghost from_gives = { λ cause fault. fault ≡ fetch.Client cause };

    fn from(cause: ClientFault<A>) -> FetchFault<A> {
        FetchFault::Client(cause)
    }
}

impl<A: Allocator + Copy> From<MessageFault> for FetchFault<A> {
    ghost from_gives = { λ cause fault. fault ≡ fetch.Client (Message cause) };

    fn from(cause: MessageFault) -> FetchFault<A> {
        FetchFault::Client(ClientFault::Message(cause))
    }
}

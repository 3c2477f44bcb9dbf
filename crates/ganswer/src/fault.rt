//! The faults of creating and changing a server, and of answering requests.

ghost use Rattle.std.specs.Prelude.{◌≡◌, Some};
ghost use Rattle.gpkt.specs.Faults.{packet_fault_row};
ghost use Rattle.ggrammar.specs.Faults.{line_phrase, row_of};
ghost use Rattle.ganswer.specs.Faults.{build_fault_row, build_fault_text, lacks_memory, serve_fault_row, serve_fault_text, why_lacks_memory};
ghost use Rattle.ganswer.specs.steps.Answers.{row_view};
ghost use Rattle.ganswer.specs.declared.fault.BuildFault.TheVariants as build;
ghost use Rattle.ganswer.specs.declared.fault.ServeFault.TheVariants as serve;

use ggrammar::{MessageFault, Why};
use ggraph::{GraphFault, PackFault, RefsFault};
use gname::{MISSING_PARENT, OUT_OF_MEMORY, OUT_OF_MEMORY_TEXT, Oid, RefName};
use gpkt::PacketFault;
use std::alloc::{AllocError, AllocFailed, Allocator, Global};
use std::error::Error;
use std::fmt;

/// The reason that a server could not be created or changed.
#[derive(Debug, Drop)]
pub enum BuildFault<A: Allocator + Copy = Global> {
    /// The graph rejects the object (faults 60 to 63 and 75), or memory runs out (fault 64).
    Graph(GraphFault),
    /// The refs reject the name (fault 69), or memory runs out (fault 64).
    Refs(RefsFault),
    /// The graph does not hold this parent of one of its objects (fault 70).
    NotClosed { id: Oid },
    /// The graph does not hold the id of this ref (fault 71).
    RefMissing { name: RefName<A> },
    /// HEAD is detached, and the graph does not hold its id (fault 71).
    HeadMissing,
    /// The graph does not hold this parent of the object to add (fault 72).
    MissingParent { id: Oid },
    /// There is not enough memory for the name `HEAD` (fault 64).
    Memory,
}

impl<A: Allocator + Copy> BuildFault<A> {
    /// Returns the number of the fault.
    pub fn code(&self) -> u32
        ensures { result ≡ (build_fault_row self.now).0 }
    {
        self.fault_row().0
    }

    /// Returns the name of the fault.
    pub fn name(&self) -> &'static str
        ensures { result.now ≡ (build_fault_row self.now).1 }
    {
        self.fault_row().1
    }

    // Returns the number and the name of the fault.
    fn fault_row(&self) -> (u32, &'static str)
        ensures { (result.0, result.1.now) ≡ build_fault_row self.now }
    {
        match self {
            BuildFault::Graph(fault) => fault.fault_row(),
            BuildFault::Refs(fault) => fault.fault_row(),
            BuildFault::NotClosed { .. } => (70, "NotClosed"),
            BuildFault::RefMissing { .. } | BuildFault::HeadMissing => (71, "RefMissing"),
            BuildFault::MissingParent { .. } => MISSING_PARENT,
            BuildFault::Memory => OUT_OF_MEMORY,
        }
    }
}

impl<A: Allocator + Copy> fmt::Display for BuildFault<A> {
    ghost output = { λ fault. Some (build_fault_text fault) };

    fn fmt<W: fmt::Write>(&self, f: &mut fmt::Formatter<W>) -> fmt::Result {
        match self {
            BuildFault::Graph(fault) => fmt::Display::fmt(fault, f),
            BuildFault::Refs(fault) => fmt::Display::fmt(fault, f),
            BuildFault::NotClosed { .. } => f.write_str("a parent is missing"),
            BuildFault::RefMissing { .. } => f.write_str("a ref stands at a missing object"),
            BuildFault::HeadMissing => f.write_str("HEAD stands at a missing object"),
            BuildFault::MissingParent { .. } => f.write_str(
                "a parent of the new object is missing",
            ),
            BuildFault::Memory => f.write_str(OUT_OF_MEMORY_TEXT),
        }
    }
}

impl<A: Allocator + Copy + fmt::Debug> Error for BuildFault<A> {}

impl<A: Allocator + Copy> From<AllocError> for BuildFault<A> {
    ghost from_gives = { λ _ fault. fault ≡ build.Memory };

    fn from(_refused: AllocError) -> BuildFault<A> {
        BuildFault::Memory
    }
}

impl<A: Allocator + Copy, T: Drop> From<AllocFailed<T>> for BuildFault<A> {
    ghost from_gives = { λ _ fault. fault ≡ build.Memory };

    fn from(_refused: AllocFailed<T>) -> BuildFault<A> {
        BuildFault::Memory
    }
}

/// The reason that a request was not answered.
#[derive(Debug, Drop)]
pub enum ServeFault {
    /// There is not enough memory for the reader of requests (fault 28).
    Reader(PacketFault),
    /// The request could not be read (faults 20 to 54).
    Request(MessageFault),
    /// A fetch request has no wants (fault 73).
    NoWants,
    /// The server does not hold this want of the request (fault 74).
    NotOurs { id: Oid },
    /// The packer can't pack the objects to send (fault 65).
    Pack(PackFault),
    /// There is not enough memory for the answer (fault 64).
    Memory,
}

// The number and the name of a fault, and its text for the client.
#[derive(Clone, Copy)]
struct ServeRow {
    code: u32,
    name: &'static str,
    phrase: &'static str,
}

fn serve_row(code: u32, name: &'static str, phrase: &'static str) -> ServeRow
    ensures { row_view result ≡ row_of (code, name.now) phrase.now }
{
    ServeRow { code, name, phrase }
}

// Returns the number and the name of a fault of reading a packet, and its text for the client.
fn line_row(fault: PacketFault) -> ServeRow
    ensures { row_view result ≡ row_of (packet_fault_row fault) (line_phrase fault) }
{
    let why = Why::Line(fault);
    serve_row(why.code(), why.name(), why.phrase())
}

impl ServeFault {
    /// Returns the number of the fault.
    pub fn code(&self) -> u32
        ensures { result ≡ (serve_fault_row self.now).code }
    {
        self.fault_row().code
    }

    /// Returns the name of the fault.
    pub fn name(&self) -> &'static str
        ensures { result.now ≡ (serve_fault_row self.now).name }
    {
        self.fault_row().name
    }

    /// Returns the text for the client, such as `no wants` in `ERR upload-pack: no wants`. In a
    /// message for `NotOurs`, the id of the want follows the text.
    pub fn phrase(&self) -> &'static str
        ensures { result.now ≡ (serve_fault_row self.now).phrase }
    {
        self.fault_row().phrase
    }

    /// Returns whether memory ran out, in the server or in the packer.
    pub fn is_memory(&self) -> bool
        ensures { result ≡ lacks_memory self.now }
    {
        match self {
            ServeFault::Reader(PacketFault::Memory) => true,
            ServeFault::Request(fault) => why_is_memory(&fault.why),
            ServeFault::Pack(PackFault::Memory) => true,
            ServeFault::Memory => true,
            _ => false,
        }
    }

    // Returns the number and the name of the fault, and its text for the client.
    fn fault_row(&self) -> ServeRow
        ensures { row_view result ≡ serve_fault_row self.now }
    {
        match self {
            ServeFault::Reader(fault) => line_row(*fault),
            ServeFault::Request(fault) => serve_row(fault.code(), fault.name(), fault.why.phrase()),
            ServeFault::NoWants => serve_row(73, "NoWants", "no wants"),
            ServeFault::NotOurs { .. } => serve_row(74, "NotOurs", "not our ref"),
            ServeFault::Pack(fault) => serve_row(fault.code(), fault.name(), "pack failed"),
            ServeFault::Memory => serve_row(OUT_OF_MEMORY.0, OUT_OF_MEMORY.1, OUT_OF_MEMORY_TEXT),
        }
    }
}

impl fmt::Display for ServeFault {
    ghost output = { λ fault. Some (serve_fault_text fault) };

    fn fmt<W: fmt::Write>(&self, f: &mut fmt::Formatter<W>) -> fmt::Result {
        match self {
            ServeFault::Reader(fault) => fmt::Display::fmt(fault, f),
            ServeFault::Request(fault) => fmt::Display::fmt(fault, f),
            ServeFault::NoWants => f.write_str("nothing is wanted"),
            ServeFault::NotOurs { .. } => f.write_str("a wanted object is missing"),
            ServeFault::Pack(fault) => fmt::Display::fmt(fault, f),
            ServeFault::Memory => f.write_str(OUT_OF_MEMORY_TEXT),
        }
    }
}

impl Error for ServeFault {}

// Returns whether memory ran out while a request was read.
fn why_is_memory(why: &Why) -> bool
    ensures { result ≡ why_lacks_memory why.now }
{
    match why {
        Why::Line(PacketFault::Memory) => true,
        Why::Memory => true,
        _ => false,
    }
}

impl From<AllocError> for ServeFault {
    ghost from_gives = { λ _ fault. fault ≡ serve.Memory };

    fn from(_refused: AllocError) -> ServeFault {
        ServeFault::Memory
    }
}

impl<T: Drop> From<AllocFailed<T>> for ServeFault {
    ghost from_gives = { λ _ fault. fault ≡ serve.Memory };

    fn from(_refused: AllocFailed<T>) -> ServeFault {
        ServeFault::Memory
    }
}

impl From<PackFault> for ServeFault {
    ghost from_gives = { λ cause fault. fault ≡ serve.Pack cause };

    fn from(cause: PackFault) -> ServeFault {
        ServeFault::Pack(cause)
    }
}

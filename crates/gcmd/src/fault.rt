//! The faults that end a program.

ghost use Rattle.std.specs.Prelude.{◌≡◌, Some};
ghost use Rattle.gcmd.specs.Faults.{printed_of, program_fault_text};
ghost use Rattle.gfetch.specs.declared.fault.FetchFault.TheVariants.{Client};
ghost use Rattle.gcmd.specs.declared.fault.ProgramFault.TheVariants as program;
ghost use Rattle.gsession.specs.declared.fault.ClientFault.TheVariants.{Repo};

use crate::print::FaultLine;
use ganswer::{BuildFault, ServeFault};
use gclient::{ClientFault, FetchFault, RepoFault, SpecFault};
use ggraph::LoadFault;
use glockfile::StorageFault;
use gname::{NameFault, OUT_OF_MEMORY_TEXT};
use gpkt::PacketFault;
use std::alloc::{AllocError, AllocFailed, Allocator, Global};
use std::error::Error;
use std::fmt;

/// The reason why a program ends with status 1. The program prints the reason as one line.
#[derive(Debug, Drop)]
pub enum ProgramFault<A: Allocator + Copy = Global> {
    /// Fault 64: there is not enough memory for a file, for a buffer of standard input or output,
    /// or to check a repository.
    Memory,
    /// Fault 95: a file could not be read, locked, or replaced after a fetch.
    File,
    /// Faults 64, 67 and 68: a file is not the text of a repository, or memory ran out.
    Text(LoadFault),
    /// Faults 64 and 71: the object of a ref or of HEAD is missing in the served repository, or
    /// memory ran out.
    Build(BuildFault<A>),
    /// Faults 20 to 54, 64, 65, 73 and 74: a request was refused.
    Request(ServeFault),
    /// Faults 20 to 24 and 28: a packet was refused, or there is not enough memory to read packets.
    Line(PacketFault),
    /// Faults 18 and 87: an argument is not a refspec, or there is not enough memory for the
    /// refspecs.
    Spec(SpecFault),
    /// Faults 20 to 25, 27 to 30, 41 to 54, 60 to 64, 66, 69, 75, 80, 82 and 84 to 86: the fetch
    /// into the client's repository failed, or memory ran out. Fault 80: a ref is not connected.
    Fetch(FetchFault<A>),
    /// Fault 27: the output failed.
    WriteFailed,
    /// Faults 11, 13 and 18: an argument is not a prefix of ref names, or there is not enough
    /// memory for the prefixes.
    Name(NameFault),
    /// Fault 94: a message between the client and the server of `gitv2 pair` is too long.
    PairLimit,
    /// Fault 96: a socket could not be opened, or a connection could not be accepted.
    Socket,
}

impl<A: Allocator + Copy> ProgramFault<A> {
    /// Returns the number of the fault.
    pub fn code(&self) -> u32
        ensures { result ≡ (printed_of self.now).number }
    {
        FaultLine::of(self).number()
    }

    /// Returns the name of the fault.
    pub fn name(&self) -> &'static str
        ensures { result.now ≡ (printed_of self.now).name }
    {
        FaultLine::of(self).name()
    }
}

impl<A: Allocator + Copy> fmt::Display for ProgramFault<A> {
    ghost output = { λ fault. Some (program_fault_text fault) };

    fn fmt<W: fmt::Write>(&self, f: &mut fmt::Formatter<W>) -> fmt::Result {
        match self {
            ProgramFault::Memory => f.write_str(OUT_OF_MEMORY_TEXT),
            ProgramFault::File => f.write_str("the file can't be read or written"),
            ProgramFault::Text(fault) => fmt::Display::fmt(fault, f),
            ProgramFault::Build(fault) => fmt::Display::fmt(fault, f),
            ProgramFault::Request(fault) => fmt::Display::fmt(fault, f),
            ProgramFault::Line(fault) => fmt::Display::fmt(fault, f),
            ProgramFault::Spec(fault) => fmt::Display::fmt(fault, f),
            ProgramFault::Fetch(fault) => fmt::Display::fmt(fault, f),
            ProgramFault::WriteFailed => f.write_str("the output failed"),
            ProgramFault::Name(fault) => fmt::Display::fmt(fault, f),
            ProgramFault::PairLimit => f.write_str("a message is too long"),
            ProgramFault::Socket => f.write_str("a socket failed"),
        }
    }
}

impl<A: Allocator + Copy + fmt::Debug> Error for ProgramFault<A> {}

impl<A: Allocator + Copy> From<LoadFault> for ProgramFault<A> {
    ghost from_gives = { λ cause fault. fault ≡ program.Text cause };

    fn from(cause: LoadFault) -> ProgramFault<A> {
        ProgramFault::Text(cause)
    }
}

impl<A: Allocator + Copy> From<BuildFault<A>> for ProgramFault<A> {
    ghost from_gives = { λ cause fault. fault ≡ program.Build cause };

    fn from(cause: BuildFault<A>) -> ProgramFault<A> {
        ProgramFault::Build(cause)
    }
}

impl<A: Allocator + Copy> From<SpecFault> for ProgramFault<A> {
    ghost from_gives = { λ cause fault. fault ≡ program.Spec cause };

    fn from(cause: SpecFault) -> ProgramFault<A> {
        ProgramFault::Spec(cause)
    }
}

impl<A: Allocator + Copy> From<RepoFault<A>> for ProgramFault<A> {
    ghost from_gives = { λ cause fault. fault ≡ program.Fetch (Client (Repo cause)) };

    fn from(cause: RepoFault<A>) -> ProgramFault<A> {
        ProgramFault::Fetch(FetchFault::Client(ClientFault::Repo(cause)))
    }
}

impl<A: Allocator + Copy> From<PacketFault> for ProgramFault<A> {
    ghost from_gives = { λ cause fault. fault ≡ program.Line cause };

    fn from(cause: PacketFault) -> ProgramFault<A> {
        ProgramFault::Line(cause)
    }
}

impl<A: Allocator + Copy> From<NameFault> for ProgramFault<A> {
    ghost from_gives = { λ cause fault. fault ≡ program.Name cause };

    fn from(cause: NameFault) -> ProgramFault<A> {
        ProgramFault::Name(cause)
    }
}

impl<A: Allocator + Copy> From<StorageFault> for ProgramFault<A> {
    ghost use Rattle.gcmd.specs.Stored.{storage_fault};

    ghost from_gives = { λ cause fault. fault ≡ storage_fault cause };

    fn from(cause: StorageFault) -> ProgramFault<A> {
        match cause {
            StorageFault::Memory => ProgramFault::Memory,
            StorageFault::Failed => ProgramFault::File,
        }
    }
}

impl<A: Allocator + Copy> From<FetchFault<A>> for ProgramFault<A> {
    ghost from_gives = { λ cause fault. fault ≡ program.Fetch cause };

    fn from(cause: FetchFault<A>) -> ProgramFault<A> {
        ProgramFault::Fetch(cause)
    }
}

impl<A: Allocator + Copy> From<AllocError> for ProgramFault<A> {
    ghost from_gives = { λ _ fault. fault ≡ program.Memory };

    fn from(_refused: AllocError) -> ProgramFault<A> {
        ProgramFault::Memory
    }
}

impl<A: Allocator + Copy, T: Drop> From<AllocFailed<T>> for ProgramFault<A> {
    ghost from_gives = { λ _ fault. fault ≡ program.Memory };

    fn from(_refused: AllocFailed<T>) -> ProgramFault<A> {
        ProgramFault::Memory
    }
}

//! The reasons why a call of a session fails.

ghost use Rattle.std.specs.Prelude.{◌≡◌, Some};
ghost use Rattle.gdag.specs.declared.fault.GraphFault.TheVariants.{Memory};
ghost use Rattle.gclientrepo.specs.declared.fault.RepoFault.TheVariants.{Graph};
ghost use Rattle.gsession.specs.Faults.{client_fault_row, client_fault_text};
ghost use Rattle.gsession.specs.Sessions.{ends_session};
ghost use Rattle.gsession.specs.declared.fault.ClientFault.TheVariants as client;

use gclientrepo::RepoFault;
use ggrammar::MessageFault;
use ggraph::{GraphFault, IndexFault};
use gname::Oid;
use std::alloc::{AllocError, AllocFailed, Allocator, Global};
use std::error::Error;
use std::fmt;

/// The reason why a call of a session failed.
#[derive(Debug, Drop)]
pub enum ClientFault<A: Allocator + Copy = Global> {
    /// A packet of the reply is unreadable or rejected, memory for a packet ran out, or the name of
    /// a local ref would be invalid. The number of the fault is 20 to 25, 29, 30 or 41 to 54.
    Message(MessageFault),
    /// Fault 66: the indexer rejected the pack.
    Index(IndexFault),
    /// Fault 82: there are more than `MAX_SPECS` refspecs.
    TooManySpecs,
    /// Fault 83: the session does not allow this call at its current stage, for example because no
    /// request is open. The session is unchanged.
    NoOpenRequest,
    /// Fault 84: the server acknowledged this id, which is not a have of the request.
    StrangeAck { id: Oid },
    /// Fault 86: there are more wants than the limits of the session allow.
    TooManyWants,
    /// The repository rejected the objects of a pack or the update of the local refs (faults 60 to
    /// 63, 69, 75 and 85), or memory ran out (fault 64).
    Repo(RepoFault<A>),
}

impl<A: Allocator + Copy> ClientFault<A> {
    /// Returns the number of the fault.
    pub fn code(&self) -> u32
        ensures { result ≡ (client_fault_row self.now).0 }
    {
        self.fault_row().0
    }

    /// Returns the name of the fault.
    pub fn name(&self) -> &'static str
        ensures { result.now ≡ (client_fault_row self.now).1 }
    {
        self.fault_row().1
    }

    /// Returns whether the fault ends the session. Every fault except `NoOpenRequest` ends the
    /// session.
    pub fn ends_session(&self) -> bool
        ensures { result ≡ ends_session self.now }
    {
        match self {
            ClientFault::NoOpenRequest => false,
            ClientFault::Message(_) => true,
            ClientFault::Index(_) => true,
            ClientFault::TooManySpecs => true,
            ClientFault::StrangeAck { .. } => true,
            ClientFault::TooManyWants => true,
            ClientFault::Repo(_) => true,
        }
    }

    /// Returns the number and the name of the fault.
    pub fn fault_row(&self) -> (u32, &'static str)
        ensures { (result.0, result.1.now) ≡ client_fault_row self.now }
    {
        match self {
            ClientFault::Message(fault) => (fault.code(), fault.name()),
            ClientFault::Index(fault) => fault.fault_row(),
            ClientFault::TooManySpecs => (82, "TooManySpecs"),
            ClientFault::NoOpenRequest => (83, "NoOpenRequest"),
            ClientFault::StrangeAck { .. } => (84, "StrangeAck"),
            ClientFault::TooManyWants => (86, "TooManyWants"),
            ClientFault::Repo(fault) => fault.fault_row(),
        }
    }
}

impl<A: Allocator + Copy> fmt::Display for ClientFault<A> {
    ghost output = { λ fault. Some (client_fault_text fault) };

    fn fmt<W: fmt::Write>(&self, f: &mut fmt::Formatter<W>) -> fmt::Result {
        match self {
            ClientFault::Message(fault) => fmt::Display::fmt(fault, f),
            ClientFault::Index(fault) => fmt::Display::fmt(fault, f),
            ClientFault::TooManySpecs => f.write_str("too many refspecs"),
            ClientFault::NoOpenRequest => f.write_str("no such request is open"),
            ClientFault::StrangeAck { .. } => f.write_str(
                "an id was acknowledged that was not offered",
            ),
            ClientFault::TooManyWants => f.write_str("too many wants"),
            ClientFault::Repo(fault) => fmt::Display::fmt(fault, f),
        }
    }
}

impl<A: Allocator + Copy + fmt::Debug> Error for ClientFault<A> {}

impl<A: Allocator + Copy> From<MessageFault> for ClientFault<A> {
    ghost from_gives = { λ cause fault. fault ≡ client.Message cause };

    fn from(cause: MessageFault) -> ClientFault<A> {
        ClientFault::Message(cause)
    }
}

impl<A: Allocator + Copy> From<IndexFault> for ClientFault<A> {
    ghost from_gives = { λ cause fault. fault ≡ client.Index cause };

    fn from(cause: IndexFault) -> ClientFault<A> {
        ClientFault::Index(cause)
    }
}

impl<A: Allocator + Copy> From<RepoFault<A>> for ClientFault<A> {
    ghost from_gives = { λ cause fault. fault ≡ client.Repo cause };

    fn from(cause: RepoFault<A>) -> ClientFault<A> {
        ClientFault::Repo(cause)
    }
}

impl<A: Allocator + Copy> From<GraphFault> for ClientFault<A> {
    ghost from_gives = { λ cause fault. fault ≡ client.Repo (Graph cause) };

    fn from(cause: GraphFault) -> ClientFault<A> {
        ClientFault::Repo(RepoFault::Graph(cause))
    }
}

impl<A: Allocator + Copy> From<AllocError> for ClientFault<A> {
    ghost from_gives = { λ _ fault. fault ≡ client.Repo (Graph Memory) };

    fn from(_refused: AllocError) -> ClientFault<A> {
        ClientFault::Repo(RepoFault::Graph(GraphFault::Memory))
    }
}

impl<A: Allocator + Copy, T: Drop> From<AllocFailed<T>> for ClientFault<A> {
    ghost from_gives = { λ _ fault. fault ≡ client.Repo (Graph Memory) };

    fn from(_refused: AllocFailed<T>) -> ClientFault<A> {
        ClientFault::Repo(RepoFault::Graph(GraphFault::Memory))
    }
}

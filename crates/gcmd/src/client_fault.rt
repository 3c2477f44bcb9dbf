//! The parts of a client's fault that the program prints after the number and the name.

ghost use Rattle.std.specs.Prelude.{◌≡◌};
ghost use Rattle.std.specs.Option.{option_copied};
ghost use Rattle.gcmd.specs.Faults.{frame_in_client, id_in_client, id_in_repo, line_in_client, text_in_client};
ghost use Rattle.gcmd.specs.steps.Printing.{IsShortText};

use crate::print::{id_in_graph, said_in};
use gclient::{ClientFault, RepoFault};
use ggraph::IndexFault;
use gname::Oid;
use std::alloc::Allocator;

/// Returns the position of the packet at which the client refused a message, or `None` if the fault
/// has no position.
pub(crate) fn frame_in_client<A: Allocator + Copy>(fault: &ClientFault<A>) -> Option<u64>
    ensures { result ≡ frame_in_client fault.now }
{
    match fault {
        ClientFault::Message(cause) => Some(cause.frame),
        _ => None,
    }
}

/// Returns the number of the first malformed line in a plain pack, or `None` if the fault has no
/// line number.
pub(crate) fn line_in_client<A: Allocator + Copy>(fault: &ClientFault<A>) -> Option<usize>
    ensures { result ≡ line_in_client fault.now }
{
    match fault {
        ClientFault::Index(IndexFault::Bad { line }) => Some(*line),
        _ => None,
    }
}

/// Returns the id in the fault, or `None` if the fault has no id. The id can be that of a missing
/// object, of two different objects, or of an object with another object format. It can also be an
/// acknowledged id that is not a have of the request.
pub(crate) fn id_in_client<A: Allocator + Copy>(fault: &ClientFault<A>) -> Option<Oid>
    ensures { result ≡ id_in_client fault.now }
{
    match fault {
        ClientFault::StrangeAck { id } => Some(*id),
        ClientFault::Repo(cause) => id_in_repo(cause),
        _ => None,
    }
}

fn id_in_repo<A: Allocator + Copy>(fault: &RepoFault<A>) -> Option<Oid>
    ensures { result ≡ id_in_repo fault.now }
{
    match fault {
        RepoFault::MissingParent { id } => Some(*id),
        RepoFault::UnconnectedId { missing } | RepoFault::NotConnected { missing } => Some(
            *missing,
        ),
        RepoFault::Graph(cause) => id_in_graph(cause),
        _ => None,
    }
}

/// Returns the name of the ref that is not connected, or the error text of a peer. Returns `None`
/// if the fault has neither.
pub(crate) fn text_in_client<A: Allocator + Copy>(fault: &ClientFault<A>) -> Option<&[u8]>
    ensures text { option_copied result ≡ text_in_client fault.now }
    ensures short { IsShortText (option_copied result) }
{
    match fault {
        ClientFault::Message(cause) => said_in(&cause.why),
        ClientFault::Repo(RepoFault::UnconnectedRef { name }) => Some(name.as_bytes()),
        _ => None,
    }
}

//! The printed line of a fault, and its `Display` text.

use case_text::{Fact, Trouble, fault_text};
use ganswer::{BuildFault, ServeFault};
use gclient::{ClientFault, FetchFault, RepoFault, SpecFault};
use gcmd::{ProgramFault, cmd_failed};
use ggrammar::{MessageFault, PeerText, Why};
use ggraph::{GraphFault, IndexFault, LoadFault, PackFault, RefsFault};
use gname::{Format, Oid, RefName};
use gpkt::memory::VecSink;
use gpkt::{BandFault, PacketFault};
use std::alloc::Global;

/// The hexadecimal digits of the SHA-1 id in the tested faults.
const ID: &[u8] = b"00112233445566778899aabbccddeeff00112233";

/// The hexadecimal digits of the SHA-256 id in the tested faults.
const LONG_ID: &[u8] = b"00112233445566778899aabbccddeeff00112233445566778899aabbccddeeff";

/// The ref name in the tested faults.
const REF_NAME: &[u8] = b"refs/heads/a\x80";

// The expected printed line of a fault, without its prefix `gitv2: fault`, and the expected
// `Display` text of the fault.
#[derive(Clone, Copy)]
struct ExpectedPrint<'a> {
    line: &'a [u8],
    text: &'a [u8],
}

/// Returns the expected line if a tested fault prints this line and has the expected `Display`
/// text. Otherwise returns the string `"of no fault"`.
pub(crate) fn actual_result(alloc: Global, fact: &Fact<'_>) -> Result<String, Trouble> {
    let expected = ExpectedPrint {
        line: fact.expected.as_slice(),
        text: fact.text.as_slice(),
    };
    let is_printed_by_any_fault = is_printed_by_any_fault(alloc, expected)?;
    match std::str::from_utf8(expected.line) {
        Ok(line) if is_printed_by_any_fault => Ok(String::from_str(alloc, line)?),
        _ => Ok(String::from_str(alloc, "of no fault")?),
    }
}

// Returns whether a tested fault prints the expected line and has the expected `Display` text. The
// tested faults of messages report the packet at position 7.
fn is_printed_by_any_fault(alloc: Global, expected: ExpectedPrint<'_>) -> Result<bool, Trouble> {
    Ok(
        is_packet_fault(alloc, expected)?
            || is_message_fault(alloc, expected)?
            || is_peer_fault(alloc, expected)?
            || is_request_fault(alloc, expected)?
            || is_build_fault(alloc, expected)?
            || is_graph_fault(alloc, expected)?
            || is_program_fault(alloc, expected)?
            || is_session_fault(alloc, expected)?
            || is_pack_fault(alloc, expected)?
            || is_repo_fault(alloc, expected)?,
    )
}

fn is_printed_as(
    alloc: Global,
    fault: ProgramFault<Global>,
    expected: ExpectedPrint<'_>,
) -> Result<bool, Trouble> {
    let text = format!(in alloc; "{fault}")?;
    if text.as_bytes() != expected.text {
        return Ok(false);
    }
    let mut errors = VecSink::new(alloc);
    let status = cmd_failed(fault, &mut errors);
    Ok(status == 1 && fault_text(errors.written_bytes()) == Some(expected.line))
}

fn is_packet_fault(alloc: Global, expected: ExpectedPrint<'_>) -> Result<bool, Trouble> {
    for fault in [
        PacketFault::BadDigits,
        PacketFault::Reserved,
        PacketFault::TooLong,
        PacketFault::Truncated,
        PacketFault::Io,
        PacketFault::Failed,
        PacketFault::Memory,
    ] {
        if is_printed_as(alloc, ProgramFault::Line(fault), expected)? {
            return Ok(true);
        }
    }
    Ok(false)
}

fn is_message_fault(alloc: Global, expected: ExpectedPrint<'_>) -> Result<bool, Trouble> {
    for why in [
        Why::Line(PacketFault::Truncated),
        Why::Line(PacketFault::Io),
        Why::Band(BandFault::NoBand),
        Why::Band(BandFault::BadBand),
        Why::UnexpectedFrame,
        Why::BadText,
        Why::UnknownCommand,
        Why::UnknownCapability,
        Why::UnknownArgument,
        Why::BadId,
        Why::BadName,
        Why::Limit,
        Why::WrongSection,
        Why::Format,
        Why::Memory,
        Why::Ended,
    ] {
        if is_fault_with_reason(alloc, why, expected)? {
            return Ok(true);
        }
    }
    Ok(false)
}

fn is_peer_fault(alloc: Global, expected: ExpectedPrint<'_>) -> Result<bool, Trouble> {
    for why in [
        Why::RemoteErr(PeerText::new(b"no\tmore\n")),
        Why::RemoteErr(PeerText::new(b"")),
        Why::RemoteFatal(PeerText::new(b"disk")),
    ] {
        if is_fault_with_reason(alloc, why, expected)? {
            return Ok(true);
        }
    }
    Ok(false)
}

fn is_fault_with_reason(
    alloc: Global,
    why: Why,
    expected: ExpectedPrint<'_>,
) -> Result<bool, Trouble> {
    let cause = MessageFault { frame: 7, why };
    let fault = ProgramFault::Request(ServeFault::Request(cause));
    is_printed_as(alloc, fault, expected)
}

fn id_of(format: Format, text: &[u8]) -> Result<Oid, Trouble> {
    match Oid::from_hex_in(format, text) {
        Ok(id) => Ok(id),
        Err(_) => Err(Trouble::InvalidId),
    }
}

fn is_request_fault(alloc: Global, expected: ExpectedPrint<'_>) -> Result<bool, Trouble> {
    let id = id_of(Format::Sha1, ID)?;
    for fault in [
        ServeFault::NoWants,
        ServeFault::NotOurs { id },
        ServeFault::Pack(PackFault::TooLarge),
        ServeFault::Memory,
    ] {
        if is_printed_as(alloc, ProgramFault::Request(fault), expected)? {
            return Ok(true);
        }
    }
    Ok(false)
}

fn is_build_fault(alloc: Global, expected: ExpectedPrint<'_>) -> Result<bool, Trouble> {
    let id = id_of(Format::Sha1, ID)?;
    let Ok(name) = RefName::new(alloc, REF_NAME) else {
        return Ok(false);
    };
    for fault in [
        BuildFault::NotClosed { id },
        BuildFault::RefMissing { name },
        BuildFault::HeadMissing,
        BuildFault::MissingParent { id },
        BuildFault::Memory,
        BuildFault::Refs(RefsFault::Refs),
    ] {
        if is_printed_as(alloc, ProgramFault::Build(fault), expected)? {
            return Ok(true);
        }
    }
    Ok(false)
}

fn is_graph_fault(alloc: Global, expected: ExpectedPrint<'_>) -> Result<bool, Trouble> {
    let id = id_of(Format::Sha1, ID)?;
    let long_id = id_of(Format::Sha256, LONG_ID)?;
    for fault in [
        GraphFault::Conflict { id },
        GraphFault::TooMany,
        GraphFault::TooManyParents,
        GraphFault::TagShape,
        GraphFault::Memory,
        GraphFault::OtherFormat { id: long_id },
    ] {
        if is_printed_as(
            alloc,
            ProgramFault::Build(BuildFault::Graph(fault)),
            expected,
        )? {
            return Ok(true);
        }
    }
    Ok(false)
}

fn is_program_fault(alloc: Global, expected: ExpectedPrint<'_>) -> Result<bool, Trouble> {
    for fault in [
        ProgramFault::Text(LoadFault::Text { line: 6 }),
        ProgramFault::Text(LoadFault::ParentLater { line: 7 }),
        ProgramFault::Text(LoadFault::Memory),
        ProgramFault::Memory,
        ProgramFault::File,
        ProgramFault::WriteFailed,
        ProgramFault::Spec(SpecFault::BadSpec),
        ProgramFault::Spec(SpecFault::Memory),
        ProgramFault::Fetch(FetchFault::NoBuffer),
        ProgramFault::Fetch(FetchFault::WriteFailed),
    ] {
        if is_printed_as(alloc, fault, expected)? {
            return Ok(true);
        }
    }
    Ok(false)
}

fn is_session_fault(alloc: Global, expected: ExpectedPrint<'_>) -> Result<bool, Trouble> {
    let id = id_of(Format::Sha1, ID)?;
    for fault in [
        ClientFault::TooManySpecs,
        ClientFault::NoOpenRequest,
        ClientFault::StrangeAck { id },
        ClientFault::TooManyWants,
    ] {
        if is_printed_as(
            alloc,
            ProgramFault::Fetch(FetchFault::Client(fault)),
            expected,
        )? {
            return Ok(true);
        }
    }
    Ok(false)
}

fn is_pack_fault(alloc: Global, expected: ExpectedPrint<'_>) -> Result<bool, Trouble> {
    for fault in [
        IndexFault::Bad { line: 6 },
        IndexFault::Memory,
        IndexFault::Other,
    ] {
        let fault = FetchFault::Client(ClientFault::Index(fault));
        if is_printed_as(alloc, ProgramFault::Fetch(fault), expected)? {
            return Ok(true);
        }
    }
    Ok(false)
}

fn is_repo_fault(alloc: Global, expected: ExpectedPrint<'_>) -> Result<bool, Trouble> {
    let id = id_of(Format::Sha1, ID)?;
    let Ok(name) = RefName::new(alloc, REF_NAME) else {
        return Ok(false);
    };
    for fault in [
        RepoFault::MissingParent { id },
        RepoFault::UnconnectedRef { name },
        RepoFault::UnconnectedId { missing: id },
        RepoFault::NotConnected { missing: id },
        RepoFault::Refs(RefsFault::Refs),
    ] {
        let fault = FetchFault::Client(ClientFault::Repo(fault));
        if is_printed_as(alloc, ProgramFault::Fetch(fault), expected)? {
            return Ok(true);
        }
    }
    Ok(false)
}

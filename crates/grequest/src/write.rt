//! Writing a request.

ghost use Rattle.std.specs.Prelude.{◌≡◌, ◌≤◌, ◌++◌, [], ◌∷◌, codes, length, map};
ghost use Rattle.std.specs.Option.{option_copied};
ghost use Rattle.gname.specs.declared.formats.Format.{Format};
ghost use Rattle.gpkt.specs.Packets.{Delim};
ghost use Rattle.ggrammar.specs.Capabilities.{max_capability};
ghost use Rattle.ggrammar.specs.declared.limits.Limits.{Limits};
ghost use Rattle.ggrammar.specs.Texts.{text_packet};
ghost use Rattle.ggrammar.specs.Writing.{WritesPackets, WritesPart};
ghost use Rattle.grequest.specs.Flags.{flags_at};
ghost use Rattle.grequest.specs.steps.Flags.{table_in};
ghost use Rattle.grequest.specs.Asked.{Ls, Fetches};
ghost use Rattle.grequest.specs.steps.RequestWriting.{AreShort, max_word};
ghost use Rattle.grequest.specs.RequestWriting.{agent_packets, canonical_request, command_packet, flag_packets, flags_packets, format_packets, id_packet, prefix_packet};
ghost use Rattle.grequest.specs.RequestValues.{HasLimits, IsOfFormat, asked_by_request};
ghost use Rattle.grequest.specs.WellFormed.{IsAgent, IsAsked};

use crate::command::Command;
use crate::fetch::FetchRequest;
use crate::flag::{FETCH_FLAGS, FetchFlag, Flag, LS_REFS_FLAGS, MAX_FLAGS};
use crate::ls_refs::LsRefsRequest;
use crate::request::Request;
use ggrammar::laws::writes_packets;
use gname::{Format, MAX_ID_TEXT, Oid, Prefix};
use gpkt::{PacketWriter, Sink, WriteFault};
use std::alloc::Allocator;

/// Writes a request as its canonical list of packets (gitprotocol-v2(5), "Command Request").
/// `format` is the format of the repository's objects. A fetch request must be for ids of this
/// format.
///
/// Allocates nothing. If the sink fails, the call fails with `Io` after it wrote a prefix of the
/// request. Fails with `Failed` if the writer failed before the call. Every request meets the
/// conditions of [`reads_back`](crate::laws::reads_back), so reading a written request returns the
/// same request.
pub fn write_request<A: Allocator + Copy, W: Sink>(
    request: &Request<A>,
    format: Format,
    writer: &mut PacketWriter<W>,
) -> Result<(), WriteFault>
    requires { IsOfFormat format request.now }
    ensures lines { WritesPackets W.contents W.passed_on W.is_down W.loans writer.old writer.new
        result (canonical_request format (asked_by_request request.now)) }
    ensures form { (limits : Limits) → HasLimits limits request.now
        → IsAsked limits format (asked_by_request request.now) }
{
    // Laws that the proof uses.
    writes_packets::<W>();
    request.laws();
    match request {
        Request::Empty => writer.flush_pkt(),
        Request::Ls(ls) => write_ls_refs(ls, format, writer),
        Request::Fetch(fetch) => write_fetch(fetch, format, writer),
    }
}

fn write_ls_refs<A: Allocator + Copy, W: Sink>(
    request: &LsRefsRequest<A>,
    format: Format,
    writer: &mut PacketWriter<W>,
) -> Result<(), WriteFault>
    ensures { WritesPackets W.contents W.passed_on W.is_down W.loans writer.old writer.new result
        (canonical_request format (Ls request.now.asked)) }
{
    // Laws that the proof uses.
    writes_packets::<W>();
    write_head(Command::LsRefs, request.agent(), format, writer)?;
    write_flags(LS_REFS_FLAGS, request.flags(), writer)?;
    write_prefixes(request.prefixes(), writer)?;
    writer.flush_pkt()
}

fn write_fetch<A: Allocator + Copy, W: Sink>(
    request: &FetchRequest<A>,
    format: Format,
    writer: &mut PacketWriter<W>,
) -> Result<(), WriteFault>
    ensures { WritesPackets W.contents W.passed_on W.is_down W.loans writer.old writer.new result
        (canonical_request format (Fetches request.now.asked)) }
{
    // Laws that the proof uses.
    writes_packets::<W>();
    write_head(Command::Fetch, request.agent(), format, writer)?;
    write_flags(FETCH_FLAGS, &request.early_flags(), writer)?;
    write_ids(b"want ", request.wants(), writer)?;
    write_ids(b"have ", request.haves(), writer)?;
    write_flag(b"done", request.has(FetchFlag::Done), writer)?;
    writer.flush_pkt()
}

// Writes the packets of a request that come before its arguments.
fn write_head<W: Sink>(
    command: Command,
    agent: Option<&[u8]>,
    format: Format,
    writer: &mut PacketWriter<W>,
) -> Result<(), WriteFault>
    requires { IsAgent (option_copied agent) }
    ensures { WritesPackets W.contents W.passed_on W.is_down W.loans writer.old writer.new result
        (command_packet command
        ∷ (agent_packets (option_copied agent.entry) ++ format_packets format ++ Delim ∷ [])) }
{
    // Laws that the proof uses.
    writes_packets::<W>();
    write_text(b"command=", command.name().as_bytes(), writer)?;
    write_agent(agent, writer)?;
    write_format(format, writer)?;
    writer.delim()
}

fn write_agent<W: Sink>(
    agent: Option<&[u8]>,
    writer: &mut PacketWriter<W>,
) -> Result<(), WriteFault>
    requires { IsAgent (option_copied agent) }
    ensures { WritesPart W.contents W.passed_on W.is_down W.loans writer.old writer.new result
        (agent_packets (option_copied agent.entry)) }
{
    // Laws that the proof uses.
    writes_packets::<W>();
    match agent {
        Some(agent) => write_text(b"agent=", agent, writer),
        None => Ok(()),
    }
}

fn write_format<W: Sink>(format: Format, writer: &mut PacketWriter<W>) -> Result<(), WriteFault>
    ensures { WritesPart W.contents W.passed_on W.is_down W.loans writer.old writer.new result
        (format_packets format) }
{
    // Laws that the proof uses.
    writes_packets::<W>();
    match format {
        Format::Sha1 => Ok(()),
        Format::Sha256 => write_text(b"object-format=", format.name().as_bytes(), writer),
    }
}

// Writes a packet for each flag that is set, in the order of the table.
fn write_flags<F: Flag, W: Sink>(
    table: &[(F, &str)],
    flags: &[bool; MAX_FLAGS],
    writer: &mut PacketWriter<W>,
) -> Result<(), WriteFault>
    requires { AreShort table.now }
    ensures { WritesPart W.contents W.passed_on W.is_down W.loans writer.old writer.new result
        (flags_packets (table_in table.now) (flags_at F.number (table_in table.now) flags.now)) }
{
    // Laws that the proof uses.
    writes_packets::<W>();
    for (flag, word) in table {
        write_flag(word.as_bytes(), flags[flag.number()], writer)?;
    }
    Ok(())
}

fn write_flag<W: Sink>(
    word: &[u8],
    is_set: bool,
    writer: &mut PacketWriter<W>,
) -> Result<(), WriteFault>
    requires { length word.now ≤ max_capability }
    ensures { WritesPart W.contents W.passed_on W.is_down W.loans writer.old writer.new result
        (flag_packets word.now is_set) }
{
    // Laws that the proof uses.
    writes_packets::<W>();
    if is_set {
        write_text(b"", word, writer)
    } else {
        Ok(())
    }
}

fn write_prefixes<A: Allocator + Copy, W: Sink>(
    prefixes: &[Prefix<A>],
    writer: &mut PacketWriter<W>,
) -> Result<(), WriteFault>
    ensures { WritesPart W.contents W.passed_on W.is_down W.loans writer.old writer.new result
        (map prefix_packet prefixes.now) }
{
    // Laws that the proof uses.
    writes_packets::<W>();
    for prefix in prefixes {
        write_text(b"ref-prefix ", prefix.as_bytes(), writer)?;
    }
    Ok(())
}

// Writes one packet for each id: a word followed by the id.
fn write_ids<W: Sink>(
    word: &[u8],
    ids: &[Oid],
    writer: &mut PacketWriter<W>,
) -> Result<(), WriteFault>
    requires { length word.now ≤ max_word }
    ensures { WritesPart W.contents W.passed_on W.is_down W.loans writer.old writer.new result
        (map (id_packet word.now) ids.now) }
{
    // Laws that the proof uses.
    writes_packets::<W>();
    for id in ids {
        write_id(word, id, writer)?;
    }
    Ok(())
}

fn write_id<W: Sink>(word: &[u8], id: &Oid, writer: &mut PacketWriter<W>) -> Result<(), WriteFault>
    requires { length word.now ≤ max_word }
    ensures { WritesPackets W.contents W.passed_on W.is_down W.loans writer.old writer.new result
        (id_packet word.now id.now ∷ []) }
{
    let mut text = [0u8; MAX_ID_TEXT];
    let len = id.to_hex(&mut text);
    write_text(word, &text[..len], writer)
}

// Writes a packet with a word followed by a text.
fn write_text<W: Sink>(
    word: &[u8],
    rest: &[u8],
    writer: &mut PacketWriter<W>,
) -> Result<(), WriteFault>
    requires word { length word.now ≤ max_word }
    requires rest { length rest.now ≤ max_capability }
    ensures { WritesPackets W.contents W.passed_on W.is_down W.loans writer.old writer.new result
        (text_packet (word.now ++ rest.now) ∷ []) }
{
    // Laws that the proof uses.
    writes_packets::<W>();
    writer.text2(word, rest)
}

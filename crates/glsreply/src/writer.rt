//! Writing an ls-refs reply, whole or line by line.

ghost use Rattle.std.specs.Prelude.{◌≡◌, ◌≢◌, ◌≤◌, ◌++◌, [], ◌∷◌, length, map, IfSome};
ghost use Rattle.std.specs.Option.{option_copied};
ghost use Rattle.gname.specs.Names.{IsRefName};
ghost use Rattle.gname.specs.declared.formats.Format.{Format};
ghost use Rattle.gpkt.specs.Packets.{Flush};
ghost use Rattle.ggrammar.specs.Endings.{ends_with};
ghost use Rattle.ggrammar.specs.Writing.{WritesPackets, WritesPart};
ghost use Rattle.glsreply.specs.LentViews.{lent_view};
ghost use Rattle.glsreply.specs.LsReplies.{canonical_reply, ref_packet, unborn_packets};
ghost use Rattle.glsreply.specs.RefTexts.{ref_text};
ghost use Rattle.glsreply.specs.TextLengths.{max_ref_text};
ghost use Rattle.glsreply.specs.WellFormed.{BeginsIn, HasIdsOf, IsLsReplyIn, IsRefLine};

use crate::lent::{LentLine, RefText};
use crate::reply::{LsReply, RefLine};
use ggrammar::Ends;
use ggrammar::laws::writes_packets;
use gname::RefName;
use gname::laws::ids_have_one_format;
use gpkt::{PacketWriter, Sink, WriteFault};
use std::alloc::Allocator;

/// Writes a reply: the line of an unborn `HEAD` if there is one, each ref, a flush, and a
/// response-end if `ends` requires one (gitprotocol-v2(5), "ls-refs"). Allocates nothing.
///
/// Fails with `Io` if the sink fails; a prefix of the reply may then have been written. Fails with
/// `Failed` if the writer had failed before. Never fails with `Payload`, since no payload is too
/// long. A reader for the format of the ids returns the same reply
/// ([`reads_back`](crate::laws::reads_back)).
pub fn write_ls_reply<A: Allocator + Copy, W: Sink>(
    reply: &LsReply<A>,
    ends: Ends,
    writer: &mut PacketWriter<W>,
) -> Result<(), WriteFault>
    ensures lines { WritesPackets W.contents W.passed_on W.is_down W.loans writer.old writer.new
        result (canonical_reply ends reply.now) }
    ensures form { (format : Format) → BeginsIn format reply.now.lines
        → IsLsReplyIn format reply.now }
{
    // Laws that the proof uses.
    writes_packets::<W>();
    ids_have_one_format();
    let lines = reply.lines();
    write_unborn(reply.unborn(), writer)?;
    write_refs(lines, ends, writer)
}

/// Writes the line of an unborn `HEAD` with this target, or nothing if `target` is `None`.
/// Allocates nothing.
///
/// A caller that writes a reply line by line calls `write_unborn`, then [`write_ref`] for each ref,
/// then [`write_end`]. The calls write the same bytes as [`write_ls_reply`], and fail for the same
/// reasons.
pub fn write_unborn<A: Allocator + Copy, W: Sink>(
    target: Option<&RefName<A>>,
    writer: &mut PacketWriter<W>,
) -> Result<(), WriteFault>
    ensures lines { WritesPart W.contents W.passed_on W.is_down W.loans writer.old writer.new
        result (unborn_packets (option_copied target.entry)) }
    ensures form { IfSome (option_copied target.entry) IsRefName }
{
    // Laws that the proof uses.
    writes_packets::<W>();
    match target {
        None => Ok(()),
        Some(name) => writer.text2(b"unborn HEAD symref-target:", name.as_bytes()),
    }
}

// Writes the lines of the refs and the end of the reply.
fn write_refs<A: Allocator + Copy, W: Sink>(
    lines: &[RefLine<A>],
    ends: Ends,
    writer: &mut PacketWriter<W>,
) -> Result<(), WriteFault>
    ensures { WritesPackets W.contents W.passed_on W.is_down W.loans writer.old writer.new result
        (map ref_packet lines.now ++ Flush ∷ ends_with ends) }
{
    // Laws that the proof uses.
    writes_packets::<W>();
    let mut text = RefText::new();
    for line in lines {
        write_ref(&line.lend(), &mut text, writer)?;
    }
    write_end(ends, writer)
}

/// Writes the line of a ref. The function uses `text` as a buffer and overwrites it. Allocates
/// nothing, and fails for the same reasons as [`write_ls_reply`].
///
/// The line is valid in a reply whose ids have the same format as both ids of the line. The caller
/// must ensure that all ids of a reply have the same format, because a reader refuses an id of
/// another format.
pub fn write_ref<A: Allocator + Copy, W: Sink>(
    line: &LentLine<'_, A>,
    text: &mut RefText,
    writer: &mut PacketWriter<W>,
) -> Result<(), WriteFault>
    ensures lines { WritesPackets W.contents W.passed_on W.is_down W.loans writer.old writer.new
        result (ref_packet (lent_view line.now) ∷ []) }
    ensures text { text.new ≡ ref_text (lent_view line.now) }
    ensures form { (format : Format) → HasIdsOf format (lent_view line.now)
        → IsRefLine format (lent_view line.now) }
{
    // Laws that the proof uses.
    writes_packets::<W>();
    line.laws();
    text.set(line);
    writer.text(text.as_bytes())
}

/// Writes the end of a reply: a flush, and a response-end if `ends` requires one. Allocates
/// nothing, and fails for the same reasons as [`write_ls_reply`].
pub fn write_end<W: Sink>(ends: Ends, writer: &mut PacketWriter<W>) -> Result<(), WriteFault>
    ensures { WritesPackets W.contents W.passed_on W.is_down W.loans writer.old writer.new result
        (Flush ∷ ends_with ends) }
{
    // Laws that the proof uses.
    writes_packets::<W>();
    match ends {
        Ends::Plain => writer.flush_pkt(),
        Ends::Response => {
            writer.flush_pkt()?;
            writer.response_end()
        }
    }
}

//! Writing a reply without a connection, for example to store it and send it later.

ghost use Rattle.ganswer.specs.Answers.{reply_of};
ghost use Rattle.gserve.specs.Replies.{WritesReply};

use ganswer::Reply;
use gfetchreply::write_fetch_reply;
use ggrammar::Ends;
use glsreply::write_ls_reply;
use gpkt::{PacketWriter, Sink, WriteFault};
use std::alloc::Allocator;

/// Writes a reply as its canonical list of packets, without flushing the writer. Allocates nothing.
/// The reply to a lone flush packet has no packets.
///
/// Fails with `Io` if the sink fails, after writing a prefix of the reply. Fails with `Failed` if
/// the writer failed before the call. Never fails with `Payload`, since no payload is too long.
pub fn write_reply<W: Sink, A: Allocator + Copy>(
    reply: &Reply<A>,
    ends: Ends,
    writer: &mut PacketWriter<W>,
) -> Result<(), WriteFault>
    ensures { WritesReply W.contents W.passed_on W.is_down W.loans ends (reply_of reply.now)
        writer.old writer.new result }
{
    match reply {
        Reply::Nothing => Ok(()),
        Reply::Ls(reply) => write_ls_reply(reply, ends, writer),
        Reply::Fetch(reply) => write_fetch_reply(reply, ends, writer),
    }
}

//! The lines of the requested refs (gitprotocol-v2(5), "ls-refs"). The names of refs are borrowed
//! from the server, not copied.

ghost use Rattle.std.specs.Prelude.{◌≡◌, ◌≤◌, ◌+◌, ◌++◌, length, map};
ghost use Rattle.std.specs.Option.{option_copied};
ghost use Rattle.gpkt.specs.Packets.{canonical_all, max_packet};
ghost use Rattle.gtalk.specs.Talks.{queue_room};
ghost use Rattle.glsreply.specs.LsReplies.{ref_packet, unborn_packets};
ghost use Rattle.ganswer.specs.LsAnswers.{head_id, head_ref, unborn_of};
ghost use Rattle.ganswer.specs.steps.Answers.{line_list};
ghost use Rattle.gserver.specs.steps.RefLines.{SaysLines, SaysRefAt};

use ganswer::Server;
use glsreply::{LentLine, RefText};
use grequest::LsRefsRequest;
use gtalk::Outgoing;
use std::alloc::Allocator;

/// Queues the line with the target of an unborn HEAD, if the reply must contain this line.
pub(crate) fn say_unborn<A: Allocator + Copy, B: Allocator + Copy>(
    server: &Server<A>,
    asked: &LsRefsRequest<A>,
    out: &mut Outgoing<B>,
)
    requires { length out.old + max_packet ≤ queue_room }
    ensures { out.new ≡ out.old
        ++ canonical_all (unborn_packets (unborn_of server.now asked.now.asked)) }
{
    match server.unborn(asked) {
        Some(target) => {
            // Laws that the proof uses.
            target.laws();
            out.put_text(b"unborn HEAD symref-target:", target.as_bytes());
        }
        None => {}
    }
}

/// Queues the line of HEAD, if HEAD has an id and the request includes HEAD. The function uses
/// `text` as a buffer.
pub(crate) fn say_head<A: Allocator + Copy, B: Allocator + Copy>(
    server: &Server<A>,
    asked: &LsRefsRequest<A>,
    text: &mut RefText,
    out: &mut Outgoing<B>,
)
    requires { length out.old + max_packet ≤ queue_room }
    ensures { SaysLines server.now asked.now.asked
        (head_ref (head_id server.now.head server.now.refs)) out.old out.new }
{
    match server.head_id() {
        Some(id) => {
            let line = server.line(asked, server.name_of_head(), id, None);
            say_line(line.as_ref(), text, out);
        }
        None => {}
    }
}

/// Queues the line of the ref at this position, if the request includes this ref. Returns whether
/// the server has a ref at this position. The function uses `text` as a buffer.
pub(crate) fn say_ref<A: Allocator + Copy, B: Allocator + Copy>(
    server: &Server<A>,
    asked: &LsRefsRequest<A>,
    at: usize,
    text: &mut RefText,
    out: &mut Outgoing<B>,
) -> bool
    requires { length out.old + max_packet ≤ queue_room }
    ensures { SaysRefAt server.now asked.now.asked at out.old out.new result }
{
    match server.refs().as_slice().get(at) {
        Some(found) => {
            let peeled = server.peeled_at(at);
            let line = server.line(asked, &found.0, found.1, peeled);
            say_line(line.as_ref(), text, out);
            true
        }
        None => false,
    }
}

// Queues the line, or nothing if `line` is `None`. The function uses `text` as a buffer.
fn say_line<A: Allocator + Copy, B: Allocator + Copy>(
    line: Option<&LentLine<'_, A>>,
    text: &mut RefText,
    out: &mut Outgoing<B>,
)
    requires { length out.old + max_packet ≤ queue_room }
    ensures { out.new ≡ out.old ++ canonical_all (map ref_packet (line_list (option_copied line.entry))) }
{
    if let Some(line) = line {
        text.set(line);
        out.put_text(text.as_bytes(), b"");
    }
}

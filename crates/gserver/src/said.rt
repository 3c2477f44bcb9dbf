//! The reply to a fetch request, sent packet by packet.

ghost use Rattle.std.specs.Prelude.{◌≡◌, ◌≤◌, ◌+◌, Bool, length};
ghost use Rattle.gpkt.specs.Packets.{max_packet};
ghost use Rattle.gtalk.specs.Talks.{queue_room};
ghost use Rattle.gobject.specs.Faults.{pack_fault_text};
ghost use Rattle.ggrammar.specs.declared.ends.Ends.{Ends};
ghost use Rattle.gserver.specs.steps.Stepping.{FollowsHeading, StepsFrom, end_of, max_words};

use crate::error_text::ErrText;
use crate::filling::{Piece, say_piece};
use gfetchreply::Acks;
use ggrammar::Ends;
use gname::MAX_ID_TEXT;
use gobject::PackFault;
use gparts::PartPacker;
use gtalk::Outgoing;
use std::alloc::Allocator;

/// The next packet of a reply, and the data for all later packets.
#[derive(Drop)]
pub(crate) enum Rest<A: Allocator + Copy, R, P> {
    /// No packet is left to send.
    Nothing,
    /// An error packet.
    Refusal(ErrText),
    /// The heading of the acknowledgments.
    AckHeading(Acks<A>, Option<(R, P)>),
    /// The acknowledgment of the id at this position, or the packet after the last acknowledgment.
    Ack(Acks<A>, usize, Option<(R, P)>),
    /// The packet `NAK`.
    Nak,
    /// The delimiter packet before the section of the pack.
    Delim(R, P),
    /// The heading of the pack.
    PackHeading(R, P),
    /// The next piece of a pack, or the end of the pack.
    Pack(R, P),
    /// The flush packet at the end of the reply.
    Flush,
    /// The response-end packet after the flush packet.
    ResponseEnd,
}

/// The result of one step of a reply.
#[derive(Drop)]
pub(crate) enum Stepped<A: Allocator + Copy, R, P> {
    /// More packets of the reply follow.
    More(Rest<A, R, P>),
    /// The reply is complete, and the dialogue continues.
    Whole,
    /// The reply is complete, and the dialogue has ended.
    Last,
}

/// Queues the next packet of the reply, or no packet.
pub(crate) fn step<A: Allocator + Copy, B: Allocator + Copy, R: PartPacker<A> + Drop>(
    rest: Rest<A, R, R::Parts>,
    ends: Ends,
    goes_on: bool,
    out: &mut Outgoing<B>,
) -> Stepped<A, R, R::Parts>
    requires { length out.old + max_packet ≤ queue_room }
    ensures { StepsFrom R.gives R.most ends goes_on rest out.old out.new result }
{
    match rest {
        Rest::Nothing => Stepped::Last,
        Rest::Refusal(text) => {
            out.put_text(b"ERR ", text.as_bytes());
            Stepped::Last
        }
        Rest::AckHeading(acks, pack) => {
            out.put_text(b"acknowledgments", b"");
            Stepped::More(after_heading(acks, pack))
        }
        Rest::Ack(acks, at, pack) => say_ack::<A, B, R>(acks, at, pack, out),
        Rest::Nak => {
            out.put_text(b"NAK", b"");
            Stepped::More(Rest::Flush)
        }
        Rest::Delim(packer, parts) => {
            out.put_delim();
            Stepped::More(Rest::PackHeading(packer, parts))
        }
        Rest::PackHeading(packer, parts) => {
            out.put_text(b"packfile", b"");
            Stepped::More(Rest::Pack(packer, parts))
        }
        Rest::Pack(packer, parts) => say_pack::<A, B, R>(packer, parts, out),
        Rest::Flush => say_flush::<A, B, R>(ends, goes_on, out),
        Rest::ResponseEnd => {
            out.put_response_end();
            end_of(goes_on)
        }
    }
}

// Returns the rest of the reply after the heading of the acknowledgments.
fn after_heading<A: Allocator + Copy, R: Drop, P: Drop>(
    acks: Acks<A>,
    pack: Option<(R, P)>,
) -> Rest<A, R, P>
    ensures { FollowsHeading acks.ids pack result }
{
    if pack.is_none() && acks.ids().is_empty() {
        Rest::Nak
    } else {
        Rest::Ack(acks, 0, pack)
    }
}

// Queues the acknowledgment of the id at this position. After the last id, queues `ready` if a pack
// follows.
fn say_ack<A: Allocator + Copy, B: Allocator + Copy, R: PartPacker<A> + Drop>(
    acks: Acks<A>,
    at: usize,
    pack: Option<(R, R::Parts)>,
    out: &mut Outgoing<B>,
) -> Stepped<A, R, R::Parts>
    requires { length out.old + max_packet ≤ queue_room }
    ensures { (ends : Ends) (goes_on : Bool)
        → StepsFrom R.gives R.most ends goes_on (Rest.Ack acks at pack) out.old out.new result }
{
    if let Some(id) = acks.ids().get(at) {
        let mut digits = [0; MAX_ID_TEXT];
        let count = id.to_hex(&mut digits);
        out.put_text(b"ACK ", &digits[..count]);
        return Stepped::More(Rest::Ack(acks, at + 1, pack));
    }
    match pack {
        Some((packer, parts)) => {
            out.put_text(b"ready", b"");
            Stepped::More(Rest::Delim(packer, parts))
        }
        None => Stepped::More(Rest::Flush),
    }
}

// Queues the next piece of a pack. If the packer fails, the last packet reports the fault.
fn say_pack<A: Allocator + Copy, B: Allocator + Copy, R: PartPacker<A> + Drop>(
    packer: R,
    mut parts: R::Parts,
    out: &mut Outgoing<B>,
) -> Stepped<A, R, R::Parts>
    requires { length out.old + max_packet ≤ queue_room }
    ensures { (ends : Ends) (goes_on : Bool)
        → StepsFrom R.gives R.most ends goes_on (Rest.Pack packer parts) out.old out.new result }
{
    match say_piece::<A, B, R>(&packer, &mut parts, out) {
        Piece::More => Stepped::More(Rest::Pack(packer, parts)),
        Piece::Whole => Stepped::More(Rest::Flush),
        Piece::Failed(fault) => {
            out.put(&[3], words_of(fault).as_bytes());
            Stepped::Last
        }
    }
}

// Queues the flush packet that ends a reply.
fn say_flush<A: Allocator + Copy, B: Allocator + Copy, R: PartPacker<A> + Drop>(
    ends: Ends,
    goes_on: bool,
    out: &mut Outgoing<B>,
) -> Stepped<A, R, R::Parts>
    requires { length out.old + max_packet ≤ queue_room }
    ensures { StepsFrom R.gives R.most ends goes_on Rest.Flush out.old out.new result }
{
    out.put_flush();
    match ends {
        Ends::Plain => end_of(goes_on),
        Ends::Response => Stepped::More(Rest::ResponseEnd),
    }
}

// Returns the result of the step that queues the last packet of a reply, given whether the dialogue
// then continues.
fn end_of<A: Allocator + Copy, R, P>(goes_on: bool) -> Stepped<A, R, P>
    ensures { result ≡ end_of goes_on }
{
    if goes_on {
        Stepped::Whole
    } else {
        Stepped::Last
    }
}

// Returns the text that reports a packer's fault to the client.
fn words_of(fault: PackFault) -> &'static str
    ensures words { result.now ≡ pack_fault_text fault }
    ensures few { length result.now ≤ max_words }
{
    match fault {
        PackFault::Memory => "out of memory",
        PackFault::TooLarge => "the pack is too large",
        PackFault::Other => "the packer failed",
    }
}

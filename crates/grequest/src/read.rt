//! Reading a request.

ghost use Rattle.std.specs.Prelude.{◌≡◌, ◌<◌, ◌↔◌, [], IsTrue, IfOk, IfErr, IfSome};
ghost use Rattle.gname.specs.declared.formats.Format.TheVariants.{Sha1};
ghost use Rattle.gpkt.specs.Change.{change_of};
ghost use Rattle.ggrammar.specs.Kinds.{ReadsIfAny};
ghost use Rattle.ggrammar.specs.Limits.{profile};
ghost use Rattle.ggrammar.specs.MessageReading.{LeavesReader};
ghost use Rattle.grequest.specs.Requests.{Says, brings, judge};
ghost use Rattle.grequest.specs.RequestValues.{HasLimits, IsOfFormat, asked_result};

use crate::laws::manual;
use crate::reading::RequestReader;
use crate::request::Request;
use ggrammar::{Limits, MessageFault, Why, read_message};
use gname::Format;
use gpkt::{PacketReader, Source};
use std::alloc::Allocator;

/// Reads a request to a SHA-1 repository as [`read_request_within`] does, with the default limits.
pub fn read_request<S: Source, A: Allocator + Copy, B: Allocator + Copy>(
    reader: &mut PacketReader<S, A>,
    alloc: B,
) -> Result<Option<Request<B>>, MessageFault>
    ensures read { ReadsIfAny (judge profile Sha1) brings (Says profile Sha1)
        (change_of S.remaining reader.old.source reader.new.source) (asked_result result) }
    ensures format { IfOk result (λ read. IfSome read (IsOfFormat Sha1)) }
    ensures limits { IfOk result (λ read. IfSome read (HasLimits profile)) }
    ensures loans { S.loans reader.new.source ≡ S.loans reader.old.source }
    ensures reader { LeavesReader S.is_down reader.old reader.new result }
    ensures not_ended { IfErr result (λ fault. fault.why ≡ Why.Ended → 0 < fault.frame) }
{
    read_request_in(reader, Format::Sha1, alloc)
}

/// Reads a request as [`read_request_within`] does, with the default limits.
pub fn read_request_in<S: Source, A: Allocator + Copy, B: Allocator + Copy>(
    reader: &mut PacketReader<S, A>,
    format: Format,
    alloc: B,
) -> Result<Option<Request<B>>, MessageFault>
    ensures read { ReadsIfAny (judge profile format) brings (Says profile format)
        (change_of S.remaining reader.old.source reader.new.source) (asked_result result) }
    ensures format { IfOk result (λ read. IfSome read (IsOfFormat format)) }
    ensures limits { IfOk result (λ read. IfSome read (HasLimits profile)) }
    ensures loans { S.loans reader.new.source ≡ S.loans reader.old.source }
    ensures reader { LeavesReader S.is_down reader.old reader.new result }
    ensures not_ended { IfErr result (λ fault. fault.why ≡ Why.Ended → 0 < fault.frame) }
{
    read_request_within(reader, format, alloc, Limits::default())
}

/// Reads a request to its end, and nothing after it (gitprotocol-v2(5), "Command Request").
/// `format` is the format of the repository's objects. The returned request has the limits
/// `limits`. A limit above 2^30 counts as 2^30. Returns `None` if the input ends before the first
/// packet. If the call returns a request, the reader has not failed and can read the next request.
///
/// A fault contains the reason, and the position of the first packet that does not fit, counted
/// from zero. A fault of the packet reader ([`Why::Line`]) takes precedence. The end of the input
/// after the first packet ([`Why::Ended`]) comes second, and a fault of the grammar third. The
/// fault [`Why::Memory`] is reported only at a packet with an agent, a prefix, a want or a have.
/// All packets that were read, even a rejected packet, are consumed from the source. After a fault,
/// the packet reader has failed exactly if the fault is [`Why::Line`]. If the reader had failed
/// before the call, the call fails at once, and the fault reports packet position 0.
pub fn read_request_within<S: Source, A: Allocator + Copy, B: Allocator + Copy>(
    reader: &mut PacketReader<S, A>,
    format: Format,
    alloc: B,
    limits: Limits,
) -> Result<Option<Request<B>>, MessageFault>
    ensures read { ReadsIfAny (judge limits format) brings (Says limits format)
        (change_of S.remaining reader.old.source reader.new.source) (asked_result result) }
    ensures format { IfOk result (λ read. IfSome read (IsOfFormat format)) }
    ensures limits { IfOk result (λ read. IfSome read (HasLimits limits)) }
    ensures loans { S.loans reader.new.source ≡ S.loans reader.old.source }
    ensures reader { LeavesReader S.is_down reader.old reader.new result }
    ensures not_ended { IfErr result (λ fault. fault.why ≡ Why.Ended → 0 < fault.frame) }
{
    // Laws that the proof uses.
    manual();
    let mut reading = RequestReader::within(alloc, format, limits);
    match read_message(reader, &mut reading) {
        Ok(()) => {
            // The contract of `read_message` does not state that the limits are unchanged.
            let mut request = reading.finish();
            request.set_limits(limits);
            Ok(Some(request))
        }
        Err(fault) if is_missing(&fault) => Ok(None),
        Err(fault) => Err(fault),
    }
}

// Returns whether the fault is the end of the input before the first packet.
fn is_missing(fault: &MessageFault) -> bool
    ensures { IsTrue result ↔ ((fault.now.frame ≡ 0) × (fault.now.why ≡ Why.Ended)) }
{
    fault.frame == 0 && matches!(fault.why, Why::Ended)
}

//! Running a connection over a blocking source and a blocking sink.

ghost use Rattle.std.specs.Prelude.{◌≡◌, ◌≢◌, ◌<◌, ◌≤◌, [], Err, None, false, IfErr, IfOk, IsOkUnless, IsSome, IsTrue, OnErr, OnOk, length};
ghost use Rattle.std.specs.Io.KnownBytes.{Keeps};
ghost use Rattle.gpkt.specs.Change.{change_of};
ghost use Rattle.gpkt.specs.Devices.{KeepsPassed, PassesAll};
ghost use Rattle.gtalk.specs.Connections.{BreaksOff, Drives, FailsBy, HasDriven, HasRoom, HearsRead, IsDone, IsHeld, IsDownBy, LeavesSink, conversation_of, has_stopped, partial_of, pending_of};
ghost use Rattle.gtalk.specs.Partial.{Lacks, LeavesSource, ReadsFew};
ghost use Rattle.gtalk.specs.Talks.{AnyTalk, IsNearer};
ghost use Rattle.gtalk.specs.steps.Driving.{IsFewer, IsLater, SaysTurn, SendsPending, reading_left};

use crate::connection::Connection;
use crate::conversation::{Conversation, Turn};
use crate::fault::TalkFault;
use gpkt::{Down, Sink, Source};
use std::alloc::Allocator;

// The maximum number of bytes of one read.
const PIECE: usize = 4_096;

// The maximum number of bytes of a read into a short buffer, which is quicker to clear.
const SHORT: usize = 64;

/// Runs a conversation to its end. Queued packets are flushed before the next read, and the
/// connection receives all bytes that were read. A run that sends nothing still flushes the sink.
///
/// Fails if the sink fails, or if there is no memory for the packets to send. If the source ends or
/// fails, the conversation is notified, and the call does not fail.
pub fn drive<C: Conversation, A: Allocator + Copy, S: Source, W: Sink>(
    connection: &mut Connection<C, A>,
    source: &mut S,
    sink: &mut W,
) -> Result<(), TalkFault>
    requires held { IsHeld C.holds connection.old }
    requires all_sent { pending_of connection.old ≡ [] }
    ensures drives { Drives C.turn C.holds AnyTalk connection.old connection.new
        (change_of S.remaining source.old source.new) (change_of W.contents sink.old sink.new) }
    ensures done { OnOk result (IsDone C.turn connection.new) }
    ensures all_sent { OnOk result (pending_of connection.new ≡ []) }
    ensures passed_on { OnOk result (IsSome (W.contents sink.old)
        → PassesAll (W.contents sink.new) (change_of W.passed_on sink.old sink.new)) }
    ensures broken { OnErr result (BreaksOff C.turn C.holds connection.old connection.new
        (change_of S.remaining source.old source.new) (change_of W.contents sink.old sink.new)
        (change_of W.passed_on sink.old sink.new)) }
    ensures sink { LeavesSink result (W.is_down sink.old) (W.is_down sink.new) }
    ensures source { LeavesSource (has_stopped connection.old) (S.remaining source.old)
        (S.is_down source.old)
        → LeavesSource (has_stopped connection.new) (S.remaining source.new)
        (S.is_down source.new) }
    ensures reads { C.turn (conversation_of connection.old) ≡ Turn.Listens
        → has_stopped connection.old ≡ None
        → LeavesSource (has_stopped connection.new) (S.remaining source.new)
        (S.is_down source.new) }
    ensures memory { HasRoom connection.old → result ≢ Err TalkFault.Memory }
    ensures source_loans { S.loans source.new ≡ S.loans source.old }
    ensures sink_loans { W.loans sink.new ≡ W.loans sink.old }
{
    match converse(connection, source, sink) {
        Ok(true) => Ok(()),
        Ok(false) => pass_on(sink),
        Err(fault) => Err(fault),
    }
}

/// Runs a conversation to its end like [`drive`], but calls the sink only in turns that queue
/// packets. Returns whether it sent bytes.
///
/// A turn that queues no packet is not flushed. If no turn queues a packet, the sink is unchanged.
///
/// Fails with `Io` if the sink fails in a turn that queues packets. All packets of earlier turns
/// are then flushed. Fails with `Memory` if there is not enough memory for the send queue.
pub fn converse<C: Conversation, A: Allocator + Copy, S: Source, W: Sink>(
    connection: &mut Connection<C, A>,
    source: &mut S,
    sink: &mut W,
) -> Result<bool, TalkFault>
    requires held { IsHeld C.holds connection.old }
    requires all_sent { pending_of connection.old ≡ [] }
    ensures drives { Drives C.turn C.holds AnyTalk connection.old connection.new
        (change_of S.remaining source.old source.new) (change_of W.contents sink.old sink.new) }
    ensures done { OnOk result (IsDone C.turn connection.new) }
    ensures all_sent { OnOk result (pending_of connection.new ≡ []) }
    ensures driven { IfOk result (λ sent. HasDriven C.turn C.holds sent connection.old connection.new
        (change_of S.remaining source.old source.new) (change_of W.contents sink.old sink.new)
        (change_of W.passed_on sink.old sink.new) (W.is_down sink.new) (sink.new ≡ sink.old)) }
    ensures broken { OnErr result (BreaksOff C.turn C.holds connection.old connection.new
        (change_of S.remaining source.old source.new) (change_of W.contents sink.old sink.new)
        (change_of W.passed_on sink.old sink.new)) }
    ensures fails { IfErr result (λ fault. FailsBy C.turn C.holds fault connection.old connection.new
        (change_of S.remaining source.old source.new) (change_of W.contents sink.old sink.new)
        (change_of W.passed_on sink.old sink.new)) }
    ensures down { IsDownBy result (W.is_down sink.old) (W.is_down sink.new) }
    ensures source { LeavesSource (has_stopped connection.old) (S.remaining source.old)
        (S.is_down source.old)
        → LeavesSource (has_stopped connection.new) (S.remaining source.new)
        (S.is_down source.new) }
    ensures reads { C.turn (conversation_of connection.old) ≡ Turn.Listens
        → has_stopped connection.old ≡ None
        → LeavesSource (has_stopped connection.new) (S.remaining source.new)
        (S.is_down source.new) }
    ensures memory { HasRoom connection.old → result ≢ Err TalkFault.Memory }
    ensures source_loans { S.loans source.new ≡ S.loans source.old }
    ensures sink_loans { W.loans sink.new ≡ W.loans sink.old }
{
    let mut passed = false;
    loop {
        match connection.turn() {
            Turn::Listens => listen(connection, source),
            Turn::Speaks => match speak_turn(connection, sink) {
                Ok(sent) => passed = passed || sent,
                Err(fault) => return Err(fault),
            },
            Turn::Done => return Ok(passed),
        }
    }
}

/// Sends all packets of this turn, and flushes the sink if bytes were sent. Returns whether bytes
/// were sent.
///
/// Fails with `Io` if the sink fails. A prefix of the packets of this turn is then written. Fails
/// with `Memory` if there is not enough memory for the send queue.
pub fn speak_turn<C: Conversation, A: Allocator + Copy, W: Sink>(
    connection: &mut Connection<C, A>,
    sink: &mut W,
) -> Result<bool, TalkFault>
    requires turn { C.turn (conversation_of connection.old) ≡ Turn.Speaks }
    requires held { IsHeld C.holds connection.old }
    requires all_sent { pending_of connection.old ≡ [] }
    ensures says { SaysTurn C.turn C.holds result connection.old connection.new
        (change_of W.contents sink.old sink.new) (sink.new ≡ sink.old) }
    ensures stopped { has_stopped connection.new ≡ has_stopped connection.old }
    ensures fewer { OnOk result ((C.left (conversation_of connection.new)).turns
        < (C.left (conversation_of connection.old)).turns) }
    ensures over { OnOk result (C.turn (conversation_of connection.new) ≢ Turn.Speaks) }
    ensures all_sent { OnOk result (pending_of connection.new ≡ []) }
    ensures passed_on { IfOk result (λ sent. IsTrue sent
        → PassesAll (W.contents sink.new) (change_of W.passed_on sink.old sink.new)) }
    ensures up { IfOk result (λ sent. IsTrue sent → W.is_down sink.new ≡ false) }
    ensures kept { OnErr result (KeepsPassed (change_of W.passed_on sink.old sink.new)) }
    ensures down { IsDownBy result (W.is_down sink.old) (W.is_down sink.new) }
    ensures memory { HasRoom connection.old → result ≢ Err TalkFault.Memory }
    ensures loans { W.loans sink.new ≡ W.loans sink.old }
{
    let mut sent = false;
    loop {
        match connection.turn() {
            Turn::Speaks => match say_some(connection, sink) {
                Ok(some) => sent = sent || some,
                Err(fault) => return Err(fault),
            },
            Turn::Listens | Turn::Done => {
                return match finish_turn(sent, sink) {
                    Ok(is_sent) => Ok(is_sent),
                    Err(fault) => Err(fault),
                };
            }
        }
    }
}

// Flushes the sink if bytes were sent.
fn finish_turn<W: Sink>(sent: bool, sink: &mut W) -> Result<bool, TalkFault>
    ensures sent { IfOk result (λ is_sent. is_sent ≡ sent) }
    ensures some { OnErr result (IsTrue sent) }
    ensures io { IsOkUnless result TalkFault.Io }
    ensures untouched { sent ≡ false → sink.new ≡ sink.old }
    ensures bytes { Keeps (W.contents sink.old) (W.contents sink.new) }
    ensures passed_on { OnOk result (IsTrue sent
        → PassesAll (W.contents sink.new) (change_of W.passed_on sink.old sink.new)) }
    ensures up { OnOk result (IsTrue sent → W.is_down sink.new ≡ false) }
    ensures kept { OnErr result (KeepsPassed (change_of W.passed_on sink.old sink.new)) }
    ensures down { IsDownBy result (W.is_down sink.old) (W.is_down sink.new) }
    ensures loans { W.loans sink.new ≡ W.loans sink.old }
{
    if !sent {
        return Ok(false);
    }
    match pass_on(sink) {
        Ok(()) => Ok(true),
        Err(fault) => Err(fault),
    }
}

// Makes the conversation queue packets once, and sends the queued packets. Returns whether bytes
// were sent.
fn say_some<C: Conversation, A: Allocator + Copy, W: Sink>(
    connection: &mut Connection<C, A>,
    sink: &mut W,
) -> Result<bool, TalkFault>
    requires turn { C.turn (conversation_of connection.old) ≡ Turn.Speaks }
    requires held { IsHeld C.holds connection.old }
    requires all_sent { pending_of connection.old ≡ [] }
    ensures says { SaysTurn C.turn C.holds result connection.old connection.new
        (change_of W.contents sink.old sink.new) (sink.new ≡ sink.old) }
    ensures stopped { has_stopped connection.new ≡ has_stopped connection.old }
    ensures nearer { OnOk result (IsNearer C.turn C.left (conversation_of connection.old)
        (conversation_of connection.new)) }
    ensures all_sent { OnOk result (pending_of connection.new ≡ []) }
    ensures passed_on { Keeps (W.passed_on sink.old) (W.passed_on sink.new) }
    ensures down { IsDownBy result (W.is_down sink.old) (W.is_down sink.new) }
    ensures memory { HasRoom connection.old → result ≢ Err TalkFault.Memory }
    ensures loans { W.loans sink.new ≡ W.loans sink.old }
{
    match connection.speak() {
        Ok(()) => {
            let some = !connection.output().is_empty();
            match send(connection, sink) {
                Ok(()) => Ok(some),
                Err(fault) => Err(fault),
            }
        }
        Err(fault) => Err(fault),
    }
}

// Sends all pending bytes.
fn send<C: Conversation, A: Allocator + Copy, W: Sink>(
    connection: &mut Connection<C, A>,
    sink: &mut W,
) -> Result<(), TalkFault>
    ensures sends { SendsPending C.turn C.holds connection.old connection.new
        (change_of W.contents sink.old sink.new) }
    ensures some { OnErr result (0 < length (pending_of connection.old)) }
    ensures io { IsOkUnless result TalkFault.Io }
    ensures untouched { pending_of connection.old ≡ [] → sink.new ≡ sink.old }
    ensures conversation { conversation_of connection.new ≡ conversation_of connection.old }
    ensures stopped { has_stopped connection.new ≡ has_stopped connection.old }
    ensures all_sent { OnOk result (pending_of connection.new ≡ []) }
    ensures passed_on { Keeps (W.passed_on sink.old) (W.passed_on sink.new) }
    ensures down { IsDownBy result (W.is_down sink.old) (W.is_down sink.new) }
    ensures loans { W.loans sink.new ≡ W.loans sink.old }
{
    while !connection.output().is_empty() {
        match send_some(connection, sink) {
            Ok(()) => {}
            Err(fault) => return Err(fault),
        }
    }
    Ok(())
}

// Sends a prefix of the pending bytes with a single write.
fn send_some<C: Conversation, A: Allocator + Copy, W: Sink>(
    connection: &mut Connection<C, A>,
    sink: &mut W,
) -> Result<(), TalkFault>
    requires some { 0 < length (pending_of connection.old) }
    ensures sends { SendsPending C.turn C.holds connection.old connection.new
        (change_of W.contents sink.old sink.new) }
    ensures io { IsOkUnless result TalkFault.Io }
    ensures conversation { conversation_of connection.new ≡ conversation_of connection.old }
    ensures stopped { has_stopped connection.new ≡ has_stopped connection.old }
    ensures fewer { OnOk result (length (pending_of connection.new)
        < length (pending_of connection.old)) }
    ensures passed_on { Keeps (W.passed_on sink.old) (W.passed_on sink.new) }
    ensures down { IsDownBy result (W.is_down sink.old) (W.is_down sink.new) }
    ensures loans { W.loans sink.new ≡ W.loans sink.old }
{
    match sink.write(connection.output()) {
        Ok(count) => {
            connection.note_sent(count);
            Ok(())
        }
        Err(Down) => Err(TalkFault::Io),
    }
}

// Flushes all bytes that were sent.
fn pass_on<W: Sink>(sink: &mut W) -> Result<(), TalkFault>
    ensures io { IsOkUnless result TalkFault.Io }
    ensures bytes { Keeps (W.contents sink.old) (W.contents sink.new) }
    ensures passed_on { OnOk result
        (PassesAll (W.contents sink.new) (change_of W.passed_on sink.old sink.new)) }
    ensures kept { OnErr result (KeepsPassed (change_of W.passed_on sink.old sink.new)) }
    ensures sink { LeavesSink result (W.is_down sink.old) (W.is_down sink.new) }
    ensures down { IsDownBy result (W.is_down sink.old) (W.is_down sink.new) }
    ensures loans { W.loans sink.new ≡ W.loans sink.old }
{
    match sink.flush() {
        Ok(()) => Ok(()),
        Err(Down) => Err(TalkFault::Io),
    }
}

// Receives packets until the conversation no longer listens, or until no more packets arrive.
fn listen<C: Conversation, A: Allocator + Copy, S: Source>(
    connection: &mut Connection<C, A>,
    source: &mut S,
)
    requires turn { C.turn (conversation_of connection.old) ≡ Turn.Listens }
    requires goes_on { has_stopped connection.old ≡ None }
    requires held { IsHeld C.holds connection.old }
    ensures hears { HearsRead C.turn C.holds connection.old connection.new
        (change_of S.remaining source.old source.new) }
    ensures source { LeavesSource (has_stopped connection.old) (S.remaining source.old)
        (S.is_down source.old)
        → LeavesSource (has_stopped connection.new) (S.remaining source.new)
        (S.is_down source.new) }
    ensures reads { LeavesSource (has_stopped connection.new) (S.remaining source.new)
        (S.is_down source.new) }
    ensures fewer { IsFewer C.left connection.old connection.new }
    ensures pending { pending_of connection.new ≡ pending_of connection.old }
    ensures loans { S.loans source.new ≡ S.loans source.old }
{
    loop {
        match connection.turn() {
            Turn::Listens => hear_some(connection, source, usize::MAX),
            Turn::Speaks | Turn::Done => return,
        }
    }
}

/// Reads once, at most `limit` bytes and at most up to the end of the current packet. The
/// connection receives the bytes, the end of the input, or the failure of the source. The limit
/// must not be 0.
pub fn hear_some<C: Conversation, A: Allocator + Copy, S: Source>(
    connection: &mut Connection<C, A>,
    source: &mut S,
    limit: usize,
)
    requires turn { C.turn (conversation_of connection.old) ≡ Turn.Listens }
    requires goes_on { has_stopped connection.old ≡ None }
    requires held { IsHeld C.holds connection.old }
    requires some { 0 < limit }
    ensures hears { HearsRead C.turn C.holds connection.old connection.new
        (change_of S.remaining source.old source.new) }
    ensures source { LeavesSource (has_stopped connection.new) (S.remaining source.new)
        (S.is_down source.new) }
    ensures later { IsLater C.turn C.left (conversation_of connection.old)
        (conversation_of connection.new) }
    ensures fewer { reading_left C.turn C.left connection.new
        < reading_left C.turn C.left connection.old }
    ensures few { ReadsFew limit (change_of S.remaining source.old source.new) }
    ensures pending { pending_of connection.new ≡ pending_of connection.old }
    ensures loans { S.loans source.new ≡ S.loans source.old }
{
    let most = connection.receive_limit().min(limit);
    if most <= SHORT {
        let mut piece = [0; SHORT];
        hear_into(connection, source, &mut piece[..most]);
    } else {
        let mut piece = [0; PIECE];
        hear_into(connection, source, &mut piece[..most.min(PIECE)]);
    }
}

// Reads once into `piece`, like `hear_some`.
#[tactic(auto, using(crate::proofs::Partials::lacks_fewer))]
fn hear_into<C: Conversation, A: Allocator + Copy, S: Source>(
    connection: &mut Connection<C, A>,
    source: &mut S,
    piece: &mut [u8],
)
    requires turn { C.turn (conversation_of connection.old) ≡ Turn.Listens }
    requires goes_on { has_stopped connection.old ≡ None }
    requires held { IsHeld C.holds connection.old }
    requires some { 0 < length piece.old }
    requires wanted { Lacks (partial_of connection.old) (length piece.old) }
    ensures hears { HearsRead C.turn C.holds connection.old connection.new
        (change_of S.remaining source.old source.new) }
    ensures source { LeavesSource (has_stopped connection.new) (S.remaining source.new)
        (S.is_down source.new) }
    ensures later { IsLater C.turn C.left (conversation_of connection.old)
        (conversation_of connection.new) }
    ensures fewer { reading_left C.turn C.left connection.new
        < reading_left C.turn C.left connection.old }
    ensures few { ReadsFew (length piece.old) (change_of S.remaining source.old source.new) }
    ensures pending { pending_of connection.new ≡ pending_of connection.old }
    ensures loans { S.loans source.new ≡ S.loans source.old }
{
    match source.read(piece) {
        Ok(0) => connection.receive_end(),
        Ok(count) => connection.receive(&piece[..count]),
        Err(Down) => connection.receive_failure(),
    }
}

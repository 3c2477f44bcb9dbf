//! Running two ends alternately.

ghost use Rattle.std.specs.Prelude.{◌≡◌, ◌≢◌, ◌<◌, [], Err, None, IfErr, IfOk, OnOk};
ghost use Rattle.gpkt.specs.Change.{change_of};
ghost use Rattle.gtalk.specs.Connections.{Drives, FailsBy, HasDriven, HasRoom, HearsRead, IsDone, IsHeld, IsDownBy, conversation_of, has_stopped, pending_of};
ghost use Rattle.gtalk.specs.Talks.{AnyTalk};
ghost use Rattle.gtalk.specs.steps.Driving.{IsFewer, IsLater, reading_left};

use crate::counting::CountsBytes;
use crate::end::End;
use gpkt::{Sink, Source};
use gtalk::{Connection, Conversation, TalkFault, Turn, hear_some, speak_turn};
use std::alloc::Allocator;

/// Runs two ends alternately, until the conversation of the near end has ended. Returns whether the
/// near end sent bytes.
///
/// Each source reads what the sink of the other end flushes, and both count from the same byte.
/// Each turn is flushed before the other end reads. If the far end has nothing to send, the near
/// end is notified that its input has ended. If the far end fails to send a turn, the near end is
/// notified that its source has failed. The far end receives the last bytes of the near end, if it
/// listens. If the far end has pending bytes at the call, the near end is notified that its source
/// has failed.
///
/// Fails with `Io` if the sink of the near end fails. Fails with `Memory` if memory for its send
/// queue runs out.
pub fn join<C, S, W, D, F, V, A>(
    near: &mut End<C, S, W, A>,
    far: &mut End<D, F, V, A>,
) -> Result<bool, TalkFault>
where
    C: Conversation,
    S: Source + CountsBytes,
    W: Sink + CountsBytes,
    D: Conversation,
    F: Source + CountsBytes,
    V: Sink + CountsBytes,
    A: Allocator + Copy,
    requires held { IsHeld C.holds near.old.connection }
    requires all_sent { pending_of near.old.connection ≡ [] }
    requires far_held { IsHeld D.holds far.old.connection }
    ensures drives { Drives C.turn C.holds AnyTalk near.old.connection near.new.connection
        (change_of S.remaining near.old.source near.new.source)
        (change_of W.contents near.old.sink near.new.sink) }
    ensures done { OnOk result (IsDone C.turn near.new.connection) }
    ensures all_sent { OnOk result (pending_of near.new.connection ≡ []) }
    ensures driven { IfOk result (λ sent. HasDriven C.turn C.holds sent near.old.connection
        near.new.connection (change_of S.remaining near.old.source near.new.source)
        (change_of W.contents near.old.sink near.new.sink)
        (change_of W.passed_on near.old.sink near.new.sink) (W.is_down near.new.sink)
        (near.new.sink ≡ near.old.sink)) }
    ensures fails { IfErr result (λ fault. FailsBy C.turn C.holds fault near.old.connection
        near.new.connection (change_of S.remaining near.old.source near.new.source)
        (change_of W.contents near.old.sink near.new.sink)
        (change_of W.passed_on near.old.sink near.new.sink)) }
    ensures down { IsDownBy result (W.is_down near.old.sink) (W.is_down near.new.sink) }
    ensures memory { HasRoom near.old.connection → result ≢ Err TalkFault.Memory }
    ensures far { Drives D.turn D.holds AnyTalk far.old.connection far.new.connection
        (change_of F.remaining far.old.source far.new.source)
        (change_of V.contents far.old.sink far.new.sink) }
    ensures source_loans { S.loans near.new.source ≡ S.loans near.old.source }
    ensures sink_loans { W.loans near.new.sink ≡ W.loans near.old.sink }
    ensures far_source_loans { F.loans far.new.source ≡ F.loans far.old.source }
    ensures far_sink_loans { V.loans far.new.sink ≡ V.loans far.old.sink }
{
    let mut passed = false;
    loop {
        match near.connection.turn() {
            Turn::Listens => listen_to(near, far),
            Turn::Speaks => match speak_turn(&mut near.connection, &mut near.sink) {
                Ok(sent) => passed = passed || sent,
                Err(fault) => return Err(fault),
            },
            Turn::Done => {
                listen(&mut far.connection, &mut far.source, near.sink.byte_count());
                return Ok(passed);
            }
        }
    }
}

// Receives packets from the far end until the conversation of the near end no longer listens, or
// until no more packets arrive.
fn listen_to<C, S, W, D, F, V, A>(near: &mut End<C, S, W, A>, far: &mut End<D, F, V, A>)
where
    C: Conversation,
    S: Source + CountsBytes,
    W: CountsBytes,
    D: Conversation,
    F: Source + CountsBytes,
    V: Sink + CountsBytes,
    A: Allocator + Copy,
    requires turn { C.turn (conversation_of near.old.connection) ≡ Turn.Listens }
    requires goes_on { has_stopped near.old.connection ≡ None }
    requires held { IsHeld C.holds near.old.connection }
    requires far_held { IsHeld D.holds far.old.connection }
    ensures hears { HearsRead C.turn C.holds near.old.connection near.new.connection
        (change_of S.remaining near.old.source near.new.source) }
    ensures fewer { IsFewer C.left near.old.connection near.new.connection }
    ensures pending { pending_of near.new.connection ≡ pending_of near.old.connection }
    ensures sink { near.new.sink ≡ near.old.sink }
    ensures far { Drives D.turn D.holds AnyTalk far.old.connection far.new.connection
        (change_of F.remaining far.old.source far.new.source)
        (change_of V.contents far.old.sink far.new.sink) }
    ensures source_loans { S.loans near.new.source ≡ S.loans near.old.source }
    ensures far_source_loans { F.loans far.new.source ≡ F.loans far.old.source }
    ensures far_sink_loans { V.loans far.new.sink ≡ V.loans far.old.sink }
{
    loop {
        match near.connection.turn() {
            Turn::Listens => hear_from(near, far),
            Turn::Speaks | Turn::Done => return,
        }
    }
}

// Receives bytes from the far end once. If no unread bytes are left, the far end runs first.
fn hear_from<C, S, W, D, F, V, A>(near: &mut End<C, S, W, A>, far: &mut End<D, F, V, A>)
where
    C: Conversation,
    S: Source + CountsBytes,
    W: CountsBytes,
    D: Conversation,
    F: Source + CountsBytes,
    V: Sink + CountsBytes,
    A: Allocator + Copy,
    requires turn { C.turn (conversation_of near.old.connection) ≡ Turn.Listens }
    requires goes_on { has_stopped near.old.connection ≡ None }
    requires held { IsHeld C.holds near.old.connection }
    requires far_held { IsHeld D.holds far.old.connection }
    ensures hears { HearsRead C.turn C.holds near.old.connection near.new.connection
        (change_of S.remaining near.old.source near.new.source) }
    ensures later { IsLater C.turn C.left (conversation_of near.old.connection)
        (conversation_of near.new.connection) }
    ensures fewer { reading_left C.turn C.left near.new.connection
        < reading_left C.turn C.left near.old.connection }
    ensures pending { pending_of near.new.connection ≡ pending_of near.old.connection }
    ensures sink { near.new.sink ≡ near.old.sink }
    ensures far { Drives D.turn D.holds AnyTalk far.old.connection far.new.connection
        (change_of F.remaining far.old.source far.new.source)
        (change_of V.contents far.old.sink far.new.sink) }
    ensures source_loans { S.loans near.new.source ≡ S.loans near.old.source }
    ensures far_source_loans { F.loans far.new.source ≡ F.loans far.old.source }
    ensures far_sink_loans { V.loans far.new.sink ≡ V.loans far.old.sink }
{
    if feed(far, near.sink.byte_count(), near.source.byte_count()).is_err() {
        near.connection.receive_failure();
        return;
    }
    let unread = far
        .sink
        .byte_count()
        .saturating_sub(near.source.byte_count());
    if unread > 0 {
        hear_some(&mut near.connection, &mut near.source, unread);
    } else {
        near.connection.receive_end();
    }
}

// Runs the far end until it has written more than `read` bytes, or until it can't continue. It
// can't continue if its conversation is done, or if it listens and has read `given` bytes. Fails if
// a turn of the far end failed.
fn feed<D, F, V, A>(far: &mut End<D, F, V, A>, given: usize, read: usize) -> Result<(), TalkFault>
where
    D: Conversation,
    F: Source + CountsBytes,
    V: Sink + CountsBytes,
    A: Allocator + Copy,
    requires held { IsHeld D.holds far.old.connection }
    ensures drives { Drives D.turn D.holds AnyTalk far.old.connection far.new.connection
        (change_of F.remaining far.old.source far.new.source)
        (change_of V.contents far.old.sink far.new.sink) }
    ensures source_loans { F.loans far.new.source ≡ F.loans far.old.source }
    ensures sink_loans { V.loans far.new.sink ≡ V.loans far.old.sink }
{
    if !far.connection.output().is_empty() {
        return Err(TalkFault::Io);
    }
    while far.sink.byte_count() <= read {
        listen(&mut far.connection, &mut far.source, given);
        match far.connection.turn() {
            Turn::Speaks => match speak_turn(&mut far.connection, &mut far.sink) {
                Ok(_) => {}
                Err(fault) => return Err(fault),
            },
            Turn::Listens | Turn::Done => return Ok(()),
        }
    }
    Ok(())
}

// Receives bytes until the conversation no longer listens, until no more packets arrive, or until
// `given` bytes have been read from the source.
fn listen<C: Conversation, A: Allocator + Copy, S: Source + CountsBytes>(
    connection: &mut Connection<C, A>,
    source: &mut S,
    given: usize,
)
    requires held { IsHeld C.holds connection.old }
    ensures hears { HearsRead C.turn C.holds connection.old connection.new
        (change_of S.remaining source.old source.new) }
    ensures later { IsLater C.turn C.left (conversation_of connection.old)
        (conversation_of connection.new) }
    ensures pending { pending_of connection.new ≡ pending_of connection.old }
    ensures loans { S.loans source.new ≡ S.loans source.old }
{
    loop {
        let unread = given.saturating_sub(source.byte_count());
        match connection.turn() {
            Turn::Listens if unread > 0 => hear_some(connection, source, unread),
            Turn::Listens | Turn::Speaks | Turn::Done => return,
        }
    }
}

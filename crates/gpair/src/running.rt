//! Running a whole dialogue at the near end.

ghost use Rattle.std.specs.Prelude.{◌≡◌, [], Bool, List, true, IfErr, IfOk};
ghost use Rattle.gpkt.specs.Change.{change_of};
ghost use Rattle.gpkt.specs.Packets.{Packet};
ghost use Rattle.gtalk.specs.Connections.{Drives, IsDownBy, IsHeld};
ghost use Rattle.gtalk.specs.Talks.{AnyTalk};
ghost use Rattle.gdialogue.specs.Running.{BreaksBy, HasRun};
ghost use Rattle.gpair.specs.Joined.{HearsAll};

use crate::counting::CountsBytes;
use crate::end::End;
use crate::joining::join;
use gdialogue::{Begun, Dialogue, First, Reply, Side};
use gpkt::{Sink, Source};
use gtalk::{Connection, Conversation, Room, TalkFault};
use std::alloc::Allocator;
use std::marker::Brand;

/// Runs a dialogue from its first message to its end, over a source and a sink to the far end. The
/// far end runs when the dialogue has read all of its bytes. Returns the side, the source and the
/// sink, and whether a packet was sent.
///
/// Requires that the far end sends the first message, and that some list of packets completes each
/// reply. Fails with `Io` if the sink fails, and never with `Memory`.
pub fn run_joined<S, M, R, A, I, W, D, F, V>(
    side: S,
    room: Room<A>,
    devices: (I, W),
    far: &mut End<D, F, V, A>,
) -> (Result<bool, TalkFault>, S, (I, W))
where
    S: Side<M, R> + Drop,
    M: Drop,
    R: Reply + Drop,
    A: Allocator + Copy,
    I: Source + CountsBytes,
    W: Sink + CountsBytes,
    D: Conversation,
    F: Source + CountsBytes,
    V: Sink + CountsBytes,
    requires opens { S.opens side [] true }
    requires completes { (reply : R) → (rest : List Packet) × (goes : Bool) × R.may reply rest goes }
    requires far_held { IsHeld D.holds far.old.connection }
    ensures hears { HearsAll (change_of I.remaining devices.0 result.2.0) (λ read lost.
        IfOk result.0 (λ sent. HasRun S.judge S.brings S.opens S.answers S.refuses
        sent side result.1 read (change_of W.contents devices.1 result.2.1)
        (change_of W.passed_on devices.1 result.2.1) lost (W.is_down result.2.1)
        (result.2.1 ≡ devices.1))
        × IfErr result.0 (λ fault. BreaksBy S.judge S.brings S.opens S.answers S.refuses
        fault side result.1 read (change_of W.contents devices.1 result.2.1)
        (change_of W.passed_on devices.1 result.2.1) lost)) }
    ensures down { IsDownBy result.0 (W.is_down devices.1) (W.is_down result.2.1) }
    ensures far { Drives D.turn D.holds AnyTalk far.old.connection far.new.connection
        (change_of F.remaining far.old.source far.new.source)
        (change_of V.contents far.old.sink far.new.sink) }
    ensures source_loans { I.loans result.2.0 ≡ I.loans devices.0 }
    ensures sink_loans { W.loans result.2.1 ≡ W.loans devices.1 }
    ensures far_source_loans { F.loans far.new.source ≡ F.loans far.old.source }
    ensures far_sink_loans { V.loans far.new.sink ≡ V.loans far.old.sink }
{
    run_begun::<S, M, R, A, I, W, D, F, V, Brand>(side, room, devices, far)
}

// Runs a dialogue whose first state satisfies `is_first` of `L`.
fn run_begun<S, M, R, A, I, W, D, F, V, L>(
    side: S,
    room: Room<A>,
    devices: (I, W),
    far: &mut End<D, F, V, A>,
) -> (Result<bool, TalkFault>, S, (I, W))
where
    S: Side<M, R> + Drop,
    M: Drop,
    R: Reply + Drop,
    A: Allocator + Copy,
    I: Source + CountsBytes,
    W: Sink + CountsBytes,
    D: Conversation,
    F: Source + CountsBytes,
    V: Sink + CountsBytes,
    L: First<S>,
    requires opens { S.opens side [] true }
    requires first { L.is_first side }
    requires completes { (reply : R) → (rest : List Packet) × (goes : Bool) × R.may reply rest goes }
    requires far_held { IsHeld D.holds far.old.connection }
    ensures hears { (first : S) × L.is_first first
        × HearsAll (change_of I.remaining devices.0 result.2.0) (λ read lost.
        IfOk result.0 (λ sent. HasRun S.judge S.brings S.opens S.answers S.refuses
        sent first result.1 read (change_of W.contents devices.1 result.2.1)
        (change_of W.passed_on devices.1 result.2.1) lost (W.is_down result.2.1)
        (result.2.1 ≡ devices.1))
        × IfErr result.0 (λ fault. BreaksBy S.judge S.brings S.opens S.answers S.refuses
        fault first result.1 read (change_of W.contents devices.1 result.2.1)
        (change_of W.passed_on devices.1 result.2.1) lost)) }
    ensures down { IsDownBy result.0 (W.is_down devices.1) (W.is_down result.2.1) }
    ensures far { Drives D.turn D.holds AnyTalk far.old.connection far.new.connection
        (change_of F.remaining far.old.source far.new.source)
        (change_of V.contents far.old.sink far.new.sink) }
    ensures source_loans { I.loans result.2.0 ≡ I.loans devices.0 }
    ensures sink_loans { W.loans result.2.1 ≡ W.loans devices.1 }
    ensures far_source_loans { F.loans far.new.source ≡ F.loans far.old.source }
    ensures far_sink_loans { V.loans far.new.sink ≡ V.loans far.old.sink }
{
    let connection = Connection::with_room(Dialogue::new(Begun::<S, L>::new(side)), room);
    let (source, sink) = devices;
    let mut near = End {
        connection,
        source,
        sink,
    };
    let driven = join(&mut near, far);
    let End {
        connection,
        source,
        sink,
    } = near;
    // The proof uses the result.
    let _limit = connection.receive_limit();
    let begun = connection.into_conversation().into_side();
    (driven, begun.into_side(), (source, sink))
}

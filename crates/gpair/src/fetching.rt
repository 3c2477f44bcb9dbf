//! A fetch at the near end.

ghost use Rattle.gpkt.specs.Change.{change_of};
ghost use Rattle.gpkt.specs.Sending.{output_of};
ghost use Rattle.gtalk.specs.Connections.{IsHeld};
ghost use Rattle.gfetch.specs.Conversations.{FetchesOver};
ghost use Rattle.gfetch.specs.Endings.{EndsTalk};
ghost use Rattle.gfetch.specs.Fetching.{IsFresh, start_of_side};
ghost use Rattle.gfetch.specs.Starts.{start_for};
ghost use Rattle.gpair.specs.Joined.{HearsAll, all_input};

use crate::counting::CountsBytes;
use crate::end::End;
use crate::running::run_joined;
use gclientrepo::Repo;
use gfetch::{ClientSide, FetchFault, Fetched, begin_fetch, end_fetch};
use ggrammar::laws::grammars_are_exact;
use ggraph::KeepingIndexer;
use gpkt::{Sink, Source};
use gsession::FetchPlan;
use gtalk::{Conversation, Room, TalkFault};
use std::alloc::Allocator;

/// Fetches like [`gfetch::fetch_over_with`], over a source and a sink to the far end. The far end
/// runs when the client has read all of its bytes. Returns the source and the sink.
///
/// The input of the client consists of exactly the bytes that it read. It fails if a turn of the
/// far end fails, and ends when the far end sends nothing more.
pub(crate) fn fetch_joined<S, W, A, K, D, F, V>(
    repo: &mut Repo<A>,
    indexer: &mut K,
    plan: &FetchPlan<'_, A>,
    devices: (S, W),
    far: &mut End<D, F, V, A>,
) -> (Result<Fetched<A>, FetchFault<A>>, (S, W))
where
    S: Source + CountsBytes,
    W: Sink + CountsBytes,
    A: Allocator + Copy,
    K: KeepingIndexer<A>,
    D: Conversation,
    F: Source + CountsBytes,
    V: Sink + CountsBytes,
    requires far_held { IsHeld D.holds far.old.connection }
    ensures { HearsAll (change_of S.remaining devices.0 result.1.0) (λ read lost.
        FetchesOver K.indexes K.index_fails
        (start_for repo.old plan.now.specs.now plan.now.limit plan.now.ends plan.now.options)
        (all_input read lost) (output_of W.contents W.passed_on W.is_down devices.1 result.1.1)
        repo.new result.0) }
{
    let (side, room) = match begin_fetch(repo, indexer, plan) {
        Ok(begun) => begun,
        Err(fault) => return (Err(fault), devices),
    };
    let (driven, side, left) = talk(side, room, devices, far);
    let fetched = end_fetch(side, driven, repo);
    (fetched, left)
}

// Runs the dialogue of a side that has received no message. Returns the side, the source and the
// sink, and whether a packet was sent.
fn talk<'k, S, W, A, K, D, F, V>(
    side: ClientSide<'k, A, K>,
    room: Room<A>,
    devices: (S, W),
    far: &mut End<D, F, V, A>,
) -> (Result<bool, TalkFault>, ClientSide<'k, A, K>, (S, W))
where
    S: Source + CountsBytes,
    W: Sink + CountsBytes,
    A: Allocator + Copy,
    K: KeepingIndexer<A>,
    D: Conversation,
    F: Source + CountsBytes,
    V: Sink + CountsBytes,
    requires fresh { IsFresh side }
    requires far_held { IsHeld D.holds far.old.connection }
    ensures { HearsAll (change_of S.remaining devices.0 result.2.0) (λ read lost.
        EndsTalk K.indexes K.index_fails (start_of_side side.entry) (all_input read lost)
        (output_of W.contents W.passed_on W.is_down devices.1 result.2.1) result.1 result.0) }
{
    // Laws that the proof uses.
    grammars_are_exact();
    ghello::laws::endings();
    glsreply::laws::endings();
    gfetchreply::laws::endings();
    run_joined(side, room, devices, far)
}

//! Laws of worlds. Each function does nothing, and its contract states a proved property. A run is
//! a list of events and their outcomes, and a step is the effect of one event on a world. A world
//! is sound if it satisfies the invariants of `IsSound` (`specs/Sound.antt`).

ghost use Rattle.std.specs.Prelude.{◌≡◌, false};
ghost use Rattle.gworld.specs.Fetching.{FetchesComplete, OnlyLimitsRefuse};
ghost use Rattle.gworld.specs.Laws.{CommonsStayShared, EndsStayConnected, FrontsAreRuns, FrontsKeepPromises, GraphsOnlyGrow, HonestRunsKeepAll, KeptFrontsAreRuns, KeptRunsAlwaysKeep, KeptRunsKeepOn, KeptRunsKeepPromises, NewWorldsAreSound, OthersLeaveRefs, PromisesAreRuns, RefsAreAlwaysConnected, RefsStayConnected, RefusalsLeaveBothEnds, RequestsStayFew, RunsKeepPromises, StepsKeep};
ghost use Rattle.gworld.specs.Sound.{IsUnforgedAndFaithful};
ghost use Rattle.gworld.specs.Worlds.{WorldState, tools_of};

use ganswer::laws::{
    acks_are_common, fetch_answers_fit, held_wants_are_served, ls_answers_are_held, ls_answers_fit,
    packs_are_enough, servers_grow,
};
use gclientrepo::laws::{
    connected_repo_stays, held_is_not_missing, refusals_change_nothing, setting_stays_connected,
    settling_stays_connected,
};
use ggraph::graph_laws::{
    agreeing_entries_fit, agreeing_stays, closed_stays, coming_grows, connected_stays_connected,
    counts_stay, growing_goes_on, growing_keeps, keeping_has_all, keeping_holds, keeping_reaches,
    reached_are_counted,
};
use ggraph::{Faithful, KeepingIndexer, Packer};
use gmsg::laws::replies_differ;
use gpkt::laws::{canonical_spells, one_begins};
use gsession::laws::{
    asks_are_of_lines, began_begins, began_stays, commons_are_haves, haves_are_held,
    open_is_the_sessions, rounds_are_few, taking_only_grows, wants_are_exact,
};
use std::alloc::Allocator;

/// Proves that each step from a sound world (`IsSound`) leads to a sound world, and keeps its
/// promises (`Promises`). The premise is that `AreEndsConnected` holds before and after the step.
/// [`ends_stay_connected`] proves that a step preserves `AreEndsConnected`, if refs are sorted and
/// the session is valid.
pub fn steps_keep<A: Allocator + Copy, P: Packer<A>, I: KeepingIndexer<A>>()
    ensures { (packer : P) → StepsKeep (tools_of (P.packs packer) (P.pack_fails packer)
        I.indexes I.index_fails) }
{
    growing_keeps::<A>();
    growing_goes_on::<A>();
    coming_grows::<A>();
    keeping_holds::<A>();
    keeping_reaches::<A>();
    connected_stays_connected::<A>();
    keeping_has_all::<A>();
    agreeing_stays::<A>();
    agreeing_entries_fit::<A>();
    canonical_spells();
    one_begins();
    gfetchreply::laws::canonical_says();
    gfetchreply::laws::reads_exactly();
    gfetchreply::laws::other_readings();
    glsreply::laws::canonical_says();
    glsreply::laws::one_meaning();
    glsreply::laws::prefix_free();
    glsreply::laws::reads_exactly();
    replies_differ();
    fetch_answers_fit::<A, P>();
    ls_answers_fit::<A>();
    ls_answers_are_held::<A>();
    acks_are_common::<A, P>();
    packs_are_enough::<A, P>();
    held_wants_are_served::<A, P>();
    servers_grow::<A>();
    refusals_change_nothing::<A>();
    held_is_not_missing::<A>();
    began_begins::<A>();
    began_stays::<A>();
    rounds_are_few::<A>();
    haves_are_held::<A>();
    open_is_the_sessions::<A>();
    wants_are_exact::<A>();
    asks_are_of_lines::<A>();
    commons_are_haves::<A, I>();
    taking_only_grows::<A, I>();
}

/// Proves that a world without forged bytes satisfies `IsUnforgedAndFaithful`, the premise of
/// `HonestPromises`, if its packer and indexer implement `Faithful`.
pub fn faithful_lose_nothing<A: Allocator + Copy, K: Faithful<A>>(tools: &K)
    ensures { ((w : WorldState A) → w.forged ≡ false
        → IsUnforgedAndFaithful (tools_of (K.packs tools.now) (K.pack_fails tools.now)
        K.indexes K.index_fails) w) }
{
    tools.loses_nothing();
}

/// Proves that events and their outcomes form a run (`Run`) if each step keeps its promises.
pub fn promises_are_runs<A: Allocator + Copy, P: Packer<A>, I: KeepingIndexer<A>>()
    ensures { (packer : P) → PromisesAreRuns (tools_of (P.packs packer) (P.pack_fails packer)
        I.indexes I.index_fails) }
{}

/// Proves that each ref of the client is connected after a run, if each ref was connected before
/// the run.
pub fn refs_stay_connected<A: Allocator + Copy, P: Packer<A>, I: KeepingIndexer<A>>()
    ensures { (packer : P) → RefsStayConnected (tools_of (P.packs packer) (P.pack_fails packer)
        I.indexes I.index_fails) }
{}

/// Proves that a run preserves this bound: if the session's tips reach N ids, the session has made
/// at most N + 1 requests for objects. The tips are the ids of the client's refs when the session
/// began.
pub fn requests_stay_few<A: Allocator + Copy, P: Packer<A>, I: KeepingIndexer<A>>()
    ensures { (packer : P) → RequestsStayFew (tools_of (P.packs packer) (P.pack_fails packer)
        I.indexes I.index_fails) }
{}

/// Proves that both ends hold each common id after a run, if both ends held each common id before
/// the run. The other premise is that no bytes were forged before or during the run.
pub fn commons_stay_shared<A: Allocator + Copy, P: Packer<A>, I: KeepingIndexer<A>>()
    ensures { (packer : P) → CommonsStayShared (tools_of (P.packs packer) (P.pack_fails packer)
        I.indexes I.index_fails) }
{}

/// Proves that a prefix of a run is a run. The steps of the prefix keep their promises if all steps
/// of the run keep their promises.
pub fn fronts_are_runs<A: Allocator + Copy, P: Packer<A>, I: KeepingIndexer<A>>()
    ensures runs { (packer : P) → FrontsAreRuns (tools_of (P.packs packer) (P.pack_fails packer)
        I.indexes I.index_fails) }
    ensures promises { (packer : P) → FrontsKeepPromises (tools_of (P.packs packer) (P.pack_fails packer)
        I.indexes I.index_fails) }
{}

/// Proves these properties of a run of a [`KeepingWorld`](crate::KeepingWorld). If no event fails
/// with 98 (`NotKept`), the steps of the run keep their promises, so all other laws apply. The
/// indexer keeps each object that the client's repository gained. Each prefix of a run is a run. If
/// the indexer kept each object of the client's repository before the run, it does so in each world
/// of the run.
pub fn kept_runs_keep<A: Allocator + Copy, P: Packer<A>, I: KeepingIndexer<A>>()
    ensures promises { (packer : P) → KeptRunsKeepPromises P
        (tools_of (P.packs packer) (P.pack_fails packer) I.indexes I.index_fails) I.keeps }
    ensures keeps { (packer : P) → KeptRunsKeepOn P
        (tools_of (P.packs packer) (P.pack_fails packer) I.indexes I.index_fails) I.keeps }
    ensures fronts { (packer : P) → KeptFrontsAreRuns P
        (tools_of (P.packs packer) (P.pack_fails packer) I.indexes I.index_fails) I.keeps }
    ensures always { (packer : P) → KeptRunsAlwaysKeep P
        (tools_of (P.packs packer) (P.pack_fails packer) I.indexes I.index_fails) I.keeps }
{}

/// Proves that the client's refs are connected in each world of a run, if the refs are connected at
/// the start of the run.
pub fn refs_are_always_connected<A: Allocator + Copy, P: Packer<A>, I: KeepingIndexer<A>>()
    ensures { (packer : P) → RefsAreAlwaysConnected (tools_of (P.packs packer) (P.pack_fails packer)
        I.indexes I.index_fails) }
{}

/// Proves that a run only adds objects to the graphs of both ends: no object is lost or changed.
pub fn graphs_only_grow<A: Allocator + Copy, P: Packer<A>, I: KeepingIndexer<A>>()
    ensures { (packer : P) → GraphsOnlyGrow (tools_of (P.packs packer) (P.pack_fails packer)
        I.indexes I.index_fails) }
{
    taking_only_grows::<A, I>();
    refusals_change_nothing::<A>();
    servers_grow::<A>();
}

/// Proves that only [`Event::Settle`](crate::Event::Settle) or
/// [`Event::ClientRef`](crate::Event::ClientRef) moves refs of the client. Only `ServerRef` moves
/// refs of the server, and only `ServerAdd` and `ServerRef` change the server at all.
pub fn others_leave_refs<A: Allocator + Copy, P: Packer<A>, I: KeepingIndexer<A>>()
    ensures { (packer : P) → OthersLeaveRefs (tools_of (P.packs packer) (P.pack_fails packer)
        I.indexes I.index_fails) }
{
    taking_only_grows::<A, I>();
    refusals_change_nothing::<A>();
    servers_grow::<A>();
}

/// Proves that an event that fails leaves the server and the client's repository unchanged.
pub fn refusals_leave_both_ends<A: Allocator + Copy, P: Packer<A>, I: KeepingIndexer<A>>()
    ensures { (packer : P) → RefusalsLeaveBothEnds (tools_of (P.packs packer) (P.pack_fails packer)
        I.indexes I.index_fails) }
{
    taking_only_grows::<A, I>();
    refusals_change_nothing::<A>();
    servers_grow::<A>();
}

/// Proves that an honest run keeps all promises without further premises. In an honest run no bytes
/// are forged before or during the run, and the packer and the indexer are faithful.
pub fn honest_runs_keep_all<A: Allocator + Copy, K: Faithful<A>>(tools: &K)
    ensures { HonestRunsKeepAll {A = A} (tools_of (K.packs tools.now) (K.pack_fails tools.now)
        K.indexes K.index_fails) }
{
    faithful_lose_nothing::<A, K>(tools);
}

/// Proves that each step preserves `AreEndsConnected`: no object of the server is missing, and each
/// ref of the client is connected. The premise is that after the step refs are sorted and the
/// session is valid. This premise does not follow from the definition of a step.
pub fn ends_stay_connected<A: Allocator + Copy, P: Packer<A>, I: KeepingIndexer<A>>()
    ensures { (packer : P) → EndsStayConnected (tools_of (P.packs packer) (P.pack_fails packer)
        I.indexes I.index_fails) }
{
    taking_only_grows::<A, I>();
    refusals_change_nothing::<A>();
    servers_grow::<A>();
    closed_stays::<A>();
    connected_repo_stays::<A>();
    settling_stays_connected::<A>();
    setting_stays_connected::<A>();
}

/// Proves that a new world is sound. Each run from a sound world that satisfies `AreEndsConnected`
/// keeps its promises, and the last world of the run is also sound and satisfies
/// `AreEndsConnected`.
pub fn runs_keep_promises<A: Allocator + Copy, P: Packer<A>, I: KeepingIndexer<A>>()
    ensures begins { (packer : P) → NewWorldsAreSound (tools_of (P.packs packer) (P.pack_fails packer)
        I.indexes I.index_fails) }
    ensures keeps { (packer : P) → RunsKeepPromises (tools_of (P.packs packer) (P.pack_fails packer)
        I.indexes I.index_fails) }
{
    steps_keep::<A, P, I>();
    ends_stay_connected::<A, P, I>();
}

/// Proves that a new session whose tips reach N ids can settle after at most N + 2 rounds. The
/// premises are that no bytes were forged, that the packer and the indexer are faithful, that each
/// reply of these rounds arrives complete, and that no event fails. The event `Settle` then makes
/// every allowed update of refs, unless there would be too many refs or the client is out of
/// memory.
pub fn fetches_complete<A: Allocator + Copy, P: Packer<A>, I: KeepingIndexer<A>>()
    ensures { (packer : P) → FetchesComplete (tools_of (P.packs packer) (P.pack_fails packer)
        I.indexes I.index_fails) }
{
    steps_keep::<A, P, I>();
    graphs_only_grow::<A, P, I>();
    rounds_are_few::<A>();
    counts_stay::<A>();
    reached_are_counted::<A>();
}

/// Proves that an event of a round fails only because of a limit, for lack of memory, or because
/// the name of a local ref would be invalid. The premises are that no bytes were forged, and that
/// the packer and the indexer are faithful.
pub fn only_limits_refuse<A: Allocator + Copy, P: Packer<A>, I: KeepingIndexer<A>>()
    ensures { (packer : P) → OnlyLimitsRefuse (tools_of (P.packs packer) (P.pack_fails packer)
        I.indexes I.index_fails) }
{}

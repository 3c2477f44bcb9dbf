//! Laws of sessions. Each function does nothing, and its contract states a proved property. The
//! laws do not cover `accept_refs`, `accept_objects` and `refuse`.

ghost use Rattle.std.specs.Prelude.{◌≡◌};
ghost use Rattle.gsession.specs.Bounds.{BeganBegins, BeganStays, BeganStaysOn, BeginsCounted, BeginsOffered, CountedAreFew, CountedStays, DoneAsksLast, LastStays, NoneFollows, OfferedStays, OffersAreNew, RoundsAreFew};
ghost use Rattle.gsession.specs.Laws.{EachDoes, FirstIsAsked, OpenIsTheSessions, AsksAreOfLines, CommonsAreHaves, EachGoesOn, HavesAreConnected, HavesAreNew, ListingIsDecided, OneNext, OptionsAreAsked, OverHearsNone, OverRequestsNone, OverSettlesNone, OverTakesNoRefs, OverTakesNoReply, RepliesAddCommons, TakingOnlyGrows, WantsAreExact};
ghost use Rattle.gsession.specs.Offering.{OffersStay};
ghost use Rattle.gsession.specs.TakingReplies.{DoneIsLast, TakingIsDecided};
ghost use Rattle.gsession.specs.Sessions.{max_specs};

use crate::MAX_SPECS;
use gfetchreply::laws::reads_exactly;
use ggraph::KeepingIndexer;
use ggraph::graph_laws::{
    connected_stays_connected, distinct_are_once, growing_keeps, offers_are_exact,
    reached_are_counted, reaching_goes_on,
};
use std::alloc::Allocator;

/// Proves that `MAX_SPECS` equals the limit `max_specs` of the specifications.
pub fn limits_are_the_constants()
    ensures { MAX_SPECS ≡ max_specs }
{}

// ---- the number of a session's requests for objects

/// Proves that a new session on a connected repository satisfies `BeganOn` with the repository's
/// graph: the tips of the session are connected in the graph, and the session has offered only ids
/// that the tips reach.
pub fn began_begins<A: Allocator + Copy>()
    ensures { BeganBegins A }
{
    distinct_are_once();
}

/// Proves that `BeganOn` still holds for a session after its next request, if the graph only gained
/// objects. The session thus offers only ids that its tips reached when the session began.
pub fn began_stays<A: Allocator + Copy>()
    ensures { BeganStays A }
{
    offers_are_exact::<A>();
    growing_keeps::<A>();
    connected_stays_connected::<A>();
}

/// Proves that `BeganOn` still holds for a session after every call, successful or not, if the
/// graph only gained objects.
pub fn began_stays_on<A: Allocator + Copy, K: KeepingIndexer<A>>()
    ensures { BeganStaysOn K.indexes K.index_fails }
{
    began_stays::<A>();
}

/// Proves that the session offered each common id, and each have of the open request, in one of its
/// batches.
pub fn names_were_offered<A: Allocator + Copy, K: KeepingIndexer<A>>()
    ensures begins { BeginsOffered A }
    ensures stays { OfferedStays K.indexes K.index_fails }
{
    distinct_are_once();
}

/// Proves that each request for objects that lacks `done` has a have that the session did not offer
/// before.
pub fn offers_are_new<A: Allocator + Copy>()
    ensures { OffersAreNew A }
{
    offers_are_exact::<A>();
}

/// Proves that a session that accepted the reply to a request with `done` can settle, and makes no
/// more requests.
#[tactic(auto, using(crate::proofs::LawLemmas::done_is_last))]
pub fn done_is_last<A: Allocator + Copy, K: KeepingIndexer<A>>()
    ensures { DoneIsLast K.indexes K.index_fails }
{}

/// Proves that no request follows a request with `done`, even if later calls fail.
#[tactic(auto, using(crate::proofs::BoundLemmas::done_laws))]
pub fn none_follows_done<A: Allocator + Copy, K: KeepingIndexer<A>>()
    ensures last { DoneAsksLast A }
    ensures stays { LastStays K.indexes K.index_fails }
    ensures none { NoneFollows A }
{}

/// Proves that a session has made at most as many requests for objects as it has offered ids, or
/// one more if it has made its last request.
pub fn requests_are_counted<A: Allocator + Copy, K: KeepingIndexer<A>>()
    ensures begins { BeginsCounted A }
    ensures stays { CountedStays K.indexes K.index_fails }
{
    offers_are_exact::<A>();
}

/// Proves that a session makes at most N + 1 requests for objects, if its tips reach N ids in the
/// graph with which it began.
pub fn rounds_are_few<A: Allocator + Copy>()
    ensures { RoundsAreFew A }
{
    reached_are_counted::<A>();
}

/// Proves that a session makes at most N + 1 requests for objects, if it satisfies the bound of
/// [`requests_are_counted`] (`IsCounted`), and its tips reach N ids in the graph with which it
/// began.
pub fn counted_are_few<A: Allocator + Copy>()
    ensures { CountedAreFew A }
{
    reached_are_counted::<A>();
}

// ---- the state that calls keep, and the replies that they accept

/// Proves that no call changes the tips or the parameters of a session, and that every call keeps
/// all offered ids.
pub fn calls_go_on<A: Allocator + Copy, K: KeepingIndexer<A>>()
    ensures { EachGoesOn K.indexes K.index_fails }
{}

/// Proves that every call has one of the effects that `Does` lists, for example a new request or
/// the end of the session.
pub fn calls_do<A: Allocator + Copy, K: KeepingIndexer<A>>()
    ensures { EachDoes K.indexes K.index_fails }
{}

/// Proves that an open request for objects has the session's wants, and that its haves include each
/// common id. If the request has haves and no `done`, the session has made at most as many requests
/// for objects as it has offered ids.
#[tactic(auto, using(crate::proofs::SessionLemmas::open_fetch))]
pub fn open_is_the_sessions<A: Allocator + Copy>()
    ensures { OpenIsTheSessions A }
{}

/// Proves that exactly one update is requested for each local ref to which a refspec maps a line of
/// the reply. The first refspec that maps a line to this ref, and the first line that this refspec
/// maps to the ref, determine the update.
#[tactic(auto, using(crate::proofs::AskLemmas::first_is_asked))]
pub fn first_is_asked<A: Allocator + Copy>()
    ensures { FirstIsAsked A }
{}

/// Proves that each requested update comes from applying one refspec to one line of the reply.
#[tactic(auto, using(crate::proofs::AskLemmas::asks_are_of_lines))]
pub fn asks_are_of_lines<A: Allocator + Copy>()
    ensures { AsksAreOfLines A }
{}

/// Proves that the wants are exactly the requested ids that are not connected.
pub fn wants_are_exact<A: Allocator + Copy>()
    ensures { WantsAreExact A }
{
    distinct_are_once();
}

/// Proves that the session and the graph determine the next request, and the state of the session
/// after the request.
pub fn one_next<A: Allocator + Copy>()
    ensures { OneNext A }
{
    offers_are_exact::<A>();
}

/// Proves that a request for objects has `ofs-delta` exactly if the session's option `ofs_delta` is
/// true. The request has `no-progress` exactly if the option `progress` is false.
#[tactic(auto, using(crate::proofs::NextLaws::options_are_asked))]
pub fn options_are_asked<A: Allocator + Copy>()
    ensures { OptionsAreAsked A }
{}

/// Proves that the haves of a request are connected, if the tips and the common ids are connected.
/// Each have is a common id, or was not offered before.
pub fn haves_are_held<A: Allocator + Copy>()
    ensures connected { HavesAreConnected A }
    ensures fresh { HavesAreNew A }
{
    offers_are_exact::<A>();
    reaching_goes_on::<A>();
}

/// Proves that the walk that selects haves remains valid after a reply with only acknowledgments.
pub fn offers_stay<A: Allocator + Copy, K: KeepingIndexer<A>>()
    ensures { OffersStay K.indexes K.index_fails }
{
    distinct_are_once();
}

/// Proves that the common ids after a reply are the old common ids and the acknowledged ids. After
/// every call, each common id was common before the call, or was a have of the open request.
pub fn commons_are_haves<A: Allocator + Copy, K: KeepingIndexer<A>>()
    ensures replies { RepliesAddCommons K.indexes K.index_fails }
    ensures calls { CommonsAreHaves K.indexes K.index_fails }
{
    distinct_are_once();
}

/// Proves that a reply, accepted or rejected, only adds objects to the graph, and leaves refs and
/// marks unchanged.
#[tactic(auto, using(crate::proofs::LawLemmas::taking_only_grows))]
pub fn taking_only_grows<A: Allocator + Copy, K: KeepingIndexer<A>>()
    ensures { TakingOnlyGrows K.indexes K.index_fails }
{}

/// Proves that the bytes of a fetch reply, and the result of reading the reply, determine the next
/// state of the session. This state does not depend on the objects that the indexer returns.
#[tactic(auto, using(crate::proofs::LawLemmas::taking_is_decided))]
pub fn taking_is_decided<A: Allocator + Copy, K: KeepingIndexer<A>>()
    ensures { TakingIsDecided K.indexes K.index_fails }
{
    reads_exactly();
}

/// Proves that the bytes of an ls-refs reply, and the result of reading the reply, determine the
/// next state of the session.
#[tactic(auto, using(crate::proofs::LawLemmas::listing_is_decided))]
pub fn listing_is_decided<A: Allocator + Copy>()
    ensures { ListingIsDecided A }
{
    glsreply::laws::reads_exactly();
}

/// Proves that each call of a session that is over fails with `NoOpenRequest`, reads nothing and
/// changes nothing.
#[tactic(auto, using(crate::proofs::LawLemmas::over_laws))]
pub fn over_refuses<A: Allocator + Copy, K: KeepingIndexer<A>>()
    ensures hear { OverHearsNone A }
    ensures request { OverRequestsNone A }
    ensures take_ls { OverTakesNoRefs A }
    ensures take_reply { OverTakesNoReply K.indexes K.index_fails }
    ensures settle { OverSettlesNone A }
{}

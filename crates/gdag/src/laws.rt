//! The laws of graphs. Each function does nothing at run time, and its contract states the law. An
//! id is connected if the graph contains every id that it reaches. Two graphs agree if each id that
//! both contain has the same node in both.

ghost use Rattle.std.specs.Prelude.{◌≡◌};
ghost use Rattle.gdag.specs.Laws.{EntriesComeInOrder, OneCause, OneRefusal, WholeListsComeIn, ClosedIsConnected, ReachingGoesOn, ConnectedStaysConnected, PathsAreShared, GrowingKeeps, GrowingGoesOn, ComingGrows, HoldingIsANode, KeepingHolds, KeepingReaches, AgreeingStays, AgreeingEntriesFit, PeelsToOne, PeelsAlongTags, OrderedIsClosed, ReachingGoesDown, ClosedStays, PositionsAreNodes, OneListToSend, SentAreEntries, SendingIsEnough, KeepingHasAll, ReachedAreCounted, CountsStay, LevelsAreDistances, LevelsAreReached, OffersAreExact, CommonsAreHeld, DistinctAreOnce};
ghost use Rattle.gdag.specs.Graphs.{max_nodes};

use crate::MAX_NODES;
use std::alloc::Allocator;

/// Proves that [`MAX_NODES`] equals `max_nodes`, the limit in the specs.
pub fn limits_are_the_constants()
    ensures { MAX_NODES ≡ max_nodes }
{}

/// Proves that each entry of a graph could be appended to a graph that consists of the earlier
/// entries. The entry is valid, its id is new, and that graph is not full.
pub fn entries_come_in_order<A: Allocator + Copy>()
    ensures { EntriesComeInOrder A }
{}

/// Proves that there is only one possible fault for an entry that `Graph::insert` refuses. The
/// documentation of `Graph::insert_all` states the order in which faults are checked.
#[tactic(auto, using(crate::proofs::Refusing::one_cause))]
pub fn one_cause<A: Allocator + Copy>()
    ensures { OneCause A }
{}

/// Proves that a refused list of entries has only one possible fault, apart from `Memory`.
pub fn one_refusal<A: Allocator + Copy>()
    ensures { OneRefusal A }
{}

/// Proves that a list whose entries can all be inserted is refused only if memory runs out. The
/// graph after the insertion is unique.
pub fn whole_lists_come_in<A: Allocator + Copy>()
    ensures { WholeListsComeIn A }
{}

/// Proves that a graph is closed exactly when each id that it contains is connected.
pub fn closed_is_connected<A: Allocator + Copy>()
    ensures { ClosedIsConnected A }
{}

/// Proves that reachability is transitive: if `a` reaches `b` and `b` reaches `c`, then `a` reaches
/// `c`.
#[tactic(auto, using(crate::proofs::Reaching::reaches_on))]
pub fn reaching_goes_on<A: Allocator + Copy>()
    ensures { ReachingGoesOn A }
{}

/// Proves that if a graph keeps all its nodes when it changes, a connected id stays connected and
/// reaches no further ids.
pub fn connected_stays_connected<A: Allocator + Copy>()
    ensures { ConnectedStaysConnected A }
{}

/// Proves a law of two graphs that agree. If an id is connected in the second graph, each path from
/// that id in the first graph is also a path in the second.
#[tactic(auto, using(crate::proofs::Sharing::path_shared))]
pub fn paths_are_shared<A: Allocator + Copy>()
    ensures { PathsAreShared A }
{}

/// Proves that a graph keeps its nodes when entries are appended.
#[tactic(auto, using(crate::proofs::Growing::grows_keeps))]
pub fn growing_keeps<A: Allocator + Copy>()
    ensures { GrowingKeeps A }
{}

/// Proves that growth is transitive. If graph `g` is `f` with entries appended, and `h` is `g` with
/// entries appended, then `h` is `f` with entries appended.
#[tactic(auto, using(crate::proofs::Growing::grows_on))]
pub fn growing_goes_on<A: Allocator + Copy>()
    ensures { GrowingGoesOn A }
{}

/// Proves that after an entry is inserted, a graph is the old graph with zero or more entries
/// appended.
#[tactic(auto, using(crate::proofs::Growing::comes_grows))]
pub fn coming_grows<A: Allocator + Copy>()
    ensures { ComingGrows A }
{}

/// Proves that a graph has a node for each id that it contains.
#[tactic(auto, using(crate::proofs::Holding::held_node))]
pub fn holding_is_a_node<A: Allocator + Copy>()
    ensures { HoldingIsANode A }
{}

/// Proves that a graph that keeps all its nodes still contains each id that it contained before.
#[tactic(auto, using(crate::proofs::Growing::keeps_held))]
pub fn keeping_holds<A: Allocator + Copy>()
    ensures { KeepingHolds A }
{}

/// Proves that in a graph that keeps all its nodes, an id still reaches every id that it reached
/// before.
#[tactic(auto, using(crate::proofs::Growing::keeps_reaching))]
pub fn keeping_reaches<A: Allocator + Copy>()
    ensures { KeepingReaches A }
{}

/// Proves that two graphs that agree still agree after entries are inserted into the second. The
/// first graph must have no different node for the id of an inserted entry.
#[tactic(auto, using(crate::proofs::Sharing::agree_inserted))]
pub fn agreeing_stays<A: Allocator + Copy>()
    ensures { AgreeingStays A }
{}

/// Proves that if two graphs agree, inserting entries of the first into the second fails only with
/// `TooMany` or `Memory`. The inserted entries must form a valid graph of the second graph's
/// format.
pub fn agreeing_entries_fit<A: Allocator + Copy>()
    ensures { AgreeingEntriesFit A }
{}

/// Proves that an id peels to at most one commit.
pub fn peels_to_one<A: Allocator + Copy>()
    ensures { PeelsToOne A }
{}

/// Proves that peeling follows only tags, and that an id reaches the commit to which it peels.
#[tactic(auto, using(crate::proofs::Sharing::peels_along_tags))]
pub fn peels_along_tags<A: Allocator + Copy>()
    ensures { PeelsAlongTags A }
{}

/// Proves that a graph is closed if each entry comes after its parents.
pub fn ordered_is_closed<A: Allocator + Copy>()
    ensures { OrderedIsClosed A }
{}

/// Proves that if each entry of a graph comes after its parents, an id of the graph reaches only
/// ids of the graph. A reached id has the same or a lower position.
#[tactic(auto, using(crate::proofs::Ordering::reaching_down))]
pub fn reaching_goes_down<A: Allocator + Copy>()
    ensures { ReachingGoesDown A }
{}

/// Proves that a closed graph stays closed when an entry is added and the graph contains all
/// parents of that entry.
pub fn closed_stays<A: Allocator + Copy>()
    ensures { ClosedStays A }
{}

/// Proves that `Graph::node`, `Graph::position` and `Graph::at` agree. Each id of the graph has
/// exactly one position, and the entry at that position has the id's node.
pub fn positions_are_nodes<A: Allocator + Copy>()
    ensures { PositionsAreNodes A }
{}

/// Proves that the graph, the wants, the common ids and the tips determine the list to send, which
/// is the list of entries that a server sends in a pack.
#[tactic(auto, using(crate::proofs::Choosing::one_choice))]
pub fn one_list_to_send<A: Allocator + Copy>()
    ensures { OneListToSend A }
{}

/// Proves that the entries of a list to send form a valid graph in the format of the sender's
/// graph, and may be packed. The sender's graph maps the id of each entry to the entry's node.
pub fn sent_are_entries<A: Allocator + Copy>()
    ensures { SentAreEntries A }
{
    gname::laws::ids_have_one_format();
}

/// Proves that the wants are connected in a client's graph after the client inserts the list that a
/// server sends. The client's graph then contains every id that the wants reach in the server's
/// graph. The server's graph must be closed and contain the wants. The two graphs must agree, and
/// the common ids must be connected in the client's graph.
pub fn sending_is_enough<A: Allocator + Copy>()
    ensures { SendingIsEnough A }
{}

/// Proves that after a server's graph gains nodes, a client's graph still contains every id that
/// the wants reach in the server's graph. The client's graph must have contained these ids before
/// the change, and the wants must be connected in the client's graph. The server's graph must have
/// been closed, and must have contained the wants.
pub fn keeping_has_all<A: Allocator + Copy>()
    ensures { KeepingHasAll A }
{}

/// Proves a bound on a list of distinct ids, each of which the graph contains and a tip reaches.
/// The list is at most as long as the number of all such ids.
pub fn reached_are_counted<A: Allocator + Copy>()
    ensures { ReachedAreCounted A }
{}

/// Proves that if the tips are connected, adding objects to the graph changes neither the number of
/// ids that the tips reach nor the total number of their parents.
#[tactic(auto, using(crate::proofs::Counting::counts_stay))]
pub fn counts_stay<A: Allocator + Copy>()
    ensures { CountsStay A }
{}

/// Proves that level `k` of a search from the tips has exactly the ids at distance `k` from the
/// tips. The distance of an id is the length of the shortest path from a tip to that id. Each step
/// of a path leads from an object to a parent. Each id occurs at most
/// once in all levels together. All levels together have at most as many ids as there are tips and
/// parents, so only finitely many levels have ids.
pub fn levels_are_distances<A: Allocator + Copy>()
    ensures { LevelsAreDistances A }
{}

/// Proves that an id is in some level of a search from the tips exactly when one of the tips
/// reaches that id.
pub fn levels_are_reached<A: Allocator + Copy>()
    ensures { LevelsAreReached A }
{}

/// Proves that the offer, which is the list of at most `n` ids that a client sends as haves, is
/// unique. An id may be offered if the graph contains it, no common id reaches it, and it was not
/// sent before. The ids of the offer are distinct, may be offered, and are reachable from a tip. An
/// offer of fewer than `n` ids contains every id that may be offered and is reachable from a tip.
#[tactic(auto, using(crate::proofs::OfferLaws::offers_are_exact))]
pub fn offers_are_exact<A: Allocator + Copy>()
    ensures { OffersAreExact A }
{}

/// Proves that the common ids are exactly the haves that the graph contains, without repetition.
pub fn commons_are_held<A: Allocator + Copy>()
    ensures { CommonsAreHeld A }
{}

/// Proves that the distinct ids of a list are the ids of the list, without repetition, in the order
/// of their first occurrences.
pub fn distinct_are_once()
    ensures { DistinctAreOnce }
{}

//! Laws of a client's conversation. Each function does nothing, and its contract states a proved
//! property.

ghost use Rattle.gfetch.specs.Laws.{DialoguesAreTurns, EndsAreFew, FailingKeepsRefs, FetchingGrows, NextIsFew, RoundsAreAsked, TalksAreFew};

use ggraph::KeepingIndexer;
use gsession::laws::{
    began_begins, began_stays_on, calls_go_on, counted_are_few, requests_are_counted,
};
use std::alloc::Allocator;

/// Proves that a client's dialogue is a conversation of turns, as long as it continues. The client
/// received the advertisement and the replies of the turns. It sent the requests of the turns, and
/// another request. The indexer keeps each object that the graph gained.
pub fn dialogues_are_turns<A: Allocator + Copy, K: KeepingIndexer<A>>()
    ensures { DialoguesAreTurns K.indexes K.index_fails K.keeps }
{}

/// Proves that a session counts as many rounds as its conversation has requests for objects.
pub fn rounds_are_asked<A: Allocator + Copy, K: KeepingIndexer<A>>()
    ensures { RoundsAreAsked K.indexes K.index_fails }
{}

/// Proves that a conversation has at most N + 1 requests for objects, if the local refs reached N
/// ids when the conversation began. The bound holds for any bytes from the server, and also for a
/// failed conversation.
pub fn requests_are_few<A: Allocator + Copy, K: KeepingIndexer<A>>()
    ensures talks { TalksAreFew K.indexes K.index_fails }
    ensures next { NextIsFew K.indexes K.index_fails }
    ensures ends { EndsAreFew K.indexes K.index_fails }
{
    began_begins::<A>();
    began_stays_on::<A, K>();
    calls_go_on::<A, K>();
    counted_are_few::<A>();
    requests_are_counted::<A, K>();
}

/// Proves that during a conversation, completed or failed, the graph of the repository only gains
/// objects. A failed conversation leaves the refs unchanged.
pub fn fetching_only_grows<A: Allocator + Copy, K: KeepingIndexer<A>>()
    ensures grows { FetchingGrows K.indexes K.index_fails }
    ensures refs { FailingKeepsRefs K.indexes K.index_fails }
{}

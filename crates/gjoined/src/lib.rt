//! A fetch over two joined ends is a run of a world. The ends are a client that fetches and a
//! server. Each end can read exactly the bytes that the other wrote.
//!
//! # Proved
//!
//! Consider a fetch of `gfetch` with the default options, and a conversation of a server of
//! `gserver` ([`fetches_are_runs`]).
//!
//! - **A fetch that succeeds is a run of a world** (`FetchesAreRuns` in `specs/Joined.antt`). The
//!   world (`gworld`) is made of the same server and the same client repository. The events are
//!   `Begin`, then `Ask`, `Serve` and `Deliver` for each request, and at the end `Settle`. No event
//!   fails, and each reply arrives complete. The last world has the repository that the fetch left.
//!   The outcome of `Settle` counts the ref updates of the fetch.
//! - The run has the messages that were exchanged. The client wrote the requests of the run and a
//!   lone flush packet. It read the advertisement and the replies of the run, and nothing more.
//! - **Any fetch left the repository that some run left**, whatever its result (`AnyFetchIsARun`).
//!   The run has the events of a fetch, perhaps without `Settle`, or no events. The client's output
//!   begins with the requests of the run, and the server's with the advertisement and the replies.
//! - All promises of a world's steps hold for these runs, if the two ends can start a world. They
//!   can if they have one object format, and no object differs under the same id.
//! - The server's conversation may have any end. The client or its input ended it, or the server
//!   refused a request, ran out of memory or could not write.
//!
//! # What the laws leave open
//!
//! - A session of a world has the default pack options and size limit, and replies that end with a
//!   flush packet. The laws do not cover other fetches, listings, or the `git://` transport.
//! - For a failed fetch that left the repository unchanged, the second law also permits the run
//!   without events. The law does not relate the fault of a fetch to the outcomes of the run.
//! - The premise is about whole conversations, whose bytes are known at both ends. A socket does
//!   not record its bytes. The laws do not say when bytes arrive, or which bytes a failed fetch
//!   read.
//!
//! No program of this repository uses this crate, and it has no tests.
//!
//! # Dependencies
//!
//! `gworld` defines worlds and their runs, and `gscenario` their events. `gfetch` and `gsession`
//! define a client's fetch, and `gclientrepo` its repository. `gserver` and `ganswer` define the
//! server's conversation. `grequest`, `glsreply`, `gfetchreply`, `ghello` and `ggrammar` define
//! messages, and `gpkt` packets. `ggraph`, `gdag` and `gobject` define objects, packers and
//! indexers, `grefs` refspecs, and `gname` names and ids.
#![tactic(auto)]

ghost use Rattle.gworld.specs.Worlds.{tools_of};
ghost use Rattle.gjoined.specs.Joined.{JoinedFetchesAreRuns};

use ganswer::laws::{adverts_welcome, fetch_answers_fit, ls_answers_fit};
use ggrammar::laws::messages_are_read;
use ggraph::graph_laws::{distinct_are_once, offers_are_exact, positions_are_nodes};
use ggraph::{KeepingIndexer, Packer};
use gmsg::laws::replies_differ;
use gname::laws::{ids_have_one_format, ids_have_texts};
use gpkt::laws::{canonical_spells, has_four_bytes, one_begins, one_reading, spellings_join};
use gworld::laws::{ends_stay_connected, runs_keep_promises};
use std::alloc::Allocator;

/// Proves that a fetch over two joined ends is a run of the world of the same server and client, if
/// the fetch succeeds. Each end can read exactly the bytes that the other wrote. Any fetch,
/// successful or not, left the repository that some run of this world left.
pub fn fetches_are_runs<A: Allocator + Copy, P: Packer<A>, I: KeepingIndexer<A>>()
    ensures { (packer : P) → JoinedFetchesAreRuns (tools_of (P.packs packer) (P.pack_fails packer)
        I.indexes I.index_fails) }
{
    canonical_spells();
    spellings_join();
    one_begins();
    has_four_bytes();
    one_reading();
    messages_are_read();
    ids_have_one_format();
    ids_have_texts();
    distinct_are_once();
    positions_are_nodes::<A>();
    offers_are_exact::<A>();
    ghello::laws::canonical_says();
    grequest::laws::canonical_says();
    grequest::laws::one_meaning();
    glsreply::laws::canonical_says();
    glsreply::laws::one_meaning();
    glsreply::laws::prefix_free();
    gfetchreply::laws::canonical_says();
    gfetchreply::laws::other_readings();
    replies_differ();
    adverts_welcome();
    ls_answers_fit::<A>();
    fetch_answers_fit::<A, P>();
    ends_stay_connected::<A, P, I>();
    runs_keep_promises::<A, P, I>();
}

//! Simulates a Git server and a client that fetches from it (gitprotocol-v2(5)). The caller gives
//! the list of events. Messages can be lost, repeated, late, truncated or forged. Objects and refs
//! can change at either end, and either end can restart. A [`World`] has a server and a client, and
//! stores each sent request and each reply. An [`Event`] happens to a world, and an [`Outcome`] is
//! the result of an event.
//!
//! # Proved
//!
//! - [`World::new`] returns a world with exactly the given server, client repository, packer and
//!   indexer. A new world has no session, no messages and no forged bytes. `World::new` fails with
//!   `TwoFormats` exactly when the two repositories have different object formats. Otherwise
//!   `World::new` fails with `Disagree` exactly when server and client hold different objects under
//!   the same id. The fault gives the first such id, in the order of the server's objects.
//! - [`World::run`] executes the events in order, and returns the outcome of each event. `Step`
//!   (specs/Events.antt) defines the effect and the outcome of an event. If there is no memory for
//!   the world's own lists or buffers, the run stops before an event, and returns the earlier
//!   outcomes. The run stops only before an event that needs memory (`NeedsMemory`,
//!   specs/Runs.antt). An event that fails at once with fault 83 (`NoOpenRequest`), 90 (`Disagree`)
//!   or 93 (no such index) needs no memory.
//! - A [`KeepingWorld`] has a client whose indexer keeps objects in a store. The indexer keeps each
//!   object of the client's repository in each world of a run, even after forged bytes
//!   ([`KeepingWorld::run`], [`laws::kept_runs_keep`]). The indexer still keeps all that it kept
//!   before the run. The event `ClientAdd` fails with 98 (`NotKept`) if the indexer does not keep
//!   the object's id.
//! - **Each ref of the client is connected, for any outcomes, any forged bytes, and any packer and
//!   indexer.** A ref is connected if the client holds its whole history. The session makes at most
//!   N + 1 requests for objects, if the client's refs reached N ids when the session began. If no
//!   bytes were forged, server and client both hold the id of each acknowledged have.
//! - The following promises hold if no bytes were forged, and if the packer and the indexer are
//!   faithful. A faithful indexer reads back exactly the objects that the packer packed. After the
//!   client accepts a pack, the wants of the pack's request are connected, even if the pack answers
//!   an older request. The client accepts a complete reply to the open fetch request, unless the
//!   reply exceeds a limit or the client is out of memory. The server serves each sent request,
//!   unless the pack is too large or the server is out of memory. A session can settle (`Settle`)
//!   once it has accepted the pack of a complete reply to its request. Settling makes every allowed
//!   update of refs, unless there would be too many refs or the client is out of memory. `Promises`
//!   (specs/Promises.antt) has a definition for each promise. A reply to an older request ends the
//!   session, or adds only the objects of that request.
//! - Even after forged bytes, the client accepts a complete reply to the open ls-refs request.
//!   There are three exceptions: an invalid name of a local ref, too many wants, and lack of
//!   memory. A session without wants can settle too.
//! - **At all times** ([`laws::fronts_are_runs`], [`laws::refs_are_always_connected`]): a prefix of
//!   a run is a run, and the client's refs are connected in each world of a run.
//! - **Nothing is lost** ([`laws::graphs_only_grow`], [`laws::others_leave_refs`],
//!   [`laws::refusals_leave_both_ends`]): both graphs only grow. Only `Settle` and `ClientRef` move
//!   refs of the client. Only `ServerAdd` and `ServerRef` change the server. An event that fails
//!   changes neither the server nor the client's repository.
//! - **Honest runs** ([`laws::honest_runs_keep_all`]): each step keeps all promises if no event
//!   forges bytes and the packer and the indexer are faithful.
//! - **A fetch completes** ([`laws::fetches_complete`]): a session makes at most N + 2 requests,
//!   and can then settle. N is the number of ids that the client's refs reached when the session
//!   began. Settling makes every allowed update of refs, unless there would be too many refs or the
//!   client is out of memory. The law assumes that no bytes were forged, and that the packer and
//!   the indexer are faithful. The law also assumes that each reply arrives complete, and that no
//!   event fails. An event of a fetch fails only because of a limit, for lack of memory, or because
//!   the name of a local ref would be invalid ([`laws::only_limits_refuse`]).
//! - The promises follow from the definition of a step, if a run starts in a sound world that
//!   satisfies `AreEndsConnected` ([`laws::runs_keep_promises`]). The only premise about the later
//!   worlds of the run is an invariant of their types: refs are sorted by name, and sessions are
//!   valid.
//! - Each fault has the number, the name and the text of its row in `specs/Faults.antt`. No call
//!   panics, overflows or reads out of bounds, and each call returns.
//!
//! # Only tested
//!
//! No call reports out of memory while enough memory is available.
//!
//! # What the contracts do not rule out
//!
//! The events `Deliver` and `Forge` of a `KeepingWorld` may make the indexer keep more ids.
//!
//! A run may stop with `Memory` although memory is available, before its first event or before any
//! event that needs memory. An event that allocates may report out of memory although memory is
//! available. The lists of requests and replies may use the allocator of either end. The contracts
//! limit neither the time of a call nor the memory that a call takes. Formatting a fault may return
//! `fmt::Error` even if every write succeeds.
//!
//! # Dependencies
//!
//! The crate uses `gscenario` for events, `gsession` and `gclientrepo` for the client, and `gserve`
//! and `ganswer` for the server. The crate uses `gmsg` and its dependencies for messages, `gpkt`
//! for packets, and `ggraph` and `gdag` for graphs. The crate uses `gobject` for objects, packers
//! and indexers, `grefs` for refspecs and refs, and `gname` for ids and ref names.
#![tactic(auto)]

mod fault;
mod incoming;
mod keeping_world;
pub mod laws;
mod outcome;
mod parts;
mod world;

pub use crate::fault::{RunFault, WorldFault};
pub use crate::keeping_world::KeepingWorld;
pub use crate::outcome::Outcome;
pub use crate::world::World;
pub use gscenario::{Event, Scenario, ScenarioFault};

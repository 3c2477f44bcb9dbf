//! Worlds whose client has a complete store in memory. After any events each ref of the client is
//! complete.
//!
//! # Proved
//!
//! - Suppose a client keeps the ids and types of its objects in a `gitmemory::MemoryIndexer`. Then
//!   each ref of the client is complete after any events ([`run_complete`]). The store has the id
//!   of each commit, tree, blob and tag that the ref reaches. Messages may be lost, repeated, late,
//!   truncated or forged.
//! - No call panics, overflows or reads out of bounds, and every call returns.
//!
//! # What the contracts do not rule out
//!
//! - The clauses are about each closed store of objects with the kept ids and types. At least one
//!   exists, but no contract says that its bytes arrived. A gitlink is no link.
//! - The promises of `gworld` for honest runs do not apply, because no contract rules out that
//!   honest packs are refused.
//!
//! No program of this repository uses this crate, and it has no tests.
//!
//! # Dependencies
//!
//! `gworld` defines worlds, and `gitmemory` defines the store. `gcomplete` defines complete stores,
//! `gdag` and `gobject` define objects and packers, and `gname` defines ids.
#![tactic(auto)]

ghost use Rattle.std.specs.Prelude.{◌≡◌, ⊤, All, MatchResult};
ghost use Rattle.std.specs.Map.{values_of};
ghost use Rattle.gname.specs.Ids.{Id};
ghost use Rattle.gcomplete.specs.Batches.{AreJudged, HasJudged};
ghost use Rattle.gcomplete.specs.Closed.{IsComplete};
ghost use Rattle.gcomplete.specs.Judging.{IsKept};
ghost use Rattle.gcomplete.specs.Stores.{Store};
ghost use Rattle.gworld.specs.KeepingWorlds.{KeptNeedsMemory, KeptPromises};
ghost use Rattle.gworld.specs.Promises.{AreRefsConnected};
ghost use Rattle.gworld.specs.Runs.{RunWith, RunsFront, outcomes_before};
ghost use Rattle.gworld.specs.Worlds.{tools_of};
ghost use Rattle.gitmemory.specs.Packs.{IsIndexed};

use gitmemory::MemoryIndexer;
use gobject::Packer;
use gworld::{Event, KeepingWorld, Outcome, RunFault};
use std::alloc::Allocator;

/// Executes events like [`KeepingWorld::run`]. Afterwards each ref of the client is complete in
/// every closed store with the kept ids and types. Each of these stores has each commit, tree, blob
/// and tag that the ref reaches.
///
/// Fails like [`KeepingWorld::run`]. Each ref is complete after a fault, too.
pub fn run_complete<P: Packer<A> + Drop, A: Allocator + Copy>(
    world: &mut KeepingWorld<P, MemoryIndexer<A>, A>,
    events: &[Event<A>],
) -> Result<Vec<Outcome, A>, RunFault<A>>
    ensures complete { (objects : Store) → AreJudged world.new.indexer.store objects
        → All (IsComplete objects) (values_of world.new.world.repo.refs) }
    ensures judged { HasJudged world.new.indexer.store }
    ensures stays { (id : Id) → IsKept world.old.indexer.store id
        → IsKept world.new.indexer.store id }
    ensures packer { world.new.packer ≡ world.old.packer }
    ensures connected_refs { AreRefsConnected world.new.world }
    ensures runs { MatchResult result
        (λ outcomes. RunWith (KeptPromises (tools_of (P.packs world.old.packer)
        (P.pack_fails world.old.packer) IsIndexed (λ _ _. ⊤))
        (λ indexer. IsKept indexer.store))
        world.old events.now outcomes.items world.new)
        (λ fault. RunsFront (KeptPromises (tools_of (P.packs world.old.packer)
        (P.pack_fails world.old.packer) IsIndexed (λ _ _. ⊤))
        (λ indexer. IsKept indexer.store)) KeptNeedsMemory
        world.old events.now (outcomes_before fault) world.new) }
{
    let result = world.run(events);
    // Laws that the proof uses.
    world.indexer().laws();
    result
}

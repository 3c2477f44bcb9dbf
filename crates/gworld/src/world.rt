//! A world, and its runs of events.

ghost use Rattle.std.specs.Prelude.{◌≡◌, MatchResult};
ghost use Rattle.gworld.specs.Promises.{AreRefsConnected, Promises};
ghost use Rattle.gworld.specs.Runs.{NeedsMemory, RunWith, RunsFront, outcomes_before};
ghost use Rattle.gworld.specs.Starts.{Starts};
ghost use Rattle.gworld.specs.Worlds.{tools_of};

use crate::fault::{RunFault, WorldFault};
use crate::outcome::Outcome;
use crate::parts::Parts;
use ganswer::Server;
use gclientrepo::Repo;
use ggraph::{Indexer, KeepsNothing, Packer};
use gscenario::Event;
use std::alloc::{Allocator, Global};
use std::marker::Model;

/// A server and a client that fetches from it, with all sent requests, all replies, a packer and an
/// indexer.
#[derive(Drop)]
pub struct World<K: Packer<A> + Indexer<A> + Drop, A: Allocator + Copy = Global> {
    parts: Parts<A>,
    tools: K,
}

impl<K: Packer<A> + Indexer<A> + Drop, A: Allocator + Copy> Model for World<K, A> {
    ghost use Rattle.gworld.specs.Sound.{IsSound};
    ghost use Rattle.gworld.specs.Worlds.{WorldOf, tools_of};

    ghost Value = { WorldOf A K };

    ghost view = { λ it. record { tools = it.tools; world = it.parts } };

    ghost invariant = { λ it. IsSound
        (tools_of (K.packs it.tools) (K.pack_fails it.tools) K.indexes K.index_fails) it.parts };
}

impl<K: Packer<A> + Indexer<A> + Drop, A: Allocator + Copy> World<K, A> {
    /// Makes a world from a server, a client's repository, and tools that implement a packer and an
    /// indexer.
    ///
    /// A new world has no session, no messages and no forged bytes. Fails with `TwoFormats` if the
    /// two repositories have different object formats. Otherwise fails with `Disagree` if server
    /// and client hold different objects under the same id. The fault gives the first id with
    /// different objects, in the order of the server's objects. Allocates nothing.
    pub fn new(server: Server<A>, repo: Repo<A>, tools: K) -> Result<World<K, A>, WorldFault>
        ensures { Starts server repo tools result }
    {
        let parts = Parts::new(server, repo)?;
        Ok(World { parts, tools })
    }

    /// Returns the client's repository.
    pub fn client(&self) -> &Repo<A>
        ensures { result.now ≡ self.now.world.repo }
    {
        self.parts.client()
    }

    /// Returns the server.
    pub fn server(&self) -> &Server<A>
        ensures { result.now ≡ self.now.world.server }
    {
        self.parts.server()
    }

    /// Executes the events, one after the other, and returns the outcome of each event.
    ///
    /// An event that fails has the outcome `Fault`, and the run continues with the next event. The
    /// numbers of the faults are:
    ///
    /// - `Begin`: 82 (`TooManySpecs`) for more than 16 refspecs, or 64 (`Memory`). The old session
    ///   remains.
    /// - `Ask`: 83 (`NoOpenRequest`) if there is no session or the session can't make a request, or
    ///   64 (`Memory`). Fault 64 ends the session.
    /// - `Serve`: 93 (no such index) if no sent request has this index, or 74 (`NotOurs`) if the
    ///   server does not hold a want. Otherwise 64 (`Memory`) if out of memory, or 65 (`Pack`) if
    ///   the packer fails. Fault 74 occurs only after forged bytes. The world is unchanged.
    /// - `Deliver`: 93 (no such index) if no kept reply has this index. The other faults are the
    ///   same as for `Forge`.
    /// - `Forge`: 83 (`NoOpenRequest`) if no request is open. Otherwise the fault with which the
    ///   client rejects the reply. This fault ends the session and leaves the refs unchanged. In
    ///   all cases the world counts as a world with forged bytes.
    /// - `StrangeRequest`: 28 (`NoBuffer`), 53 (`Memory`), 64 (`Memory`) or 65 (`Pack`) if the
    ///   server ran out of memory. The world is unchanged.
    /// - `Settle`: 83 (`NoOpenRequest`) if there is no session, or the session cannot settle yet.
    ///   The faults 85 (`NotConnected`), 69 (`Refs`) and 64 (`Memory`) end the session and leave
    ///   the refs unchanged.
    /// - `ServerAdd`, `ClientAdd`: 90 (`Disagree`) if the other end holds a different object under
    ///   the id. Otherwise 72 (`MissingParent`) if a parent is missing, and otherwise 75
    ///   (`OtherFormat`), 62 (`TooManyParents`), 63 (`TagShape`), 60 (`Conflict`), 61 (`TooMany`)
    ///   or 64 (`Memory`). The world is unchanged.
    /// - `ServerRef`: 71 (`RefMissing`) if the server does not hold the id. `ClientRef`: 81
    ///   (`NotHeld`) if the id is not connected. Otherwise both fail with 69 (`Refs`) or 64
    ///   (`Memory`). The world is unchanged.
    ///
    /// If there is not enough memory for one of the world's lists or for a buffer, the run stops
    /// with `Memory`. The fault `Memory` contains the outcomes of the completed events. The
    /// completed events keep their effects, and the next event has not begun. The run stops only
    /// before an event that needs memory. An event that would fail at once with fault 83, 90 or 93
    /// needs no memory. The list of outcomes is allocated before the first event. If that
    /// allocation fails, the run executes no event.
    ///
    /// `Promises` (specs/Promises.antt) defines the promises of each step. After any run each ref
    /// of the client is connected.
    pub fn run(&mut self, events: &[Event<A>]) -> Result<Vec<Outcome, A>, RunFault<A>>
        ensures tools { self.new.tools ≡ self.old.tools }
        ensures connected_refs { AreRefsConnected self.new.world }
        ensures runs { MatchResult result
            (λ outcomes. RunWith (Promises (tools_of (K.packs self.old.tools)
            (K.pack_fails self.old.tools)
            K.indexes K.index_fails))
            self.old.world events.now outcomes.items self.new.world)
            (λ fault. RunsFront (Promises (tools_of (K.packs self.old.tools)
            (K.pack_fails self.old.tools)
            K.indexes K.index_fails)) NeedsMemory
            self.old.world events.now (outcomes_before fault) self.new.world) }
    {
        let mut indexer = KeepsNothing::new(&self.tools);
        let result = self.parts.run_events(events, &self.tools, &mut indexer);
        // Laws that the proof uses.
        self.parts.laws();
        result
    }
}

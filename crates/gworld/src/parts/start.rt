//! The creation of a world.

ghost use Rattle.std.specs.Prelude.{◌≡◌, ◌≢◌, ◌<◌, length, MatchBool, MatchOption, MatchResult};
ghost use Rattle.gdag.specs.Reach.{Agree};
ghost use Rattle.gsession.specs.Keeping.{KeepsGraph};
ghost use Rattle.gworld.specs.KeepingWorlds.{IsFirstUnkept};
ghost use Rattle.gworld.specs.steps.Bringing.{AgreesAt, DisagreesAt, IsKeptAt, IsUnkeptAt};
ghost use Rattle.gworld.specs.Starts.{CanStart, CannotStart, IsFirstDisagreement};
ghost use Rattle.gworld.specs.Worlds.{new_world};

use super::Parts;
use super::changes::agrees;
use crate::fault::WorldFault;
use ganswer::Server;
use gclientrepo::Repo;
use ggraph::graph_laws::positions_are_nodes;
use ggraph::{FindingIndexer, Graph};
use gname::Oid;
use std::alloc::Allocator;

impl<A: Allocator + Copy> Parts<A> {
    /// Returns a new world with this server and this client's repository, or the reason why they
    /// can't form a world. Allocates nothing.
    pub(crate) fn new(server: Server<A>, repo: Repo<A>) -> Result<Parts<A>, WorldFault>
        ensures { MatchResult result
            (λ parts. (parts ≡ new_world server repo) × CanStart server repo)
            (λ fault. CannotStart server repo fault) }
    {
        match start_fault(&server, &repo) {
            Some(fault) => Err(fault),
            None => Ok(Parts::between(server, repo)),
        }
    }

    // Returns a new world of this server and this client's repository.
    fn between(server: Server<A>, repo: Repo<A>) -> Parts<A>
        ensures { result ≡ new_world server repo }
    {
        let alloc = repo.graph().allocator();
        Parts {
            server,
            repo,
            session: None,
            sent: Vec::new(alloc),
            kept: Vec::new(alloc),
            forged: false,
            answered: false,
        }
    }

    /// Returns the first id of the client's repository, in insertion order, that the indexer does
    /// not keep. Returns `None` if the indexer keeps each id.
    pub(crate) fn first_unkept<I: FindingIndexer<A>>(&self, indexer: &I) -> Option<Oid>
        ensures { MatchOption result
            (KeepsGraph (I.keeps indexer.now) self.now.repo.graph.entries)
            (IsFirstUnkept (I.keeps indexer.now) self.now.repo.graph.entries) }
    {
        first_unkept(self.repo.graph(), indexer)
    }

    /// Returns the client's repository.
    pub(crate) fn client(&self) -> &Repo<A>
        ensures { result.now ≡ self.now.repo }
    {
        &self.repo
    }

    /// Returns the server.
    pub(crate) fn server(&self) -> &Server<A>
        ensures { result.now ≡ self.now.server }
    {
        &self.server
    }
}

// Returns the reason why the server and the repository can't form a world, or `None` if they can.
fn start_fault<A: Allocator + Copy>(server: &Server<A>, repo: &Repo<A>) -> Option<WorldFault>
    ensures { MatchOption result (CanStart server.now repo.now) (CannotStart server.now repo.now) }
{
    if !have_one_format(server, repo) {
        return Some(WorldFault::TwoFormats);
    }
    match first_disagreement(server.graph(), repo.graph()) {
        Some(id) => Some(WorldFault::Disagree { id }),
        None => None,
    }
}

// Returns whether server and client have the same object format.
fn have_one_format<A: Allocator + Copy>(server: &Server<A>, repo: &Repo<A>) -> bool
    ensures { MatchBool result (repo.now.graph.format ≡ server.now.graph.format)
        (repo.now.graph.format ≢ server.now.graph.format) }
{
    repo.format() == server.graph().format()
}

// Returns the first of the server's ids, in insertion order, under which the client holds a
// different object. Returns `None` if there is no such id.
fn first_disagreement<A: Allocator + Copy>(server: &Graph<A>, client: &Graph<A>) -> Option<Oid>
    ensures { MatchOption result (Agree server.now.entries client.now.entries)
        (IsFirstDisagreement server.now.entries client.now.entries) }
{
    // Laws that the proof uses.
    positions_are_nodes::<A>();
    for place in 0..server.len() {
        if let Some(id) = disagreement_at(server, client, place) {
            return Some(id);
        }
    }
    None
}

// Returns the id at position `place` of the server's graph if the client holds a different object
// under that id, or `None` otherwise.
fn disagreement_at<A: Allocator + Copy>(
    server: &Graph<A>,
    client: &Graph<A>,
    place: usize,
) -> Option<Oid>
    requires { place < length server.now.entries }
    ensures { MatchOption result (AgreesAt server.now.entries client.now.entries place)
        (DisagreesAt server.now.entries client.now.entries place) }
{
    match server.at(place) {
        Some((id, node)) => {
            if agrees(client, id, node) {
                None
            } else {
                Some(*id)
            }
        }
        None => None,
    }
}

// Returns the first id of the graph, in insertion order, that the indexer does not keep. Returns
// `None` if the indexer keeps each id.
fn first_unkept<A: Allocator + Copy, I: FindingIndexer<A>>(
    graph: &Graph<A>,
    indexer: &I,
) -> Option<Oid>
    ensures { MatchOption result (KeepsGraph (I.keeps indexer.now) graph.now.entries)
        (IsFirstUnkept (I.keeps indexer.now) graph.now.entries) }
{
    // Laws that the proof uses.
    positions_are_nodes::<A>();
    for place in 0..graph.len() {
        if let Some(id) = unkept_at(graph, indexer, place) {
            return Some(id);
        }
    }
    None
}

// Returns the id at position `place` of the graph if the indexer does not keep this id, or `None`
// otherwise.
fn unkept_at<A: Allocator + Copy, I: FindingIndexer<A>>(
    graph: &Graph<A>,
    indexer: &I,
    place: usize,
) -> Option<Oid>
    requires { place < length graph.now.entries }
    ensures { MatchOption result (IsKeptAt (I.keeps indexer.now) graph.now.entries place)
        (IsUnkeptAt (I.keeps indexer.now) graph.now.entries place) }
{
    match graph.at(place) {
        Some((id, _)) if !indexer.has(id) => Some(*id),
        _ => None,
    }
}

//! The run of a scenario between a server and a client.

ghost use Rattle.std.specs.Prelude.{◌≡◌, MatchResult, Err};
ghost use Rattle.gpkt.specs.Sending.{output_of};
ghost use Rattle.gworld.specs.Worlds.{WorldOf};
ghost use Rattle.gsimulate.specs.declared.simulate.Simulation as files_of;
ghost use Rattle.gsimulate.specs.Lines.{simulated_text};
ghost use Rattle.gsimulate.specs.steps.Simulating.{AreEnds, AreRead, BeginsWith};
ghost use Rattle.gsimulate.specs.Simulating.{CannotBegin, Runs, Shows, Simulates};

use crate::fault::SimulationFault;
use crate::lines::text_of;
use crate::print::finish;
use ganswer::Server;
use gclientrepo::Repo;
use gcmd::{ProgramFault, load_server, open_client, send_text};
use ggraph::{PlainPack, Refs};
use gpkt::Sink;
use gworld::{Event, Outcome, Scenario, World};
use std::alloc::Allocator;

/// The parameters of a simulation: the texts of its three files.
#[derive(Clone, Copy)]
pub struct Simulation<'a> {
    /// The text of the served repository.
    pub server: &'a [u8],
    /// The text of the client's repository.
    pub client: &'a [u8],
    /// The text of the scenario.
    pub scenario: &'a [u8],
}

/// `gitv2 simulate SERVERFILE CLIENTFILE SCENARIO`: runs the events of a scenario between a server
/// and a client that fetches from it, with plain packs (gitprotocol-v2(5)). Prints the outcome of
/// each event as a line on `output`. Then prints each ref of the client as a line `ref ID NAME`, in
/// the byte order of the names. A fault is printed as one line on `errors`. Faults are detected in
/// this order: the server's file, the client's file, the scenario, the two repositories together,
/// and the events. An event that fails has the fault as its outcome, and the simulation continues.
///
/// Returns exit status 0 if the lines are written and flushed, and 1 after a fault. After a fault
/// nothing is written to `output`, except a prefix of the lines if the output failed.
pub fn cmd_simulate<A: Allocator + Copy, W: Sink, E: Sink>(
    alloc: A,
    files: &Simulation<'_>,
    output: &mut W,
    errors: &mut E,
) -> u8
    ensures runs { Runs A files.now (output_of W.contents W.passed_on W.is_down output.old
        output.new) (output_of E.contents E.passed_on E.is_down errors.old errors.new) result }
    ensures output_loans { W.loans output.new ≡ W.loans output.old }
    ensures errors_loans { E.loans errors.new ≡ E.loans errors.old }
{
    finish(simulate(alloc, files, output), errors)
}

fn simulate<A: Allocator + Copy, W: Sink>(
    alloc: A,
    files: &Simulation<'_>,
    output: &mut W,
) -> Result<(), SimulationFault<A>>
    ensures simulates { Simulates {A = A} files.now
        (output_of W.contents W.passed_on W.is_down output.old output.new) result }
    ensures loans { W.loans output.new ≡ W.loans output.old }
{
    match begin(alloc, files) {
        Ok((mut world, events)) => happen(alloc, &mut world, events.as_slice(), output),
        Err(fault) => Err(fault),
    }
}

// Returns the world of the two repositories, and the events of the scenario.
fn begin<A: Allocator + Copy>(
    alloc: A,
    files: &Simulation<'_>,
) -> Result<(World<PlainPack, A>, Vec<Event<A>, A>), SimulationFault<A>>
    ensures { MatchResult result (λ pair. BeginsWith files.now pair.0 pair.1.items)
        (CannotBegin files.now) }
{
    let (server, repo) = load_ends(alloc, files)?;
    begin_between(alloc, server, repo, files)
}

// Loads the server and the client's repository from their files.
fn load_ends<A: Allocator + Copy>(
    alloc: A,
    files: &Simulation<'_>,
) -> Result<(Server<A>, Repo<A>), SimulationFault<A>>
    ensures { MatchResult result (λ ends. AreEnds files.now ends.0 ends.1) (CannotBegin files.now) }
{
    let server = load_server(alloc, files.server)?;
    let repo = open_client(alloc, files.client)?;
    Ok((server, repo))
}

// Returns the world and the events of the scenario. The scenario is read before the world is made,
// because a fault of the scenario is reported before a fault of the world.
fn begin_between<A: Allocator + Copy>(
    alloc: A,
    server: Server<A>,
    repo: Repo<A>,
    files: &Simulation<'_>,
) -> Result<(World<PlainPack, A>, Vec<Event<A>, A>), SimulationFault<A>>
    requires ends { AreEnds files.now server repo }
    ensures { MatchResult result (λ pair. BeginsWith files.now pair.0 pair.1.items)
        (CannotBegin files.now) }
{
    match Scenario::read(alloc, files.scenario) {
        Ok(events) => begin_world(server, repo, events),
        Err(fault) => Err(SimulationFault::Scenario(fault)),
    }
}

// Returns the world of the server and the client, together with the events.
fn begin_world<A: Allocator + Copy>(
    server: Server<A>,
    repo: Repo<A>,
    events: Vec<Event<A>, A>,
) -> Result<(World<PlainPack, A>, Vec<Event<A>, A>), SimulationFault<A>>
    ensures { (files : files_of.Simulation) → AreRead files server repo events.items
        → MatchResult result (λ pair. BeginsWith files pair.0 pair.1.items) (CannotBegin files) }
{
    match World::new(server, repo, PlainPack) {
        Ok(world) => Ok((world, events)),
        Err(fault) => Err(SimulationFault::World(fault)),
    }
}

// Runs the events in the world, and prints their outcomes.
fn happen<A: Allocator + Copy, W: Sink>(
    alloc: A,
    running: &mut World<PlainPack, A>,
    events: &[Event<A>],
    output: &mut W,
) -> Result<(), SimulationFault<A>>
    ensures simulates { (files : files_of.Simulation) → BeginsWith files running.old events.now
        → Simulates {A = A} files (output_of W.contents W.passed_on W.is_down output.old
        output.new) result }
    ensures loans { W.loans output.new ≡ W.loans output.old }
{
    match running.run(events) {
        Ok(outcomes) => show(alloc, outcomes.as_slice(), running.client().refs(), output),
        Err(_) => Err(SimulationFault::Memory),
    }
}

// Prints the outcomes of the events, and the client's refs.
fn show<A: Allocator + Copy, W: Sink>(
    alloc: A,
    outcomes: &[Outcome],
    refs: &Refs<A>,
    output: &mut W,
) -> Result<(), SimulationFault<A>>
    ensures shows { Shows {A = A} (simulated_text outcomes.now refs.now)
        (output_of W.contents W.passed_on W.is_down output.old output.new) result }
    ensures loans { W.loans output.new ≡ W.loans output.old }
{
    match text_of(alloc, outcomes, refs) {
        Ok(text) => send(text.as_slice(), output),
        Err(_) => Err(SimulationFault::Program(ProgramFault::Memory)),
    }
}

// Writes the text to the output, and flushes the output.
fn send<A: Allocator + Copy, W: Sink>(text: &[u8], output: &mut W) -> Result<(), SimulationFault<A>>
    ensures shows { Shows {A = A} text.now (output_of W.contents W.passed_on W.is_down output.old
        output.new) result }
    ensures loans { W.loans output.new ≡ W.loans output.old }
{
    match send_text(text, output) {
        Ok(()) => Ok(()),
        Err(fault) => Err(SimulationFault::Program(fault)),
    }
}

//! Simulations in separate worlds: with a faulty packer or indexer, with an allocation refused, and
//! with a check after each event.

use crate::tools::Tools;
use crate::world::{
    RefusedAllocation, WorldAction, WorldInputs, add_outcomes_and_refs, format_outcomes_and_refs,
    has_connected_refs, is_out_of_memory, parse_events, run_events, run_in_world,
    run_in_world_or_fault,
};
use case_text::{RefusingAllocator, Trouble};
use gcmd::{cmd_failed, send_text};
use gpkt::Sink;
use gworld::{Event, Outcome, World};
use std::alloc::{Allocator, Global};

const MEMORY_FAULT_LINE: &[u8] = b"gitv2: fault 91 Memory\n";

const WRITE_FAULT_LINE: &[u8] = b"gitv2: fault 27 Io\n";

/// Runs a simulation as `gitv2 simulate` does, but with the packer and indexer in `inputs`. Returns
/// the exit status.
pub fn simulate_with_tools<A: Allocator + Copy, O: Sink, E: Sink>(
    alloc: Global,
    tested_alloc: A,
    inputs: WorldInputs<'_>,
    output: &mut O,
    errors: &mut E,
) -> Result<u8, Trouble> {
    let simulation = ScenarioAction {
        alloc,
        tested_alloc,
        scenario_text: inputs.scenario_text,
    };
    match run_in_world_or_fault(tested_alloc, inputs, &simulation) {
        Ok(text) => write_result(text, output, errors),
        Err(fault) => Ok(cmd_failed(fault, errors)),
    }
}

// An action that runs a scenario in a world. The result is the text to print, or `None` if the
// scenario can't be parsed or memory runs out.
#[derive(Drop)]
struct ScenarioAction<'b, A: Allocator + Copy> {
    alloc: Global,
    tested_alloc: A,
    scenario_text: &'b [u8],
}

impl<A: Allocator + Copy> WorldAction<A> for ScenarioAction<'_, A> {
    type Output = Option<String>;

    fn run_on(&self, world: &mut World<Tools, A>) -> Result<Option<String>, Trouble> {
        match parse_events(self.tested_alloc, self.scenario_text) {
            Ok(events) => run_and_format(self.alloc, world, events.as_slice()),
            Err(_) => Ok(None),
        }
    }
}

// Returns the text printed after the events, or `None` if memory runs out.
fn run_and_format<A: Allocator + Copy>(
    alloc: Global,
    world: &mut World<Tools, A>,
    events: &[Event<A>],
) -> Result<Option<String>, Trouble> {
    let mut outcomes = Vec::new(alloc);
    if run_events(world, events, &mut outcomes)? {
        Ok(Some(format_outcomes_and_refs(alloc, outcomes.as_slice(), &*world)?))
    } else {
        Ok(None)
    }
}

// Writes the result of a simulation, or the out-of-memory fault, and returns the exit status.
fn write_result<O: Sink, E: Sink>(
    text: Result<Option<String>, Trouble>,
    output: &mut O,
    errors: &mut E,
) -> Result<u8, Trouble> {
    match text? {
        Some(text) => Ok(print_text(text.as_bytes(), output, errors)),
        None => Ok(print_failure(MEMORY_FAULT_LINE, errors)),
    }
}

fn print_text<O: Sink, E: Sink>(text: &[u8], output: &mut O, errors: &mut E) -> u8 {
    if try_send(text, output) {
        0
    } else {
        print_failure(WRITE_FAULT_LINE, errors)
    }
}

fn print_failure<E: Sink>(text: &[u8], errors: &mut E) -> u8 {
    let _ = try_send(text, errors);
    1
}

// Writes a text and flushes the sink. Returns whether both calls succeeded.
fn try_send<O: Sink>(text: &[u8], output: &mut O) -> bool {
    match send_text::<Global, O>(text, output) {
        Ok(()) => true,
        Err(_) => false,
    }
}

/// The result of the events in a scenario.
#[derive(Drop)]
pub struct SimulationResults {
    pub outcomes: Vec<Outcome>,
    /// A line for each outcome and each of the client's final refs.
    pub text: String,
    /// Whether the client's refs were connected at each check.
    pub has_connected_refs: bool,
    /// Whether the run reached the allocation to refuse.
    pub was_refused: bool,
}

impl SimulationResults {
    /// Returns whether this result with a refused allocation is consistent with `other`, the result
    /// with enough memory. The outcomes must agree up to the first out-of-memory fault.
    pub fn is_consistent_with(&self, other: &SimulationResults) -> bool {
        self.has_connected_refs
            && self.outcomes.len() == other.outcomes.len()
            && agree_until_memory_fault(self.outcomes.as_slice(), other.outcomes.as_slice())
    }
}

// Returns whether both lists of outcomes agree up to the first out-of-memory fault.
fn agree_until_memory_fault(outcomes: &[Outcome], others: &[Outcome]) -> bool {
    for (outcome, other) in outcomes.iter().zip(others) {
        if outcome != other {
            return is_out_of_memory(*outcome);
        }
    }
    true
}

/// Runs the events in a world, and refuses the allocation with the number `refused_allocation`. If
/// memory runs out, the remaining events run with enough memory in the same world.
pub fn run_with_refusal(
    alloc: Global,
    inputs: WorldInputs<'_>,
    refused_allocation: u64,
) -> Result<SimulationResults, Trouble> {
    let tested_alloc = RefusingAllocator::new(alloc);
    let refusal = RefusedAllocation {
        refusing_alloc: &tested_alloc,
        number: refused_allocation,
    };
    simulate_scenario(
        alloc,
        &tested_alloc,
        inputs,
        EventMode::WithRefusal(refusal),
    )
}

/// Runs the events one by one, and checks the client's refs after each event.
pub fn run_one_by_one(
    alloc: Global,
    inputs: WorldInputs<'_>,
) -> Result<SimulationResults, Trouble> {
    let tested_alloc = RefusingAllocator::new(alloc);
    simulate_scenario(alloc, &tested_alloc, inputs, EventMode::OneByOne)
}

// Runs the events of the scenario, one by one or with a refused allocation.
fn simulate_scenario<A: Allocator + Copy>(
    alloc: Global,
    tested_alloc: A,
    inputs: WorldInputs<'_>,
    mode: EventMode<'_>,
) -> Result<SimulationResults, Trouble> {
    match parse_events(tested_alloc, inputs.scenario_text) {
        Ok(events) => {
            let events = events.as_slice();
            run_in_world(
                tested_alloc,
                inputs,
                &ScenarioRun {
                    alloc,
                    events,
                    mode,
                },
            )
        }
        Err(trouble) => Err(trouble),
    }
}

// The mode in which the events of a scenario run.
#[derive(Drop)]
enum EventMode<'m> {
    WithRefusal(RefusedAllocation<'m>),
    OneByOne,
}

// An action that runs the events of a scenario in the mode `mode`.
#[derive(Drop)]
struct ScenarioRun<'e, A: Allocator + Copy> {
    alloc: Global,
    events: &'e [Event<A>],
    mode: EventMode<'e>,
}

impl<A: Allocator + Copy> WorldAction<A> for ScenarioRun<'_, A> {
    type Output = SimulationResults;

    fn run_on(&self, world: &mut World<Tools, A>) -> Result<SimulationResults, Trouble> {
        let mut results = SimulationResults {
            outcomes: Vec::new(self.alloc),
            text: String::new(self.alloc),
            has_connected_refs: true,
            was_refused: false,
        };
        self.run_scenario(world, &mut results)?;
        Ok(results)
    }
}

impl<A: Allocator + Copy> ScenarioRun<'_, A> {
    fn run_scenario(
        &self,
        world: &mut World<Tools, A>,
        results: &mut SimulationResults,
    ) -> Result<(), Trouble> {
        match &self.mode {
            EventMode::WithRefusal(refusal) => self.run_with_refusal(refusal, world, results)?,
            EventMode::OneByOne => self.run_one_by_one(world, results)?,
        }
        add_outcomes_and_refs(
            self.alloc,
            results.outcomes.as_slice(),
            &*world,
            &mut results.text,
        )
    }

    fn run_with_refusal(
        &self,
        refusal: &RefusedAllocation<'_>,
        world: &mut World<Tools, A>,
        results: &mut SimulationResults,
    ) -> Result<(), Trouble> {
        refusal.start_counting();
        let is_done = run_events(world, self.events, &mut results.outcomes)?;
        results.was_refused = !refusal.refusing_alloc.awaits_refusal();
        refusal.stop_refusing();
        let had_connected_refs = has_connected_refs(self.alloc, &*world)?;
        if !is_done {
            self.run_remaining(world, &mut results.outcomes)?;
        }
        results.has_connected_refs = had_connected_refs && has_connected_refs(self.alloc, &*world)?;
        Ok(())
    }

    // Runs the events that do not have an outcome yet.
    fn run_remaining(
        &self,
        world: &mut World<Tools, A>,
        outcomes: &mut Vec<Outcome>,
    ) -> Result<(), Trouble> {
        match self.events.get(outcomes.len()..) {
            Some(remaining_events) => run_events(world, remaining_events, outcomes)?,
            None => return Err(Trouble::InvalidScenario),
        };
        Ok(())
    }

    fn run_one_by_one(
        &self,
        world: &mut World<Tools, A>,
        results: &mut SimulationResults,
    ) -> Result<(), Trouble> {
        for event in self.events.chunks(1) {
            run_events(world, event, &mut results.outcomes)?;
            let has_connected_refs = has_connected_refs(self.alloc, &*world)?;
            results.has_connected_refs = results.has_connected_refs && has_connected_refs;
        }
        Ok(())
    }
}

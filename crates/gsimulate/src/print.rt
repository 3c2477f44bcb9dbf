//! The printed line of a simulation's fault.

ghost use Rattle.std.specs.Prelude.{◌≡◌, ◌+◌, ◌≤◌, ◌++◌, length};
ghost use Rattle.gcmd.specs.Printing.{fault_line};
ghost use Rattle.gcmd.specs.Programs.{Prints};
ghost use Rattle.gpkt.specs.Sending.{output_of};
ghost use Rattle.gsimulate.specs.Faults.{disagreement, scenario_line, simulation_fault_line, unkept, world_line, wrong_line};
ghost use Rattle.gsimulate.specs.Simulating.{ExitsWith};

use crate::fault::SimulationFault;
use arrayvec::ArrayVec;
use gcmd::{ProgramFault, print_fault, send_text};
use ggrammar::compose::{add, add_id};
use gname::Oid;
use gpkt::Sink;
use gworld::{ScenarioFault, WorldFault};
use itoa::Buffer;
use std::alloc::Allocator;

/// The maximum length in bytes of a composed line that reports a fault of the scenario or of the
/// world. The line consists of fixed words, and of the digits of an id or a number.
const MAX_LINE: usize = 128;

/// The printed line if memory for an event or for the scenario ran out.
const MEMORY_LINE: &[u8] = b"gitv2: fault 91 Memory\n";

/// Ends a simulation: prints the fault in `ending`, if any, and returns the exit status.
pub(crate) fn finish<A: Allocator + Copy, E: Sink>(
    ending: Result<(), SimulationFault<A>>,
    errors: &mut E,
) -> u8
    ensures exits { ExitsWith ending (output_of E.contents E.passed_on E.is_down errors.old
        errors.new) result }
    ensures loans { E.loans errors.new ≡ E.loans errors.old }
{
    match ending {
        Ok(()) => 0,
        Err(fault) => {
            print(&fault, errors);
            1
        }
    }
}

// Prints the fault as one line, and flushes `errors`. A failure of `errors` itself is not reported.
fn print<A: Allocator + Copy, E: Sink>(fault: &SimulationFault<A>, errors: &mut E)
    ensures printed { Prints (output_of E.contents E.passed_on E.is_down errors.old errors.new)
        (simulation_fault_line fault.now) }
    ensures loans { E.loans errors.new ≡ E.loans errors.old }
{
    match fault {
        SimulationFault::Program(fault) => print_program(fault, errors),
        SimulationFault::Scenario(fault) => print_scenario::<A, E>(fault, errors),
        SimulationFault::World(fault) => print_world::<A, E>(fault, errors),
        SimulationFault::Memory => print_line::<A, E>(MEMORY_LINE, errors),
    }
}

fn print_program<A: Allocator + Copy, E: Sink>(fault: &ProgramFault<A>, errors: &mut E)
    ensures printed { Prints (output_of E.contents E.passed_on E.is_down errors.old errors.new)
        (fault_line fault.now) }
    ensures loans { E.loans errors.new ≡ E.loans errors.old }
{
    let _ = print_fault(fault, errors);
}

fn print_scenario<A: Allocator + Copy, E: Sink>(fault: &ScenarioFault, errors: &mut E)
    ensures printed { Prints (output_of E.contents E.passed_on E.is_down errors.old errors.new)
        (scenario_line fault.now) }
    ensures loans { E.loans errors.new ≡ E.loans errors.old }
{
    match fault {
        ScenarioFault::Scenario { line } => print_wrong_line::<A, E>(*line, errors),
        ScenarioFault::Memory => print_line::<A, E>(MEMORY_LINE, errors),
    }
}

fn print_world<A: Allocator + Copy, E: Sink>(fault: &WorldFault, errors: &mut E)
    ensures printed { Prints (output_of E.contents E.passed_on E.is_down errors.old errors.new)
        (world_line fault.now) }
    ensures loans { E.loans errors.new ≡ E.loans errors.old }
{
    match fault {
        WorldFault::TwoFormats => print_line::<A, E>(b"gitv2: fault 97 TwoFormats\n", errors),
        WorldFault::Disagree { id } => print_disagreement::<A, E>(id, errors),
        WorldFault::NotKept { id } => print_unkept::<A, E>(id, errors),
    }
}

// Prints the fault of a scenario with the number of its malformed line.
fn print_wrong_line<A: Allocator + Copy, E: Sink>(line: usize, errors: &mut E)
    ensures printed { Prints (output_of E.contents E.passed_on E.is_down errors.old errors.new)
        (wrong_line line) }
    ensures loans { E.loans errors.new ≡ E.loans errors.old }
{
    let text = wrong_line(line);
    print_line::<A, E>(text.as_slice(), errors);
}

fn wrong_line(line: usize) -> ArrayVec<u8, MAX_LINE>
    ensures { result.items ≡ wrong_line line }
{
    let mut text = ArrayVec::new();
    let mut digits = Buffer::new();
    add(b"gitv2: fault 92 Scenario line ", &mut text);
    add(digits.format(line).as_bytes(), &mut text);
    add(b"\n", &mut text);
    text
}

// Prints the fault for an id under which server and client hold different objects.
fn print_disagreement<A: Allocator + Copy, E: Sink>(id: &Oid, errors: &mut E)
    ensures printed { Prints (output_of E.contents E.passed_on E.is_down errors.old errors.new)
        (disagreement id.now) }
    ensures loans { E.loans errors.new ≡ E.loans errors.old }
{
    let text = disagreement(id);
    print_line::<A, E>(text.as_slice(), errors);
}

fn disagreement(id: &Oid) -> ArrayVec<u8, MAX_LINE>
    ensures { result.items ≡ disagreement id.now }
{
    let mut text = ArrayVec::new();
    add(b"gitv2: fault 90 Disagree ", &mut text);
    add_id(id, &mut text);
    add(b"\n", &mut text);
    text
}

// Prints the fault for an id that the client holds and its indexer does not keep.
fn print_unkept<A: Allocator + Copy, E: Sink>(id: &Oid, errors: &mut E)
    ensures printed { Prints (output_of E.contents E.passed_on E.is_down errors.old errors.new)
        (unkept id.now) }
    ensures loans { E.loans errors.new ≡ E.loans errors.old }
{
    let text = unkept(id);
    print_line::<A, E>(text.as_slice(), errors);
}

fn unkept(id: &Oid) -> ArrayVec<u8, MAX_LINE>
    ensures { result.items ≡ unkept id.now }
{
    let mut text = ArrayVec::new();
    add(b"gitv2: fault 98 NotKept ", &mut text);
    add_id(id, &mut text);
    add(b"\n", &mut text);
    text
}

fn print_line<A: Allocator + Copy, E: Sink>(line: &[u8], errors: &mut E)
    ensures printed { Prints (output_of E.contents E.passed_on E.is_down errors.old errors.new)
        line.now }
    ensures loans { E.loans errors.new ≡ E.loans errors.old }
{
    let _ = send_text::<A, E>(line, errors);
}

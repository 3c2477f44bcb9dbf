//! The faults of a simulation.

ghost use Rattle.std.specs.Prelude.{◌≡◌, Some};
ghost use Rattle.gsimulate.specs.Faults.{simulation_fault_row, simulation_fault_text};
ghost use Rattle.gsimulate.specs.declared.fault.SimulationFault.TheVariants as faults;

use gcmd::ProgramFault;
use gworld::{ScenarioFault, WorldFault};
use std::alloc::{Allocator, Global};
use std::error::Error;
use std::fmt;

/// The reason why a simulation ends with status 1. The program prints the reason as one line.
#[derive(Debug, Drop)]
pub enum SimulationFault<A: Allocator + Copy = Global> {
    /// Faults 64, 67, 68, 71 and 80: a file does not describe a server or a client, or there is not
    /// enough memory for a file or for the output. Fault 27: the output failed.
    Program(ProgramFault<A>),
    /// Fault 92: a line of the scenario is malformed. Fault 91: there is not enough memory for the
    /// events of the scenario.
    Scenario(ScenarioFault),
    /// Faults 90 and 97: server and client hold different objects under one id, or have different
    /// object formats.
    World(WorldFault),
    /// Fault 91: there is not enough memory for the next event.
    Memory,
}

impl<A: Allocator + Copy> SimulationFault<A> {
    /// Returns the number of the fault.
    pub fn code(&self) -> u32
        ensures { result ≡ (simulation_fault_row self.now).0 }
    {
        match self {
            SimulationFault::Program(fault) => fault.code(),
            SimulationFault::Scenario(fault) => fault.code(),
            SimulationFault::World(fault) => fault.code(),
            SimulationFault::Memory => ScenarioFault::Memory.code(),
        }
    }

    /// Returns the name of the fault.
    pub fn name(&self) -> &'static str
        ensures { result.now ≡ (simulation_fault_row self.now).1 }
    {
        match self {
            SimulationFault::Program(fault) => fault.name(),
            SimulationFault::Scenario(fault) => fault.name(),
            SimulationFault::World(fault) => fault.name(),
            SimulationFault::Memory => ScenarioFault::Memory.name(),
        }
    }
}

impl<A: Allocator + Copy> fmt::Display for SimulationFault<A> {
    ghost output = { λ fault. Some (simulation_fault_text fault) };

    fn fmt<W: fmt::Write>(&self, f: &mut fmt::Formatter<W>) -> fmt::Result {
        match self {
            SimulationFault::Program(fault) => fmt::Display::fmt(fault, f),
            SimulationFault::Scenario(fault) => fmt::Display::fmt(fault, f),
            SimulationFault::World(fault) => fmt::Display::fmt(fault, f),
            SimulationFault::Memory => fmt::Display::fmt(&ScenarioFault::Memory, f),
        }
    }
}

impl<A: Allocator + Copy + fmt::Debug> Error for SimulationFault<A> {}

impl<A: Allocator + Copy> From<ProgramFault<A>> for SimulationFault<A> {
    ghost from_gives = { λ cause fault. fault ≡ faults.Program cause };

    fn from(cause: ProgramFault<A>) -> SimulationFault<A> {
        SimulationFault::Program(cause)
    }
}

//! `gitv2 simulate`, as a function over bytes and sinks. The program runs a scenario between a
//! server and a client whose repositories are read from files. The program prints the outcome of
//! each event, and afterwards the ids of the client's refs.
//!
//! # Proved
//!
//! - [`cmd_simulate`] runs the events of the scenario, one after the other, with plain packs. The
//!   events change a world (see `gworld`), which holds a server and the client's repository. Each
//!   step keeps all promises that `gworld` states for a step. The output is exactly one line for
//!   each outcome, and then one line for each ref of the client after the run. The program writes
//!   and flushes all lines, or writes a prefix of the lines if the output fails
//!   (`specs/Lines.antt`, `Simulating.antt`).
//! - Before the first event, the program checks the server's file, the client's file, the scenario,
//!   and whether server and client can form a world. The program reports the first fault in this
//!   order. If a check finds a fault, no event happens, and nothing is written to the output. If
//!   memory for an event runs out, nothing is written to the output.
//! - The program exits with status 0 and prints no fault, or exits with status 1 and prints the
//!   line that reports its fault. If the error sink fails, a prefix of the line is printed.
//! - Each fault has the number, the name, the text and the printed line that `specs/Faults.antt`
//!   states.
//!
//! # Only tested
//!
//! No simulation reports out of memory while enough memory is available.
//!
//! # What the contracts do not rule out
//!
//! A simulation may report out of memory for a file, the scenario or an event whenever the
//! contracts of `gcmd`, `gscenario` or `gworld` allow it. A simulation may report out of memory for
//! the output, even if the output is empty. The contracts do not limit how often the sinks are
//! called, or how long a call takes. Formatting a fault may return `fmt::Error` even if every write
//! succeeds.
//!
//! # Dependencies
//!
//! The crate uses `gworld` for worlds, `gscenario` for scenarios, `gcmd` for the shared parts of
//! programs, and `ggraph` for plain packs and refs. The crate uses `gname` for ids and names,
//! `gpkt` for sinks, `ggrammar` and `arrayvec` for texts of bounded length, and `itoa` for numbers.
#![tactic(auto)]

mod fault;
mod lines;
mod print;
mod simulate;

pub use crate::fault::SimulationFault;
pub use crate::simulate::{Simulation, cmd_simulate};

//! Simulations of a server and a client. The events of a simulation are random, or listed in a
//! scenario.
//!
//! - [`simulate_with_tools`] runs a simulation with a packer or an indexer that may fail.
//! - [`run_one_by_one`] runs a simulation, and checks the client after each event.
//! - [`run_with_refusal`] runs a simulation with one allocation refused.
//! - [`simulate_at_random`] runs many random events, and checks the client after each event.
//!
//! # Proved
//!
//! Every call returns, with no index out of range, overflow or use after free.
//!
//! # What the contracts do not rule out
//!
//! No contract states the results of this crate. The tests were run against deliberately wrong
//! programs, to check that the tests detect a client whose refs are not connected.
//!
//! # Dependencies
//!
//! `gworld` defines worlds and their events. `gcmd` loads the server and the client. `ggraph`
//! defines packers and indexers, `gpkt` defines sinks, and `gname` defines the formats of ids.
//! `case_text` defines faulty packers and indexers, packets, and an allocator that refuses one
//! chosen allocation.
#![tactic(auto)]

mod dice;
mod event_generator;
mod forgery;
mod random;
mod simulations;
mod tools;
mod world;

pub use crate::random::simulate_at_random;
pub use crate::simulations::{
    SimulationResults, run_one_by_one, run_with_refusal, simulate_with_tools,
};
pub use crate::tools::Tools;
pub use crate::world::WorldInputs;

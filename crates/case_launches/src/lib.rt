//! Launches of the program `gitv2` for tests. A launched program has its arguments and standard
//! streams in memory, real files in a separate folder, and sockets at 127.0.0.1.
//!
//! A [`Plan`] holds the arguments, files and peers of the program, and all expected results. A plan
//! is made from a row, a pair of repositories, a command line, or a case that describes a launch.
//! The function [`launch`] creates the folder `launch`, runs the program in this folder, and
//! removes the folder. The test itself sends and receives the bytes of the peers. The simulated
//! clients connect when the program prints its port. A simulated server accepts a connection when
//! the program connects.
//!
//! # Proved
//!
//! Every call returns, with no index out of range, overflow or use after free.
//!
//! # What the contracts do not rule out
//!
//! No contract states the results of this crate. The tests were run on deliberately wrong cases and
//! programs, to check that the tests reject them.
//!
//! # Dependencies
//!
//! `gprogram` is the launched program. `case_text` defines cases, `case_tries` defines rows, and
//! `gtcp` defines locations.
#![tactic(auto)]

mod arguments;
mod file;
mod file_checks;
mod folder;
mod journal;
mod launch_runtime;
mod network;
mod peers;
mod plan;
mod planned_streams;
mod run;
mod streams;
mod system;

pub use crate::arguments::{can_launch, push_arguments};
pub use crate::plan::Plan;
pub use crate::run::launch;
pub use crate::system::System;

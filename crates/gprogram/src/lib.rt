//! The program `gitv2` as a function of the runtime. [`run_gitv2`] reads the arguments, opens
//! files, and makes sources and sinks from standard streams and sockets. The crates `gcmd`, `gtcp`
//! and `gsimulate` do the work of each command. [`run_gitv2`] returns the exit status.
//!
//! The program reports the first fault that it finds. The program checks the usage first, then
//! refspecs and prefixes, then each file in turn, and sockets last.
//!
//! # Proved
//!
//! [`run_gitv2`] returns for any arguments, files and streams. No index is out of range, no
//! arithmetic overflows, and no memory is used after it was freed.
//!
//! # Only tested
//!
//! The cases of `conformance` run each command through [`run_gitv2`], over files, standard streams
//! and sockets. The cases test the work of each command, the order in which files are read, and
//! each exit status.
//!
//! # What the contracts do not rule out
//!
//! The contracts make no other statement about the effects of the program. No contract can state
//! the bytes that the program reads from or writes to a file, a stream or a socket of the system.
//!
//! # Dependencies
//!
//! The crate uses `gargs` for the arguments, `gcmd`, `gtcp` and `gsimulate` for the commands,
//! `glockfile` for files that are replaced, and `gpkt` for sources and sinks.
#![tactic(auto)]

mod faults;
mod fetching;
mod files;
mod local;
mod program;
mod remote;
mod simulating;
mod streams;

pub use crate::program::run_gitv2;

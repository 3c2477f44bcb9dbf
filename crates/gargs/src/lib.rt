//! The arguments of the command line, parsed into a command.
//!
//! The function [`read_command`] returns a [`Gitv2Command`] with parsed parameters. An address and
//! a path are parsed as a `Location`, a limit as a `PackLimit`, and the flag `--response-end` as an
//! `Ends`. The function leaves file names, refspecs and prefixes unparsed, and opens no file.
//!
//! # Proved
//!
//! - For any arguments, a call returns and is memory-safe.
//! - Private functions parse a limit and a number of connections. The text must have at least one
//!   decimal digit, and no other characters. The functions accept exactly the limits up to
//!   67,108,864, and the numbers of connections from 1 to 1,000,000 (`specs/Numbers.antt`).
//!
//! # Only tested
//!
//! The cases of `conformance` (`data/words`) test which arguments match the usage, and which
//! command these arguments describe. The cases can't test failing allocations, since `clap` uses
//! only the global allocator.
//!
//! # What the contracts do not rule out
//!
//! [`read_command`] may reject any arguments, and may return any command for any arguments.
//!
//! # Dependencies
//!
//! The crate uses `clap` for arguments, `gtcp` for locations, and `gcmd` for `PackLimit` and
//! `Ends`.
#![tactic(auto)]

mod command;
mod number;
mod reading;
mod usage;

pub use crate::command::{Fetch, Gitv2Command, Serve, Simulate};
pub use crate::reading::read_command;

//! Checks of facts. A fact is the expected result of a function call, which parses a text, searches
//! a history, queries a client's objects, or prints a fault.
//!
//! [`actual_result`] returns the actual result for one fact, in the same form as the expected
//! result in a test file.
//!
//! # Proved
//!
//! Every call returns, with no index out of range, overflow or use after free.
//!
//! # What the contracts do not rule out
//!
//! No contract states the results of this crate. Deliberately wrong facts were run, to check that
//! the tests reject them.
//!
//! # Dependencies
//!
//! `case_text` defines facts and an allocator that refuses an allocation. `gname`, `grefs`,
//! `ghello`, `gpkt`, `gscenario` and `ggraph` parse texts. `gclient` defines clients and the
//! objects that they mark as connected, and `gcmd` prints faults. `ganswer`, `gclient`, `ggrammar`
//! and other crates define the faults.
#![tactic(auto)]

mod checking;
mod client_objects;
mod formatting;
mod history;
mod parsing;
mod printed_faults;
mod repository_text;
mod size_limits;

pub use crate::checking::{ActualResult, Limits, actual_result};

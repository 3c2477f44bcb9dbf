//! Tests of one row on sources and sinks in memory, with checks of the results.
//!
//! A [`Row`] is a program with its input and its expected results. A [`RowTest`] tests the row with
//! each [`Variation`]:
//!
//! - The input is unchanged, and is read at once or in pieces. The row also runs on std readers and
//!   writers.
//! - The calls to the indexer are checked.
//! - The request is changed as the row's table lists.
//! - Each call to each source and sink fails in turn.
//! - The input is truncated after each byte, or one of its bytes is changed.
//! - Each allocation is refused in turn.
//! - Each operation on the client's file fails in turn, or the run stops at that operation.
//!
//! A [`RunResults`] holds the results of a run. Most of the checks also apply to runs over sockets.
//!
//! # Proved
//!
//! Every call returns, with no index out of range, overflow or use after free.
//!
//! # What the contracts do not rule out
//!
//! No contract states the results of this crate. Deliberately wrong cases and programs were run, to
//! check that the tests reject them.
//!
//! # Dependencies
//!
//! `case_text` defines rows, their messages, and an allocator that refuses an allocation.
//! `case_runs` runs programs on sources and sinks in memory, and `case_worlds` runs simulations.
//! `gsimulate` is the program for simulations, and `gcmd` checks a repository. `glockfile` defines
//! files that are replaced as a whole, and `gpkt` defines sources and sinks.
#![tactic(auto)]

mod judge;
mod memory_runs;
mod row_tests;
mod stored_fetch;
mod variations;

pub use crate::judge::{
    ByteChanges, InputStop, Row, is_as_expected, is_as_expected_after_failed_write,
    is_as_expected_after_input_stop, is_as_expected_after_refusal, keeps_repository,
};
pub use crate::memory_runs::RunResults;
pub use crate::row_tests::RowTest;
pub use crate::variations::Variation;

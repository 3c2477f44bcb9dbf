//! Events that can happen to a server and to a client that fetches from it ([`Event`]), and the
//! text that encodes a list of events ([`Scenario`]).
//!
//! # Proved
//!
//! - [`Scenario::read`] accepts exactly the texts of scenarios, and returns their events. For any
//!   other text it reports the first line that does not encode an event, or that has no line feed.
//!   `Scenario::read` runs out of memory only at a line that begins with a command. All lines
//!   before that line are valid.
//! - No text encodes two different lists of events ([`laws`]). The number of a text's first
//!   malformed line is unique. A text with a malformed line does not encode any list of events.
//! - Each fault has the number, the name and the text of its row in `specs/Faults.antt`.
//! - No call panics, overflows or reads out of bounds, and each call returns.
//!
//! # Only tested
//!
//! No call reports out of memory while enough memory is available.
//!
//! # What the contracts do not rule out
//!
//! A call may report out of memory although memory is available. This is possible only if the first
//! line of the text begins with a command and has a line feed. The call may then report out of
//! memory instead of a malformed line. No contract limits the time of a call, or the memory that a
//! call takes. Formatting a fault may return `fmt::Error` even if every write succeeds.
//!
//! # Dependencies
//!
//! The crate uses `grefs` for refspecs, `gname` for ids and ref names, and `gobject` for objects.
//! The crate uses `hex` for bytes, `itoa` for numbers, and `memchr` to find the ends of words and
//! lines.
#![tactic(auto)]

mod arguments;
mod command;
mod event;
mod fault;
pub mod laws;
mod scenario;
mod words;

pub use crate::event::Event;
pub use crate::fault::ScenarioFault;
pub use crate::scenario::Scenario;

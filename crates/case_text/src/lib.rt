//! The parser of test files. A file contains facts, texts and cases. A case lists messages, and
//! names programs, packers and indexers.
//!
//! A [`Script`] parses files in sequence, for ids of one format. A [`Case`] holds messages, the
//! programs to run, and the expected results. A [`Fact`] is the expected result of one function
//! call. An [`Invocation`] is a command line of a case. A [`Conversation`] holds the input and the
//! expected output of a program. A [`Launch`] holds the arguments and files of a case that launches
//! the program itself. A [`TableLine`] is a line of a case's table. A [`PackTool`] is a packer or
//! an indexer for tests, which may fail or break its contract.
//!
//! # Proved
//!
//! Every call returns, with no index out of range, overflow or use after free.
//!
//! # What the contracts do not rule out
//!
//! No contract states how a line is parsed. The cases test that the parser follows
//! crates/conformance/FORMAT.md.
//!
//! # Dependencies
//!
//! `gname` defines ids and their formats, `ggrammar` defines the ends of replies, and `ggraph`
//! defines objects, packers and indexers.
#![tactic(auto)]

mod case;
mod command;
mod conversation;
mod escapes;
mod kind;
mod launch;
mod line_parser;
mod long_texts;
mod pack_tools;
mod packets;
mod refusing_allocator;
mod script;
mod table;
mod trouble;
mod words;

pub use crate::case::{Case, Fact, Speaker, TranscriptEntry};
pub use crate::command::{Invocation, Program, parse_command, split_first_word, split_words};
pub use crate::conversation::{
    Conversation, PacketStart, fault_text, has_replies_without_response_end,
};
pub use crate::escapes::{add_padded_number, id_text, parse_number};
pub use crate::kind::FactKind;
pub use crate::launch::{FinalItem, InitialItem, Launch};
pub use crate::pack_tools::{PackTool, ReceivedPack};
pub use crate::packets::{packet, text_packet};
pub use crate::refusing_allocator::RefusingAllocator;
pub use crate::script::Script;
pub use crate::table::{
    Change, ExpectedOutcome, OutcomeKind, TableLine, error_packet, is_error_packet,
};
pub use crate::trouble::Trouble;

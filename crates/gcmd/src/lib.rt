//! The programs of gitv2 as functions over bytes, sources and sinks. The programs serve, update or
//! check the repository that a file describes, or show packets.
//!
//! A promise about the bytes of a source or a sink holds only if the source or sink records its
//! bytes, as sources and sinks in memory do.
//!
//! # Proved
//!
//! - Every program exits with status 0 or 1. With status 0 the program writes nothing to the error
//!   sink. With status 1 the program prints and flushes exactly the line that reports its fault
//!   (`specs/Programs.antt`). If the sink fails, a prefix of the line is printed.
//!   [`cmd_fetch_stored`] is an exception, because it also writes its report to the error sink.
//! - [`cmd_failed`] prints the line that reports a given fault.
//! - If a write to a sink fails, nothing more is flushed. If a flush fails, the bytes of earlier
//!   flushes remain flushed (`specs/Outputs.antt`).
//! - [`cmd_upload`] serves one connection, and [`cmd_ls`] replies to one request. Both read the
//!   served repository from a file, and send plain packs (`specs/Serving.antt`). `gserve` specifies
//!   what both programs read and write. [`cmd_upload`] succeeds if the client ends the connection,
//!   the input ends before a request, or the limit of requests is reached. [`cmd_ls`] succeeds if
//!   the request gets a reply or is a lone flush packet, or if the input is empty. If serving
//!   fails, the fault is the refusal of a request or a failure of the output. The served file
//!   must be the text of a repository. Each parent must precede its children, and the objects of
//!   all refs and of a detached HEAD must be present. With any other file nothing is read or
//!   written. The fault then gives the number of the malformed line, names the ref or HEAD whose
//!   object is missing, or reports that memory ran out.
//! - [`cmd_fetch`] opens the repository that a client's file describes, and fetches into the
//!   repository with plain packs (`specs/Fetching.antt`). `gclient` specifies the conversation. The
//!   file must be the text of a repository that has no HEAD and whose refs are all connected. With
//!   any other file nothing is read or written. If the conversation succeeds, the new file is the
//!   text of the repository after the fetch. The fetch only adds objects, every ref is connected,
//!   and each allowed update of a ref was made. The report (`specs/Reporting.antt`) is written and
//!   flushed. If the sink for the report fails, a prefix of the report is written. If memory for
//!   the report runs out, there is a new file without a report. After any other fault there is no
//!   new file and no report.
//! - [`read_specs`] reads arguments as refspecs, and fails at the first argument that is not a
//!   refspec.
//! - [`read_prefixes`] reads arguments as prefixes of ref names, unchanged, and fails at the first
//!   argument that is not a prefix (`specs/Prefixes.antt`).
//! - [`cmd_fetch_stored`] fetches like [`cmd_fetch`], but into a stored file, which the program
//!   first locks and reads (`specs/Stored.antt`). At any time the file has the old text or the
//!   whole new text. The new text is written only after the conversation succeeds, and the report
//!   only after the new text. At the end the program holds no lockfile.
//! - [`open_stored`] and [`conclude_stored`] are the first and the last step of
//!   [`cmd_fetch_stored`]. Callers can use them with a different conversation in between.
//! - [`cmd_check`] writes and flushes one line, or writes a prefix of the line if the sink fails.
//!   The line shows the number of nodes and refs, whether the graph is closed, and whether the
//!   repository is connected. If the file is not the text of a repository, nothing is written.
//! - [`cmd_lines`] shows exactly the packets of its input, up to the end or to the first refused
//!   packet. The program writes and flushes all lines, or writes a prefix of the lines if the sink
//!   fails. If the exit status is 0, the source has not failed.
//! - Each fault has the number, the name, the text and the printed line that `specs/Faults.antt`
//!   and `specs/Printing.antt` state.
//!
//! # Only tested
//!
//! The cases of `conformance` test the exact bytes of whole runs. The cases also test that no
//! function reports out of memory while enough memory is available. In these cases each source and
//! sink transfers one byte per call, or fails at each of its calls in turn. The cases also test
//! that no program uses a source or a sink again after that source or sink has failed.
//!
//! # What the contracts do not rule out
//!
//! A call that allocates may report out of memory although memory is available. If a sink does not
//! record its bytes, the contracts do not state which bytes the sink receives. The contracts do not
//! limit how often a source or a sink is called, or how long a call takes. Formatting a fault may
//! return `fmt::Error` even if every write succeeds. [`cmd_fetch_stored`] may report that a file
//! can't be locked, read or replaced, even if each of these steps would succeed.
//!
//! # Dependencies
//!
//! The crate uses `gserve` for connections, `ganswer` for the server, `gclient` for the client,
//! `gfetchreply` for the limit of a pack, and `glockfile` for stored files. The crate uses `ggraph`
//! for repository texts and plain packs, `ggrammar` for the ends of replies, `gpkt` for packets,
//! sources and sinks, and `gname` for ids. The crate uses `arrayvec` for texts of bounded length,
//! `hex` for hexadecimal digits, and `itoa` for decimal numbers.
#![tactic(auto)]

mod check;
mod client_fault;
mod client_file;
mod compose;
mod fault;
mod fetch;
mod lines;
mod ls;
mod prefixes;
mod print;
mod program;
mod report;
mod repository;
mod send;
mod stored;
mod upload;

pub use crate::check::cmd_check;
pub use crate::client_file::{open_client, read_specs};
pub use crate::fault::ProgramFault;
pub use crate::fetch::{FetchRun, cmd_fetch, conclude, send_report, send_text};
pub use crate::lines::cmd_lines;
pub use crate::ls::cmd_ls;
pub use crate::prefixes::read_prefixes;
pub use crate::program::{cmd_failed, finish, print_fault};
pub use crate::repository::load_server;
pub use crate::stored::{FetchOptions, OpenedFile, cmd_fetch_stored, conclude_stored, open_stored};
pub use crate::upload::cmd_upload;
pub use gclient::Spec;
pub use gfetchreply::{PackLimit, StreamLimit};
pub use ggrammar::Ends;

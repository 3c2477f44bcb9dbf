//! Reading, building and writing requests of Git's protocol version 2 (gitprotocol-v2(5), "Command
//! Request", "ls-refs" and "fetch").
//!
//! # Proved
//!
//! - [`read_request_within`] reads a request exactly to its end, however its bytes are split into
//!   pieces. The function returns the request that the packets encode, or `None` if the input ends
//!   before the first packet. The request has the limits of the call. An input that is not empty
//!   and begins with no request is rejected at the first packet that does not fit, with the fault
//!   that the grammar gives (`judge` in `specs/Requests.antt`). An error packet from the peer takes
//!   precedence over a malformed text, which takes precedence over an exceeded limit. The fault
//!   `Memory` is reported only at a packet with an agent, a prefix, a want or a have.
//! - A request to a SHA-256 repository must name the object format, and its ids have this format.
//! - Every [`LsRefsRequest`] and every [`FetchRequest`] is well-formed and within its limits. `new`
//!   gives the default limits of 64 prefixes, 1,024 wants and 4,096 haves. `within` takes other
//!   limits. A limit above 2^30 counts as 2^30, so that all values fit into one request. A call
//!   with a malformed value fails with `BadText`. Otherwise a call that would exceed a limit
//!   fails with `Limit`, and a call that runs out of memory fails with `Memory`. Each fault reports
//!   packet position 0, and the request is unchanged.
//! - [`FetchRequest::is_direct`] returns whether the request has `done` or no haves. The reply to
//!   such a request starts with the pack.
//! - A copy of a request has the same contents and limits, and its ids have the same format. The
//!   methods `asks_as` return true exactly if both requests have the same contents.
//! - [`write_request`] writes the canonical list of packets of a request
//!   (`specs/RequestWriting.antt`), or a prefix of it if the sink fails. For a fetch request, the
//!   caller must pass the format of the request's ids. Reading the written packets returns the same
//!   request.
//! - The [`laws`] hold for all limits. A list of packets is read as a request exactly if Git's
//!   manual and the limits allow the list (`specs/Manual.antt`). A list of packets encodes at most
//!   one request. No request is a prefix of another, as packets or as bytes. The packets accepted
//!   so far can always be completed to a request, and a rejected packet is the first that fits no
//!   request. The packets written for a request encode this request, and each payload fits a
//!   packet. A request is read exactly if the input begins with packets that encode it, and the
//!   reader returns `None` exactly if the input is empty. Every byte sequence begins with a request
//!   or is rejected because of its content. Reading a written request with its own limits returns
//!   the same request, even if other bytes follow. The public constants equal the default limits.
//!
//! # Only tested
//!
//! Calls succeed if there is enough memory, although the contracts do not state this.
//!
//! # What the contracts do not rule out
//!
//! The contracts allow a call that stores or copies a value to report out of memory at any time.
//! No contract bounds the time or the memory of such a call. The contracts allow every call to
//! allocate, even `new`. If a sink fails, the contracts do not state how long the written prefix
//! is. If the bytes of a source are unknown, the contracts do not state which packets are
//! read. The contracts still state whether the source or the sink has failed.
//!
//! # Dependencies
//!
//! `ggrammar` defines the reader and the laws that all messages share. `gpkt` defines packets, and
//! `gname` defines ids and prefixes.
#![tactic(auto)]

mod command;
mod fetch;
mod flag;
mod kept;
pub mod laws;
mod limits;
mod line;
mod ls_refs;
mod parts;
mod read;
mod reading;
mod request;
mod section;
mod write;

pub use crate::fetch::FetchRequest;
pub use crate::flag::{FetchFlag, LsRefsFlag};
pub use crate::limits::{MAX_HAVES, MAX_PREFIXES, MAX_WANTS, max_haves, max_prefixes, max_wants};
pub use crate::ls_refs::LsRefsRequest;
pub use crate::read::{read_request, read_request_in, read_request_within};
pub use crate::reading::RequestReader;
pub use crate::request::Request;
pub use crate::write::write_request;

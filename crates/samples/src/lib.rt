//! Examples for the documentation: a short server and a short client (README), and a packer and an
//! indexer (`docs/PACKERS.md`).
//!
//! # Proved
//!
//! Each function is memory-safe and returns. After [`fetch_records`], the repository has every
//! object that its refs reach. For further guarantees, see the contracts of the called functions.
//!
//! # What the contracts do not rule out
//!
//! The contracts let [`Records`] write any pack, and read any objects from a pack.
//!
//! # Dependencies
//!
//! `gserve` and `gclient` run the conversations. `ggraph` defines repositories and packs, and
//! `gcmd` defines one fault type for all commands.
#![tactic(auto)]

mod client;
mod packer;
mod server;

pub use crate::client::fetch_into;
pub use crate::packer::{Records, fetch_records};
pub use crate::server::serve_text;

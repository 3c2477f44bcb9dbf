//! The text of a Git configuration file (git-config(1), "CONFIGURATION FILE"). This crate does not
//! read files.
//!
//! # Proved
//!
//! - [`parse_config`] succeeds only for a text that is a configuration, as defined in `specs/`. The
//!   function returns the variables that the text sets, in order, with their sections and values.
//! - [`bare_config`] writes a configuration that sets exactly the variables of a new bare
//!   repository. The URL is read back unchanged, even if it contains arbitrary bytes.
//! - No call panics, overflows or reads out of bounds, and every call returns, for any text.
//!
//! # Differences from Git
//!
//! - A variable before the first header belongs to a section with an empty name.
//! - A CR is always a blank. In Git, a CR is a blank only before an LF and in values.
//! - A byte order mark at the start of the text is refused. Git skips a byte order mark.
//! - A blank before a section name is refused, and so is a `\` before CR LF or at the end of the
//!   text. Git accepts all three.
//! - `include` and `includeIf` are ordinary sections.
//!
//! # What the contracts do not rule out
//!
//! No contract rules out that a valid configuration is refused as malformed. No contract rules out
//! that [`bare_config`] adds spaces and comments to the text. Any call that allocates may fail if
//! out of memory, and no contract says when.
//!
//! This crate has no tests.
//!
//! # Dependencies
//!
//! This crate depends only on `std`.
#![tactic(auto)]

mod bytes;
mod fault;
mod pieces;
mod reading;
mod setting;
mod writing;

pub use crate::fault::ConfigFault;
pub use crate::reading::parse_config;
pub use crate::setting::Setting;
pub use crate::writing::bare_config;

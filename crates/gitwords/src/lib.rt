//! The command line of the program `gitrepo`, `git://` URLs, the paths that clients request, and
//! the cleaning of a peer's texts for a terminal. The crate opens no files and no sockets.
//!
//! # Proved
//!
//! - [`GitUrl::parse`] accepts exactly the texts `git://HOST[:PORT]/PATH` of `specs/Urls.antt`, and
//!   returns their parts. A text has at most one host, port and path
//!   ([`urls_have_one_reading`](laws::urls_have_one_reading)). Any other text is refused, and the
//!   reported cause is correct for the text. The printed text of a fault is the sentence for its
//!   cause in `specs/Faults.antt`.
//! - [`ServedPath::parse`] accepts exactly the paths of `specs/Served.antt`. No component of an
//!   accepted path is empty or begins with a dot, but the path may end with one slash. A path names
//!   at most one directory ([`paths_have_one_reading`](laws::paths_have_one_reading)).
//! - [`ServedPath::parse`] removes the first slash of the path and a slash at its end. Then
//!   [`ServedPath::candidate`] appends an [`Ending`] such as `.git`. No component of the result is
//!   empty, `.` or `..`, so the result can't leave the base directory.
//! - [`Ending::in_order`] returns the endings in the order in which Git tries them.
//! - [`clean`] and [`push_clean`] keep printable ASCII, line feeds and tabs. Progress lines also
//!   keep carriage returns. Any other byte becomes a question mark. Cleaning a text piece by piece
//!   gives the same result as cleaning the whole text
//!   ([`pieces_are_clean`](laws::pieces_are_clean)).
//! - [`read_words`] returns only well-formed commands (`specs/Commands.antt`). The URL of a command
//!   is valid, and a fetch has at least one refspec. The address of a server has the form
//!   HOST:PORT. Each given limit on connections is from 1 to 1,000,000.
//! - [`Verbosity::shows_progress`] follows the rule of git-fetch(1) for `--quiet` and `--progress`.
//! - An [`Answer`] with help or the version is printed on standard output with status 0. Any other
//!   answer is printed on standard error with another status.
//! - No call panics, overflows or reads out of bounds, and every call returns.
//!
//! # Differences from Git
//!
//! - Git decodes `%` and two hexadecimal digits in a URL. This crate refuses a `%` in the path.
//!   This crate also refuses any host that is not a name, an IPv4 address or an IPv6 address.
//! - A path has only printable ASCII, and at most 1,000 bytes. A host has at most 255 bytes. In
//!   the first line of a `git://` connection, paths and hosts have the same limits.
//! - Git drops the slash before `~user` in the path of a URL. This crate keeps the slash.
//! - Git treats an empty port as the default port. This crate refuses an empty port.
//! - git-daemon(1) refuses the components `.` and `..` of a path. This crate refuses each component
//!   that begins with a dot.
//! - The options of git-upload-pack(1) are refused. Git's client does not pass any of these
//!   options.
//!
//! # What the contracts do not rule out
//!
//! No contract rules out that [`read_words`] refuses all arguments, or returns a well-formed
//! command that does not match the arguments. The contracts do not state the text of an answer to
//! wrong arguments, or the [`Transport`] of a URL that does not begin with `git://`. If the
//! conditions of several causes hold for a URL, no contract says which cause is reported. For
//! example, a malformed port after a valid host meets the conditions of `BadHost` and `BadPort`.
//! Any call that allocates may fail if out of memory. The crate does not check symbolic links below
//! the base directory.
//!
//! This crate has no tests of its own.
//!
//! # Dependencies
//!
//! `clap` parses arguments, `grefs` parses refspecs, and `gname` defines prefixes of ref names.
#![tactic(auto)]

mod answer;
mod command;
mod fault;
pub mod laws;
mod number;
mod reading;
mod served;
mod terminal;
mod url;
mod usage;

pub use crate::answer::{Answer, Stream};
pub use crate::command::{CloneArgs, FetchArgs, GitrepoCommand, LsArgs, ServeArgs, Verbosity};
pub use crate::fault::{Cause, Transport, UrlFault};
pub use crate::reading::read_words;
pub use crate::served::{Ending, ServedPath};
pub use crate::terminal::{Shown, clean, clean_byte, push_clean};
pub use crate::url::{DEFAULT_PORT, GitUrl};

//! The program `gitrepo` as one function. [`run_gitrepo`] reads the arguments, and serves, clones,
//! fetches, lists or checks Git repositories on disk.
//!
//! - `serve` serves the exported repositories below a directory, with many connections at once on
//!   one thread (git-daemon(1)). `serve` reads the refs again for each connection, so clients see
//!   the changes that Git makes. The server caches the graphs of at most 64 repositories. Those
//!   without open objects have at most 1,048,576 commits and tags in total. A cached graph is used
//!   for equal refs and an equal HEAD. Connections also share open packs while the pack directory
//!   is unchanged. `serve` sends a pack entry by entry, and holds one entry and at most 10 possible
//!   delta bases in memory. `serve` logs one line per connection.
//! - `upload-pack` serves one connection on standard input and output (git-upload-pack(1)).
//! - `serve` and `upload-pack` answer ls-refs from the refs, the peeled ids in `packed-refs`, and
//!   the objects of all other refs. They read the history at the first fetch request. If the
//!   history is incomplete, the request is refused, as in Git.
//! - `clone` and `fetch` store the received pack unchanged, and then update the refs. `ls` prints
//!   the refs of a server as git-ls-remote(1) does. `check` checks the connectivity of the refs.
//! - A failed command prints one sentence on standard error, and exits with status 1. The exit
//!   status is 2 for wrong arguments, and 0 on success.
//!
//! # Proved
//!
//! - No call panics, overflows or reads out of bounds, and every call returns, for any arguments,
//!   files, standard streams and peers.
//! - A private function makes the text that `ls` prints, in the format of git-ls-remote(1)
//!   (`specs/Listing.antt`). A private function derives the HEAD of a clone from the server's reply
//!   (`specs/Heads.antt`). Another private function finds version 2 among the keys of
//!   `GIT_PROTOCOL` (`specs/Versions.antt`).
//! - `serve` and `upload-pack` run each connection as a `Dialogue`, so the proofs of `gserver`
//!   apply to each connection. `serve` runs the dialogues in an event loop of `gevents`, and
//!   `upload-pack` runs one dialogue by `gtalk::drive`. If no fault ends the sending of a pack, the
//!   pack has a header, as many entries as the header states, and a trailer.
//! - `clone` and `fetch` receive objects by a private function. Each id that the graph of the
//!   client gains is that of an object of the received pack, or of a prerequisite of the pack. This
//!   holds for any bytes from the server.
//!
//! # Only tested
//!
//! Everything else is tested with Git as the peer (`examples/with-git.sh`). These tests cover
//! finding repositories, the sent and stored data, progress, the log of connections, and each error
//! message. `examples/many-clients.py` tests many clients at once, and their deadlines.
//!
//! # Differences from Git
//!
//! - `clone` fetches only HEAD, branches and tags. If the server's HEAD holds the id of a tag
//!   object, the clone's HEAD holds the id of the tag's commit. Git refuses to clone from such a
//!   server.
//! - A refspec without `+` allows `fetch` to fast-forward a tag. In Git, only a refspec with `+`
//!   allows a tag to move. `fetch` fails if a destination is a symbolic ref. `fetch` refuses to
//!   update a branch that the work tree of its argument DIR uses. These are the checked-out branch
//!   and those being rebased or bisected. A branch that only another worktree uses can move. If
//!   `core.bare` is not set in the file `config`, a repository has a work tree if its directory is
//!   named `.git`, or if a `.git` file leads to it.
//! - By default, `serve` accepts at most 1,024 connections at once, and at most 64 from one IPv4
//!   address, or from the IPv6 addresses with the same first 64 bits. A client must send its first
//!   line within 10 seconds, the first byte of a request within 60 seconds, and the rest of the
//!   request within another 60 seconds. A client that accepts no byte for 60 seconds is
//!   disconnected. A connection may last 10 minutes, plus a second for each 8,192 bytes sent to the
//!   client. No client waits for the input or output of another client. All clients wait while the
//!   server reads a history, or looks up or deflates objects, for one client. At most 16 object
//!   stores are open at once, and `serve` refuses a client that needs the objects of a 17th
//!   repository. In Git, `--max-connections=0` means no limit; `serve` refuses this value.
//!   `upload-pack` waits for its client without a time limit.
//! - `core.sharedRepository` and `core.logAllRefUpdates` are ignored: new files have the default
//!   permissions, and no reflog is written.
//! - `serve` and `upload-pack` refuse a repository if a ref file is malformed, or if the object of
//!   a ref is missing. If the header of `packed-refs` has `fully-peeled`, the objects of its refs
//!   are looked up only when a client requests objects. Git lists a broken ref, and refuses only a
//!   client that wants it.
//! - `serve` and `upload-pack` serve only protocol version 2. `upload-pack` does not check
//!   who owns a repository.
//! - A request has at most 65,537 wants, 65,536 haves and 1,024 ref prefixes. If a client connects
//!   while at least 64 others are connected, its requests have at most 1,024 wants, 4,096 haves and
//!   64 prefixes. These limits apply even if all these connections come from one address. A
//!   repository has at most 65,536 refs. A sent or received pack has less than 4 GiB. A received
//!   pack has at most 1,048,576 objects, and at most 128 MiB per entry.
//! - The progress line shows the object count from the pack header, and the number of received
//!   bytes.
//! - `ls` and `fetch` print ref names as the server sent them, unless standard output is a
//!   terminal. On a terminal each byte that is not printable ASCII becomes a question mark.
//!
//! # What the contracts do not rule out
//!
//! No contract covers any behaviour that "Proved" does not list. Most behaviour depends on files,
//! streams and sockets, which contracts cannot describe. No contract rules out any of the
//! following:
//!
//! - Any number of repositories may be cached, and an object store may never be closed. The server
//!   may list the refs of a cached repository even if their objects have since been removed. A
//!   wrong peeled id may stay listed until a ref or HEAD changes.
//! - `Repositories` may find a wrong repository or report a wrong error text. A packer may fail
//!   with a wrong fault. A pack may have objects of another repository, or lack objects that the
//!   client needs.
//! - A failed command may exit with a wrong status. Output may be lost before it is written, and a
//!   call may fail without a reason.
//! - A client may see the refs or objects of an earlier connection. `serve` may serve a repository
//!   without `git-daemon-export-ok`. A client that does not request version 2 may be served, and a
//!   connection may have limits other than those above.
//! - The log may omit a fault, and `fetch` may report that refs are up to date although they are
//!   not.
//! - Control bytes may be written to a terminal.
//! - `upload-pack` may pass bytes to the dialogue that differ from the bytes it reads. A client
//!   whose first packet is malformed may get no error packet. A server may end its replies with a
//!   response-end packet.
//!
//! # Dependencies
//!
//! `gitwords` parses arguments and paths. `gitrepository`, `gitobjects` and `gitrefs` read and
//! write repositories. `gevents`, `gserver`, `gdialogue`, `gparts`, `gtalk` and `mio` run the
//! connections to clients. The other commands use `gtcp`, `gserve`, `ganswer` and `gclient`. `gcmd`
//! prints the report of a fetch. `ghello`, `glsreply`, `grequest`, `ggrammar` and `gpkt` read and
//! write messages. `ggraph` defines graphs, and `gname` defines names and ids.
#![tactic(auto)]

mod checking;
mod cloning;
mod current;
mod directory;
mod disk;
mod fault;
mod fetching;
mod first_line;
mod history;
mod kept;
mod limits;
mod listing;
mod notes;
mod opening;
mod output;
mod packets;
mod program;
mod progress;
mod refusals;
mod remote;
mod repositories;
mod sentences;
mod serving;
mod shared;
mod slots;
mod stored;
mod uploading;
mod used;
mod visitor;
mod visits;

pub use crate::program::run_gitrepo;

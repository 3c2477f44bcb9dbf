//! The program `gitrepo`, which runs [`run_gitrepo`] on the operating system.
//!
//! # Proved
//!
//! The program terminates without panics, overflows or reads out of bounds, for any arguments,
//! files and bytes from peers.
//!
//! # Only tested
//!
//! One test runs `--version`, to check that `gitprogram` receives the runtime. The files `args` and
//! `stdout` contain the arguments and the expected output of this test. The script
//! `examples/with-git.sh` tests all commands with Git as the peer.
//!
//! # What the contracts do not rule out
//!
//! The contracts say nothing more, because no contract can describe a file, a stream or a socket
//! of the system.
//!
//! # Dependencies
//!
//! This crate uses only `gitprogram`.
#![tactic(auto)]

use gitprogram::run_gitrepo;
use std::io::IsTerminal;
use std::process::ExitCode;

fn main(rt: HostRuntime) -> ExitCode {
    let is_terminal = rt.stdout().is_terminal();
    let mut stderr = rt.stderr();
    ExitCode::from(run_gitrepo(&rt, is_terminal, &mut stderr))
}

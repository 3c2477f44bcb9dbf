//! The program `gitv2`, which runs [`run_gitv2`] on the operating system.
//!
//! # Proved
//!
//! For any arguments, files and streams, the program terminates without panics, overflows or use
//! after free.
//!
//! # Only tested
//!
//! One test runs `ls --stdio-server` (`args`, `stdin`, `stdout`, `data/`), to check that `gprogram`
//! receives the runtime. The program `conformance` tests the commands by calling [`run_gitv2`].
//!
//! # What the contracts do not rule out
//!
//! The contracts make no other statement, because no contract can describe a file, a stream or a
//! socket of the system.
//!
//! # Dependencies
//!
//! This crate uses only `gprogram`.
#![tactic(auto)]

use gprogram::run_gitv2;
use std::process::ExitCode;

fn main(rt: HostRuntime) -> ExitCode {
    let mut stderr = rt.stderr();
    ExitCode::from(run_gitv2(&rt, &mut stderr))
}

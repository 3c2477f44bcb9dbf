//! The inputs of programs: a server, a client's repository, and refspecs. The functions of this
//! module have no contracts, to keep the proofs of their callers short.

use gclient::Repo;
use gcmd::{ProgramFault, Spec, load_server, open_client, read_specs};
use gserve::Server;
use std::alloc::Allocator;

/// Parses the text of a server's repository.
pub fn parse_server<A: Allocator + Copy>(
    tested_alloc: A,
    repository_text: &[u8],
) -> Result<Server<A>, ProgramFault<A>> {
    load_server(tested_alloc, repository_text)
}

/// Parses the text of a client's repository.
pub fn parse_client<A: Allocator + Copy>(
    tested_alloc: A,
    repository_text: &[u8],
) -> Result<Repo<A>, ProgramFault<A>> {
    open_client(tested_alloc, repository_text)
}

/// Parses the refspecs of a command line.
pub fn parse_specs<A: Allocator + Copy>(
    tested_alloc: A,
    arguments: &[String<A>],
) -> Result<Vec<Spec<A>, A>, ProgramFault<A>> {
    read_specs(tested_alloc, arguments)
}

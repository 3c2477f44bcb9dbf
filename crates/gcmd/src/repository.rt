//! Loading the served repository from its file.

ghost use Rattle.gcmd.specs.Serving.{LoadsServer};

use crate::fault::ProgramFault;
use ganswer::Server;
use ggraph::{Order, load};
use std::alloc::Allocator;

/// Returns a server for the repository whose text is `file`. The ids may have either object format.
///
/// Fails with `Text` if the file is not the text of a repository in which each parent precedes its
/// children. Otherwise fails with `Build` if the object of a ref or of a detached HEAD is missing.
/// Both faults can also mean that memory ran out.
pub fn load_server<A: Allocator + Copy>(alloc: A, file: &[u8]) -> Result<Server<A>, ProgramFault<A>>
    ensures { LoadsServer file.now result }
{
    let repository = load(alloc, file, Order::ParentsFirst)?;
    Ok(Server::new(repository.graph, repository.refs, repository.head)?)
}

//! An example of a server for one connection.

use gcmd::ProgramFault;
use ggrammar::Ends;
use ggraph::{Order, PlainPack, load};
use gpkt::{Sink, Source};
use gserve::{OnePack, Served, Server, serve};
use std::alloc::Allocator;

/// Parses a repository from `text`, serves one connection (gitprotocol-v2(5)), and returns how the
/// connection ended.
///
/// Fails with `Text` if `text` is not a valid repository, and with `Build` if the repository cannot
/// be served. After a fault, nothing was read from `source`.
pub fn serve_text<A: Allocator + Copy, S: Source, W: Sink>(
    alloc: A,
    text: &[u8],
    source: &mut S,
    sink: &mut W,
) -> Result<Served, ProgramFault<A>> {
    let repository = load(alloc, text, Order::ParentsFirst)?;
    let server = Server::new(repository.graph, repository.refs, repository.head)?;
    let mut packer = OnePack::new(&PlainPack);
    Ok(serve(&server, &mut packer, Ends::Plain, source, sink))
}

//! An example of a client that fetches refs.

use gclient::{Repo, Spec, fetch_over};
use gcmd::{PackLimit, ProgramFault};
use ggrammar::Ends;
use ggraph::{Order, PlainPack, load};
use gpkt::{Sink, Source};
use std::alloc::Allocator;

/// Parses the client's repository from `text`, fetches those refs of a server that match `specs`
/// (gitprotocol-v2(5)), and returns the repository.
///
/// Fails with `Text` if `text` is not a valid repository. Fails with `Fetch` if an object that a
/// ref reaches is missing, or if the conversation fails. The returned repository has no HEAD.
pub fn fetch_into<A: Allocator + Copy, S: Source, W: Sink>(
    alloc: A,
    text: &[u8],
    specs: &[Spec<A>],
    source: &mut S,
    sink: &mut W,
) -> Result<Repo<A>, ProgramFault<A>> {
    let repository = load(alloc, text, Order::Any)?;
    let mut repo = Repo::new(repository.graph, repository.refs)?;
    let limit = PackLimit::default();
    match fetch_over(
        &mut repo,
        source,
        sink,
        &PlainPack,
        specs,
        limit,
        Ends::Plain,
    ) {
        Ok(_) => Ok(repo),
        Err(fault) => Err(ProgramFault::Fetch(fault)),
    }
}

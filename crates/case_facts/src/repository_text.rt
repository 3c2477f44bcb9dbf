//! Loading and saving the text of a repository.

use ggraph::{LoadFault, Order, Repository, SaveFault, load, save};
use std::alloc::Allocator;

pub(crate) fn load_text<A: Allocator + Copy>(
    tested_alloc: A,
    text: &[u8],
    order: Order,
) -> Result<Repository<A>, LoadFault> {
    load(tested_alloc, text, order)
}

pub(crate) fn save_text<A: Allocator + Copy>(
    tested_alloc: A,
    repository: &Repository<A>,
) -> Result<Vec<u8, A>, SaveFault> {
    save(
        tested_alloc,
        &repository.graph,
        &repository.refs,
        &repository.head,
    )
}

//! Packers and indexers for one run. The packer or the indexer may fail or break its contract. Each
//! indexer records the calls that it receives.

ghost use Rattle.std.specs.Prelude.{⊤};

use crate::indexer_check::IndexerCheck;
use case_text::{PackTool, ReceivedPack};
use ggraph::{Entry, IndexFault, Indexer, PackFault, Packer};
use gname::{Format, MAX_PACK};
use std::alloc::Allocator;

/// A packer or an indexer for ids of one format. `input` holds the bytes from which the program
/// reads packs.
#[derive(Clone, Copy)]
pub(crate) struct CheckedTool<'i, 'w> {
    pub(crate) pack_tool: PackTool,
    pub(crate) format: Format,
    pub(crate) input: &'i [u8],
    pub(crate) indexer_check: &'w IndexerCheck,
}

impl<A: Allocator + Copy> Packer<A> for CheckedTool<'_, '_> {
    ghost packs = { λ _ list pack. ⊤ };

    ghost pack_fails = { λ _ list fault. ⊤ };

    fn pack(&self, alloc: A, entries: &[Entry<A>]) -> Result<Vec<u8, A>, PackFault> {
        let pack = self.pack_tool.pack(alloc, entries)?;
        if pack.len() > MAX_PACK {
            return Err(PackFault::TooLarge);
        }
        Ok(pack)
    }
}

impl<A: Allocator + Copy> Indexer<A> for CheckedTool<'_, '_> {
    type Feed = ReceivedPack<A>;

    ghost indexes = { λ pack list. ⊤ };

    ghost index_fails = { λ pack fault. ⊤ };

    ghost fed = { λ feed pack. ⊤ };

    fn start(&self, alloc: A) -> Result<ReceivedPack<A>, IndexFault> {
        self.indexer_check.note_start();
        self.pack_tool.start(alloc)
    }

    fn feed(&self, feed: &mut ReceivedPack<A>, piece: &[u8]) -> Result<(), IndexFault> {
        self.indexer_check.note_piece(self.input, piece);
        let outcome = self.pack_tool.feed(feed, piece);
        if outcome.is_err() {
            self.indexer_check.note_failure();
        }
        outcome
    }

    fn finish(&self, feed: ReceivedPack<A>) -> Result<Vec<Entry<A>, A>, IndexFault> {
        self.indexer_check.note_finish();
        self.pack_tool.index(self.format, &feed)
    }
}

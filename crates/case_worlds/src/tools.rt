//! The packer and the indexer of a world. One of the two may fail or break its contract.

ghost use Rattle.std.specs.Prelude.{⊤};

use case_text::{PackTool, ReceivedPack};
use ggraph::{Entry, IndexFault, Indexer, PackFault, Packer, PlainPack};
use gname::{Format, MAX_PACK};
use std::alloc::Allocator;

/// A packer and an indexer for ids of one format. Without a `pack_tool`, both fulfill their
/// contracts.
#[derive(Clone, Copy, Drop)]
pub struct Tools {
    pub pack_tool: Option<PackTool>,
    pub format: Format,
}

impl<A: Allocator + Copy> Packer<A> for Tools {
    ghost packs = { λ _ list pack. ⊤ };

    ghost pack_fails = { λ _ list fault. ⊤ };

    fn pack(&self, alloc: A, entries: &[Entry<A>]) -> Result<Vec<u8, A>, PackFault> {
        let pack = match self.pack_tool {
            Some(pack_tool) if pack_tool.is_packer() => pack_tool.pack(alloc, entries)?,
            _ => PlainPack.pack(alloc, entries)?,
        };
        if pack.len() > MAX_PACK {
            return Err(PackFault::TooLarge);
        }
        Ok(pack)
    }
}

impl<A: Allocator + Copy> Indexer<A> for Tools {
    type Feed = ReceivedPack<A>;

    ghost indexes = { λ pack list. ⊤ };

    ghost index_fails = { λ pack fault. ⊤ };

    ghost fed = { λ feed pack. ⊤ };

    fn start(&self, alloc: A) -> Result<ReceivedPack<A>, IndexFault> {
        self.indexer().start(alloc)
    }

    fn feed(&self, feed: &mut ReceivedPack<A>, piece: &[u8]) -> Result<(), IndexFault> {
        self.indexer().feed(feed, piece)
    }

    fn finish(&self, feed: ReceivedPack<A>) -> Result<Vec<Entry<A>, A>, IndexFault> {
        self.indexer().index(self.format, &feed)
    }
}

impl Tools {
    // Returns the tool that indexes packs: `pack_tool` if it is set, otherwise `CheckingIndexer`.
    fn indexer(&self) -> PackTool {
        match self.pack_tool {
            Some(pack_tool) => pack_tool,
            None => PackTool::CheckingIndexer,
        }
    }
}

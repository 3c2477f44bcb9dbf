//! Packers and indexers for tests. Most of them fail or break their contracts.

use crate::words::value_of_word;
use ggraph::{Entry, IndexFault, Indexer, Kind, Node, PackFault, Packer, Parents, PlainPack};
use gname::{Format, MAX_ID_TEXT, Oid};
use std::alloc::Allocator;

/// A packer or an indexer for tests.
#[derive(Clone, Copy, PartialEq, Eq)]
pub enum PackTool {
    /// A packer that writes an empty pack.
    EmptyPacker,
    /// A packer that omits the last entry.
    ShortPacker,
    /// A packer that fails with `Other`.
    FailingPacker,
    /// A packer that fails with `TooLarge`.
    TooLargePacker,
    /// A packer that fails with `Memory`.
    OutOfMemoryPacker,
    /// An indexer that omits the first entry.
    DropFirstIndexer,
    /// An indexer that returns only a commit with a wrong parent.
    WrongParentIndexer,
    /// An indexer that returns only a commit with 65 parents, which is invalid.
    ManyParentsIndexer,
    /// An indexer that returns only a tag with two parents, which is invalid.
    TwoParentTagIndexer,
    /// An indexer that fails in `start`.
    FailingStartIndexer,
    /// An indexer that fails in `feed`.
    FailingFeedIndexer,
    /// An indexer that fails in `finish`.
    FailingFinishIndexer,
    /// An indexer that fulfills its contract, for tests that check the calls to an indexer.
    CheckingIndexer,
}

// The packers with their names in test files.
const PACKERS: &[(&str, PackTool)] = &[
    ("empty", PackTool::EmptyPacker),
    ("short", PackTool::ShortPacker),
    ("fails", PackTool::FailingPacker),
    ("large", PackTool::TooLargePacker),
    ("memory", PackTool::OutOfMemoryPacker),
];

// The indexers with their names in test files.
const INDEXERS: &[(&str, PackTool)] = &[
    ("drops-first", PackTool::DropFirstIndexer),
    ("other-parent", PackTool::WrongParentIndexer),
    ("many-parents", PackTool::ManyParentsIndexer),
    ("two-parent-tag", PackTool::TwoParentTagIndexer),
    ("fails", PackTool::FailingStartIndexer),
    ("fails-at-piece", PackTool::FailingFeedIndexer),
    ("fails-at-end", PackTool::FailingFinishIndexer),
    ("watches", PackTool::CheckingIndexer),
];

impl PackTool {
    /// Returns the packer with this name in test files, or `None` if there is no such packer.
    pub fn packer_named(name: &str) -> Option<PackTool> {
        value_of_word(PACKERS, name)
    }

    /// Returns the indexer with this name in test files, or `None` if there is no such indexer.
    pub fn indexer_named(name: &str) -> Option<PackTool> {
        value_of_word(INDEXERS, name)
    }

    /// Returns whether this is a packer.
    pub fn is_packer(self) -> bool {
        matches!(
            &self,
            PackTool::EmptyPacker
                | PackTool::ShortPacker
                | PackTool::FailingPacker
                | PackTool::TooLargePacker
                | PackTool::OutOfMemoryPacker
        )
    }

    /// Returns whether this is an indexer that fails or breaks its contract.
    pub(crate) fn is_faulty_indexer(self) -> bool {
        !self.is_packer() && self != PackTool::CheckingIndexer
    }

    /// Returns the pack that this packer writes for the entries.
    pub fn pack<A: Allocator + Copy>(
        self,
        alloc: A,
        entries: &[Entry<A>],
    ) -> Result<Vec<u8, A>, PackFault> {
        let packed = match self {
            PackTool::EmptyPacker => &entries[..0],
            PackTool::ShortPacker => match entries.split_last() {
                Some((_, others)) => others,
                None => entries,
            },
            PackTool::TooLargePacker => return Err(PackFault::TooLarge),
            PackTool::OutOfMemoryPacker => return Err(PackFault::Memory),
            _ => return Err(PackFault::Other),
        };
        PlainPack.pack(alloc, packed)
    }

    /// Starts the indexing of a pack. Fails if this is `FailingStartIndexer`.
    pub fn start<A: Allocator + Copy>(self, alloc: A) -> Result<ReceivedPack<A>, IndexFault> {
        match self {
            PackTool::FailingStartIndexer => Err(IndexFault::Other),
            _ => Ok(ReceivedPack::new(alloc)),
        }
    }

    /// Appends a piece of the pack. Fails if this is `FailingFeedIndexer`, or if memory runs out.
    pub fn feed<A: Allocator + Copy>(
        self,
        received_pack: &mut ReceivedPack<A>,
        piece: &[u8],
    ) -> Result<(), IndexFault> {
        match self {
            PackTool::FailingFeedIndexer => Err(IndexFault::Bad { line: 3 }),
            _ => received_pack.add_piece(piece),
        }
    }

    /// Returns the entries that this indexer reports for a pack with ids of this format.
    pub fn index<A: Allocator + Copy>(
        self,
        format: Format,
        received_pack: &ReceivedPack<A>,
    ) -> Result<Vec<Entry<A>, A>, IndexFault> {
        match self {
            PackTool::DropFirstIndexer => entries_without_first(
                received_pack.alloc,
                received_pack.bytes(),
            ),
            pack_tool if pack_tool.is_faulty_indexer() => invented_entries(
                pack_tool,
                format,
                received_pack.alloc,
            ),
            _ => PlainPack.index(received_pack.alloc, received_pack.bytes()),
        }
    }
}

/// The pieces of a pack that an indexer has received.
#[derive(Drop)]
pub struct ReceivedPack<A: Allocator + Copy> {
    alloc: A,
    bytes: Vec<u8, A>,
}

impl<A: Allocator + Copy> ReceivedPack<A> {
    /// Returns an empty buffer for a pack.
    pub fn new(alloc: A) -> ReceivedPack<A> {
        ReceivedPack {
            alloc,
            bytes: Vec::new(alloc),
        }
    }

    /// Appends a piece of the pack.
    pub fn add_piece(&mut self, piece: &[u8]) -> Result<(), IndexFault> {
        Ok(self.bytes.extend_from_slice(piece)?)
    }

    /// Returns the received bytes of the pack.
    pub fn bytes(&self) -> &[u8] {
        self.bytes.as_slice()
    }
}

// Returns the one invented entry that this indexer reports for every pack. Fails for any other
// tool.
fn invented_entries<A: Allocator + Copy>(
    pack_tool: PackTool,
    format: Format,
    alloc: A,
) -> Result<Vec<Entry<A>, A>, IndexFault> {
    let entry = invented_entry(pack_tool, format, alloc)?;
    let mut list = Vec::new(alloc);
    list.push(entry)?;
    Ok(list)
}

fn invented_entry<A: Allocator + Copy>(
    pack_tool: PackTool,
    format: Format,
    alloc: A,
) -> Result<Entry<A>, IndexFault> {
    let a = id_of_digit(format, b'a')?;
    let c = id_of_digit(format, b'c')?;
    match pack_tool {
        PackTool::WrongParentIndexer => entry(
            alloc,
            a,
            Kind::Commit,
            &[id_of_digit(format, b'd')?],
        ),
        PackTool::ManyParentsIndexer => entry(
            alloc,
            c,
            Kind::Commit,
            &[id_of_digit(format, b'b')?; 65],
        ),
        PackTool::TwoParentTagIndexer => entry(alloc, c, Kind::Tag, &[a; 2]),
        _ => Err(IndexFault::Other),
    }
}

// Returns all entries of a pack except the first.
fn entries_without_first<A: Allocator + Copy>(
    alloc: A,
    pack: &[u8],
) -> Result<Vec<Entry<A>, A>, IndexFault> {
    let entries = PlainPack.index(alloc, pack)?;
    match entries.as_slice() {
        [_, others @ ..] => copy_entries(alloc, others),
        [] => Ok(Vec::new(alloc)),
    }
}

fn copy_entries<A: Allocator + Copy>(
    alloc: A,
    entries: &[Entry<A>],
) -> Result<Vec<Entry<A>, A>, IndexFault> {
    let mut list = Vec::new(alloc);
    for entry in entries {
        list.push(entry.copy_in(alloc)?)?;
    }
    Ok(list)
}

// Returns the id whose hexadecimal digits are all `digit`.
fn id_of_digit(format: Format, digit: u8) -> Result<Oid, IndexFault> {
    let digits = [digit; MAX_ID_TEXT];
    let Some(digits) = digits.get(..format.id_text_length()) else {
        return Err(IndexFault::Other);
    };
    match Oid::from_hex_in(format, digits) {
        Ok(id) => Ok(id),
        Err(_) => Err(IndexFault::Other),
    }
}

fn entry<A: Allocator + Copy>(
    alloc: A,
    id: Oid,
    kind: Kind,
    parents: &[Oid],
) -> Result<Entry<A>, IndexFault> {
    let parents = Parents::from_slice(alloc, parents)?;
    Ok(Entry {
        id,
        node: Node { kind, parents },
    })
}

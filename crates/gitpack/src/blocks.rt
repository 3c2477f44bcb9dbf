//! A hash table of the 16-byte blocks of a delta base.

use std::alloc::{AllocError, Allocator};

/// The length of a block in bytes.
pub(crate) const BLOCK: usize = 16;

// The multiplier of the rolling hash of a block.
const MULTIPLIER: u32 = 0x0100_0193;

// `MULTIPLIER` to the power 15, the factor of the first byte of a block in the hash.
const FIRST_FACTOR: u32 = 0xd69d_215b;

// The maximum number of blocks of a slot that are compared with the target.
const MAX_TRIES: usize = 32;

// The minimum length of a match that is accepted without a search for longer matches.
const NICE_LENGTH: usize = 4_096;

// The hash of a block, and the number of the next block in the same slot.
#[derive(Clone, Copy, Drop)]
struct Block {
    hash: u32,
    next: u32,
}

/// A hash table of the blocks of a delta base. The number of a block is its index plus 1, and 0
/// means no block.
#[derive(Drop)]
pub(crate) struct Blocks<A: Allocator + Copy> {
    // The number of the first block in each slot.
    heads: Vec<u32, A>,
    blocks: Vec<Block, A>,
}

/// A range of bytes that occurs in both the target and the base.
#[derive(Clone, Copy)]
pub(crate) struct Match {
    /// The offset of the first byte in the target.
    pub(crate) at: usize,
    /// The offset of the first byte in the base.
    pub(crate) offset: usize,
    /// The number of bytes.
    pub(crate) length: usize,
}

impl<A: Allocator + Copy> Blocks<A> {
    /// Returns the hash table of the blocks of a base. Fails only if out of memory.
    pub(crate) fn new(alloc: A, base: &[u8]) -> Result<Blocks<A>, AllocError> {
        let count = base.len() / BLOCK;
        let mut heads = Vec::with_capacity(alloc, count)?;
        heads.resize(count, 0u32)?;
        let mut blocks = Vec::with_capacity(alloc, count)?;
        blocks.resize(count, Block { hash: 0, next: 0 })?;
        let mut made = Blocks { heads, blocks };
        made.add_all(base);
        Ok(made)
    }

    // Adds the blocks, from last to first. If consecutive blocks have the same hash, only the first
    // of them stays in the table.
    fn add_all(&mut self, base: &[u8]) {
        let count = self.blocks.len();
        let mut following_hash = None;
        for added in 0..count {
            let index = count.wrapping_sub(added).wrapping_sub(1);
            let Some(bytes) = block_at(base, index.wrapping_mul(BLOCK)) else {
                return;
            };
            let hash = hash_of(bytes);
            self.add(index, hash, following_hash == Some(hash));
            following_hash = Some(hash);
        }
    }

    // Adds the block at an index. If `replaces_first` is set, the new block replaces the first
    // block in its slot.
    fn add(&mut self, index: usize, hash: u32, replaces_first: bool) {
        let slot = slot_of(hash, self.heads.len());
        let Some(head) = self.heads.get_mut(slot) else {
            return;
        };
        let next = if replaces_first {
            next_of(self.blocks.as_slice(), *head)
        } else {
            *head
        };
        *head = (index.wrapping_add(1) & 0xffff_ffff) as u32;
        if let Some(block) = self.blocks.get_mut(index) {
            *block = Block { hash, next };
        }
    }

    /// Returns the first match that begins in `from..to` of the target and has at least the length
    /// of a block. Returns `None` if the search finds no match. The match ends where the target and
    /// the base differ, or where one of them ends.
    pub(crate) fn next_match(
        &self,
        base: &[u8],
        target: &[u8],
        from: usize,
        to: usize,
    ) -> Option<Match> {
        let mut hash = hash_of(block_at(target, from)?);
        for at in from..to {
            let head = self.heads.get(slot_of(hash, self.heads.len())).copied()?;
            if head != 0 {
                let found = self.longest(base, target, at, (hash, head));
                if found.length >= BLOCK {
                    return Some(found);
                }
            }
            hash = roll(hash, *target.get(at)?, *target.get(at.wrapping_add(BLOCK))?);
        }
        None
    }

    // Returns the longest match that the search finds at offset `at` of the target. The pair
    // `start` contains the hash of the target's block at `at`, and the number of the first base
    // block in the slot for this hash.
    fn longest(&self, base: &[u8], target: &[u8], at: usize, start: (u32, u32)) -> Match {
        let mut best = Match {
            at,
            offset: 0,
            length: 0,
        };
        let mut number = start.1;
        for _try in 0..MAX_TRIES {
            let index = (number as usize).wrapping_sub(1);
            let Some(block) = self.blocks.get(index) else {
                break;
            };
            if block.hash == start.0 {
                let offset = index.wrapping_mul(BLOCK);
                let length = common_front(base.get(offset..), target.get(at..));
                if length > best.length {
                    best = Match { at, offset, length };
                }
                if length >= NICE_LENGTH {
                    break;
                }
            }
            number = block.next;
        }
        best
    }
}

impl Match {
    /// Returns the match, extended backwards as long as the bytes of base and target are equal. The
    /// extended match does not begin before offset `start` of the target.
    pub(crate) fn extend_back(self, base: &[u8], target: &[u8], start: usize) -> Match {
        let more = common_back(base.get(..self.offset), target.get(start..self.at));
        Match {
            at: self.at.wrapping_sub(more),
            offset: self.offset.wrapping_sub(more),
            length: self.length.wrapping_add(more),
        }
    }
}

// Returns the block that begins at an offset, or `None` if fewer than 16 bytes remain.
fn block_at(bytes: &[u8], offset: usize) -> Option<&[u8]> {
    bytes.get(offset..)?.get(..BLOCK)
}

// Returns the number of the next block in the same slot, or 0 if this block is the last.
fn next_of(blocks: &[Block], number: u32) -> u32 {
    match blocks.get((number as usize).wrapping_sub(1)) {
        Some(block) => block.next,
        None => 0,
    }
}

// Returns the slot for a hash in a table of `slots` slots.
fn slot_of(hash: u32, slots: usize) -> usize {
    let spread = u64::from(hash.wrapping_mul(0x9E37_79B1));
    (spread.wrapping_mul(slots as u64) >> 32) as usize
}

// Returns the rolling hash of these bytes.
fn hash_of(bytes: &[u8]) -> u32 {
    let mut hash = 0u32;
    for byte in bytes {
        hash = hash.wrapping_mul(MULTIPLIER).wrapping_add(term(*byte));
    }
    hash
}

// Returns the rolling hash after removing the byte `first` at the front and appending the byte
// `next`.
fn roll(hash: u32, first: u8, next: u8) -> u32 {
    let rest = hash.wrapping_sub(term(first).wrapping_mul(FIRST_FACTOR));
    rest.wrapping_mul(MULTIPLIER).wrapping_add(term(next))
}

// Returns the term that a byte adds to the rolling hash.
fn term(byte: u8) -> u32 {
    u32::from(byte).wrapping_add(1)
}

// Returns the length of the common prefix of two slices.
fn common_front(one: Option<&[u8]>, other: Option<&[u8]>) -> usize {
    let (Some(one), Some(other)) = (one, other) else {
        return 0;
    };
    let mut length = 0usize;
    for (byte, other_byte) in one.iter().zip(other) {
        if *byte != *other_byte {
            return length;
        }
        length = length.wrapping_add(1);
    }
    length
}

// Returns the length of the common suffix of two slices.
fn common_back(one: Option<&[u8]>, other: Option<&[u8]>) -> usize {
    let (Some(one), Some(other)) = (one, other) else {
        return 0;
    };
    let mut length = 0usize;
    for (byte, other_byte) in one.iter().rev().zip(other.iter().rev()) {
        if *byte != *other_byte {
            return length;
        }
        length = length.wrapping_add(1);
    }
    length
}

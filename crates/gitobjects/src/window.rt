//! Access to the open packs, with a cache of the most recently loaded blocks. A pack thus need not
//! be in memory as a whole.

ghost use Rattle.std.specs.Prelude.{◌≡◌, ◌+◌, ◌≤◌, ◌<◌, ◌++◌, ◌∷◌, [], ℕ, List, Option, IfOk, IfSome, OnErr, OnOk, OnSome, take, drop, length, map, vec_len};
ghost use Rattle.gitobjects.specs.Windows.{AreBlocks, IsBlock, IsPartOf};

use crate::fault::Cause;
use crate::files::OpenPack;
use crate::limits::{BLOCK, BLOCKS};
use std::alloc::{AllocError, Allocator};
use std::marker::Model;

/// An open pack, and its length.
#[derive(Drop)]
pub(crate) struct Opened<P: OpenPack + Drop> {
    file: P,
    end: usize,
}

/// A block of a pack: the number of the pack, the offset of the block in the pack, and its bytes.
#[derive(Drop)]
pub(crate) struct Block<A: Allocator + Copy> {
    pub(crate) pack: usize,
    pub(crate) first: usize,
    pub(crate) bytes: Vec<u8, A>,
}

/// The open packs, indexed by number, and their most recently loaded blocks. The total size of the
/// blocks is at most 64 MiB.
#[derive(Drop)]
pub(crate) struct Window<P: OpenPack + Drop, A: Allocator + Copy> {
    alloc: A,
    packs: Vec<Opened<P>, A>,
    // The blocks in memory, in the order in which they were loaded.
    blocks: Vec<Block<A>, A>,
}

impl<P: OpenPack + Drop, A: Allocator + Copy> Model for Window<P, A> {
    ghost use Rattle.std.specs.Prelude.{ℕ, List, Option, map};
    ghost use Rattle.gitobjects.specs.Windows.{AreBlocks};

    // The bytes of each pack, or `None` if the contracts do not describe them.
    ghost Value = { List (Option (List ℕ)) };

    ghost view = { λ w. map (λ opened. P.bytes opened.file) w.packs.items };

    ghost invariant = { λ w. AreBlocks (map (λ opened. P.bytes opened.file) w.packs.items)
        w.blocks.items };
}

impl<P: OpenPack + Drop, A: Allocator + Copy> Window<P, A> {
    /// Returns a window without packs.
    pub(crate) fn new(alloc: A) -> Window<P, A>
        ensures { result ≡ [] }
    {
        Window {
            alloc,
            packs: Vec::new(alloc),
            blocks: Vec::new(alloc),
        }
    }

    /// Adds an open pack whose length is `end`, and returns the number of the pack. Fails only if
    /// out of memory.
    pub(crate) fn add(&mut self, file: P, end: usize) -> Result<usize, AllocError>
        ensures number { IfOk result (λ number. number ≡ length self.old) }
        ensures ok { OnOk result (self.new ≡ self.old ++ P.bytes file ∷ []) }
        ensures err { OnErr result (self.new ≡ self.old) }
    {
        let number = self.packs.len();
        self.packs.push(Opened { file, end })?;
        Ok(number)
    }

    /// Returns `count` bytes of a pack starting at `start`. Fails with `Offset` if the pack is too
    /// short or there is no pack with this number. Fails with `Read` if the pack cannot be read, or
    /// with `Memory` if out of memory.
    pub(crate) fn read(
        &mut self,
        pack: usize,
        start: usize,
        count: usize,
    ) -> Result<Vec<u8, A>, Cause>
        ensures part { IfOk result (λ bytes. IsPartOf self.old pack start bytes.items) }
        ensures count { IfOk result (λ bytes. vec_len bytes ≡ count) }
        ensures same { self.new ≡ self.old }
    {
        let offset = start % BLOCK;
        if count > BLOCK - offset {
            return self.load(pack, start, count);
        }
        let first = start - offset;
        self.fetch(pack, first)?;
        let Some(block) = self.block_at(pack, first) else {
            return Err(Cause::Offset);
        };
        let Some(bytes) = inner_part(block, offset, count) else {
            return Err(Cause::Offset);
        };
        Ok(Vec::from_slice(self.alloc, bytes)?)
    }

    /// Returns `count` bytes of a pack starting at `start`, as [`Window::read`] does, but keeps no
    /// further block in memory.
    pub(crate) fn read_few(
        &mut self,
        pack: usize,
        start: usize,
        count: usize,
    ) -> Result<Vec<u8, A>, Cause>
        ensures part { IfOk result (λ bytes. IsPartOf self.old pack start bytes.items) }
        ensures count { IfOk result (λ bytes. vec_len bytes ≡ count) }
        ensures same { self.new ≡ self.old }
    {
        let offset = start % BLOCK;
        if self.holds(pack, start - offset) {
            self.read(pack, start, count)
        } else {
            self.load(pack, start, count)
        }
    }

    // Returns whether the block at this offset of a pack is in memory.
    fn holds(&self, pack: usize, first: usize) -> bool {
        self.block_at(pack, first).is_some()
    }

    // Returns the block at this offset of a pack, or `None` if the block is not in memory.
    fn block_at(&self, pack: usize, first: usize) -> Option<&[u8]>
        ensures { IfSome result (λ bytes. IsPartOf self.now pack first bytes.now) }
    {
        for block in &self.blocks {
            if block.pack == pack && block.first == first {
                return Some(block.bytes.as_slice());
            }
        }
        None
    }

    // Reads the block at this offset of a pack, unless the block is already in memory.
    fn fetch(&mut self, pack: usize, first: usize) -> Result<(), Cause>
        ensures { self.new ≡ self.old }
    {
        if self.holds(pack, first) {
            return Ok(());
        }
        let count = BLOCK.min(self.end_of(pack).saturating_sub(first));
        let bytes = self.load(pack, first, count)?;
        push_block(&mut self.blocks, Block { pack, first, bytes })
    }

    // Returns the length of a pack, or 0 if there is no pack with this number.
    fn end_of(&self, pack: usize) -> usize {
        match self.packs.get(pack) {
            Some(opened) => opened.end,
            None => 0,
        }
    }

    // Reads `count` bytes of a pack starting at `start`.
    fn load(&mut self, pack: usize, start: usize, count: usize) -> Result<Vec<u8, A>, Cause>
        ensures part { IfOk result (λ bytes. IsPartOf self.old pack start bytes.items) }
        ensures count { IfOk result (λ bytes. vec_len bytes ≡ count) }
        ensures inside { OnOk result (pack < length self.old) }
        ensures same { self.new ≡ self.old }
    {
        read_part(&mut self.packs, self.alloc, pack, start, count)
    }
}

// Reads `count` bytes of one of these packs starting at `start`.
fn read_part<P: OpenPack + Drop, A: Allocator + Copy>(
    packs: &mut Vec<Opened<P>, A>,
    alloc: A,
    pack: usize,
    start: usize,
    count: usize,
) -> Result<Vec<u8, A>, Cause>
    ensures part { IfOk result (λ bytes.
        IsPartOf (map (λ opened. P.bytes opened.file) packs.old.items) pack start bytes.items) }
    ensures count { IfOk result (λ bytes. vec_len bytes ≡ count) }
    ensures inside { OnOk result (pack < length packs.old.items) }
    ensures same { map (λ opened. P.bytes opened.file) packs.new.items
        ≡ map (λ opened. P.bytes opened.file) packs.old.items }
{
    if pack >= packs.len() {
        return Err(Cause::Offset);
    }
    if count > packs[pack].end.saturating_sub(start) {
        return Err(Cause::Offset);
    }
    packs[pack].file.read_at(alloc, start, count)
}

// Adds a block, after dropping the oldest block if the maximum number of blocks is in memory.
fn push_block<A: Allocator + Copy>(
    blocks: &mut Vec<Block<A>, A>,
    block: Block<A>,
) -> Result<(), Cause>
    ensures { (packs : List (Option (List ℕ))) → IsBlock packs block
        → AreBlocks packs blocks.old.items → AreBlocks packs blocks.new.items }
{
    make_room(blocks);
    blocks.push(block)?;
    Ok(())
}

// Drops the oldest block if the maximum number of blocks is in memory.
fn make_room<A: Allocator + Copy>(blocks: &mut Vec<Block<A>, A>)
    ensures blocks { (packs : List (Option (List ℕ)))
        → AreBlocks packs blocks.old.items → AreBlocks packs blocks.new.items }
    ensures room { length blocks.old.items ≤ 64 → length blocks.new.items < 64 }
{
    if blocks.len() < BLOCKS {
        return;
    }
    let _oldest = blocks.remove(0);
}

// Returns `count` bytes starting at `offset`, or `None` if fewer bytes remain.
fn inner_part(bytes: &[u8], offset: usize, count: usize) -> Option<&[u8]>
    ensures part { IfSome result (λ part. part.now ≡ take count (drop offset bytes.now)) }
    ensures count { IfSome result (λ part. length part.now ≡ count) }
    ensures fits { OnSome result (offset + count ≤ length bytes.now) }
{
    let Some((_before, after)) = bytes.split_at_checked(offset) else {
        return None;
    };
    match after.split_at_checked(count) {
        Some((part, _after)) => Some(part),
        None => None,
    }
}

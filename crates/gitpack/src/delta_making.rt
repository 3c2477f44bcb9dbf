//! Making deltas (gitformat-pack(5), "Deltified representation").

ghost use Rattle.std.specs.Prelude.{◌≡◌, ◌≤◌, ⊤, IfOk, MatchOption, length};
ghost use Rattle.gitpack.specs.Deltas.{IsDelta};

use crate::blocks::Blocks;
use crate::delta::apply_delta;
use crate::frame::is_same;
use crate::heads::put_size;
use std::alloc::{AllocError, Allocator};
use std::marker::Model;

// The maximum length of one insertion.
const MAX_INSERTION: usize = 127;

// The maximum length of one copy.
const MAX_COPY: usize = 0x10000;

// The bit that marks a copy command.
const COPY: u8 = 0x80;

// The bits of a copy command that are set if the lowest byte of the offset, or of the size, is
// present.
const OFFSET_BIT: u8 = 0x01;

const SIZE_BIT: u8 = 0x10;

/// An object against which deltas can be made. In contracts, a base is the list of its bytes.
#[derive(Drop)]
pub struct DeltaBase<A: Allocator + Copy> {
    alloc: A,
    bytes: Vec<u8, A>,
    blocks: Blocks<A>,
}

impl<A: Allocator + Copy> Model for DeltaBase<A> {
    ghost use Rattle.std.specs.Prelude.{ℕ, List};

    ghost Value = { List ℕ };

    ghost view = { λ base. base.bytes.items };
}

impl<A: Allocator + Copy> DeltaBase<A> {
    /// Returns a base with these bytes. The hash table uses additional memory: three quarters of
    /// the size of the base. Fails only if out of memory.
    pub fn new(alloc: A, bytes: Vec<u8, A>) -> Result<DeltaBase<A>, AllocError>
        ensures { IfOk result (λ base. base ≡ bytes.items) }
    {
        let blocks = Blocks::new(alloc, bytes.as_slice())?;
        Ok(DeltaBase {
            alloc,
            bytes,
            blocks,
        })
    }

    /// Returns the length of the base in bytes.
    pub fn len(&self) -> usize
        ensures { result ≡ length self.now }
    {
        self.bytes.len()
    }

    /// Returns a delta of at most `limit` bytes that makes the target from this base, or `None` if
    /// the search finds no delta. The delta is applied as a check before it is returned.
    ///
    /// Fails only if out of memory.
    pub fn make_delta(&self, target: &[u8], limit: usize) -> Result<Option<Vec<u8, A>>, AllocError>
        ensures { IfOk result (λ made. MatchOption made ⊤
            (λ delta. IsDelta self.now delta.items target.now × (length delta.items ≤ limit))) }
    {
        let Some(delta) = self.search(target, limit)? else {
            return Ok(None);
        };
        if delta.len() > limit {
            return Ok(None);
        }
        let base = self.bytes.as_slice();
        let Some(body) = apply_delta(self.alloc, base, delta.as_slice(), target.len())? else {
            return Ok(None);
        };
        if !is_same(body.as_slice(), target) {
            return Ok(None);
        }
        Ok(Some(delta))
    }

    // Searches for a delta of at most `limit` bytes, and returns `None` if none is found. The
    // returned delta may be longer than `limit`.
    fn search(&self, target: &[u8], limit: usize) -> Result<Option<Vec<u8, A>>, AllocError> {
        let base = self.bytes.as_slice();
        let mut delta = Vec::new(self.alloc);
        put_size(&mut delta, base.len())?;
        put_size(&mut delta, target.len())?;
        let mut done = 0usize;
        for _instruction in 0..target.len() {
            let room = limit.saturating_sub(delta.len());
            let end = done.saturating_add(room).saturating_add(1);
            let Some(found) = self.blocks.next_match(base, target, done, end) else {
                break;
            };
            let copy = found.extend_back(base, target, done);
            put_insertions(&mut delta, target.get(done..copy.at))?;
            put_copies(&mut delta, copy.offset, copy.length)?;
            done = copy.at.wrapping_add(copy.length);
        }
        if target.len().saturating_sub(done) > limit.saturating_sub(delta.len()) {
            return Ok(None);
        }
        put_insertions(&mut delta, target.get(done..))?;
        Ok(Some(delta))
    }
}

// Appends instructions that insert these bytes.
fn put_insertions<A: Allocator + Copy>(
    delta: &mut Vec<u8, A>,
    bytes: Option<&[u8]>,
) -> Result<(), AllocError> {
    let Some(bytes) = bytes else {
        return Ok(());
    };
    for part in bytes.chunks(MAX_INSERTION) {
        delta.push((part.len() & 0x7f) as u8)?;
        delta.extend_from_slice(part)?;
    }
    Ok(())
}

// Appends instructions that copy `length` bytes of the base, starting at `offset`.
fn put_copies<A: Allocator + Copy>(
    delta: &mut Vec<u8, A>,
    offset: usize,
    length: usize,
) -> Result<(), AllocError> {
    for part in 0..length.div_ceil(MAX_COPY) {
        let start = part.wrapping_mul(MAX_COPY);
        let size = length.wrapping_sub(start).min(MAX_COPY);
        put_copy(delta, offset.wrapping_add(start), size)?;
    }
    Ok(())
}

// Appends a copy instruction. Zero bytes of the offset and of the size are omitted.
fn put_copy<A: Allocator + Copy>(
    delta: &mut Vec<u8, A>,
    offset: usize,
    size: usize,
) -> Result<(), AllocError> {
    let command_index = delta.len();
    delta.push(COPY)?;
    let number = if size == MAX_COPY { 0 } else { size };
    let offset_bits = put_sparse(delta, offset, 4, OFFSET_BIT)?;
    let size_bits = put_sparse(delta, number, 3, SIZE_BIT)?;
    if let Some(command) = delta.get_mut(command_index) {
        *command = COPY | offset_bits | size_bits;
    }
    Ok(())
}

// Appends the nonzero bytes of a number of `count` bytes in little-endian order. Returns the bits
// that mark the appended bytes; `first` is the bit for the lowest byte.
fn put_sparse<A: Allocator + Copy>(
    delta: &mut Vec<u8, A>,
    number: usize,
    count: u32,
    first: u8,
) -> Result<u8, AllocError> {
    let mut bits = 0;
    let mut bit = first;
    let mut rest = number;
    for _byte in 0..count {
        let byte = (rest & 0xff) as u8;
        if byte != 0 {
            delta.push(byte)?;
            bits |= bit;
        }
        bit = bit.wrapping_shl(1);
        rest /= 256;
    }
    Ok(bits)
}

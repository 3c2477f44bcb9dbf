//! Applying deltas (gitformat-pack(5), "Deltified representation").

ghost use Rattle.std.specs.Prelude.{◌≡◌, ◌+◌, ◌^◌, ◌<◌, ◌≤◌, ◌++◌, ◌∷◌, List, ℕ, IfOk, IfSome, MatchOption, drop, length, take};
ghost use Rattle.gitpack.specs.Deltas.{BeginsWithInstruction, Instruction, IsCopy, IsDelta, IsSparse, Makes, add_instruction, copy_size};

use crate::numbers::split_size;
use std::alloc::{AllocError, Allocator};

// The minimum length of a delta in bytes.
const MIN_DELTA: usize = 4;

// The lowest value of a copy command. The value of an insertion command is lower, and is the number
// of inserted bytes.
const COPIES: u8 = 128;

// The number of values of the low four bits of a copy command, which mark the bytes of the offset.
const OFFSET_BITS: u8 = 16;

// The maximum number of bytes for the offset of a copy.
const OFFSET_BYTES: u32 = 4;

// The maximum number of bytes for the size of a copy.
const SIZE_BYTES: u32 = 3;

// The size of a copy whose encoded size is 0.
const FULL_COPY: usize = 0x10000;

/// Returns the size of the object that a delta makes, as recorded in the delta. Returns `None` if
/// the bytes do not begin with two sizes, as every delta does.
pub fn made_size(delta: &[u8]) -> Option<usize>
    ensures { MatchOption result
        ((base body : List ℕ) → ¬ (IsDelta base delta.now body))
        (λ size. (base body : List ℕ) → IsDelta base delta.now body → length body ≡ size) }
{
    let Some((_base_size, after)) = split_size(delta) else {
        return None;
    };
    match split_size(after) {
        Some((size, _commands)) => Some(size),
        None => None,
    }
}

/// Applies a delta to its base and returns the resulting object. Returns `None` if the bytes are
/// not a delta against this base, or the result has more than `most` bytes. The memory for the
/// result is at most twice its size.
///
/// Fails only if out of memory.
pub fn apply_delta<A: Allocator + Copy>(
    alloc: A,
    base: &[u8],
    delta: &[u8],
    most: usize,
) -> Result<Option<Vec<u8, A>>, AllocError>
    ensures { IfOk result (λ made. MatchOption made
        ((body : List ℕ) → IsDelta base.now delta.now body → ¬ (length body ≤ most))
        (λ body. IsDelta base.now delta.now body.items × (length body.items ≤ most))) }
{
    if delta.len() < MIN_DELTA {
        return Ok(None);
    }
    let Some((base_size, after)) = split_size(delta) else {
        return Ok(None);
    };
    let Some((size, commands)) = split_size(after) else {
        return Ok(None);
    };
    if base_size != base.len() {
        return Ok(None);
    }
    if size > most {
        return Ok(None);
    }
    follow(alloc, base, commands, size)
}

// Returns the object that these instructions make, or `None` if an instruction is invalid or the
// object does not have `size` bytes.
fn follow<A: Allocator + Copy>(
    alloc: A,
    base: &[u8],
    commands: &[u8],
    size: usize,
) -> Result<Option<Vec<u8, A>>, AllocError>
    ensures { IfOk result (λ made. MatchOption made
        ((is : List Instruction) (body : List ℕ) → Makes base.now is commands.now body
        → ¬ (length body ≡ size))
        (λ body. (is : List Instruction) × Makes base.now is commands.now body.items
        × (length body.items ≡ size))) }
{
    let mut body = Vec::with_capacity(alloc, first_room(base, commands, size))?;
    let mut rest = commands;
    while !rest.is_empty() {
        let Some((part, after)) = split_instruction(base, rest) else {
            return Ok(None);
        };
        if part.len() > size - body.len() {
            return Ok(None);
        }
        body.extend_from_slice(part)?;
        rest = after;
    }
    if body.len() == size {
        Ok(Some(body))
    } else {
        Ok(None)
    }
}

// Returns the initial capacity for the result of a delta. More capacity is needed only if the delta
// copies parts of the base more than once.
fn first_room(base: &[u8], commands: &[u8], size: usize) -> usize {
    size.min(base.len().saturating_add(commands.len()))
}

// Returns the bytes that the first instruction adds to the result, and the bytes after this
// instruction. Returns `None` if there is no valid instruction, or if the instruction copies beyond
// the end of the base.
fn split_instruction<'a>(base: &'a [u8], text: &'a [u8]) -> Option<(&'a [u8], &'a [u8])>
    ensures { MatchOption result
        ((i : Instruction) (rest : List ℕ) → ¬ (BeginsWithInstruction base.now text.now i rest))
        (λ parts. (i : Instruction) × BeginsWithInstruction base.now text.now i parts.1.now
        × (parts.0.now ≡ add_instruction base.now i)) }
{
    let Some((command, after)) = text.split_first() else {
        return None;
    };
    if *command >= COPIES {
        let Some((copy, rest)) = split_copy(*command, after) else {
            return None;
        };
        let Some(part) = part_of(base, copy) else {
            return None;
        };
        return Some((part, rest));
    }
    if *command == 0 {
        return None;
    }
    let Some((bytes, rest)) = after.split_at_checked(usize::from(*command)) else {
        return None;
    };
    Some((bytes, rest))
}

/// A range of bytes, such as the range that a copy instruction copies from the base.
#[derive(Clone, Copy)]
pub(crate) struct Range {
    pub offset: usize,
    pub size: usize,
}

/// Returns this range of the base, or `None` if the range extends beyond the base.
pub(crate) fn part_of(base: &[u8], range: Range) -> Option<&[u8]>
    ensures { MatchOption result (length base.now < range.offset + range.size)
        (λ part. (range.offset + range.size ≤ length base.now)
        × (part.now ≡ take range.size (drop range.offset base.now))) }
{
    let Some((_, after)) = base.split_at_checked(range.offset) else {
        return None;
    };
    match after.split_at_checked(range.size) {
        Some((part, _)) => Some(part),
        None => None,
    }
}

// Returns the range of a copy instruction with this command, and the bytes after the instruction.
// Returns `None` if the bytes end within the instruction.
fn split_copy(command: u8, bytes: &[u8]) -> Option<(Range, &[u8])>
    requires { 128 ≤ command }
    ensures cases { MatchOption result
        ((offset size : ℕ) (text rest : List ℕ) → IsCopy offset size text
        → ¬ (command ∷ bytes.now ≡ text ++ rest))
        (λ parts. (text : List ℕ) × IsCopy parts.0.offset parts.0.size text
        × (command ∷ bytes.now ≡ text ++ parts.1.now)) }
    ensures bound { IfSome result (λ parts. (parts.0.offset < 2 ^ 32) × (parts.0.size < 2 ^ 32)) }
{
    let Some((offset, after)) = split_sparse(command, OFFSET_BYTES, bytes) else {
        return None;
    };
    let Some((number, rest)) = split_sparse(command / OFFSET_BITS, SIZE_BYTES, after) else {
        return None;
    };
    let size = copy_size(number);
    Some((Range { offset, size }, rest))
}

// Returns the size of a copy whose encoded size is `number`.
fn copy_size(number: usize) -> usize
    ensures { result ≡ copy_size number }
{
    if number == 0 { FULL_COPY } else { number }
}

// Decodes a little-endian number of `count` bytes, of which only the bytes with a set bit in `bits`
// are stored. Returns the number and the remaining bytes, or `None` if there are too few bytes.
fn split_sparse(bits: u8, count: u32, bytes: &[u8]) -> Option<(usize, &[u8])>
    requires { count ≤ 4 }
    ensures cases { MatchOption result
        ((number : ℕ) (text rest : List ℕ) → IsSparse bits count number text
        → ¬ (bytes.now ≡ text ++ rest))
        (λ parts. (text : List ℕ) × IsSparse bits count parts.0 text
        × (bytes.now ≡ text ++ parts.1.now)) }
    ensures bound { IfSome result (λ parts. parts.0 < 256 ^ count) }
{
    if count == 0 {
        return Some((0, bytes));
    }
    if bits % 2 == 0 {
        let Some((high, rest)) = split_sparse(bits / 2, count - 1, bytes) else {
            return None;
        };
        return Some((256 * high, rest));
    }
    let Some((low, after)) = bytes.split_first() else {
        return None;
    };
    let Some((high, rest)) = split_sparse(bits / 2, count - 1, after) else {
        return None;
    };
    Some((usize::from(*low) + 256 * high, rest))
}

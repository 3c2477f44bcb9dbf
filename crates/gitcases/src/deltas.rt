//! The bytes of deltas (gitformat-pack(5), "Deltified representation").

use crate::trouble::Trouble;
use std::alloc::Global;

// The maximum number of bytes that one instruction inserts.
const MAX_INSERT: usize = 127;

/// Returns the header of a delta: the size of the base, and the size of the result.
pub(crate) fn delta_header(alloc: Global, sizes: [usize; 2]) -> Result<Vec<u8>, Trouble> {
    let mut header = Vec::new(alloc);
    for size in sizes {
        put_size(&mut header, size)?;
    }
    Ok(header)
}

// Appends a size in groups of seven bits, the lowest group first.
fn put_size(out: &mut Vec<u8>, size: usize) -> Result<(), Trouble> {
    let mut rest = size;
    for _ in 0..usize::BITS {
        if rest < 0x80 {
            break;
        }
        out.push(low_bits(rest) | 0x80)?;
        rest >>= 7;
    }
    out.push(low_bits(rest)).map_err(Trouble::from)
}

// Returns the lowest seven bits of a number.
pub(crate) fn low_bits(number: usize) -> u8 {
    number.to_le_bytes()[0] & 0x7f
}

/// Returns the instruction that copies `size` bytes of the base from `offset`.
pub(crate) fn copy_instruction(
    alloc: Global,
    offset: usize,
    size: usize,
) -> Result<Vec<u8>, Trouble> {
    let size = if size == 0x10000 { 0 } else { size };
    let [offset_0, offset_1, offset_2, offset_3, ..] = offset.to_le_bytes();
    let [size_0, size_1, size_2, ..] = size.to_le_bytes();
    let mut instruction = Vec::new(alloc);
    instruction.push(0x80)?;
    for (bit, byte) in [
        (1u8, offset_0),
        (2, offset_1),
        (4, offset_2),
        (8, offset_3),
        (16, size_0),
        (32, size_1),
        (64, size_2),
    ] {
        put_byte(&mut instruction, bit, byte)?;
    }
    Ok(instruction)
}

// Appends `byte`, and sets `bit` in the first byte of the instruction to mark `byte` as present.
// Does nothing if `byte` is 0.
fn put_byte(instruction: &mut Vec<u8>, bit: u8, byte: u8) -> Result<(), Trouble> {
    if byte != 0 {
        instruction.push(byte)?;
        if let Some(first) = instruction.first_mut() {
            *first |= bit;
        }
    }
    Ok(())
}

/// Returns the instructions that insert these bytes.
pub(crate) fn insert_instructions(alloc: Global, bytes: &[u8]) -> Result<Vec<u8>, Trouble> {
    let mut instructions = Vec::new(alloc);
    for part in bytes.chunks(MAX_INSERT) {
        instructions.push(low_bits(part.len()))?;
        instructions.extend_from_slice(part)?;
    }
    Ok(instructions)
}

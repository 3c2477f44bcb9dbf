//! Inflating the zlib streams of pack entries.

ghost use Rattle.std.specs.Prelude.{◌≡◌, IfOk, IfSome, vec_len};

use crate::fault::PackFileFault;
use gzlib::{InflateFault, Inflater};
use std::alloc::Allocator;

// The maximum ratio of the inflated size to the length of a zlib stream. Two bits can encode 258
// bytes (RFC 1951, section 3.2.5).
const MAX_RATIO: usize = 1_032;

// The number of bytes that an inflater reserves beyond the inflated size.
const SPARE: usize = 258;

/// The result of inflating a stream.
#[derive(Drop)]
pub(crate) struct Inflated<A: Allocator + Copy> {
    /// The inflated bytes.
    pub body: Vec<u8, A>,
    /// The length of the zlib stream.
    pub length: usize,
}

/// Inflates the stream at the start of `bytes` to exactly `size` bytes. Returns `None` if `bytes`
/// ends before the stream does. Fails with `Entry(number)` if the stream is malformed or inflates
/// to another size, or with `Memory` if out of memory.
pub(crate) fn inflate<A: Allocator + Copy>(
    alloc: A,
    inflater: &mut Inflater,
    bytes: &[u8],
    size: usize,
    number: usize,
) -> Result<Option<Inflated<A>>, PackFileFault>
    ensures { IfOk result (λ found. IfSome found (λ it. vec_len it.body ≡ size)) }
{
    let most = bytes.len().saturating_mul(MAX_RATIO);
    let room = size.min(most).saturating_add(SPARE);
    let mut body = Vec::with_capacity(alloc, room)?;
    match inflater.inflate(bytes, &mut body, size) {
        Ok(length) => {
            if body.len() == size {
                Ok(Some(Inflated { body, length }))
            } else {
                Err(PackFileFault::Entry(number))
            }
        }
        Err(InflateFault::Short) => Ok(None),
        Err(InflateFault::Memory) => Err(PackFileFault::Memory),
        Err(_) => Err(PackFileFault::Entry(number)),
    }
}

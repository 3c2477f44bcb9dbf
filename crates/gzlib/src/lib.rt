//! zlib streams (RFC 1950, RFC 1951) in memory: inflating a stream, deflating bytes into a stream,
//! and the checksums Adler-32 and CRC-32.
//!
//! # Proved
//!
//! - [`crc32_of`] and [`Crc32`] return the CRC-32 of the bytes. [`adler32_of`] and [`Adler32`]
//!   return the Adler-32 of the bytes. Both checksums can be computed from pieces of the bytes.
//! - [`Inflater::inflate`] appends at most `most` bytes. The last four bytes of the stream are the
//!   Adler-32 of the inflated bytes. The stream ends within the input. On failure `body` is
//!   unchanged. [`Inflater::inflate_front`] appends at most `count` bytes.
//! - [`put_stored`] appends exactly the zlib stream that `specs/Stored.antt` defines.
//! - [`Deflater::deflate`] appends a header, unspecified bytes as the blocks, and the Adler-32 of
//!   the input. On failure `out` is unchanged.
//! - No call panics, overflows or reads out of bounds, and every call returns, for any input.
//!
//! # Only tested
//!
//! - Only tests check that inflating conforms to RFC 1951. The program `gitcases` tests valid and
//!   malformed streams, and `examples/with-git.sh` tests packs made by Git.
//! - Only tests check that inflating a deflated stream returns the original bytes. `gitcases`
//!   inflates deflated streams with this crate, and `examples/with-git.sh` inflates them with Git.
//! - In manual tests, this crate and zlib accepted the same altered streams. Both accept a header
//!   with any window size up to 32 KiB. Both accept an incomplete prefix code only if it has a
//!   single code of one bit. Both also accept a distance code without symbols.
//!
//! # What the contracts do not rule out
//!
//! No contract says that inflating conforms to RFC 1951, or that inflating a deflated stream
//! returns the original bytes. No contract says which fault is returned, or rules out that an
//! inflater refuses a valid stream. No contract rules out that deflated blocks are larger than
//! necessary, or that [`Inflater::inflate_front`] appends too few bytes.
//!
//! Any call that allocates may fail if out of memory, and no contract says when. No contract covers
//! time or memory use.
//!
//! # Dependencies
//!
//! This crate depends only on `std`.
#![tactic(auto)]

mod adler;
mod bits;
mod blocks;
mod code;
mod crc;
mod crc_tables;
mod deflate;
mod fault;
mod inflate;
mod lengths;
mod matches;
mod stored;
mod symbols;
mod tokens;
mod writer;

pub use crate::adler::{Adler32, adler32_of};
pub use crate::crc::{Crc32, crc32_of};
pub use crate::deflate::Deflater;
pub use crate::fault::InflateFault;
pub use crate::inflate::Inflater;
pub use crate::stored::put_stored;

//! Writers of standard streams.

use std::alloc::Allocator;
use std::io::{BufWriter, Write};

/// Drops a writer without writing the bytes that are still in its buffer.
pub(crate) fn drop_unflushed<W: Write + Drop, A: Allocator>(writer: BufWriter<W, A>) {
    let (_writer, _unwritten) = writer.into_parts();
}

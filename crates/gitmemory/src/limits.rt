//! The limits of received packs.

use gitpack::IndexLimits;

/// The limits for indexing a pack. A pack has at most 1,048,576 objects, and the maximum total size
/// of its objects and deltas is 4 GiB.
///
/// The maximum size of an object is 256 MiB, less 224 bytes of tables for each object of the pack.
/// The same maximum applies to the total size of a delta, its bases in memory and its result.
pub(crate) const PACK_LIMITS: IndexLimits = IndexLimits {
    objects: 1_048_576,
    object: 268_435_456,
    held: 268_435_456,
    total: 4_294_967_296,
    table: 224,
};

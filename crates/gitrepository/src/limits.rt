//! The limits of received packs.

use gitpack::IndexLimits;

/// The limits for indexing a received pack. A pack has at most 1,048,576 objects, and the maximum
/// total size of its objects and deltas is 64 GiB.
///
/// The maximum size of an object is 256 MiB, less 224 bytes of tables for each object of the pack.
/// The same maximum applies to the total size of a delta, its bases in memory and its result. In a
/// pack with the maximum number of objects, an object may have at most 32 MiB. The list of the ids
/// and types of all objects needs up to 48 MiB more.
pub(crate) const PACK_LIMITS: IndexLimits = IndexLimits {
    objects: 1_048_576,
    object: 268_435_456,
    held: 268_435_456,
    total: 68_719_476_736,
    table: 224,
};

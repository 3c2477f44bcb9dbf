//! The limits that several crates share.

/// The maximum length in bytes of a pack that is received, or that is written as a whole. The crate
/// `gparts` sets a higher limit for a pack that is sent in parts.
pub const MAX_PACK: usize = 67_108_864;

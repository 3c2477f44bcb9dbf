//! The maximum length of a pack to read.

ghost use Rattle.std.specs.Prelude.{◌≡◌, ◌≤◌, nat_le, if◌then◌else◌, Some, None};
ghost use Rattle.gname.specs.Limits.{max_pack};
ghost use Rattle.gfetchreply.specs.Values.{default_limit, max_stream};

use gname::MAX_PACK;
use std::marker::Model;

/// The maximum of a [`StreamLimit`] in bytes.
pub const MAX_STREAM: usize = 4_294_967_295;

// The default of a [`PackLimit`] and of a [`StreamLimit`], in bytes.
const DEFAULT_LIMIT: usize = 16_777_216;

/// The maximum length of a pack to read, in bytes, at most [`MAX_PACK`].
#[derive(Clone, Copy, Debug, PartialEq, Eq, Drop)]
pub struct PackLimit {
    bytes: usize,
}

impl Model for PackLimit {
    ghost use Rattle.std.specs.Prelude.{ℕ, ◌≤◌, refl};
    ghost use Rattle.gname.specs.Limits.{max_pack};

    ghost Value = { ℕ };

    ghost view = { λ limit. limit.bytes };

    ghost invariant = { λ limit. limit.bytes ≤ max_pack };

    ghost inverse = { λ n. record { bytes = n } };

    ghost inverse_ok = { λ limit h. refl };
}

impl PackLimit {
    /// Returns a limit of `bytes` bytes, which may be 0, or `None` if `bytes` exceeds [`MAX_PACK`].
    pub fn new(bytes: usize) -> Option<PackLimit>
        ensures { result ≡ if nat_le bytes max_pack then Some bytes else None }
    {
        if bytes <= MAX_PACK {
            Some(PackLimit { bytes })
        } else {
            None
        }
    }

    /// Returns the limit in bytes, at most [`MAX_PACK`].
    pub fn bytes(self) -> usize
        ensures bytes { result ≡ self }
        ensures within { result ≤ max_pack }
    {
        self.bytes
    }

    /// Proves that every limit is at most [`MAX_PACK`].
    pub fn laws(self)
        ensures { self ≤ max_pack }
    {
        let _ = self.bytes;
    }
}

/// The default limit is 16,777,216 bytes.
impl Default for PackLimit {
    ghost is_default = { λ limit. limit ≡ default_limit };

    fn default() -> PackLimit {
        PackLimit {
            bytes: DEFAULT_LIMIT,
        }
    }
}

/// The maximum length of a pack to pass to a [`PackSink`](crate::PackSink), in bytes, at most
/// [`MAX_STREAM`].
#[derive(Clone, Copy, Debug, PartialEq, Eq, Drop)]
pub struct StreamLimit {
    bytes: usize,
}

impl Model for StreamLimit {
    ghost use Rattle.std.specs.Prelude.{ℕ, ◌≤◌, refl};
    ghost use Rattle.gfetchreply.specs.Values.{max_stream};

    ghost Value = { ℕ };

    ghost view = { λ limit. limit.bytes };

    ghost invariant = { λ limit. limit.bytes ≤ max_stream };

    ghost inverse = { λ n. record { bytes = n } };

    ghost inverse_ok = { λ limit h. refl };
}

impl StreamLimit {
    /// Returns a limit of `bytes` bytes, which may be 0, or `None` if `bytes` exceeds
    /// [`MAX_STREAM`].
    pub fn new(bytes: usize) -> Option<StreamLimit>
        ensures { result ≡ if nat_le bytes max_stream then Some bytes else None }
    {
        if bytes <= MAX_STREAM {
            Some(StreamLimit { bytes })
        } else {
            None
        }
    }

    /// Returns the limit in bytes, at most [`MAX_STREAM`].
    pub fn bytes(self) -> usize
        ensures bytes { result ≡ self }
        ensures within { result ≤ max_stream }
    {
        self.bytes
    }

    /// Proves that every limit is at most [`MAX_STREAM`].
    pub fn laws(self)
        ensures { self ≤ max_stream }
    {
        let _ = self.bytes;
    }
}

/// The default limit is 16,777,216 bytes.
impl Default for StreamLimit {
    ghost is_default = { λ limit. limit ≡ default_limit };

    fn default() -> StreamLimit {
        StreamLimit {
            bytes: DEFAULT_LIMIT,
        }
    }
}

/// Converts the limit, and keeps its number of bytes.
impl From<PackLimit> for StreamLimit {
    ghost from_gives = { λ limit stream. stream ≡ limit };

    fn from(limit: PackLimit) -> StreamLimit {
        StreamLimit {
            bytes: limit.bytes(),
        }
    }
}

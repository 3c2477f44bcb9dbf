//! Hashes of paths, by which objects are sorted before deltas are made.

/// The hash of the path at which an object was found. The last bytes of a path have the most
/// weight. Sorting by this hash makes the versions of a file adjacent, and puts files whose names
/// have the same ending near each other.
#[derive(Clone, Copy, Debug, PartialEq, Eq, PartialOrd, Ord)]
pub struct PathHash(u32);

impl PathHash {
    /// The hash for objects without a path: commits, tags, and the tree of a commit.
    pub(crate) const NONE: PathHash = PathHash(0);

    /// Returns the hash of the path of the entry with this name, in the tree at this path.
    pub(crate) fn join(self, name: &[u8]) -> PathHash {
        let mut hash = self.push(b'/');
        for byte in name {
            hash = hash.push(*byte);
        }
        hash
    }

    // Returns the hash of the path extended by one byte. The weight of each earlier byte is divided
    // by four.
    fn push(self, byte: u8) -> PathHash {
        PathHash((self.0 >> 2).wrapping_add(u32::from(byte) << 24))
    }
}

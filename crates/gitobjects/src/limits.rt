//! The limits on the sizes of files and caches. The number of packs is limited only by the system,
//! because each open pack uses a file descriptor. A repository with about a thousand packs must be
//! repacked with `git gc`.

/// The maximum size of an object: 1 GiB.
pub const MAX_OBJECT: usize = 1_073_741_824;

/// The maximum size of a pack entry, and of the file of a loose object: nine eighths of
/// [`MAX_OBJECT`].
pub const MAX_STREAM: usize = 1_207_959_552;

/// The maximum size of the index of a pack: 4 GiB.
pub const MAX_INDEX: usize = 4_294_967_296;

/// The maximum size of `objects/info/alternates`: 1 MiB.
pub const MAX_ALTERNATES: usize = 1_048_576;

/// The maximum depth of an object folder whose alternates are read. The folder of the repository
/// has depth 0. Git has the same limit.
pub const MAX_DEPTH: usize = 5;

/// The maximum number of object folders: the folder of the repository, and all alternates.
pub const MAX_FOLDERS: usize = 1_024;

/// The maximum total size of the names in one pack folder: 64 MiB.
pub const MAX_NAMES: usize = 67_108_864;

/// The maximum total size of the delta bases that a reader caches: 64 MiB. A base of this size is
/// cached alone.
pub const MAX_KEPT: usize = 67_108_864;

/// The maximum size of a requested object that is cached: 64 KiB. The next requested object may be
/// a delta against this object.
pub(crate) const MAX_ANSWER: usize = 65_536;

/// The maximum number of bytes read from a loose object to find its type.
pub(crate) const MAX_FRONT: usize = 4_096;

/// The maximum number of attempts to read one delta chain. After each failed attempt, the broken
/// base is replaced by another copy.
pub(crate) const MAX_COPIES: usize = 16;

/// The maximum size of a block of a pack in memory: 1 MiB.
pub(crate) const BLOCK: usize = 1_048_576;

/// The maximum number of blocks in memory for all packs of a store: 64 blocks of 1 MiB.
pub(crate) const BLOCKS: usize = 64;

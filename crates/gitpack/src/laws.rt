//! Proved laws of packs. Each function does nothing at run time. The contract of each function
//! states a law, which the proof of a caller can use.

ghost use Rattle.gitpack.specs.Laws.{HeadsAreOne, IndexesAreOne, IndexesReadBack};

/// Proves that a byte sequence begins with at most one entry header, so a written entry header is
/// read back unchanged.
pub fn heads_are_one()
    ensures { HeadsAreOne }
{}

/// Proves that the same bytes encode at most one pack index.
pub fn indexes_are_one()
    ensures { IndexesAreOne }
{}

/// Proves that the written bytes of a pack index are read back as the same index, and are never
/// refused.
pub fn indexes_read_back()
    ensures { IndexesReadBack }
{}

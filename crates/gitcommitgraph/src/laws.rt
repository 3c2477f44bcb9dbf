//! Laws of commit-graphs. Each function does nothing at run time. The contract of each function
//! states a law, which the proof of a caller can use.

ghost use Rattle.gitcommitgraph.specs.Laws.{ChainsAreOne, FilesAreOne};

/// Proves that a text of fewer than 2^64 bytes encodes at most one commit-graph file.
pub fn files_are_one()
    ensures { FilesAreOne }
{}

/// Proves that a text lists the files of at most one chain.
pub fn chains_are_one()
    ensures { ChainsAreOne }
{}

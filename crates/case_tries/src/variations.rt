//! The ways in which a row is tested.

/// A way in which a row is tested, such as with a truncated input.
#[derive(Clone, Copy)]
pub enum Variation {
    WholeInput,
    InputInPieces,
    /// The row runs on std readers and writers.
    StdDevices,
    Socket,
    LaunchedProgram,
    /// The peer sends or accepts bytes late.
    LatePeer,
    /// The calls to the indexer are checked.
    CheckedIndexer,
    FailingReads,
    FailingWrites,
    /// A write of the report fails.
    FailingReports,
    FailingStderr,
    TruncatedInput,
    ChangedBytes,
    /// The request is changed as the row's table lists.
    TableChanges,
    RefusedAllocations,
    /// An operation on the client's file fails.
    FailingFile,
}

impl Variation {
    pub const ALL: [Variation; 16] = [
        Variation::WholeInput,
        Variation::InputInPieces,
        Variation::StdDevices,
        Variation::Socket,
        Variation::LaunchedProgram,
        Variation::LatePeer,
        Variation::CheckedIndexer,
        Variation::FailingReads,
        Variation::FailingWrites,
        Variation::FailingReports,
        Variation::FailingStderr,
        Variation::TruncatedInput,
        Variation::ChangedBytes,
        Variation::TableChanges,
        Variation::RefusedAllocations,
        Variation::FailingFile,
    ];

    /// Returns the printed name of the variation.
    pub fn name(self) -> &'static str {
        match self {
            Variation::WholeInput => "as it stands",
            Variation::InputInPieces => "in pieces",
            Variation::StdDevices => "over std's devices",
            Variation::Socket => "over a socket",
            Variation::LaunchedProgram => "by the program",
            Variation::LatePeer => "with a peer that is late",
            Variation::CheckedIndexer => "with an indexer that watches",
            Variation::FailingReads => "with a read that fails",
            Variation::FailingWrites => "with a write that fails",
            Variation::FailingReports => "with a report that fails",
            Variation::FailingStderr => "with standard error that fails",
            Variation::TruncatedInput => "cut",
            Variation::ChangedBytes => "with a byte changed",
            Variation::TableChanges => "by the table",
            Variation::RefusedAllocations => "with an allocation refused",
            Variation::FailingFile => "with a file that fails",
        }
    }

    /// Returns whether the variation needs many more runs than the others.
    pub fn takes_long(self) -> bool {
        matches!(&self, Variation::ChangedBytes)
    }

    /// Returns whether the option `--edge` includes this variation.
    pub fn is_edge(self) -> bool {
        matches!(
            &self,
            Variation::WholeInput
                | Variation::Socket
                | Variation::LaunchedProgram
                | Variation::LatePeer
                | Variation::FailingFile
        )
    }

    /// Returns whether long rows are also tested with this variation.
    pub fn applies_to_long_rows(self) -> bool {
        matches!(
            &self,
            Variation::WholeInput
                | Variation::InputInPieces
                | Variation::StdDevices
                | Variation::CheckedIndexer
        )
    }
}

//! The kinds of facts in a test file.

use crate::words::value_of_word;

/// The kind of a fact, which determines the functions that the fact tests.
#[derive(Clone, Copy, PartialEq, Eq)]
pub enum FactKind {
    /// The result of parsing a text: a value or a fault.
    ParsedText,
    /// The results of searches in a history of commits.
    HistorySearch,
    /// The objects of a history that a client marks as connected.
    ClientObjects,
    /// The line printed for a fault.
    PrintedFault,
    /// The results of calls with inputs near the size limits.
    SizeLimits,
    /// The result of parsing a command line.
    CommandLine,
    /// The results of random simulations.
    RandomSimulation,
}

// The keywords of facts, with the kind of each fact.
const KEYWORDS: &[(&str, FactKind)] = &[
    ("name", FactKind::ParsedText),
    ("prefix", FactKind::ParsedText),
    ("id", FactKind::ParsedText),
    ("id64", FactKind::ParsedText),
    ("spec", FactKind::ParsedText),
    ("hello", FactKind::ParsedText),
    ("put", FactKind::ParsedText),
    ("band", FactKind::ParsedText),
    ("load", FactKind::ParsedText),
    ("load-parents-first", FactKind::ParsedText),
    ("pack", FactKind::ParsedText),
    ("scenario", FactKind::ParsedText),
    ("name-text", FactKind::ParsedText),
    ("missing", FactKind::HistorySearch),
    ("counted", FactKind::HistorySearch),
    ("sent", FactKind::HistorySearch),
    ("sent-tags", FactKind::HistorySearch),
    ("sent-count", FactKind::HistorySearch),
    ("common", FactKind::HistorySearch),
    ("ready", FactKind::HistorySearch),
    ("reaches", FactKind::HistorySearch),
    ("offered", FactKind::HistorySearch),
    ("peeled", FactKind::HistorySearch),
    ("known", FactKind::ClientObjects),
    ("unheld", FactKind::ClientObjects),
    ("counted-past", FactKind::ClientObjects),
    ("shown", FactKind::PrintedFault),
    ("grown", FactKind::SizeLimits),
    ("packed", FactKind::SizeLimits),
    ("asked", FactKind::CommandLine),
    ("random", FactKind::RandomSimulation),
];

impl FactKind {
    /// Returns the kind of a fact whose line begins with this keyword, or `None` for any other
    /// line.
    pub(crate) fn from_keyword(keyword: &str) -> Option<FactKind> {
        value_of_word(KEYWORDS, keyword)
    }
}

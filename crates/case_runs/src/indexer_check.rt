//! A check of the pieces of a pack that an indexer receives. Each piece must arrive once and in
//! order. No piece may be empty, and no piece may follow a failure.

use std::cell::Cell;

/// The state of a check: how far the input was read and passed to the indexer, and whether a rule
/// was broken.
#[derive(Drop)]
pub struct IndexerCheck {
    read_count: Cell<usize>,
    // The number of bytes that the reader had returned when the indexer received its most recent
    // piece.
    read_count_at_last_piece: Cell<usize>,
    has_failed: Cell<bool>,
    is_wrong: Cell<bool>,
}

impl IndexerCheck {
    /// Returns the state before the reader has returned any byte.
    pub fn new() -> IndexerCheck {
        IndexerCheck {
            read_count: Cell::new(0),
            read_count_at_last_piece: Cell::new(0),
            has_failed: Cell::new(false),
            is_wrong: Cell::new(false),
        }
    }

    /// Records that the reader returned `count` more bytes.
    pub(crate) fn note_read(&self, count: usize) {
        self.read_count
            .set(self.read_count.get().saturating_add(count));
    }

    /// Records that a pack begins.
    pub(crate) fn note_start(&self) {
        self.has_failed.set(false);
    }

    /// Records a piece that the indexer receives. The bytes that the reader has returned so far
    /// must end with the piece. The piece must begin after all earlier pieces.
    pub(crate) fn note_piece(&self, input: &[u8], piece: &[u8]) {
        let read_count = self.read_count.get();
        let start = read_count.saturating_sub(piece.len());
        let ends_read_bytes = input.get(start..read_count) == Some(piece);
        let is_new = start >= self.read_count_at_last_piece.get();
        self.read_count_at_last_piece.set(read_count);
        if piece.is_empty() || !ends_read_bytes || !is_new {
            self.is_wrong.set(true);
        }
        self.check_not_failed();
    }

    /// Records that the pack ends, and that the indexer is called to return the entries.
    pub(crate) fn note_finish(&self) {
        self.check_not_failed();
    }

    /// Records that the indexer fails.
    pub(crate) fn note_failure(&self) {
        self.has_failed.set(true);
    }

    /// Returns whether any call to the indexer broke a rule of this check.
    pub fn is_wrong(&self) -> bool {
        self.is_wrong.get()
    }

    // Checks that an indexer is not used after it has failed.
    fn check_not_failed(&self) {
        if self.has_failed.get() {
            self.is_wrong.set(true);
        }
    }
}

//! The counts of runs and of wrong results.

use std::io;

/// A way in which a row is tested.
#[derive(Clone, Copy)]
pub(crate) enum Variation {
    /// The input is unchanged.
    Unchanged,
    /// The pack is truncated, or one of its bits is flipped and its old trailer is kept.
    BrokenPack,
    /// One bit is flipped. A pack then gets a correct trailer.
    ChangedBits,
    /// The files are replaced during the run.
    ReplacedFiles,
    /// One allocation is refused.
    RefusedAllocations,
}

impl Variation {
    /// Returns the printed name of the variation.
    pub(crate) fn name(self) -> &'static str {
        match self {
            Variation::Unchanged => "as it is",
            Variation::BrokenPack => "cut, or with a bit changed under the old trailer",
            Variation::ChangedBits => "with a bit changed",
            Variation::ReplacedFiles => "while the files change",
            Variation::RefusedAllocations => "with an allocation refused",
        }
    }
}

/// The counts of runs and of wrong results.
#[derive(Drop)]
pub(crate) struct Tally {
    rows: u64,
    runs: [u64; 5],
    pub(crate) failures: u64,
}

impl Tally {
    pub(crate) fn new() -> Tally {
        Tally {
            rows: 0,
            runs: [0; 5],
            failures: 0,
        }
    }

    pub(crate) fn count_row(&mut self) {
        self.rows = self.rows.saturating_add(1);
    }

    /// Counts a run, and also counts its result if that result is wrong.
    pub(crate) fn count(&mut self, variation: Variation, is_right: bool) {
        if let Some(runs) = self.runs.get_mut(variation as usize) {
            *runs = runs.saturating_add(1);
        }
        if !is_right {
            self.failures = self.failures.saturating_add(1);
        }
    }

    pub(crate) fn print<R: Print>(&self, rt: &R) -> io::Result<()> {
        let rows = self.rows;
        println!(rt; "{rows} rows")?;
        for variation in [
            Variation::Unchanged,
            Variation::BrokenPack,
            Variation::ChangedBits,
            Variation::ReplacedFiles,
            Variation::RefusedAllocations,
        ] {
            let runs = self.runs.get(variation as usize).copied().unwrap_or(0);
            let name = variation.name();
            println!(rt; "{runs} tries {name}")?;
        }
        let failures = self.failures;
        println!(rt; "{failures} wrong")
    }
}

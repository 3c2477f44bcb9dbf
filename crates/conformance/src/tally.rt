//! The depth of a test run, and the counts of runs and failures.

use case_text::Trouble;
use case_tries::Variation;
use std::io;

/// The selection of tests to run.
#[derive(Clone, Copy, PartialEq, Eq)]
pub enum Depth {
    /// Each case runs only with its input unchanged.
    Once,
    /// Only these tests run: unchanged cases, launches of the program, sockets, late peers and
    /// failing files.
    Edge,
    /// All tests run, except the tests that change bytes and take most of the time.
    Quick,
    /// All tests run.
    Full,
}

impl Depth {
    /// Returns the depth that an argument selects, or `None` if the argument is a file name.
    pub fn from_option(argument: &str) -> Option<Depth> {
        match argument {
            "--once" => Some(Depth::Once),
            "--edge" => Some(Depth::Edge),
            "--quick" => Some(Depth::Quick),
            _ => None,
        }
    }

    /// Returns whether this depth includes tests with this variation.
    pub fn includes(self, variation: Variation) -> bool {
        match self {
            Depth::Once => matches!(
                &variation,
                Variation::WholeInput | Variation::LaunchedProgram
            ),
            Depth::Edge => variation.is_edge(),
            Depth::Quick => !variation.takes_long(),
            Depth::Full => true,
        }
    }
}

/// The counts of runs and failures.
#[derive(Drop)]
pub struct Tally {
    pub depth: Depth,
    pub rows: u64,
    pub facts: u64,
    /// The number of runs that check facts.
    pub fact_runs: u64,
    pub runs: [u64; Variation::ALL.len()],
    pub failures: u64,
}

impl Tally {
    pub fn new(depth: Depth) -> Tally {
        Tally {
            depth,
            rows: 0,
            facts: 0,
            fact_runs: 0,
            runs: [0; Variation::ALL.len()],
            failures: 0,
        }
    }

    pub fn count_row(&mut self) {
        self.rows = self.rows.saturating_add(1);
    }

    pub fn count_fact(&mut self) {
        self.facts = self.facts.saturating_add(1);
    }

    pub fn count_fact_run(&mut self) {
        self.fact_runs = self.fact_runs.saturating_add(1);
    }

    pub fn count_failure(&mut self) {
        self.failures = self.failures.saturating_add(1);
    }

    pub fn count_runs(&mut self, variation: Variation, more: u64) {
        if let Some(runs) = self.runs.get_mut(variation as usize) {
            *runs = runs.saturating_add(more);
        }
    }
}

/// Prints the reason why a line of a file can't be tested, and counts a failure.
pub fn print_trouble<R: Print>(
    rt: &R,
    file_name: &str,
    line_number: usize,
    trouble: Trouble,
    tally: &mut Tally,
) -> io::Result<()> {
    tally.count_failure();
    let why = trouble.text();
    println!(rt; "{file_name}:{line_number}: {why}")
}

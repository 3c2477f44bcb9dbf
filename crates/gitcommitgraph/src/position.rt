//! Positions of commits.

ghost use Rattle.std.specs.Prelude.{◌≡◌};

use std::marker::Model;

/// The maximum number of commits. If a commit has no first or second parent, a commit-graph file
/// stores this number instead of the parent's position.
pub(crate) const MAX_COMMITS: usize = 0x7000_0000;

/// The position of a commit in a commit-graph: its index among the commits of all files. The
/// positions in a chain continue from one file to the next.
#[derive(Clone, Copy, Debug, PartialEq, Eq, Drop)]
pub struct Position {
    number: u32,
}

impl Model for Position {
    ghost use Rattle.std.specs.Prelude.{ℕ};

    ghost Value = { ℕ };

    ghost view = { λ position. position.number };

    ghost inverse = { λ number. record { number = number } };
}

impl Position {
    /// Returns the position with this number.
    pub(crate) fn new(number: u32) -> Position
        ensures { result ≡ number }
    {
        Position { number }
    }

    /// Returns the number of commits before this position.
    pub fn index(self) -> usize
        ensures { result ≡ self }
    {
        self.number as usize
    }
}

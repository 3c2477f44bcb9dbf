//! The numbers of a command line.

ghost use Rattle.std.specs.Prelude.{◌≤◌, ◌<◌, ◌^◌, ℕ, MatchOption};
ghost use Rattle.gname.specs.Limits.{max_pack};
ghost use Rattle.gargs.specs.Numbers.{Denotes};

use gcmd::PackLimit;

// The maximum number of connections to serve.
const MAX_CONNECTIONS: u32 = 1_000_000;

/// Parses a pack limit. Returns `None` if the text is not a number, or if the number is too high.
pub(crate) fn limit_of(text: &str) -> Option<PackLimit>
    ensures { MatchOption result (((bytes : ℕ) → bytes ≤ max_pack → Denotes text.now bytes → ⊥))
        (Denotes text.now) }
{
    PackLimit::new(number_of(text)?)
}

/// Parses a number of connections. Returns `None` if the text is not a number from 1 to 1,000,000.
pub(crate) fn connections_of(text: &str) -> Option<u32>
    ensures { MatchOption result
        (((count : ℕ) → 1 ≤ count → count ≤ 1_000_000 → Denotes text.now count → ⊥))
        (λ count. (Denotes text.now count × (1 ≤ count) × (count ≤ 1_000_000))) }
{
    let number = u32::try_from(number_of(text)?).ok()?;
    if (1..=MAX_CONNECTIONS).contains(&number) {
        Some(number)
    } else {
        None
    }
}

// Returns the number that the text encodes in decimal digits, or `None` for any other text. A
// leading `+` is rejected, although `parse` accepts it.
fn number_of(text: &str) -> Option<usize>
    ensures { MatchOption result (((number : ℕ) → number < 2 ^ 64 → Denotes text.now number → ⊥))
        (Denotes text.now) }
{
    if text.as_bytes().first() == Some(&b'+') {
        return None;
    }
    text.parse::<usize>().ok()
}

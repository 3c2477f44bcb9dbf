//! Numbers in arguments.

ghost use Rattle.std.specs.Prelude.{◌≤◌, ◌<◌, ◌^◌, ℕ, MatchOption};
ghost use Rattle.std.specs.Net.Grammar.{IsNumber};
ghost use Rattle.gitwords.specs.Numbers.{IsCount};

// The maximum number of connections.
const MAX_CONNECTIONS: u32 = 1_000_000;

/// Returns the number from 1 to 1,000,000 that a text of decimal digits denotes, or `None` for any
/// other text.
pub(crate) fn connections_of(text: &str) -> Option<u32>
    ensures { MatchOption result ((count : ℕ) → ¬ (IsCount text.now count)) (IsCount text.now) }
{
    match number_of(text) {
        Some(count) if (1..=MAX_CONNECTIONS).contains(&count) => Some(count),
        _ => None,
    }
}

/// Returns the number below 2^32 that a text of decimal digits denotes, or `None` for any other
/// text. A leading `+` is refused, although `str::parse` accepts it.
pub(crate) fn number_of(digits: &str) -> Option<u32>
    ensures { MatchOption result
        ((number : ℕ) → number < 2 ^ 32 → ¬ (IsNumber 10 digits.now number))
        (λ number. IsNumber 10 digits.now number × (number < 2 ^ 32)) }
{
    if digits.as_bytes().first() == Some(&b'+') {
        return None;
    }
    digits.parse::<u32>().ok()
}

//! Splitting texts at a byte.

ghost use Rattle.std.specs.Prelude.{◌≡◌, ◌≢◌, ◌++◌, ◌∷◌, ◌<◌, All, IfSome, MatchOption, length};

use memchr::memchr;

/// Returns the parts of a text before and after the first byte that equals `byte`, or `None` if
/// there is no such byte.
pub(crate) fn cut(byte: u8, text: &[u8]) -> Option<(&[u8], &[u8])>
    ensures parts { MatchOption result (All (λ b. b ≢ byte) text.now)
        (λ parts. All (λ b. b ≢ byte) parts.0.now
        × (text.now ≡ parts.0.now ++ byte ∷ parts.1.now)) }
    ensures shorter { IfSome result (λ parts. length parts.1.now < length text.now) }
{
    match memchr(byte, text) {
        Some(end) => Some((&text[..end], &text[end + 1..])),
        None => None,
    }
}

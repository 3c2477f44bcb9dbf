//! Capabilities (gitprotocol-v2(5), "Capability Advertisement").

ghost use Rattle.std.specs.Prelude.{◌≡◌, ◌<◌, IfSome, length, position};
ghost use Rattle.std.specs.List.{list_all};
ghost use Rattle.std.specs.Option.{option_copied, option_map};
ghost use Rattle.ggrammar.specs.Capabilities.{capability_of, capability_split, key_alone, key_and_value, has_length, is_equals_sign, is_graphic, is_key, is_key_byte, is_printable, is_value, is_word_value};
ghost use Rattle.ggrammar.specs.CapabilityView.{capability_view};

/// The maximum length of a capability's key, and of its value, in bytes.
pub const MAX_CAPABILITY: usize = 1_000;

/// A capability whose key and value are borrowed from a text.
#[derive(Clone, Copy, Debug, PartialEq, Eq)]
pub struct Capability<'a> {
    /// The text before the first `=`, or all of the text.
    pub key: &'a [u8],
    /// The text after the first `=`, or `None` if there is no `=`.
    pub value: Option<&'a [u8]>,
}

/// Parses a text as a capability (gitprotocol-v2(5), "Capability Advertisement"). The text is
/// either a key alone, or a key, `=` and a value. Returns `None` if the text is not a capability.
#[tactic(auto, unfolding(crate::specs::Capabilities::capability_of))]
pub fn capability_of(text: &[u8]) -> Option<Capability<'_>>
    ensures { option_map capability_view result ≡ capability_of text.now }
{
    match first_equals_sign(text) {
        None => key_alone(text),
        Some(at) => key_and_value(&text[..at], &text[at + 1..]),
    }
}

fn key_alone(text: &[u8]) -> Option<Capability<'_>>
    ensures { option_map capability_view result ≡ key_alone text.now }
{
    if is_key(text) {
        Some(Capability {
            key: text,
            value: None,
        })
    } else {
        None
    }
}

fn key_and_value<'a>(key: &'a [u8], value: &'a [u8]) -> Option<Capability<'a>>
    ensures { option_map capability_view result ≡ key_and_value key.now value.now }
{
    if is_key(key) && is_value(value) {
        Some(Capability {
            key,
            value: Some(value),
        })
    } else {
        None
    }
}

// Returns the position of the first `=`, if any.
fn first_equals_sign(text: &[u8]) -> Option<usize>
    ensures place { result ≡ position is_equals_sign text.now }
    ensures within { IfSome result (λ at. at < length text.now) }
{
    text.iter().position(|byte| *byte == b'=')
}

/// Returns whether the bytes are a key: 1 to 1,000 letters, digits, `-` and `_`.
#[tactic(auto, unfolding(crate::specs::Capabilities::is_key))]
pub fn is_key(key: &[u8]) -> bool
    ensures { result ≡ is_key key.now }
{
    has_length(key) && are_key_bytes(key)
}

/// Returns whether the bytes are a value: 1 to 1,000 bytes from space to `~`.
#[tactic(auto, unfolding(crate::specs::Capabilities::is_value))]
pub fn is_value(value: &[u8]) -> bool
    ensures { result ≡ is_value value.now }
{
    has_length(value) && are_printable(value)
}

/// Returns whether the bytes are a value without spaces: 1 to 1,000 bytes from `!` to `~`.
#[tactic(auto, unfolding(crate::specs::Capabilities::is_word_value))]
pub fn is_word_value(value: &[u8]) -> bool
    ensures { result ≡ is_word_value value.now }
{
    has_length(value) && are_graphic(value)
}

fn has_length(bytes: &[u8]) -> bool
    ensures { result ≡ has_length bytes.now }
{
    1 <= bytes.len() && bytes.len() <= MAX_CAPABILITY
}

fn is_key_byte(byte: u8) -> bool
    ensures { result ≡ is_key_byte byte }
{
    byte.is_ascii_alphanumeric() || byte == b'-' || byte == b'_'
}

/// Returns whether the byte is in the range from space to `~`.
pub fn is_printable(byte: u8) -> bool
    ensures { result ≡ is_printable byte }
{
    b' ' <= byte && byte <= b'~'
}

fn are_key_bytes(bytes: &[u8]) -> bool
    ensures { result ≡ list_all is_key_byte bytes.now }
{
    bytes.iter().all(|byte| is_key_byte(*byte))
}

/// Returns whether all bytes are in the range from space to `~`.
pub fn are_printable(bytes: &[u8]) -> bool
    ensures { result ≡ list_all is_printable bytes.now }
{
    bytes.iter().all(|byte| is_printable(*byte))
}

/// Returns whether all bytes are in the range from `!` to `~`.
pub fn are_graphic(bytes: &[u8]) -> bool
    ensures { result ≡ list_all is_graphic bytes.now }
{
    bytes.iter().all(|byte| byte.is_ascii_graphic())
}

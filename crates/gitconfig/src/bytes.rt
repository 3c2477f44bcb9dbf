//! Classifying the bytes of a configuration, and splitting its text.

ghost use Rattle.std.specs.Prelude.{◌≡◌, ◌≢◌, ◌++◌, ◌∷◌, ◌↔◌, [], All, IfSome, IsTrue, true};
ghost use Rattle.gitconfig.specs.Bytes.{EndsLine, EndsValue, is_blank, is_name_byte, is_section_byte, is_space};

/// Returns whether a byte is a space, a tab or a CR.
pub(crate) fn is_blank(byte: u8) -> bool
    ensures { result ≡ is_blank byte }
{
    byte == b' ' || byte == b'\t' || byte == b'\r'
}

/// Returns whether a byte is a blank or an LF.
pub(crate) fn is_space(byte: u8) -> bool
    ensures { result ≡ is_space byte }
{
    is_blank(byte) || byte == b'\n'
}

// Returns whether a variable name can contain this byte.
#[tactic(auto, unfolding(crate::specs::Bytes::is_name_byte))]
fn is_name_byte(byte: u8) -> bool
    ensures { result ≡ is_name_byte byte }
{
    byte.is_ascii_alphanumeric() || byte == b'-'
}

// Returns whether a section name can contain this byte.
#[tactic(auto, unfolding(crate::specs::Bytes::is_section_byte))]
fn is_section_byte(byte: u8) -> bool
    ensures { result ≡ is_section_byte byte }
{
    is_name_byte(byte) || byte == b'.'
}

/// Returns whether the text is empty.
pub(crate) fn is_over(text: &[u8]) -> bool
    ensures { IsTrue result ↔ (text.now ≡ []) }
{
    text.is_empty()
}

/// Returns the text after this byte, or `None` if the text does not begin with the byte.
pub(crate) fn strip(byte: u8, text: &[u8]) -> Option<&[u8]>
    ensures { IfSome result (λ rest. text.now ≡ byte ∷ rest.now) }
{
    match text.split_first() {
        Some((first, rest)) if *first == byte => Some(rest),
        _ => None,
    }
}

/// Returns the blanks at the front of a text, and the rest of the text.
pub(crate) fn split_blanks(text: &[u8]) -> (&[u8], &[u8])
    ensures parts { text.now ≡ result.0.now ++ result.1.now }
    ensures each { All (λ b. is_blank b ≡ true) result.0.now }
{
    match text.iter().position(|byte| !is_blank(*byte)) {
        Some(end) => text.split_at(end),
        None => (text, b""),
    }
}

/// Returns the bytes at the front of a text that variable names can contain, and the rest.
pub(crate) fn split_name(text: &[u8]) -> (&[u8], &[u8])
    ensures parts { text.now ≡ result.0.now ++ result.1.now }
    ensures each { All (λ b. is_name_byte b ≡ true) result.0.now }
{
    match text.iter().position(|byte| !is_name_byte(*byte)) {
        Some(end) => text.split_at(end),
        None => (text, b""),
    }
}

/// Returns the bytes at the front of a text that section names can contain, and the rest.
pub(crate) fn split_section(text: &[u8]) -> (&[u8], &[u8])
    ensures parts { text.now ≡ result.0.now ++ result.1.now }
    ensures each { All (λ b. is_section_byte b ≡ true) result.0.now }
{
    match text.iter().position(|byte| !is_section_byte(*byte)) {
        Some(end) => text.split_at(end),
        None => (text, b""),
    }
}

/// Returns the first line of a text without its LF, and the rest of the text, which is empty or
/// begins with the LF.
pub(crate) fn split_line(text: &[u8]) -> (&[u8], &[u8])
    ensures parts { text.now ≡ result.0.now ++ result.1.now }
    ensures each { All (λ b. b ≢ 10) result.0.now }
    ensures ends { EndsLine result.1.now }
{
    match text.iter().position(|byte| *byte == b'\n') {
        Some(end) => text.split_at(end),
        None => (text, b""),
    }
}

/// Returns whether the line before this text is complete: the text is empty or begins with an LF.
pub(crate) fn ends_line(text: &[u8]) -> bool
    ensures { IsTrue result ↔ EndsLine text.now }
{
    match text.first() {
        Some(first) => *first == b'\n',
        None => true,
    }
}

/// Returns whether the value before this text is complete: the text is empty, or begins with an LF
/// or a comment.
pub(crate) fn ends_value(text: &[u8]) -> bool
    ensures { IsTrue result ↔ EndsValue text.now }
{
    match text.first() {
        Some(first) => *first == b'\n' || *first == b'#' || *first == b';',
        None => true,
    }
}

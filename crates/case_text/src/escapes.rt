//! Escapes in the lines of a test file.
//!
//! `\n` is a line feed, `\0` is the byte 0, and `\x1f` is the byte 31. A backslash before any other
//! character yields that character. `{a}` is an id of forty `a`, or of sixty-four for SHA-256.
//! `{a+1}` is one digit longer than an id, and `{a-4}` is four digits shorter. `{a*64}` is
//! sixty-four `a`, and `{ab*3}` is `ababab`. `{NAME}` is the text with the name `NAME`, which has
//! at least two characters. In a repeated line, `{#4}` is the number of the repetition, counted
//! from 1, in four digits. `{#4+16}` is the number of the repetition plus 16, and `{#4*2+16}` is
//! twice that number plus 16. Without the `4`, as in `{#}` and `{#+16}`, the result has as many
//! digits as an id. `{#=17}` is the number 17 in as many digits as an id. `{@2}` is the index of a
//! packet: 2, or 3 with SHA-256, because a SHA-256 request has an extra `object-format` line.

use crate::trouble::Trouble;
use gname::{Format, MAX_ID_TEXT, Oid};
use std::alloc::Global;

/// The values on which the escapes in a line depend.
#[derive(Clone, Copy)]
pub(crate) struct EscapeContext<'b, 'a> {
    pub(crate) texts: &'b [NamedText<'a>],
    pub(crate) format: Format,
    /// The number of the current repetition of the line, counted from 1.
    pub(crate) repetition: usize,
}

/// A named text that cases can refer to.
#[derive(Drop)]
pub(crate) struct NamedText<'a> {
    pub(crate) name: &'a [u8],
    pub(crate) bytes: Vec<u8>,
}

pub(crate) fn find_text<'b>(texts: &'b [NamedText<'_>], name: &[u8]) -> Option<&'b [u8]> {
    for text in texts {
        if text.name == name {
            return Some(text.bytes.as_slice());
        }
    }
    None
}

/// Returns the bytes of a line after all escapes are replaced.
pub(crate) fn expand_escapes(
    alloc: Global,
    line: &str,
    escape_context: EscapeContext<'_, '_>,
) -> Result<Vec<u8>, Trouble> {
    let mut bytes = Vec::new(alloc);
    let mut rest = line.as_bytes();
    for _ in 0..line.len() {
        rest = add_next(alloc, rest, escape_context, &mut bytes)?;
        if rest.is_empty() {
            break;
        }
    }
    Ok(bytes)
}

// Appends the bytes for the first escape, or the first byte if no escape begins there. Returns the
// remaining text.
fn add_next<'a>(
    alloc: Global,
    rest: &'a [u8],
    escape_context: EscapeContext<'_, '_>,
    bytes: &mut Vec<u8>,
) -> Result<&'a [u8], Trouble> {
    let (byte, remaining) = match rest {
        [b'{', opened @ ..] => return add_braced(alloc, opened, escape_context, bytes),
        [b'\\', b'x', high, low, remaining @ ..] => (hex_byte(*high, *low), remaining),
        [b'\\', letter, remaining @ ..] => (escaped_byte(*letter), remaining),
        [plain, remaining @ ..] => (*plain, remaining),
        [] => return Ok(rest),
    };
    bytes.push(byte)?;
    Ok(remaining)
}

fn escaped_byte(letter: u8) -> u8 {
    match letter {
        b'n' => b'\n',
        b'0' => 0,
        other => other,
    }
}

/// Returns the byte with these two hexadecimal digits in lower case.
pub(crate) fn hex_byte(high: u8, low: u8) -> u8 {
    hex_value(high)
        .wrapping_mul(16)
        .wrapping_add(hex_value(low))
}

/// Returns the value of a hexadecimal digit in lower case.
pub(crate) fn hex_value(letter: u8) -> u8 {
    match letter {
        b'0'..=b'9' => letter.wrapping_sub(b'0'),
        b'a'..=b'f' => letter.wrapping_sub(b'a').wrapping_add(10),
        _ => 0,
    }
}

// Appends the bytes for an escape in braces. `opened` is the text after the open brace. Returns the
// text after the closing brace.
fn add_braced<'a>(
    alloc: Global,
    opened: &'a [u8],
    escape_context: EscapeContext<'_, '_>,
    bytes: &mut Vec<u8>,
) -> Result<&'a [u8], Trouble> {
    match split_at_byte(opened, b'}') {
        Some((inside, remaining)) => {
            add_escape(alloc, inside, escape_context, bytes)?;
            Ok(remaining)
        }
        None => Err(Trouble::OpenBrace),
    }
}

// Appends the bytes for an escape in braces. `inside` is the text between the braces.
fn add_escape(
    alloc: Global,
    inside: &[u8],
    escape_context: EscapeContext<'_, '_>,
    bytes: &mut Vec<u8>,
) -> Result<(), Trouble> {
    if let Some(number) = inside.strip_prefix(b"#") {
        return add_number_escape(alloc, number, escape_context, bytes);
    }
    if let Some(index) = inside.strip_prefix(b"@") {
        let index = parse_number(index).saturating_add(format_line_count(escape_context.format));
        return add_padded_number(alloc, 1, index, bytes);
    }
    match split_at_byte(inside, b'*') {
        Some((part, count)) => add_repeated(part, parse_number(count), bytes),
        None => add_id_or_text(inside, escape_context, bytes),
    }
}

// Appends an id of one repeated digit, an id that is too long or too short by the number after `+`
// or `-`, or the text with the name `inside`.
fn add_id_or_text(
    inside: &[u8],
    escape_context: EscapeContext<'_, '_>,
    bytes: &mut Vec<u8>,
) -> Result<(), Trouble> {
    let length = escape_context.format.id_text_length();
    let (digit, length) = match inside {
        [digit] => (*digit, length),
        [digit, b'+', more @ ..] => (*digit, length.saturating_add(parse_number(more))),
        [digit, b'-', less @ ..] => (*digit, length.saturating_sub(parse_number(less))),
        _ => return add_text(escape_context.texts, inside, bytes),
    };
    add_repeated(&[digit], length, bytes)
}

// Returns the number of `object-format` lines in a request with ids of this format.
fn format_line_count(format: Format) -> usize {
    match format {
        Format::Sha1 => 0,
        Format::Sha256 => 1,
    }
}

fn add_text(texts: &[NamedText<'_>], name: &[u8], bytes: &mut Vec<u8>) -> Result<(), Trouble> {
    match find_text(texts, name) {
        Some(text) => Ok(bytes.extend_from_slice(text)?),
        None => Err(Trouble::UnknownName),
    }
}

// Appends a fixed number, or the repetition's number multiplied by a factor and increased by an
// offset. The result has the stated number of digits, or as many digits as an id.
fn add_number_escape(
    alloc: Global,
    inside: &[u8],
    escape_context: EscapeContext<'_, '_>,
    bytes: &mut Vec<u8>,
) -> Result<(), Trouble> {
    let length = escape_context.format.id_text_length();
    if let Some(number) = inside.strip_prefix(b"=") {
        return add_padded_number(alloc, length, parse_number(number), bytes);
    }
    let (width, offset) = split_number(inside, b'+', 0);
    let (width, factor) = split_number(width, b'*', 1);
    let width = if width.is_empty() {
        length
    } else {
        parse_number(width)
    };
    let number = escape_context
        .repetition
        .saturating_mul(factor)
        .saturating_add(offset);
    add_padded_number(alloc, width, number, bytes)
}

// Returns the text before `byte` and the number after it. If the text lacks `byte`, returns the
// whole text and the number `default`.
fn split_number(text: &[u8], byte: u8, default: usize) -> (&[u8], usize) {
    match split_at_byte(text, byte) {
        Some((before, number)) => (before, parse_number(number)),
        None => (text, default),
    }
}

/// Appends a number in decimal, padded with zeros to `width` digits.
pub fn add_padded_number(
    alloc: Global,
    width: usize,
    number: usize,
    bytes: &mut Vec<u8>,
) -> Result<(), Trouble> {
    let digits = format!(in alloc; "{number}")?;
    add_repeated(b"0", width.saturating_sub(digits.len()), bytes)?;
    bytes.extend_from_slice(digits.as_bytes())?;
    Ok(())
}

// Splits the text at the first occurrence of `byte`. Returns `None` if the text lacks `byte`.
fn split_at_byte(text: &[u8], byte: u8) -> Option<(&[u8], &[u8])> {
    let mut parts = text.splitn(2, |other| *other == byte);
    match (parts.next(), parts.next()) {
        (Some(before), Some(after)) => Some((before, after)),
        _ => None,
    }
}

fn add_repeated(part: &[u8], times: usize, bytes: &mut Vec<u8>) -> Result<(), Trouble> {
    for _ in 0..times {
        bytes.extend_from_slice(part)?;
    }
    Ok(())
}

/// Returns the number with these decimal digits, ignoring other characters.
pub fn parse_number(digits: &[u8]) -> usize {
    let mut number = 0usize;
    for digit in digits {
        if digit.is_ascii_digit() {
            let value = usize::from(digit.wrapping_sub(b'0'));
            number = number.saturating_mul(10).saturating_add(value);
        }
    }
    number
}

/// Returns the hexadecimal digits of an id.
pub fn id_text(alloc: Global, id: &Oid) -> Result<String, Trouble> {
    let mut digits = [0; MAX_ID_TEXT];
    let count = id.to_hex(&mut digits);
    match std::str::from_utf8(&digits[..count]) {
        Ok(text) => Ok(String::from_str(alloc, text)?),
        Err(_) => Err(Trouble::InvalidId),
    }
}

//! Escapes in the lines of a test file.
//!
//! `\n` is a line feed, `\r` is a carriage return, `\0` is the byte 0, and `\x1f` is the byte 31. A
//! backslash before any other character yields that character. `{NAME}` is the text with this name,
//! or the forty digits of the id of the object with this name. `{@NAME}` is the twenty bytes of the
//! id of the object with this name. `{BYTES*3}` is `BYTES` three times.

use crate::names::Names;
use crate::trouble::Trouble;
use std::alloc::Global;

/// Returns the bytes of a line after all escapes are replaced.
pub(crate) fn expand_escapes(
    alloc: Global,
    names: &Names<'_>,
    line: &str,
) -> Result<Vec<u8>, Trouble> {
    let mut bytes = Vec::new(alloc);
    let mut rest = line;
    for _ in 0..line.len() {
        rest = add_next(alloc, names, rest, &mut bytes)?;
        if rest.is_empty() {
            break;
        }
    }
    Ok(bytes)
}

// Appends the bytes for the text up to and including the first escape in braces. Returns the
// remaining text.
fn add_next<'a>(
    alloc: Global,
    names: &Names<'_>,
    rest: &'a str,
    bytes: &mut Vec<u8>,
) -> Result<&'a str, Trouble> {
    let (plain, braced) = before_brace(rest.as_bytes());
    add_escaped(plain, bytes)?;
    let Some(braced) = braced else {
        return Ok("");
    };
    let Ok(text) = str::from_utf8(braced) else {
        return Err(Trouble::OpenBrace);
    };
    let Some((inside, after)) = text.split_once('}') else {
        return Err(Trouble::OpenBrace);
    };
    add_braced(alloc, names, inside, bytes)?;
    let length = rest.len().saturating_sub(after.len());
    Ok(rest.get(length..).unwrap_or(""))
}

// Returns the bytes before the first unescaped brace, and the bytes after that brace. The second
// result is `None` if the text has no unescaped brace.
fn before_brace(text: &[u8]) -> (&[u8], Option<&[u8]>) {
    let mut is_escaped = false;
    for index in 0..text.len() {
        let byte = text[index];
        if byte == b'{' && !is_escaped {
            return (&text[..index], text.get(index.saturating_add(1)..));
        }
        is_escaped = byte == b'\\' && !is_escaped;
    }
    (text, None)
}

/// Appends the bytes of a text without braces, after all its escapes are replaced.
pub(crate) fn add_escaped(text: &[u8], bytes: &mut Vec<u8>) -> Result<(), Trouble> {
    let mut rest = text;
    for _ in 0..text.len() {
        let (byte, remaining) = match rest {
            [b'\\', b'x', high, low, remaining @ ..] => (hex_byte(*high, *low), remaining),
            [b'\\', letter, remaining @ ..] => (escaped_byte(*letter), remaining),
            [plain, remaining @ ..] => (*plain, remaining),
            [] => break,
        };
        bytes.push(byte)?;
        rest = remaining;
    }
    Ok(())
}

fn escaped_byte(letter: u8) -> u8 {
    match letter {
        b'n' => b'\n',
        b'r' => b'\r',
        b'0' => 0,
        other => other,
    }
}

fn hex_byte(high: u8, low: u8) -> u8 {
    hex_value(high)
        .wrapping_mul(16)
        .wrapping_add(hex_value(low))
}

fn hex_value(letter: u8) -> u8 {
    match letter {
        b'0'..=b'9' => letter.wrapping_sub(b'0'),
        b'a'..=b'f' => letter.wrapping_sub(b'a').wrapping_add(10),
        _ => 0,
    }
}

// Appends the bytes for an escape in braces. `inside` is the text between the braces.
fn add_braced(
    alloc: Global,
    names: &Names<'_>,
    inside: &str,
    bytes: &mut Vec<u8>,
) -> Result<(), Trouble> {
    if let Some((part, count)) = inside.rsplit_once('*') {
        return add_repeated(alloc, part, parse_number(count)?, bytes);
    }
    if let Some(name) = inside.strip_prefix('@') {
        let object = names.find_object(name)?;
        return bytes
            .extend_from_slice(object.id.as_bytes())
            .map_err(Trouble::from);
    }
    match names.find_text(inside) {
        Ok(text) => bytes.extend_from_slice(text).map_err(Trouble::from),
        Err(_) => {
            let object = names.find_object(inside)?;
            object.id.push_hex(bytes).map_err(Trouble::from)
        }
    }
}

fn add_repeated(
    alloc: Global,
    part: &str,
    count: usize,
    bytes: &mut Vec<u8>,
) -> Result<(), Trouble> {
    let mut piece = Vec::new(alloc);
    add_escaped(part.as_bytes(), &mut piece)?;
    for _ in 0..count {
        bytes.extend_from_slice(piece.as_slice())?;
    }
    Ok(())
}

/// Returns the number with these decimal digits.
pub(crate) fn parse_number(digits: &str) -> Result<usize, Trouble> {
    match digits.parse::<usize>() {
        Ok(number) => Ok(number),
        Err(_) => Err(Trouble::InvalidNumber),
    }
}

/// Returns the `N` numbers of a line, which spaces separate.
pub(crate) fn parse_numbers<const N: usize>(line: &str) -> Result<[usize; N], Trouble> {
    let mut words = line.splitn(N, ' ');
    let mut numbers = [0; N];
    for number in &mut numbers {
        *number = parse_number(words.next().unwrap_or(""))?;
    }
    Ok(numbers)
}

/// Returns the first word of a line, and the text after the following space.
pub(crate) fn split_first_word(line: &str) -> (&str, &str) {
    match line.split_once(' ') {
        Some(parts) => parts,
        None => (line, ""),
    }
}

//! Reading a configuration.

ghost use Rattle.std.specs.Prelude.{◌≡◌, ◌++◌, ◌∷◌, ◌↔◌, ◌<◌, ◌≤◌, [], List, ℕ, Option, IfOk, OnOk, IfSome, IsTrue, length, map};
ghost use Rattle.std.specs.Option.{option_map};
ghost use Rattle.std.specs.Str.{str_to_ascii_lowercase};
ghost use Rattle.gitconfig.specs.Configs.{BeginsWithHeader, BeginsWithLetter, BeginsWithItem, BeginsWithQuoted, BeginsWithVariable, EndsHeader, HasQuoted, HasValue, IsConfig, Item, setting_of};
ghost use Rattle.gitconfig.specs.Values.{BeginsWithValue, is_quoted_after};
ghost use Rattle.gitconfig.specs.steps.Readings.{HasRead, Pushes};

use crate::bytes::{
    ends_line, ends_value, is_over, is_space, split_blanks, split_line, split_name, split_section,
    strip,
};
use crate::fault::ConfigFault;
use crate::pieces::{Piece, split_piece};
use crate::setting::Setting;
use std::alloc::{AllocError, Allocator};

// The state of reading a configuration: the variables read so far, and the current section.
#[derive(Drop)]
struct Reading<A: Allocator + Copy> {
    alloc: A,
    settings: Vec<Setting<A>, A>,
    section: Vec<u8, A>,
}

/// Returns the variables that a configuration sets, in order. Fails with `Malformed` if the text is
/// not a configuration, or with `Memory` if out of memory.
pub fn parse_config<A: Allocator + Copy>(
    alloc: A,
    text: &[u8],
) -> Result<Vec<Setting<A>, A>, ConfigFault>
    ensures { IfOk result (λ settings. IsConfig text.now (map setting_of settings.items)) }
{
    let mut reading = Reading {
        alloc,
        settings: Vec::new(alloc),
        section: Vec::new(alloc),
    };
    let mut rest = text;
    while !is_over(rest) {
        rest = reading.read_item(rest)?;
    }
    Ok(reading.settings)
}

impl<A: Allocator + Copy> Reading<A> {
    // Reads the first item of a text, and returns the text after the item.
    fn read_item<'t>(&mut self, text: &'t [u8]) -> Result<&'t [u8], ConfigFault>
        ensures item { IfOk result (λ rest. (item : Item) × BeginsWithItem text.now item rest.now
            × HasRead self.old item self.new) }
        ensures shorter { IfOk result (λ rest. length rest.now < length text.now) }
    {
        let Some((first, after)) = text.split_first() else {
            return Err(ConfigFault::Malformed);
        };
        match *first {
            b'[' => self.read_header(text),
            b'#' | b';' => {
                let (_words, rest) = split_line(after);
                Ok(rest)
            }
            byte if is_space(byte) => Ok(after),
            _ => self.read_setting(text),
        }
    }

    // Reads the header of a section, and returns the text after the header.
    fn read_header<'t>(&mut self, text: &'t [u8]) -> Result<&'t [u8], ConfigFault>
        ensures item { IfOk result (λ rest. (section : List ℕ)
            × BeginsWithHeader text.now section rest.now
            × HasRead self.old (Item.Begins section) self.new) }
        ensures shorter { IfOk result (λ rest. length rest.now < length text.now) }
    {
        let Some(inner) = strip(b'[', text) else {
            return Err(ConfigFault::Malformed);
        };
        let (name, after) = split_section(inner);
        if name.is_empty() {
            return Err(ConfigFault::Malformed);
        }
        let mut section = name.to_ascii_lowercase(self.alloc)?;
        let rest = end_header(&mut section, after)?;
        self.section = section;
        Ok(rest)
    }

    // Reads a variable, and returns the text after the variable.
    fn read_setting<'t>(&mut self, text: &'t [u8]) -> Result<&'t [u8], ConfigFault>
        ensures item { IfOk result (λ rest. (name : List ℕ) × (value : Option (List ℕ))
            × BeginsWithVariable text.now name value rest.now
            × HasRead self.old (Item.Sets name value) self.new) }
        ensures shorter { IfOk result (λ rest. length rest.now < length text.now) }
    {
        let (name, after_name) = split_name(text);
        if !begins_with_letter(name) {
            return Err(ConfigFault::Malformed);
        }
        let (_blanks, after_blanks) = split_blanks(after_name);
        let (value, rest) = read_assigned(self.alloc, after_blanks)?;
        let setting = setting_in(self.alloc, self.section.as_slice(), name, value)?;
        self.settings.push(setting)?;
        Ok(rest)
    }
}

// Returns the variable with this section, name and value.
fn setting_in<A: Allocator + Copy>(
    alloc: A,
    section: &[u8],
    name: &[u8],
    value: Option<Vec<u8, A>>,
) -> Result<Setting<A>, AllocError>
    ensures { IfOk result (λ setting. setting_of setting ≡ record {
      section = section.now;
      name = str_to_ascii_lowercase name.now;
      value = option_map (λ value. value.items) value;
    }) }
{
    let section = section.to_vec(alloc)?;
    let name = name.to_ascii_lowercase(alloc)?;
    Ok(Setting {
        section,
        name,
        value,
    })
}

// Returns whether a text begins with a letter.
fn begins_with_letter(text: &[u8]) -> bool
    ensures { IsTrue result ↔ BeginsWithLetter text.now }
{
    match text.first() {
        Some(first) => first.is_ascii_alphabetic(),
        None => false,
    }
}

// Reads the end of a section header: a bracket, or a subsection name in quotes and a bracket.
// Appends the subsection name to `section`, and returns the text after the header.
fn end_header<'t, A: Allocator + Copy>(
    section: &mut Vec<u8, A>,
    text: &'t [u8],
) -> Result<&'t [u8], ConfigFault>
    ensures item { IfOk result (λ rest.
        EndsHeader text.now section.old.items section.new.items rest.now) }
    ensures shorter { IfOk result (λ rest. length rest.now < length text.now) }
{
    if let Some(rest) = strip(b']', text) {
        return Ok(rest);
    }
    let (blanks, after) = split_blanks(text);
    if blanks.is_empty() {
        return Err(ConfigFault::Malformed);
    }
    let Some(quoted) = strip(b'"', after) else {
        return Err(ConfigFault::Malformed);
    };
    section.push(b'.')?;
    let rest = read_quoted(section, quoted)?;
    match strip(b']', rest) {
        Some(rest) => Ok(rest),
        None => Err(ConfigFault::Malformed),
    }
}

// Reads a quoted name and its closing quote, and appends the name to `name`. Returns the text
// after the quote.
fn read_quoted<'t, A: Allocator + Copy>(
    name: &mut Vec<u8, A>,
    text: &'t [u8],
) -> Result<&'t [u8], ConfigFault>
    ensures name { IfOk result (λ rest. (read : List ℕ) × HasQuoted text.now read rest.now
        × (name.new.items ≡ name.old.items ++ read)) }
    ensures shorter { IfOk result (λ rest. length rest.now < length text.now) }
{
    let mut rest = text;
    while let Some((byte, after)) = split_quoted(rest) {
        name.push(byte)?;
        rest = after;
    }
    match strip(b'"', rest) {
        Some(rest) => Ok(rest),
        None => Err(ConfigFault::Malformed),
    }
}

// Returns the first byte of a quoted name, and the rest of the text. Returns `None` at the closing
// quote, and at the end of a line or the text.
fn split_quoted(text: &[u8]) -> Option<(u8, &[u8])>
    ensures byte { IfSome result (λ parts. BeginsWithQuoted text.now parts.0 parts.1.now) }
    ensures shorter { IfSome result (λ parts. length parts.1.now < length text.now) }
{
    let (first, after) = text.split_first()?;
    match *first {
        b'"' | b'\n' => None,
        b'\\' => {
            let (byte, rest) = after.split_first()?;
            if *byte == b'\n' {
                None
            } else {
                Some((*byte, rest))
            }
        }
        byte => Some((byte, after)),
    }
}

// Reads `=` and a value. Returns the value, or `None` if the line ends instead, and the rest of the
// text.
fn read_assigned<A: Allocator + Copy>(
    alloc: A,
    text: &[u8],
) -> Result<(Option<Vec<u8, A>>, &[u8]), ConfigFault>
    ensures value { IfOk result (λ read.
        HasValue text.now (option_map (λ value. value.items) read.0) read.1.now) }
    ensures shorter { IfOk result (λ read. length read.1.now ≤ length text.now) }
{
    match strip(b'=', text) {
        Some(text) => {
            let (value, rest) = read_value(alloc, text)?;
            Ok((Some(value), rest))
        }
        None if ends_line(text) => Ok((None, text)),
        None => Err(ConfigFault::Malformed),
    }
}

// A partly read value.
#[derive(Drop)]
struct ValueText<A: Allocator + Copy> {
    // The bytes of the value read so far, without leading blanks.
    bytes: Vec<u8, A>,
    // The number of bytes before the trailing blanks.
    kept: usize,
    // Whether the next byte is inside quotes.
    is_quoted: bool,
}

impl<A: Allocator + Copy> ValueText<A> {
    // Adds a piece to the value.
    fn push(&mut self, piece: Piece) -> Result<(), AllocError>
        ensures value { OnOk result (Pushes piece self.old self.new) }
        ensures quoted { OnOk result (self.new.is_quoted
            ≡ is_quoted_after self.old.is_quoted piece) }
    {
        match piece {
            Piece::Byte(byte) => {
                self.bytes.push(byte)?;
                self.kept = self.bytes.len();
            }
            Piece::Blank(byte) => {
                if !self.bytes.is_empty() {
                    self.bytes.push(byte)?;
                }
            }
            Piece::Quote => self.is_quoted = !self.is_quoted,
            Piece::Continuation => {}
        }
        Ok(())
    }
}

// Reads a value. Returns the value and the rest of the text.
fn read_value<A: Allocator + Copy>(
    alloc: A,
    text: &[u8],
) -> Result<(Vec<u8, A>, &[u8]), ConfigFault>
    ensures value { IfOk result (λ read. BeginsWithValue text.now read.0.items read.1.now) }
    ensures shorter { IfOk result (λ read. length read.1.now ≤ length text.now) }
{
    let mut value = ValueText {
        bytes: Vec::new(alloc),
        kept: 0,
        is_quoted: false,
    };
    let mut rest = text;
    while let Some((piece, after)) = split_piece(rest, value.is_quoted) {
        value.push(piece)?;
        rest = after;
    }
    if value.is_quoted || !ends_value(rest) {
        return Err(ConfigFault::Malformed);
    }
    let mut bytes = value.bytes;
    bytes.truncate(value.kept);
    Ok((bytes, rest))
}

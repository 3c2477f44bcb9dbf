//! Parsing of the text lines of a reply, from left to right.

ghost use Rattle.std.specs.Prelude.{◌≡◌, ◌∷◌, ◌<◌, codes, length, position, IfSome, None, Ok};
ghost use Rattle.ggrammar.specs.PeerErrors.{after_word};
ghost use Rattle.glsreply.specs.RefTexts.{parts_of, is_name, attribute_of, with_attributes, line_with_name, line_of, first_form, unborn_target, unborn_of_parts, unborn_after_head};
ghost use Rattle.ggrammar.specs.Texts.{is_space};
ghost use Rattle.glsreply.specs.steps.LineViews.{line_parts, line_read, attribute_view, form_view, target_read, parts_left};

use ggrammar::{Why, after_word, id_of_text};
use gname::{Format, HEAD, Oid, RefName};

/// The parts of a ref's line, borrowed from its text.
#[derive(Clone, Copy)]
pub(crate) struct LineParts<'a> {
    pub(crate) id: Oid,
    pub(crate) name: &'a [u8],
    pub(crate) symref: Option<&'a [u8]>,
    pub(crate) peeled: Option<Oid>,
}

// An attribute after the ref name, with its unchecked value.
#[derive(Clone, Copy)]
enum Attribute<'a> {
    Symref(&'a [u8]),
    Peeled(&'a [u8]),
    Unknown,
}

/// The two kinds of a reply's first line.
pub(crate) enum FirstText<'a> {
    /// The line of an unborn `HEAD`, with its target or the reason why the line is refused.
    Unborn(Result<&'a [u8], Why>),
    /// The line of a ref.
    Ref,
}

// Returns the text before the first space, and the text after that space if there is one.
fn cut(text: &[u8]) -> (&[u8], Option<&[u8]>)
    ensures parts { parts_of text.now ≡ result.0.now ∷ parts_left result.1 }
    ensures shorter { IfSome result.1 (λ rest. length rest.now < length text.now) }
{
    match first_space(text) {
        Some(at) => (&text[..at], Some(&text[at + 1..])),
        None => (text, None),
    }
}

// Returns the position of the first space, if any.
fn first_space(text: &[u8]) -> Option<usize>
    ensures place { result ≡ position is_space text.now }
    ensures within { IfSome result (λ at. at < length text.now) }
{
    text.iter().position(|byte| *byte == b' ')
}

// Returns whether a text is a valid ref name.
fn is_name(text: &[u8]) -> bool
    ensures { result ≡ is_name text.now }
{
    RefName::check(text).is_ok()
}

/// Parses a text as the line of a ref. Returns the parts of the line, or the reason why the text is
/// not the line of a ref. Allocates nothing.
#[tactic(auto, unfolding(crate::specs::RefTexts::line_of))]
pub(crate) fn line_of(format: Format, text: &[u8]) -> Result<LineParts<'_>, Why>
    ensures { line_read result ≡ line_of format text.now }
{
    let (first, rest) = cut(text);
    let Some(id) = id_of_text(format, first) else {
        return Err(Why::BadId);
    };
    let Some(rest) = rest else {
        return Err(Why::BadText);
    };
    line_with_name(format, id, rest)
}

fn line_with_name(format: Format, id: Oid, rest: &[u8]) -> Result<LineParts<'_>, Why>
    ensures { line_read result ≡ line_with_name format id (parts_of rest.now) }
{
    let (name, attributes) = cut(rest);
    if !is_name(name) {
        return Err(Why::BadName);
    }
    with_attributes(format, id, name, attributes)
}

// Parses the attributes of a line, each at most once, and returns the complete line.
fn with_attributes<'a>(
    format: Format,
    id: Oid,
    name: &'a [u8],
    attributes: Option<&'a [u8]>,
) -> Result<LineParts<'a>, Why>
    ensures { line_read result
        ≡ with_attributes format (Ok (line_parts id name.now None None))
        (parts_left attributes.entry) }
{
    let mut symref = None;
    let mut peeled = None;
    let mut rest = attributes;
    while let Some(text) = rest {
        let (part, after) = cut(text);
        match attribute_of(part) {
            Attribute::Symref(target) => {
                if symref.is_some() {
                    return Err(Why::BadText);
                }
                if !is_name(target) {
                    return Err(Why::BadName);
                }
                symref = Some(target);
            }
            Attribute::Peeled(text) => {
                if peeled.is_some() {
                    return Err(Why::BadText);
                }
                let Some(id) = id_of_text(format, text) else {
                    return Err(Why::BadId);
                };
                peeled = Some(id);
            }
            Attribute::Unknown => return Err(Why::BadText),
        }
        rest = after;
    }
    Ok(LineParts {
        id,
        name,
        symref,
        peeled,
    })
}

#[tactic(auto, unfolding(crate::specs::RefTexts::attribute_of))]
fn attribute_of(part: &[u8]) -> Attribute<'_>
    ensures { attribute_view result ≡ attribute_of part.now }
{
    if let Some(target) = after_word(b"symref-target:", part) {
        return Attribute::Symref(target);
    }
    match after_word(b"peeled:", part) {
        Some(id) => Attribute::Peeled(id),
        None => Attribute::Unknown,
    }
}

/// Returns the kind of a reply's first line. A line whose first word is `unborn` describes an
/// unborn `HEAD`. Allocates nothing.
#[tactic(auto, unfolding(crate::specs::RefTexts::first_form))]
pub(crate) fn first_form(text: &[u8]) -> FirstText<'_>
    ensures { form_view result ≡ first_form text.now }
{
    let (first, rest) = cut(text);
    if first == b"unborn".as_slice() {
        FirstText::Unborn(unborn_of_parts(rest))
    } else {
        FirstText::Ref
    }
}

fn unborn_of_parts(rest: Option<&[u8]>) -> Result<&[u8], Why>
    ensures { target_read result ≡ unborn_of_parts (parts_left rest.entry) }
{
    let Some(rest) = rest else {
        return Err(Why::BadText);
    };
    let (head, rest) = cut(rest);
    if head == HEAD.as_slice() {
        unborn_after_head(rest)
    } else {
        Err(Why::BadText)
    }
}

fn unborn_after_head(rest: Option<&[u8]>) -> Result<&[u8], Why>
    ensures { target_read result ≡ unborn_after_head (parts_left rest.entry) }
{
    let Some(rest) = rest else {
        return Err(Why::BadText);
    };
    match cut(rest) {
        (part, None) => unborn_target(part),
        (_part, Some(_more)) => Err(Why::BadText),
    }
}

fn unborn_target(part: &[u8]) -> Result<&[u8], Why>
    ensures { target_read result ≡ unborn_target (after_word (codes "symref-target:") part.now) }
{
    let Some(name) = after_word(b"symref-target:", part) else {
        return Err(Why::BadText);
    };
    if is_name(name) {
        Ok(name)
    } else {
        Err(Why::BadName)
    }
}

//! The rules of git-check-ref-format(1), with a function for each rule.

ghost use Rattle.std.specs.Prelude.{◌≡◌, ◌≤◌, length, position};
ghost use Rattle.gname.specs.Names.{Finds, name_fault, prefix_fault, empty, too_long, not_ref, is_bad_byte, bad_byte, is_bad_component, component_at, begins_bad_component, component, double_dot, at_brace, end, max_name};
ghost use Rattle.memchr.specs.Find.{FindsNeedle};

use crate::faults::NameFault;
use memchr::{memchr, memmem};

/// The maximum length of a ref name or a prefix in bytes.
pub const MAX_NAME: usize = 1_000;

/// Checks that a text is a ref name. Otherwise fails with the first fault of the text.
#[tactic(auto, unfolding(crate::specs::Names::name_fault))]
pub(crate) fn check_name(text: &[u8]) -> Result<(), NameFault>
    ensures { Finds name_fault text.now result }
{
    check_not_empty(text)?;
    check_length(text)?;
    check_root(text)?;
    check_bytes(text)?;
    check_components(text)?;
    check_dots(text)?;
    check_braces(text)?;
    check_end(text)
}

/// Checks that a text is a prefix of ref names. Otherwise fails with the first fault of the text.
#[tactic(auto, unfolding(crate::specs::Names::prefix_fault))]
pub(crate) fn check_prefix(text: &[u8]) -> Result<(), NameFault>
    ensures { Finds prefix_fault text.now result }
{
    check_length(text)?;
    check_bytes(text)
}

#[tactic(auto, unfolding(crate::specs::Names::empty))]
fn check_not_empty(text: &[u8]) -> Result<(), NameFault>
    ensures { Finds empty text.now result }
{
    if text.is_empty() {
        return Err(NameFault::Empty);
    }
    Ok(())
}

#[tactic(auto, unfolding(crate::specs::Names::too_long))]
fn check_length(text: &[u8]) -> Result<(), NameFault>
    ensures { Finds too_long text.now result }
{
    if text.len() > MAX_NAME {
        return Err(NameFault::TooLong);
    }
    Ok(())
}

#[tactic(auto, unfolding(crate::specs::Names::not_ref))]
fn check_root(text: &[u8]) -> Result<(), NameFault>
    ensures { Finds not_ref text.now result }
{
    if text == b"HEAD".as_slice() || text.starts_with(b"refs/") {
        Ok(())
    } else {
        Err(NameFault::NotRef)
    }
}

#[tactic(auto, unfolding(crate::specs::Names::is_bad_byte))]
fn is_bad_byte(byte: u8) -> bool
    ensures { result ≡ is_bad_byte byte }
{
    byte < 32 || byte == 127 || b" ~^:?*[\\".contains(&byte)
}

fn first_bad_byte(text: &[u8]) -> Option<usize>
    ensures { result ≡ position is_bad_byte text.now }
{
    text.iter().position(|byte| is_bad_byte(*byte))
}

#[tactic(auto, unfolding(crate::specs::Names::bad_byte))]
fn check_bytes(text: &[u8]) -> Result<(), NameFault>
    ensures { Finds bad_byte text.now result }
{
    match first_bad_byte(text) {
        Some(at) => Err(NameFault::BadByte { at }),
        None => Ok(()),
    }
}

fn component_at(text: &[u8], at: usize) -> &[u8]
    requires { at ≤ length text.now }
    ensures { result.now ≡ component_at text.now at }
{
    let rest = &text[at..];
    match memchr(b'/', rest) {
        Some(len) => &rest[..len],
        None => rest,
    }
}

fn is_bad_component(component: &[u8]) -> bool
    ensures { result ≡ is_bad_component component.now }
{
    component.is_empty() || component.starts_with(b".") || component.ends_with(b".lock")
}

#[tactic(auto, unfolding(crate::specs::Names::begins_bad_component))]
fn begins_bad_component(text: &[u8], at: usize) -> bool
    requires { at ≤ length text.now }
    ensures { result ≡ begins_bad_component text.now at }
{
    (at == 0 || text[at - 1] == b'/') && is_bad_component(component_at(text, at))
}

fn check_components(text: &[u8]) -> Result<(), NameFault>
    ensures { Finds component text.now result }
{
    for at in 0..=text.len() {
        if begins_bad_component(text, at) {
            return Err(NameFault::Component { at });
        }
    }
    Ok(())
}

#[tactic(auto, using(crate::proofs::PlaceLemmas::first_place_occurs), unfolding(crate::specs::Names::double_dot))]
fn check_dots(text: &[u8]) -> Result<(), NameFault>
    ensures { Finds double_dot text.now result }
{
    match find_pair(text, b"..") {
        Some(at) => Err(NameFault::DoubleDot { at }),
        None => Ok(()),
    }
}

#[tactic(auto, using(crate::proofs::PlaceLemmas::first_place_occurs), unfolding(crate::specs::Names::at_brace))]
fn check_braces(text: &[u8]) -> Result<(), NameFault>
    ensures { Finds at_brace text.now result }
{
    match find_pair(text, b"@{") {
        Some(at) => Err(NameFault::AtBrace { at }),
        None => Ok(()),
    }
}

// Returns the first position of a pair of bytes, or `None` if the text does not contain the pair.
// The function first searches for only the first byte of the pair, which most names do not contain.
#[tactic(auto, using(crate::proofs::PlaceLemmas::no_pair))]
fn find_pair(text: &[u8], pair: &[u8; 2]) -> Option<usize>
    ensures { FindsNeedle text.now pair.now 0 result }
{
    match memchr(pair[0], text) {
        Some(_) => memmem::find(text, pair),
        None => None,
    }
}

#[tactic(auto, unfolding(crate::specs::Names::end))]
fn check_end(text: &[u8]) -> Result<(), NameFault>
    ensures { Finds end text.now result }
{
    if text.ends_with(b".") {
        return Err(NameFault::End);
    }
    Ok(())
}

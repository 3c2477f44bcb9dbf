//! Writing a configuration.

ghost use Rattle.std.specs.Prelude.{◌≡◌, ◌++◌, ◌∷◌, ◌↔◌, [], All, IfOk, IsTrue, List, OnOk, Some, false, ℕ};
ghost use Rattle.gitconfig.specs.Configs.{Begins, IsConfig, Nothing, Sets, bare_settings};
ghost use Rattle.gitconfig.specs.Values.{is_special};
ghost use Rattle.gitconfig.specs.steps.Writing.{AddsByte, AddsItems, AddsQuoted, AddsValue, is_word};

use crate::bytes::is_blank;
use std::alloc::{AllocError, Allocator};

/// Returns the configuration text of a bare repository whose remote `origin` has this URL
/// (git-clone(1), `--bare`). Fails only if out of memory.
pub fn bare_config<A: Allocator + Copy>(alloc: A, origin: &[u8]) -> Result<Vec<u8, A>, AllocError>
    ensures { IfOk result (λ text. IsConfig text.items (bare_settings origin.now)) }
{
    let mut text = Vec::new(alloc);
    push_section(&mut text, b"core")?;
    push_setting(&mut text, b"repositoryformatversion", b"0")?;
    push_setting(&mut text, b"filemode", b"true")?;
    push_setting(&mut text, b"bare", b"true")?;
    push_subsection(&mut text, b"remote", b"origin")?;
    push_setting(&mut text, b"url", origin)?;
    Ok(text)
}

// Appends the header of a section.
#[tactic(auto, using(crate::proofs::WritingLemmas::adds_section))]
fn push_section<A: Allocator + Copy>(
    text: &mut Vec<u8, A>,
    section: &[u8],
) -> Result<(), AllocError>
    requires { IsTrue (is_word section.now) }
    ensures { OnOk result (AddsItems (Begins section.now ∷ Nothing ∷ []) text.old.items
        text.new.items) }
{
    text.push(b'[')?;
    text.extend_from_slice(section)?;
    text.extend_from_slice(b"]\n")?;
    Ok(())
}

// Appends the header of a subsection.
#[tactic(auto, using(crate::proofs::WritingLemmas::adds_subsection))]
fn push_subsection<A: Allocator + Copy>(
    text: &mut Vec<u8, A>,
    section: &[u8],
    subsection: &[u8],
) -> Result<(), AllocError>
    requires section { IsTrue (is_word section.now) }
    requires subsection { IsTrue (is_word subsection.now) }
    ensures { OnOk result (AddsItems
        (Begins (section.now ++ 46 ∷ subsection.now) ∷ Nothing ∷ []) text.old.items
        text.new.items) }
{
    text.push(b'[')?;
    text.extend_from_slice(section)?;
    text.extend_from_slice(b" \"")?;
    text.extend_from_slice(subsection)?;
    text.extend_from_slice(b"\"]\n")?;
    Ok(())
}

// Appends a variable.
#[tactic(auto, using(crate::proofs::WritingLemmas::adds_setting))]
fn push_setting<A: Allocator + Copy>(
    text: &mut Vec<u8, A>,
    name: &[u8],
    value: &[u8],
) -> Result<(), AllocError>
    requires { IsTrue (is_word name.now) }
    ensures { OnOk result (AddsItems (Nothing ∷ Sets name.now (Some value.now) ∷ Nothing ∷ [])
        text.old.items text.new.items) }
{
    text.push(b'\t')?;
    text.extend_from_slice(name)?;
    text.extend_from_slice(b" = ")?;
    push_value(text, value)?;
    text.push(b'\n')?;
    Ok(())
}

// Appends a value, with quotes around it if necessary.
fn push_value<A: Allocator + Copy>(text: &mut Vec<u8, A>, value: &[u8]) -> Result<(), AllocError>
    ensures { OnOk result (AddsValue value.now text.old.items text.new.items) }
{
    if is_plain(value) {
        text.extend_from_slice(value)?;
        return Ok(());
    }
    text.push(b'"')?;
    push_quoted(text, value)?;
    text.push(b'"')?;
    Ok(())
}

// Returns whether no byte of a value needs quotes or a backslash.
fn is_plain(value: &[u8]) -> bool
    ensures { IsTrue result ↔ All (λ b. is_special false b ≡ false) value.now }
{
    value.iter().all(|byte| !is_special(*byte))
}

// Returns whether a byte needs quotes or a backslash.
fn is_special(byte: u8) -> bool
    ensures { result ≡ is_special false byte }
{
    match byte {
        b'\n' | b'"' | b'\\' | b'#' | b';' => true,
        _ => is_blank(byte),
    }
}

// Appends the bytes of a quoted value.
fn push_quoted<A: Allocator + Copy>(text: &mut Vec<u8, A>, value: &[u8]) -> Result<(), AllocError>
    ensures { OnOk result (AddsQuoted value.now text.old.items text.new.items) }
{
    for byte in value {
        push_byte(text, *byte)?;
    }
    Ok(())
}

// Appends a byte of a quoted value.
fn push_byte<A: Allocator + Copy>(text: &mut Vec<u8, A>, byte: u8) -> Result<(), AllocError>
    ensures { OnOk result (AddsByte byte text.old.items text.new.items) }
{
    match byte {
        b'\n' => text.extend_from_slice(b"\\n"),
        b'"' => text.extend_from_slice(b"\\\""),
        b'\\' => text.extend_from_slice(b"\\\\"),
        _ => text.extend_from_slice(&[byte]),
    }
}

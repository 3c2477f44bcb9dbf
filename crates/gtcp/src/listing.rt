//! The printed lines of listed refs.

ghost use Rattle.std.specs.Prelude.{◌≡◌, ◌<◌, ◌++◌, IfOk, OnOk, Some, length, slice_get};
ghost use Rattle.std.specs.List.{flat_map};
ghost use Rattle.std.specs.Option.{option_copied};
ghost use Rattle.glsreply.specs.RefTexts as texts;
ghost use Rattle.gtcp.specs.Listing.{ref_line, reply_lines, unborn_line};

use glsreply::{LsReply, RefLine, RefText};
use gname::RefName;
use std::alloc::{AllocError, Allocator};

/// Returns the lines of a reply: first the target of an unborn `HEAD`, and then each ref. Fails
/// only if out of memory.
pub(crate) fn text_of<A: Allocator + Copy>(
    alloc: A,
    reply: &LsReply<A>,
) -> Result<Vec<u8, A>, AllocError>
    ensures { IfOk result (λ text. text.items ≡ reply_lines reply.now) }
{
    let mut text = Vec::new(alloc);
    put_unborn(&mut text, reply.unborn())?;
    put_refs(&mut text, reply)?;
    Ok(text)
}

// Appends the line of an unborn HEAD, if there is one.
fn put_unborn<A: Allocator + Copy>(
    text: &mut Vec<u8, A>,
    target: Option<&RefName<A>>,
) -> Result<(), AllocError>
    ensures { OnOk result (text.new.items
        ≡ text.old.items ++ unborn_line (option_copied target.entry)) }
{
    match target {
        Some(target) => put_target(text, target),
        None => Ok(()),
    }
}

fn put_target<A: Allocator + Copy>(
    text: &mut Vec<u8, A>,
    target: &RefName<A>,
) -> Result<(), AllocError>
    ensures { OnOk result (text.new.items ≡ text.old.items ++ unborn_line (Some target.now)) }
{
    put_named(text, b"unborn HEAD symref-target:", target)?;
    text.extend_from_slice(b"\n")
}

// Appends the text `word`, and then a ref name.
fn put_named<A: Allocator + Copy>(
    text: &mut Vec<u8, A>,
    word: &[u8],
    name: &RefName<A>,
) -> Result<(), AllocError>
    ensures { OnOk result (text.new.items ≡ text.old.items ++ (word.now ++ name.now)) }
{
    text.extend_from_slice(word)?;
    text.extend_from_slice(name.as_bytes())
}

// Appends a line for each ref of the reply.
fn put_refs<A: Allocator + Copy>(
    text: &mut Vec<u8, A>,
    reply: &LsReply<A>,
) -> Result<(), AllocError>
    ensures { OnOk result (text.new.items ≡ text.old.items ++ flat_map ref_line reply.now.lines) }
{
    for index in 0..reply.len() {
        put_ref(text, reply, index)?;
    }
    Ok(())
}

// Appends the line of the ref at this index of the reply.
fn put_ref<A: Allocator + Copy>(
    text: &mut Vec<u8, A>,
    reply: &LsReply<A>,
    index: usize,
) -> Result<(), AllocError>
    requires { index < length reply.now.lines }
    ensures { OnOk result ((line : texts.RefLine) × (slice_get reply.now.lines index ≡ Some line)
        × (text.new.items ≡ text.old.items ++ ref_line line)) }
{
    match reply.at(index) {
        Some(line) => put_line(text, line),
        None => unreachable!(),
    }
}

fn put_line<A: Allocator + Copy>(text: &mut Vec<u8, A>, line: &RefLine<A>) -> Result<(), AllocError>
    ensures { OnOk result (text.new.items ≡ text.old.items ++ ref_line line.now) }
{
    let mut shown = RefText::new();
    shown.set(&line.lend());
    text.extend_from_slice(shown.as_bytes())?;
    text.extend_from_slice(b"\n")
}

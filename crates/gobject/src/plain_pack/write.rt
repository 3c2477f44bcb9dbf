//! Writing a plain pack. The length of the pack is computed before memory is allocated.

ghost use Rattle.std.specs.Prelude.{◌≡◌, ◌≤◌, ◌++◌, ◌∷◌, [], length, IsTrue, ◌↔◌, OnOk, MatchResult, IfOk};
ghost use Rattle.gname.specs.Limits.{max_pack};
ghost use Rattle.gobject.specs.PlainPackText.{line, ids_text, node_text, end_text, pack_text, PackRefuses};
ghost use Rattle.gobject.specs.steps.PlainPackWriting.{Leaves, nodes_text};

use crate::fault::PackFault;
use crate::node::Entry;
use gname::laws::ids_have_texts;
use gname::{MAX_PACK, Oid};
use itoa::Buffer;
use std::alloc::{AllocError, Allocator};

/// Returns the number of bytes of `room` that are left after a space and an id, or `None` if `room`
/// is too small.
fn room_after_id(room: usize, id: &Oid) -> Option<usize>
    ensures { Leaves room result (length (ids_text (id.now ∷ []))) }
{
    // The proof uses these laws.
    ids_have_texts();
    id.laws();
    room.checked_sub(id.format().id_text_length() + 1)
}

/// Returns the number of bytes of `room` that are left after the ids, each preceded by a space, or
/// `None` if `room` is too small.
fn room_after_ids(room: usize, ids: &[Oid]) -> Option<usize>
    ensures { Leaves room result (length (ids_text ids.now)) }
{
    let mut left = room;
    for id in ids {
        left = room_after_id(left, id)?;
    }
    Some(left)
}

/// Returns the number of bytes of `room` that are left after the line of an entry, or `None` if
/// `room` is too small.
fn room_after_node<A: Allocator + Copy>(room: usize, entry: &Entry<A>) -> Option<usize>
    ensures { Leaves room result (length (line (node_text entry.now))) }
{
    let left = room.checked_sub(2)?;
    let left = room_after_id(left, &entry.id)?;
    room_after_ids(left, entry.node.parents.as_slice())
}

/// Returns the number of bytes of `room` that are left after the lines of the entries, or `None` if
/// `room` is too small.
fn room_after_nodes<A: Allocator + Copy>(room: usize, entries: &[Entry<A>]) -> Option<usize>
    ensures { Leaves room result (length (nodes_text entries.now)) }
{
    let mut left = room;
    for entry in entries {
        left = room_after_node(left, entry)?;
    }
    Some(left)
}

/// Returns whether the plain pack of the entries has at most `MAX_PACK` bytes.
#[tactic(auto, using(crate::proofs::PlainPackWriting::length_pack))]
fn fits<A: Allocator + Copy>(entries: &[Entry<A>]) -> bool
    ensures { IsTrue result ↔ (length (pack_text entries.now) ≤ max_pack) }
{
    let mut digits = Buffer::new();
    let others = b"GPK1\nend \n".len() + digits.format(entries.len()).len();
    match room_after_nodes(MAX_PACK, entries) {
        Some(left) => others <= left,
        None => false,
    }
}

/// Appends the lines of the entries to the text.
#[tactic(auto, using(crate::proofs::PlainPackWriting::pieces_more))]
fn put_nodes<A: Allocator + Copy>(
    text: &mut Vec<u8, A>,
    entries: &[Entry<A>],
) -> Result<(), AllocError>
    ensures { OnOk result (text.new.items ≡ text.old.items ++ nodes_text entries.now) }
{
    for entry in entries {
        entry.node.push_line(&entry.id, text)?;
    }
    Ok(())
}

/// Appends the last line, with the number of entries.
fn put_end<A: Allocator + Copy>(text: &mut Vec<u8, A>, count: usize) -> Result<(), AllocError>
    ensures { OnOk result (text.new.items ≡ text.old.items ++ line (end_text count)) }
{
    let mut digits = Buffer::new();
    text.extend_from_slice(b"end ")?;
    text.extend_from_slice(digits.format(count).as_bytes())?;
    text.push(b'\n')?;
    Ok(())
}

/// Returns the plain pack of the entries. The pack may have any length.
#[tactic(auto, using(crate::proofs::PlainPackWriting::pack_text_is))]
fn put_pack<A: Allocator + Copy>(alloc: A, entries: &[Entry<A>]) -> Result<Vec<u8, A>, AllocError>
    ensures { IfOk result (λ pack. pack.items ≡ pack_text entries.now) }
{
    let mut text = Vec::new(alloc);
    text.extend_from_slice(b"GPK1\n")?;
    put_nodes(&mut text, entries)?;
    put_end(&mut text, entries.len())?;
    Ok(text)
}

/// Returns the plain pack of the entries. Fails with `TooLarge` before allocating if the pack has
/// more than `MAX_PACK` bytes. Otherwise fails only with `Memory`.
pub fn write<A: Allocator + Copy>(alloc: A, entries: &[Entry<A>]) -> Result<Vec<u8, A>, PackFault>
    ensures packed { MatchResult result (λ pack. pack.items ≡ pack_text entries.now)
        (PackRefuses (pack_text entries.now)) }
    ensures bounded { IfOk result (λ pack. length pack.items ≤ max_pack) }
{
    if !fits(entries) {
        return Err(PackFault::TooLarge);
    }
    let pack = put_pack(alloc, entries)?;
    Ok(pack)
}

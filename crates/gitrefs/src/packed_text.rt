//! Writing the text of `packed-refs`.

ghost use Rattle.std.specs.List.{flat_map};
ghost use Rattle.std.specs.Prelude.{◌≡◌, ◌++◌, IfOk, OnOk};
ghost use Rattle.gitrefs.specs.PackedTexts.{line_text, peeled_header, peeled_ref_text, peeled_text, plain_header, plain_ref_text};

use gname::{Oid, RefName};
use grefs::Refs;
use std::alloc::{AllocError, Allocator};

/// Returns the text of `packed-refs` (git-pack-refs(1)) without peeled ids: a header, and a line
/// for each ref, sorted by name. Fails only if out of memory.
pub fn packed_refs_text<A: Allocator + Copy>(
    alloc: A,
    refs: &Refs<A>,
) -> Result<Vec<u8, A>, AllocError>
    ensures { IfOk result (λ text. text.items
        ≡ plain_header ++ flat_map plain_ref_text refs.now) }
{
    let mut text = Vec::new(alloc);
    text.extend_from_slice(b"# pack-refs with: sorted \n")?;
    for pair in refs.as_slice() {
        push_line(&mut text, &pair.0, &pair.1)?;
    }
    Ok(text)
}

/// Returns the text of `packed-refs` with peeled ids. `peeled` maps the names of tags to their
/// peeled ids. The line of a ref with a peeled id is followed by a line of `^` and the peeled id.
/// Fails only if out of memory.
pub fn peeled_refs_text<A: Allocator + Copy>(
    alloc: A,
    refs: &Refs<A>,
    peeled: &Refs<A>,
) -> Result<Vec<u8, A>, AllocError>
    ensures { IfOk result (λ text. text.items
        ≡ peeled_header ++ flat_map (peeled_ref_text peeled.now) refs.now) }
{
    let mut text = Vec::new(alloc);
    text.extend_from_slice(b"# pack-refs with: peeled fully-peeled sorted \n")?;
    for pair in refs.as_slice() {
        push_line(&mut text, &pair.0, &pair.1)?;
        push_peeled(&mut text, peeled.get(&pair.0))?;
    }
    Ok(text)
}

// Appends the line of a ref.
fn push_line<A: Allocator + Copy>(
    text: &mut Vec<u8, A>,
    name: &RefName<A>,
    id: &Oid,
) -> Result<(), AllocError>
    ensures { OnOk result (text.new.items ≡ text.old.items ++ line_text name.now id.now) }
{
    id.push_hex(text)?;
    text.push(b' ')?;
    text.extend_from_slice(name.as_bytes())?;
    text.push(b'\n')?;
    Ok(())
}

// Appends the line of a peeled id, or nothing for `None`.
fn push_peeled<A: Allocator + Copy>(
    text: &mut Vec<u8, A>,
    peeled: Option<Oid>,
) -> Result<(), AllocError>
    ensures { OnOk result (text.new.items ≡ text.old.items ++ peeled_text peeled) }
{
    if let Some(id) = peeled {
        text.push(b'^')?;
        id.push_hex(text)?;
        text.push(b'\n')?;
    }
    Ok(())
}

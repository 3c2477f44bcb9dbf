//! Writing the texts of ref files.

ghost use Rattle.std.specs.Prelude.{◌≡◌, IfOk};
ghost use Rattle.gitrefs.specs.LooseRefs.{IsSymrefFile};
ghost use Rattle.gitrefs.specs.Texts.{branch_text, ref_text};

use gname::Oid;
use grefs::Target;
use std::alloc::{AllocError, Allocator};

/// Returns the text of a ref file, which is the hexadecimal digits of an id and an LF.
pub(crate) fn ref_text<A: Allocator + Copy>(alloc: A, id: &Oid) -> Result<Vec<u8, A>, AllocError>
    ensures { IfOk result (λ text. text.items ≡ ref_text id.now) }
{
    let mut text = Vec::new(alloc);
    id.push_hex(&mut text)?;
    text.push(b'\n')?;
    Ok(text)
}

/// Returns the text of a HEAD that points at a branch.
pub(crate) fn branch_text<A: Allocator + Copy>(
    alloc: A,
    branch: &Target<A>,
) -> Result<Vec<u8, A>, AllocError>
    ensures text { IfOk result (λ text. text.items ≡ branch_text branch.now) }
    ensures reads { IfOk result (λ text. IsSymrefFile text.items branch.now) }
{
    let mut text = Vec::new(alloc);
    text.extend_from_slice(b"ref: ")?;
    text.extend_from_slice(branch.name().as_bytes())?;
    text.push(b'\n')?;
    Ok(text)
}

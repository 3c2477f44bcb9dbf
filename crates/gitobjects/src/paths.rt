//! The paths of files that hold objects (gitrepository-layout(5)).

ghost use Rattle.std.specs.Prelude.{◌≡◌, ◌++◌, IfOk, IfSome, drop, string_bytes, take};
ghost use Rattle.gitobjects.specs.Paths as paths;

use crate::fault::Cause;
use gname::{MAX_ID_TEXT, Oid};
use std::alloc::{AllocError, Allocator};

/// Returns the path of the file with this name in a folder.
pub(crate) fn join<A: Allocator + Copy>(
    alloc: A,
    folder: &str,
    name: &str,
) -> Result<String<A>, AllocError>
    ensures { IfOk result (λ path. string_bytes path ≡ paths.below folder.now name.now) }
{
    let mut path = String::from_str(alloc, folder)?;
    path.push_str("/")?;
    path.push_str(name)?;
    Ok(path)
}

/// Returns the path of a file in a folder of packs. The file has the name of the pack and this
/// extension.
pub(crate) fn pack_path<A: Allocator + Copy>(
    alloc: A,
    folder: &str,
    stem: &str,
    extension: &str,
) -> Result<String<A>, AllocError>
    ensures { IfOk result (λ path. string_bytes path
        ≡ paths.below folder.now (stem.now ++ extension.now)) }
{
    let mut path = join(alloc, folder, stem)?;
    path.push_str(extension)?;
    Ok(path)
}

/// Returns the path of the two-digit folder that holds a loose object, inside an object folder.
pub(crate) fn loose_folder<A: Allocator + Copy>(
    alloc: A,
    folder: &str,
    id: &Oid,
) -> Result<String<A>, Cause>
    ensures { IfOk result (λ path. string_bytes path ≡ paths.loose_folder folder.now id.now) }
{
    let mut buffer = [0; MAX_ID_TEXT];
    let count = id.to_hex(&mut buffer);
    let Some((first, _rest)) = split_digits(&buffer[..count]) else {
        return Err(Cause::NotText);
    };
    Ok(join(alloc, folder, first)?)
}

/// Returns the path of a loose object inside an object folder.
pub(crate) fn loose_path<A: Allocator + Copy>(
    alloc: A,
    folder: &str,
    id: &Oid,
) -> Result<String<A>, Cause>
    ensures { IfOk result (λ path. string_bytes path ≡ paths.loose_path folder.now id.now) }
{
    let mut buffer = [0; MAX_ID_TEXT];
    let count = id.to_hex(&mut buffer);
    let Some((first, rest)) = split_digits(&buffer[..count]) else {
        return Err(Cause::NotText);
    };
    let own = join(alloc, folder, first)?;
    Ok(join(alloc, own.as_str(), rest)?)
}

// Splits the digits of an id after the first two, or returns `None` if there are fewer than two
// digits.
fn split_digits(digits: &[u8]) -> Option<(&str, &str)>
    ensures { IfSome result (λ parts. (parts.0.now ≡ take 2 digits.now)
        × (parts.1.now ≡ drop 2 digits.now)) }
{
    let Some((first, rest)) = digits.split_at_checked(2) else {
        return None;
    };
    match (str::from_utf8(first), str::from_utf8(rest)) {
        (Ok(first), Ok(rest)) => Some((first, rest)),
        _ => None,
    }
}

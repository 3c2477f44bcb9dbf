//! The ids of objects.

ghost use Rattle.std.specs.Prelude.{◌≡◌};
ghost use Rattle.gname.specs.Ids.{IsIdOf};
ghost use Rattle.gname.specs.declared.formats.Format.TheVariants as formats;
ghost use Rattle.gitobject.specs.Naming.{id_of};

use crate::types::ObjectType;
use gname::Oid;
use gname::laws::ids_have_one_format;
use itoa::Buffer;
use sha1::Sha1;

/// The length of a SHA-1 id.
pub const ID_BYTES: usize = 20;

/// The number of hexadecimal digits of a SHA-1 id.
pub(crate) const ID_TEXT: usize = 40;

/// Returns the id of an object with these bytes (gitglossary(7), "object name"). The id is the
/// SHA-1 of the type, a space, the length in decimal, NUL, and the bytes.
pub fn id_of(kind: ObjectType, body: &[u8]) -> Oid
    ensures id { result ≡ id_of kind body.now }
    ensures format { IsIdOf formats.Sha1 result }
{
    let mut digits = Buffer::new();
    let mut hasher = Sha1::new();
    hasher.update(kind.name().as_bytes());
    hasher.update(b" ");
    hasher.update(digits.format(body.len()).as_bytes());
    hasher.update(b"\0");
    hasher.update(body);
    id_of_bytes(&hasher.finalize())
}

/// Returns the SHA-1 id with these bytes.
pub fn id_of_bytes(bytes: &[u8; ID_BYTES]) -> Oid
    ensures bytes { result ≡ bytes.now }
    ensures format { IsIdOf formats.Sha1 result }
{
    // The proof uses this law.
    ids_have_one_format();
    Oid::from_bytes(bytes).unwrap()
}

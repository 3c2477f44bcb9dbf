//! Objects read from a store.

ghost use Rattle.std.specs.Prelude.{◌≡◌, ◌↔◌, ◌≤◌, IsTrue, IfOk, IfSome, MatchOption, drop, length};
ghost use Rattle.gitobject.specs.Naming.{id_of, object_text};
ghost use Rattle.gitobject.specs.declared.types.ObjectType.{ObjectType};
ghost use Rattle.gitobjects.specs.Heads.{BeginsAsObject, BeginsWith};

use crate::entry::MAX_RATIO;
use crate::fault::Cause;
use crate::limits::{MAX_FRONT, MAX_OBJECT};
use crate::parts::cut;
use gitobject::{ObjectType, id_of, split_loose};
use gname::Oid;
use gzlib::{InflateFault, Inflater};
use std::alloc::{AllocError, Allocator};

/// An object: its type and its bytes.
#[derive(Debug, Drop)]
pub struct Object<A: Allocator + Copy> {
    /// The type.
    pub kind: ObjectType,
    /// The bytes.
    pub body: Vec<u8, A>,
}

impl<A: Allocator + Copy> Object<A> {
    /// Returns whether the object has this id. The SHA-1 of the object is computed.
    pub fn has_id(&self, id: &Oid) -> bool
        ensures { IsTrue result ↔ (id_of self.now.kind self.now.body.items ≡ id.now) }
    {
        id_of(self.kind, self.body.as_slice()) == *id
    }

    /// Returns a copy of the object. The copy is allocated with `alloc`.
    pub(crate) fn copy_in<B: Allocator + Copy>(&self, alloc: B) -> Result<Object<B>, AllocError>
        ensures kind { IfOk result (λ copy. copy.kind ≡ self.now.kind) }
        ensures body { IfOk result (λ copy. copy.body.items ≡ self.now.body.items) }
    {
        Ok(Object {
            kind: self.kind,
            body: self.body.as_slice().to_vec(alloc)?,
        })
    }
}

// The maximum length of the header of a loose object: a type, a space, a length and a NUL.
const MAX_LOOSE_HEAD: usize = 32;

// The capacity that an inflater needs besides the body: for the header, for 16,384 zeros, and for
// one match.
const EXTRA: usize = 16_674;

// The maximum size of a body whose unused capacity is freed. This may copy the body.
const MAX_SHRUNK: usize = 65_536;

/// Returns the loose object whose file has these bytes. The bytes must be exactly one zlib stream.
///
/// Fails with `ObjectSize` if the object is too large, with `Stream` if the stream is malformed, or
/// with `Loose` if its text is malformed. Fails with `Memory` if out of memory.
pub(crate) fn read_loose<A: Allocator + Copy>(
    alloc: A,
    inflater: &mut Inflater,
    stream: &[u8],
) -> Result<Object<A>, Cause> {
    let capacity = capacity_for(alloc, inflater, stream)?;
    let mut text = Vec::with_capacity(alloc, capacity)?;
    match inflater.inflate(stream, &mut text, MAX_OBJECT + MAX_LOOSE_HEAD) {
        Ok(length) if length == stream.len() => object_of(text),
        Ok(_) => Err(Cause::Stream),
        Err(InflateFault::Long) => Err(Cause::ObjectSize),
        Err(InflateFault::Memory) => Err(Cause::Memory),
        Err(_) => Err(Cause::Stream),
    }
}

// Returns the capacity to reserve for the text of a loose object with this stream: 0 if the stream
// is short. The size in the header is limited by the maximum size of an object and by the length of
// the stream.
fn capacity_for<A: Allocator + Copy>(
    alloc: A,
    inflater: &mut Inflater,
    stream: &[u8],
) -> Result<usize, Cause> {
    let Some((front, _rest)) = stream.split_at_checked(MAX_FRONT) else {
        return Ok(0);
    };
    let mut head = Vec::new(alloc);
    match inflater.inflate_front(front, &mut head, MAX_LOOSE_HEAD) {
        Ok(()) => {}
        Err(InflateFault::Memory) => return Err(Cause::Memory),
        Err(_) => return Ok(0),
    }
    let size = size_in(head.as_slice()).unwrap_or(0);
    let most = MAX_OBJECT.min(stream.len().saturating_mul(MAX_RATIO));
    Ok(size.min(most).saturating_add(EXTRA))
}

// Returns the size in the header of a loose object, or `None` if there is no size.
fn size_in(head: &[u8]) -> Option<usize> {
    let (_kind, after_kind) = cut(b' ', head)?;
    let (digits, _body) = cut(0, after_kind)?;
    str::from_utf8(digits).ok()?.parse::<usize>().ok()
}

/// Returns the type of a loose object whose file begins with these bytes, or `None` if the bytes do
/// not determine the type.
///
/// Fails only with `Memory`.
pub(crate) fn loose_kind<A: Allocator + Copy>(
    alloc: A,
    inflater: &mut Inflater,
    front: &[u8],
) -> Result<Option<ObjectType>, Cause> {
    let mut text = Vec::new(alloc);
    match inflater.inflate_front(front, &mut text, MAX_LOOSE_HEAD) {
        Ok(()) => Ok(kind_in(text.as_slice())),
        Err(InflateFault::Memory) => Err(Cause::Memory),
        Err(_) => Ok(None),
    }
}

// Returns the type whose name is at the start of the text, followed by a space. Returns `None` if
// there is no such type.
fn kind_in(text: &[u8]) -> Option<ObjectType>
    ensures { MatchOption result ((kind : ObjectType) → ¬ (BeginsAsObject text.now kind))
        (BeginsAsObject text.now) }
{
    if begins(b"commit ", text) {
        Some(ObjectType::Commit)
    } else if begins(b"tree ", text) {
        Some(ObjectType::Tree)
    } else if begins(b"blob ", text) {
        Some(ObjectType::Blob)
    } else if begins(b"tag ", text) {
        Some(ObjectType::Tag)
    } else {
        None
    }
}

// Returns whether a text begins with this word.
fn begins(word: &[u8], text: &[u8]) -> bool
    ensures { IsTrue result ↔ BeginsWith word.now text.now }
{
    match text.strip_prefix(word) {
        Some(_) => true,
        None => false,
    }
}

// Parses the inflated text of a loose object. The body is moved to the front of the text.
fn object_of<A: Allocator + Copy>(text: Vec<u8, A>) -> Result<Object<A>, Cause>
    ensures { IfOk result (λ object. text.items ≡ object_text object.kind object.body.items) }
{
    let Some((kind, count)) = head_of(text.as_slice()) else {
        return Err(Cause::Loose);
    };
    let mut body = text;
    drop_front(&mut body, count);
    shrink_short(&mut body);
    Ok(Object { kind, body })
}

// Returns the type of the object with this text, and the length of the header. Returns `None` if
// the text does not encode an object.
fn head_of(text: &[u8]) -> Option<(ObjectType, usize)>
    ensures within { IfSome result (λ head. head.1 ≤ length text.now) }
    ensures body { IfSome result (λ head. text.now ≡ object_text head.0 (drop head.1 text.now)) }
{
    match split_loose(text) {
        Some((kind, body)) => Some((kind, text.len().saturating_sub(body.len()))),
        None => None,
    }
}

// Removes the first `count` bytes.
fn drop_front<A: Allocator + Copy>(text: &mut Vec<u8, A>, count: usize)
    requires { count ≤ length text.old.items }
    ensures { text.new.items ≡ drop count text.old.items }
{
    let length = text.len();
    text.as_mut_slice().copy_within(count..length, 0);
    text.truncate(length - count);
}

// Frees the unused capacity of a short body.
fn shrink_short<A: Allocator + Copy>(body: &mut Vec<u8, A>)
    ensures { body.new.items ≡ body.old.items }
{
    if body.len() <= MAX_SHRUNK {
        body.shrink_to_fit();
    }
}

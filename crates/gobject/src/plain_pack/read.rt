//! Reading a plain pack, part by part. A part is the text before a space or line feed.

ghost use Rattle.std.specs.Prelude.{◌≡◌, [], ℕ, ◌+◌, List, length, decimal, MatchOption, IfOk, OnErr, IsTrue, ◌↔◌};
ghost use Rattle.gname.specs.Ids.{IsIdText};
ghost use Rattle.gobject.specs.Objects.{entry_of, node_of};
ghost use Rattle.gobject.specs.PlainPackReading.{IsPart};
ghost use Rattle.gobject.specs.steps.PlainPackReading.{SplitsPart, format_of_digits, NoId, Leads, NeverLeads, EndsId, with_parent, IsKept, line_number, Reads, Finishes};

use crate::fault::IndexFault;
use crate::node::{Entry, Kind, Node, Parents};
use gname::laws::{id_texts_are_digits, ids_have_one_format};
use gname::{Format, Oid};
use itoa::Buffer;
use memchr::memchr2;
use std::alloc::{AllocError, Allocator};
use std::mem;

/// The byte that ends a part: a space or a line feed.
#[derive(Clone, Copy)]
pub enum Separator {
    Space,
    LineFeed,
}

/// The part of a plain pack that is expected next.
#[derive(Drop)]
pub enum Next<A: Allocator + Copy> {
    /// The first line, `GPK1`.
    Header,
    /// The first word of a line.
    Word,
    /// The id of an entry of this kind.
    Id(Kind),
    /// One more parent of this entry.
    Parent(Entry<A>),
    /// The number of entries, in the last line.
    Count,
    /// Nothing, because the pack is complete.
    Nothing,
}

/// Returns the first part of a text, the separator after it, and the rest of the text. Returns
/// `None` if the text has no separator.
pub fn split_part(text: &[u8]) -> Option<(&[u8], Separator, &[u8])>
    ensures { MatchOption result (IsPart text.now)
        (λ parts. SplitsPart text.now parts.0.now parts.1 parts.2.now) }
{
    let end = memchr2(b' ', b'\n', text)?;
    let separator = if text[end] == b' ' {
        Separator::Space
    } else {
        Separator::LineFeed
    };
    Some((&text[..end], separator, &text[end + 1..]))
}

/// Returns the format of an id with as many digits as the part has bytes, or SHA-1 if no id has
/// that many digits.
fn format_of(part: &[u8]) -> Format
    ensures { result ≡ format_of_digits (length part.now) }
{
    if part.len() == Format::Sha256.id_text_length() {
        Format::Sha256
    } else {
        Format::Sha1
    }
}

/// Returns the id that a part encodes, or `None` if the part is not the text of an id.
#[tactic(auto, using(crate::proofs::PlainPackLines::no_id_of_fault, crate::proofs::PlainPackLines::id_text_of_read))]
fn id_of(part: &[u8]) -> Option<Oid>
    ensures { MatchOption result (NoId part.now) (IsIdText part.now) }
{
    // The proof uses these laws.
    id_texts_are_digits();
    ids_have_one_format();
    match Oid::from_hex_in(format_of(part), part) {
        Ok(id) => Some(id),
        Err(_) => None,
    }
}

/// Returns the part that is expected after the header, or `None` if `part` and `separator` are not
/// the header.
fn after_header<A: Allocator + Copy>(part: &[u8], separator: Separator) -> Option<Next<A>>
    ensures { ((list : List (Entry A)) → MatchOption result
        (NeverLeads {A = A} Next.Header list part.now separator)
        (λ next. Leads Next.Header list part.now separator next list)) }
{
    match separator {
        Separator::LineFeed if part == b"GPK1".as_slice() => Some(Next::Word),
        _ => None,
    }
}

/// Returns the part that is expected after the first word of a line, or `None` if `part` is not
/// allowed as that word.
fn after_word<A: Allocator + Copy>(part: &[u8], separator: Separator) -> Option<Next<A>>
    ensures { ((list : List (Entry A)) → MatchOption result
        (NeverLeads {A = A} Next.Word list part.now separator)
        (λ next. Leads Next.Word list part.now separator next list)) }
{
    match separator {
        Separator::LineFeed => None,
        Separator::Space => {
            if part == b"c".as_slice() {
                Some(Next::Id(Kind::Commit))
            } else if part == b"t".as_slice() {
                Some(Next::Id(Kind::Tag))
            } else if part == b"end".as_slice() {
                Some(Next::Count)
            } else {
                None
            }
        }
    }
}

/// Returns whether `part` is `count` in decimal.
fn is_count(part: &[u8], count: usize) -> bool
    ensures { IsTrue result ↔ (part.now ≡ decimal count) }
{
    let mut digits = Buffer::new();
    part == digits.format(count).as_bytes()
}

/// Returns an entry without parents. The call does not allocate.
fn new_entry<A: Allocator + Copy>(alloc: A, kind: Kind, id: Oid) -> Entry<A>
    ensures { result ≡ entry_of id (node_of kind []) }
{
    let parents = Parents::new(alloc);
    Entry {
        id,
        node: Node { kind, parents },
    }
}

/// Returns the entry with one more parent. Fails only if out of memory.
fn push_parent<A: Allocator + Copy>(mut entry: Entry<A>, id: Oid) -> Result<Entry<A>, AllocError>
    ensures { IfOk result (λ longer. longer ≡ with_parent entry id) }
{
    entry.node.parents.push(id)?;
    Ok(entry)
}

/// Returns the part that is expected after an id in the line of an entry. A space after the id
/// announces another parent. A line feed completes the entry, which is added to `entries`.
fn after_id<A: Allocator + Copy>(
    entries: &mut Vec<Entry<A>, A>,
    entry: Entry<A>,
    separator: Separator,
) -> Result<Next<A>, AllocError>
    ensures ok { IfOk result (λ next. EndsId entries.old.items entry separator next
        entries.new.items) }
    ensures err { OnErr result (separator ≡ Separator.LineFeed) }
{
    match separator {
        Separator::Space => Ok(Next::Parent(entry)),
        Separator::LineFeed => {
            entries.push(entry)?;
            Ok(Next::Word)
        }
    }
}

/// Returns the part that is expected after `part`, or `None` if `part` is not allowed next.
fn after_part<A: Allocator + Copy>(
    alloc: A,
    entries: &mut Vec<Entry<A>, A>,
    next: Next<A>,
    part: &[u8],
    separator: Separator,
) -> Result<Option<Next<A>>, AllocError>
    ensures ok { IfOk result (λ found. MatchOption found
        (NeverLeads next entries.old.items part.now separator)
        (λ after. Leads next entries.old.items part.now separator after entries.new.items)) }
    ensures err { OnErr result (IsKept next part.now separator) }
{
    match next {
        Next::Header => Ok(after_header(part, separator)),
        Next::Word => Ok(after_word(part, separator)),
        Next::Id(kind) => {
            let Some(id) = id_of(part) else {
                return Ok(None);
            };
            let entry = new_entry(alloc, kind, id);
            let after = after_id(entries, entry, separator)?;
            Ok(Some(after))
        }
        Next::Parent(entry) => {
            let Some(id) = id_of(part) else {
                return Ok(None);
            };
            let entry = push_parent(entry, id)?;
            let after = after_id(entries, entry, separator)?;
            Ok(Some(after))
        }
        Next::Count => match separator {
            Separator::LineFeed if is_count(part, entries.len()) => Ok(Some(Next::Nothing)),
            _ => Ok(None),
        },
        Next::Nothing => Ok(None),
    }
}

/// The entries of the lines read so far, and the part that is expected next.
#[derive(Drop)]
pub struct Lines<A: Allocator + Copy> {
    alloc: A,
    entries: Vec<Entry<A>, A>,
    next: Next<A>,
}

impl<A: Allocator + Copy> Lines<A> {
    /// Returns the state before the first part. The call does not allocate.
    pub fn new(alloc: A) -> Lines<A>
        ensures next { result.next ≡ Next.Header }
        ensures entries { result.entries.items ≡ [] }
    {
        Lines {
            alloc,
            entries: Vec::new(alloc),
            next: Next::Header,
        }
    }

    /// Returns the number, counted from 1, of the line that contains the next part.
    fn line(&self) -> usize
        ensures { result ≡ line_number self.now.next (length self.now.entries.items) }
    {
        match self.next {
            Next::Header => 1,
            Next::Nothing => self.entries.len() + 3,
            _ => self.entries.len() + 2,
        }
    }

    /// Returns the fault to report if the next part is not allowed.
    pub fn bad_line(&self) -> IndexFault
        ensures { result ≡ IndexFault.Bad (line_number self.now.next
            (length self.now.entries.items)) }
    {
        IndexFault::Bad { line: self.line() }
    }

    /// Reads a part and its separator. Fails with `Bad` if the part is not allowed next, and with
    /// `Memory` if an entry can't be stored. After a failure the state can't be used further.
    pub fn take_part(&mut self, part: &[u8], separator: Separator) -> Result<(), IndexFault>
        ensures { Reads self.old self.new result part.now separator }
    {
        // The proof uses this law.
        id_texts_are_digits();
        let fault = self.bad_line();
        let next = mem::replace(&mut self.next, Next::Nothing);
        match after_part(self.alloc, &mut self.entries, next, part, separator)? {
            Some(next) => {
                self.next = next;
                Ok(())
            }
            None => Err(fault),
        }
    }

    /// Returns whether the pack is complete and `part` is empty.
    fn has_ended(&self, part: &[u8]) -> bool
        ensures { IsTrue result ↔ ((self.now.next ≡ Next.Nothing) × (part.now ≡ [])) }
    {
        matches!(self.next, Next::Nothing) && part.is_empty()
    }

    /// Returns the entries if the pack is complete and the unfinished part is empty. Otherwise
    /// fails with `Bad`.
    #[tactic(auto, using(crate::proofs::PlainPackReading::pack_is_read, crate::proofs::PlainPackReading::bad_line_at_end))]
    pub fn finish(self, part: &[u8]) -> Result<Vec<Entry<A>, A>, IndexFault>
        ensures { Finishes self result part.now }
    {
        // The proof uses this law.
        id_texts_are_digits();
        if !self.has_ended(part) {
            return Err(self.bad_line());
        }
        Ok(self.entries)
    }
}

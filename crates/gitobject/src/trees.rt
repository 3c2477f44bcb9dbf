//! The entries of trees.

ghost use Rattle.std.specs.Prelude.{◌≡◌, ◌≢◌, ◌++◌, ◌∷◌, ◌↔◌, [], List, ℕ, IfSome, IsTrue, MatchOption, MatchResult, OnOk};
ghost use Rattle.std.specs.Option.{option_to_list};
ghost use Rattle.gitobject.specs.Links.{LinksOf, IsObjectFault};
ghost use Rattle.gitobject.specs.Trees.{BeginsWithEntry, Entry, entry_link};
ghost use Rattle.gitobject.specs.Entries.{entry_of, link_of_entry};
ghost use Rattle.gitobject.specs.declared.links.Link.{Link};
ghost use Rattle.gitobject.specs.declared.types.ObjectType.TheVariants as types;

use crate::fault::ObjectFault;
use crate::ids::{ID_BYTES, id_of_bytes};
use crate::lines::cut;
use crate::links::Link;
use crate::modes::{file_type, linked_type};
use crate::types::ObjectType;
use gname::Oid;
use std::alloc::{AllocError, Allocator};

/// An entry of a tree (git-ls-tree(1)).
#[derive(Clone, Copy, Debug)]
pub struct TreeEntry<'a> {
    /// The mode of the entry, in octal digits.
    pub mode: &'a [u8],
    /// The name of the entry, which is not empty and has no NUL.
    pub name: &'a [u8],
    /// The id of the object that the entry names.
    pub id: Oid,
    /// The type of the object that the entry names, or `None` for a gitlink, which names a commit
    /// of another repository (gitsubmodules(7)).
    pub links_to: Option<ObjectType>,
}

impl TreeEntry<'_> {
    /// Returns the link of the entry, or `None` for a gitlink.
    pub fn link(&self) -> Option<Link>
        ensures { result ≡ link_of_entry self.now }
    {
        match self.links_to {
            Some(kind) => Some(Link { id: self.id, kind }),
            None => None,
        }
    }
}

/// Returns the first entry of a tree, and the text after it, or `None` if the text does not begin
/// with an entry. An entry is a mode, a space, a name, NUL, and the twenty bytes of an id.
pub fn split_entry(text: &[u8]) -> Option<(TreeEntry<'_>, &[u8])>
    ensures entry { MatchOption result
        ((entry : Entry) (rest : List ℕ) → ¬ (BeginsWithEntry text.now entry rest))
        (λ parts. BeginsWithEntry text.now (entry_of parts.0) parts.1.now) }
    ensures link { IfSome result (λ parts. link_of_entry parts.0 ≡ entry_link (entry_of parts.0)) }
{
    let Some((mode, after_mode)) = cut(b' ', text) else {
        return None;
    };
    let Some(number) = file_type(mode) else {
        return None;
    };
    let Some((name, after_name)) = cut(0, after_mode) else {
        return None;
    };
    if name.is_empty() {
        return None;
    }
    let Some((bytes, rest)) = after_name.split_first_chunk::<ID_BYTES>() else {
        return None;
    };
    let entry = TreeEntry {
        mode,
        name,
        id: id_of_bytes(bytes),
        links_to: linked_type(number),
    };
    Some((entry, rest))
}

/// Returns the links of a tree, in the order of its entries. Gitlinks are left out.
///
/// Fails with `Malformed` if the bytes are not a sequence of entries, or with `Memory` if out of
/// memory.
pub fn tree_links<A: Allocator + Copy>(alloc: A, body: &[u8]) -> Result<Vec<Link, A>, ObjectFault>
    ensures { MatchResult result (λ links. LinksOf types.Tree body.now links.items)
        (IsObjectFault ((links : List Link) × LinksOf types.Tree body.now links)) }
{
    let mut links = Vec::new(alloc);
    let mut rest = body;
    while !is_over(rest) {
        let Some(parts) = split_entry(rest) else {
            return Err(ObjectFault::Malformed);
        };
        if let Err(_) = push_some(&mut links, parts.0.link()) {
            return Err(ObjectFault::Memory);
        }
        rest = parts.1;
    }
    Ok(links)
}

// Returns whether the text is empty.
fn is_over(text: &[u8]) -> bool
    ensures { IsTrue result ↔ (text.now ≡ []) }
{
    text.is_empty()
}

// Appends the link, if there is one.
fn push_some<A: Allocator + Copy>(
    links: &mut Vec<Link, A>,
    link: Option<Link>,
) -> Result<(), AllocError>
    ensures { OnOk result (links.new.items ≡ links.old.items ++ option_to_list link) }
{
    if let Some(link) = link {
        links.push(link)?;
    }
    Ok(())
}

//! Copying and comparing the parts of requests.

ghost use Rattle.std.specs.Prelude.{◌≡◌, ◌↔◌, IfOk, IsTrue};
ghost use Rattle.std.specs.Option.{option_copied, option_map};

use gname::{Oid, Prefix};
use std::alloc::{AllocError, Allocator};

/// Returns a copy of the agent string, allocated with `alloc`. Fails only if memory runs out.
pub(crate) fn copy_agent<A: Allocator + Copy>(
    alloc: A,
    agent: Option<&[u8]>,
) -> Result<Option<Vec<u8, A>>, AllocError>
    ensures { IfOk result (λ copy. option_map (λ value. value.items) copy
        ≡ option_copied agent.entry) }
{
    match agent {
        Some(agent) => {
            let copy = Vec::from_slice(alloc, agent)?;
            Ok(Some(copy))
        }
        None => Ok(None),
    }
}

/// Returns a copy of the prefixes, allocated with `alloc`. Fails only if memory runs out.
pub(crate) fn copy_prefixes<A: Allocator + Copy, B: Allocator + Copy>(
    alloc: B,
    prefixes: &[Prefix<A>],
) -> Result<Vec<Prefix<B>, B>, AllocError>
    ensures { IfOk result (λ copies. copies.items ≡ prefixes.now) }
{
    let mut copies = Vec::new(alloc);
    for prefix in prefixes {
        copies.push(copy_prefix(alloc, prefix)?)?;
    }
    Ok(copies)
}

// Returns a copy of a prefix. The call fails only if memory runs out, since the prefix is
// well-formed.
fn copy_prefix<A: Allocator + Copy, B: Allocator + Copy>(
    alloc: B,
    prefix: &Prefix<A>,
) -> Result<Prefix<B>, AllocError>
    ensures { IfOk result (λ copy. copy ≡ prefix.now) }
{
    match Prefix::new(alloc, prefix.as_bytes()) {
        Ok(copy) => Ok(copy),
        Err(_) => Err(AllocError),
    }
}

/// Returns whether both agent strings are equal, or both are `None`.
pub(crate) fn is_same_agent(one: Option<&[u8]>, other: Option<&[u8]>) -> bool
    ensures { IsTrue result ↔ (option_copied one.entry ≡ option_copied other.entry) }
{
    match (one, other) {
        (Some(one), Some(other)) => one == other,
        (None, None) => true,
        _ => false,
    }
}

/// Returns whether both lists have the same ids in the same order.
pub(crate) fn are_same_ids(left: &[Oid], right: &[Oid]) -> bool
    ensures { IsTrue result ↔ (left.now ≡ right.now) }
{
    left == right
}

/// Returns whether both lists have the same prefixes in the same order.
pub(crate) fn are_same_prefixes<A: Allocator + Copy, B: Allocator + Copy>(
    left: &[Prefix<A>],
    right: &[Prefix<B>],
) -> bool
    ensures { IsTrue result ↔ (left.now ≡ right.now) }
{
    if left.len() != right.len() {
        return false;
    }
    for place in 0..left.len() {
        if !is_same_prefix(&left[place], &right[place]) {
            return false;
        }
    }
    true
}

fn is_same_prefix<A: Allocator + Copy, B: Allocator + Copy>(
    one: &Prefix<A>,
    other: &Prefix<B>,
) -> bool
    ensures { IsTrue result ↔ (one.now ≡ other.now) }
{
    one.as_bytes() == other.as_bytes()
}

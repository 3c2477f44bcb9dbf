//! A packer that builds a whole pack before it returns the pack in parts.

ghost use Rattle.std.specs.Prelude.{◌<◌, ◌≡◌, None, length};
ghost use Rattle.gobject.specs.Packs.{MayPack};
ghost use Rattle.gparts.specs.steps.Whole.{TakesSome};

use crate::parts::PartPacker;
use gobject::{Entry, PackFault, Packer};
use std::alloc::Allocator;
use std::marker::Model;

/// A packer that builds the whole pack before it returns the first part.
#[derive(Drop)]
pub struct WholePack<'a, K> {
    packer: &'a K,
}

impl<'a, K> WholePack<'a, K> {
    /// Returns a [`PartPacker`](crate::PartPacker) that wraps this packer.
    pub fn new(packer: &'a K) -> WholePack<'a, K>
        ensures { result.packer.now ≡ packer.now }
    {
        WholePack { packer }
    }
}

/// A complete pack that is returned in parts.
#[derive(Drop)]
pub struct WholeParts<A: Allocator + Copy> {
    pack: Vec<u8, A>,
    // The number of bytes returned so far.
    given: usize,
}

impl<A: Allocator + Copy> Model for WholeParts<A> {
    ghost use Rattle.std.specs.Prelude.{◌≤◌, List, ℕ, drop, length};

    ghost Value = { List ℕ };

    ghost view = { λ it. drop it.given it.pack.items };

    ghost invariant = { λ it. it.given ≤ length it.pack.items };
}

impl<A: Allocator + Copy> WholeParts<A> {
    fn new(pack: Vec<u8, A>) -> WholeParts<A>
        ensures { result ≡ pack.items }
    {
        WholeParts { pack, given: 0 }
    }

    // Copies the next bytes of the pack into the front of `out`, and returns their number.
    fn give(&mut self, out: &mut [u8]) -> usize
        requires { 0 < length out.old }
        ensures { TakesSome self.old self.new result out.new }
    {
        let rest = &self.pack[self.given..];
        let count = rest.len().min(out.len());
        out[..count].copy_from_slice(&rest[..count]);
        self.given += count;
        count
    }
}

impl<'a, A: Allocator + Copy, K: Packer<A>> PartPacker<A> for WholePack<'a, K> {
    type Parts = WholeParts<A>;

    ghost packs = { λ whole. MayPack (K.packs whole.packer.now) };

    ghost pack_fails = { λ whole. K.pack_fails whole.packer.now };

    ghost gives = { λ _ parts bytes end. (bytes ≡ parts) × (end ≡ None) };

    ghost most = { λ _ parts. length parts };

    fn begin(&self, alloc: A, entries: &[Entry<A>]) -> Result<WholeParts<A>, PackFault> {
        Ok(WholeParts::new(self.packer.pack(alloc, entries)?))
    }

    fn part(&self, parts: &mut WholeParts<A>, out: &mut [u8]) -> Result<usize, PackFault> {
        Ok(parts.give(out))
    }
}

//! A borrowed server, and the pack of its reply.

ghost use Rattle.std.specs.Prelude.{◌≡◌, ◌<◌, ◌≤◌, ◌+◌, [], drop, length};
ghost use Rattle.gparts.specs.steps.Whole.{TakesSome};

use crate::host::ServedRepository;
use ganswer::Server;
use gfetchreply::PackBytes;
use gobject::{Entry, PackFault};
use gparts::PartPacker;
use std::alloc::{AllocError, Allocator};

/// A borrowed server, and the complete pack of one of its replies. As a packer, it returns this
/// pack for any entries.
#[derive(Drop)]
pub(crate) struct Lent<'s, A: Allocator + Copy> {
    server: &'s Server<A>,
    pack: PackBytes<A>,
}

impl<'s, A: Allocator + Copy> Lent<'s, A> {
    /// Returns the server with this pack.
    pub(crate) fn with_pack(server: &'s Server<A>, pack: PackBytes<A>) -> Lent<'s, A>
        ensures server { result.server.now ≡ server.now }
        ensures pack { result.pack ≡ pack }
    {
        Lent { server, pack }
    }

    /// Returns the server with an empty pack. Allocates nothing.
    pub(crate) fn new(server: &'s Server<A>) -> Lent<'s, A>
        ensures { result.server.now ≡ server.now }
    {
        let bytes = Vec::new(server.graph().allocator());
        Lent::with_pack(server, PackBytes::new(bytes).unwrap())
    }
}

impl<'s, A: Allocator + Copy> ServedRepository<A> for Lent<'s, A> {
    ghost server = { λ lent. lent.server.now };

    fn server(&self) -> &Server<A> {
        self.server
    }

    fn handle(&self) -> Result<Lent<'s, A>, AllocError> {
        Ok(Lent::new(self.server))
    }
}

impl<'s, A: Allocator + Copy> PartPacker<A> for Lent<'s, A> {
    ghost use Rattle.std.specs.Prelude.{◌≡◌, ◌-◌, drop, length};
    ghost use Rattle.gserver.specs.steps.Lending.{gives_of};

    type Parts = usize;

    ghost packs = { λ lent _ bytes. bytes ≡ lent.pack };

    ghost pack_fails = { λ _ _ _. ⊥ };

    ghost gives = { λ lent given. gives_of lent.pack given };

    ghost most = { λ lent given. length lent.pack - given };

    fn begin(&self, _alloc: A, _entries: &[Entry<A>]) -> Result<usize, PackFault> {
        // Laws that the proof uses.
        let _bytes = self.pack.as_bytes();
        Ok(0)
    }

    fn part(&self, parts: &mut usize, out: &mut [u8]) -> Result<usize, PackFault> {
        let pack = self.pack.as_bytes();
        let given = *parts;
        if pack.len() <= given {
            return Ok(0);
        }
        let count = copy_part(pack, given, out);
        *parts = given + count;
        Ok(count)
    }
}

// Copies the bytes of a pack after the first `given` bytes into the front of `out`, as many as fit.
// Returns their number.
fn copy_part(pack: &[u8], given: usize, out: &mut [u8]) -> usize
    requires room { 0 < length out.old }
    requires given { given ≤ length pack.now }
    ensures takes { TakesSome (drop given pack.now) (drop (given + result) pack.now) result out.new }
    ensures few { given + result ≤ length pack.now }
{
    let rest = &pack[given..];
    let count = rest.len().min(out.len());
    out[..count].copy_from_slice(&rest[..count]);
    count
}

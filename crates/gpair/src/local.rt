//! A server in this process.

ghost use Rattle.std.specs.Prelude.{◌≡◌};

use ganswer::Server;
use ghello::Hello;
use gobject::{Entry, PackFault, Packer};
use gparts::{PartPacker, WholePack, WholeParts};
use gserver::{ErrText, Host, MAX_ERR_TEXT, ServeFault, ServedRepository, err_text};
use std::alloc::{AllocError, Allocator};

/// A borrowed server with a borrowed packer. As a host, it has only this repository, whatever the
/// first line requests.
#[derive(Drop)]
pub struct LocalServer<'s, A: Allocator + Copy, P> {
    server: &'s Server<A>,
    packer: &'s P,
}

impl<'s, A: Allocator + Copy, P> LocalServer<'s, A, P> {
    /// Returns a host with this server and this packer.
    pub fn new(server: &'s Server<A>, packer: &'s P) -> LocalServer<'s, A, P>
        ensures server { result.server.now ≡ server.now }
        ensures packer { result.packer.now ≡ packer.now }
    {
        LocalServer { server, packer }
    }

    fn again(&self) -> LocalServer<'s, A, P>
        ensures server { result.server.now ≡ self.now.server.now }
        ensures packer { result.packer.now ≡ self.now.packer.now }
    {
        LocalServer {
            server: self.server,
            packer: self.packer,
        }
    }
}

impl<'s, A: Allocator + Copy, P> ServedRepository<A> for LocalServer<'s, A, P> {
    ghost server = { λ local. local.server.now };

    fn server(&self) -> &Server<A> {
        self.server
    }

    fn handle(&self) -> Result<LocalServer<'s, A, P>, AllocError> {
        Ok(self.again())
    }
}

impl<'s, A: Allocator + Copy, P: Packer<A>> PartPacker<A> for LocalServer<'s, A, P> {
    ghost use Rattle.std.specs.Prelude.{◌≡◌, None, length};
    ghost use Rattle.gobject.specs.Packs.{MayPack};

    type Parts = WholeParts<A>;

    ghost packs = { λ local. MayPack (P.packs local.packer.now) };

    ghost pack_fails = { λ local. P.pack_fails local.packer.now };

    ghost gives = { λ _ parts bytes end. (bytes ≡ parts) × (end ≡ None) };

    ghost most = { λ _ parts. length parts };

    fn begin(&self, alloc: A, entries: &[Entry<A>]) -> Result<WholeParts<A>, PackFault> {
        WholePack::new(self.packer).begin(alloc, entries)
    }

    fn part(&self, parts: &mut WholeParts<A>, out: &mut [u8]) -> Result<usize, PackFault> {
        WholePack::new(self.packer).part(parts, out)
    }
}

impl<'s, A: Allocator + Copy, P> Host<A, LocalServer<'s, A, P>> for LocalServer<'s, A, P> {
    fn find(&self, _hello: &Hello<A>) -> Result<LocalServer<'s, A, P>, ErrText> {
        Ok(self.again())
    }

    fn open(&self, _repo: &LocalServer<'s, A, P>) -> Result<LocalServer<'s, A, P>, ErrText> {
        Ok(self.again())
    }

    fn words(&self, fault: &ServeFault) -> ErrText {
        let mut text = [0; MAX_ERR_TEXT];
        let len = err_text(fault, &mut text);
        let mut words = ErrText::new();
        words.add(&text[..len]);
        words
    }
}

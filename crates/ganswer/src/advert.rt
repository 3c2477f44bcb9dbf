//! The advertisement of a server (gitprotocol-v2(5), "Capability Advertisement").

ghost use Rattle.std.specs.Prelude.{◌≡◌, ◌∷◌, ◌++◌, [], IfOk, IfErr, OnOk, true};
ghost use Rattle.std.specs.Option.{option_copied};
ghost use Rattle.ghello.specs.Adverts.{has_room, is_capability};
ghost use Rattle.ganswer.specs.Adverts.{advertisement};
ghost use Rattle.ganswer.specs.declared.fault.ServeFault.TheVariants.{Memory};

use crate::fault::ServeFault;
use crate::server::Server;
use ggrammar::Capability;
use ghello::Advert;
use std::alloc::Allocator;

impl<A: Allocator + Copy> Server<A> {
    /// Returns the server's advertisement (gitprotocol-v2(5), "Capability Advertisement"):
    /// `agent=gitv2/1`, `ls-refs=unborn`, `fetch`, and the object format.
    ///
    /// Fails only if memory runs out.
    pub fn advert(&self) -> Result<Advert<A>, ServeFault>
        ensures advert { IfOk result (λ advert. advert ≡ advertisement self.now.graph.format) }
        ensures fault { IfErr result (λ fault. fault ≡ Memory) }
    {
        let mut advert = Advert::new(self.graph().allocator());
        add(&mut advert, b"agent", Some(b"gitv2/1"))?;
        add(&mut advert, b"ls-refs", Some(b"unborn"))?;
        add(&mut advert, b"fetch", None)?;
        add(
            &mut advert,
            b"object-format",
            Some(self.graph().format().name().as_bytes()),
        )?;
        Ok(advert)
    }
}

// Appends a well-formed capability to an advertisement that has room for it.
fn add<A: Allocator + Copy>(
    advert: &mut Advert<A>,
    key: &[u8],
    value: Option<&[u8]>,
) -> Result<(), ServeFault>
    requires form { is_capability (record { key = key.now; value = option_copied value }) ≡ true }
    requires room { has_room advert.old ≡ true }
    ensures ok { OnOk result (advert.new
        ≡ advert.old ++ record { key = key.now; value = option_copied value.entry } ∷ []) }
    ensures fault { IfErr result (λ fault. fault ≡ Memory) }
{
    match advert.push(Capability { key, value }) {
        Ok(()) => Ok(()),
        Err(_) => Err(ServeFault::Memory),
    }
}

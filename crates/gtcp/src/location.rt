//! The address and the path of a served repository.

ghost use Rattle.std.specs.Prelude.{◌≡◌, IfSome, IsTrue, string_bytes};
ghost use Rattle.gtcp.specs.Places.{IsPlace, IsPort};

use ghello::Hello;
use std::alloc::{Allocator, Global};

/// The location of a served repository (git-fetch(1), "GIT URLS"): the text HOST:PORT of an
/// address, and a path. The host and the path are valid in the first line of a `git://` connection.
#[derive(Debug, Drop)]
pub struct Location<A: Allocator + Copy = Global> {
    address: String<A>,
    hello: Hello<A>,
}

impl<A: Allocator + Copy> Location<A> {
    /// Makes a location from an address and a path. The host is the text of the address before its
    /// last `:`, and the port is a decimal number up to 65,535.
    ///
    /// Returns `None` if the address has no valid port, if the host or the path is not well-formed
    /// (gitprotocol-pack(5), "Git Transport"), or if out of memory.
    pub fn new(alloc: A, address: &str, path: &str) -> Option<Location<A>>
        ensures { IfSome result (λ place. (string_bytes place.address ≡ address.now)
            × IsPlace address.now path.now place.hello) }
    {
        let (host, port) = address.rsplit_once(':')?;
        if !is_port(port) {
            return None;
        }
        let hello = Hello::new(alloc, path.as_bytes(), host.as_bytes()).ok()?;
        let address = String::from_str(alloc, address).ok()?;
        Some(Location { address, hello })
    }

    /// Returns the text of the address.
    pub fn address(&self) -> &str
        ensures { result.now ≡ string_bytes self.now.address }
    {
        self.address.as_str()
    }

    /// Returns the first line of a connection to the location.
    pub fn hello(&self) -> &Hello<A>
        ensures { result.now ≡ self.now.hello }
    {
        &self.hello
    }
}

// Returns whether the text is a decimal number up to 65,535.
fn is_port(text: &str) -> bool
    ensures { IsTrue result → IsPort text.now }
{
    text.as_bytes().iter().all(|byte| byte.is_ascii_digit()) && text.parse::<u16>().is_ok()
}

//! The host, which owns the repositories that a server serves.

ghost use Rattle.std.specs.Prelude.{◌≡◌, IfOk};

use crate::error_text::ErrText;
use ganswer::{ServeFault, Server};
use ghello::Hello;
use std::alloc::{AllocError, Allocator};

/// A handle to a repository that a server serves. Several handles may refer to the same repository.
pub trait ServedRepository<A: Allocator + Copy> {
    ghost use Rattle.ganswer.specs.Servers.{Server};

    // The graph, refs and HEAD of the repository.
    ghost server: { Self → Server A };

    /// Returns the graph, refs and HEAD of the repository.
    fn server(&self) -> &Server<A>
        ensures { result.now ≡ server self.now };

    /// Returns another handle to the repository. Fails only if there is not enough memory.
    fn handle(&self) -> Result<Self, AllocError>
        ensures { IfOk result (λ other. server other ≡ server self.now) };
}

/// The owner of the repositories, shared by all connections of a server.
///
/// The specification members `finds`, `opens` and `says` restrict the results of the three methods.
/// By default, these members allow every result.
pub trait Host<A: Allocator + Copy, R> {
    ghost use Rattle.std.specs.Prelude.{Result, ⊤};
    ghost use Rattle.gpkt.specs.Packets.{Bytes};
    ghost use Rattle.ghello.specs.Hello.{Hello};
    ghost use Rattle.ganswer.specs.declared.fault.ServeFault.{ServeFault};

    // The results that `find` may return for this first line: a repository, or a text for the
    // client.
    ghost finds: { Self → Hello → Result R Bytes → Type 0 } = { λ _ _ _. ⊤ };

    // The results that `open` may return for this repository: a repository, or a text for the
    // client.
    ghost opens: { Self → R → Result R Bytes → Type 0 } = { λ _ _ _. ⊤ };

    // The texts that `words` may return for this fault.
    ghost says: { Self → ServeFault → Bytes → Type 0 } = { λ _ _ _. ⊤ };

    /// Returns the repository that the first line requests. Fails with a text for the client if the
    /// host has no such repository.
    fn find(&self, hello: &Hello<A>) -> Result<R, ErrText>
        ensures { finds self.now hello.now result };

    /// Opens the repository again, so that its objects can be packed. Fails with a text for the
    /// client if the repository cannot be read.
    fn open(&self, repo: &R) -> Result<R, ErrText>
        ensures { opens self.now repo.now result };

    /// Returns the text to send to the client after this fault.
    fn words(&self, fault: &ServeFault) -> ErrText
        ensures { says self.now fault.now result };
}

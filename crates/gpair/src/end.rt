//! One end of a connection in this process.

ghost use Rattle.std.specs.Prelude.{◌≡◌};

use gtalk::Connection;
use std::alloc::{Allocator, Global};

/// One end of a connection in this process: the connection, the source of the bytes from the other
/// end, and the sink for the bytes to the other end.
#[derive(Drop)]
pub struct End<C, S, W, A: Allocator + Copy = Global> {
    pub(crate) connection: Connection<C, A>,
    pub(crate) source: S,
    pub(crate) sink: W,
}

impl<C, S, W, A: Allocator + Copy> End<C, S, W, A> {
    /// Returns an end.
    pub fn new(connection: Connection<C, A>, source: S, sink: W) -> End<C, S, W, A>
        ensures connection { result.connection ≡ connection }
        ensures source { result.source ≡ source }
        ensures sink { result.sink ≡ sink }
    {
        End {
            connection,
            source,
            sink,
        }
    }

    /// Returns the connection.
    pub fn connection(&self) -> &Connection<C, A>
        ensures { result.now ≡ self.now.connection }
    {
        &self.connection
    }

    /// Returns the sink.
    pub fn sink(&self) -> &W
        ensures { result.now ≡ self.now.sink }
    {
        &self.sink
    }

    /// Consumes the end, and returns the connection, the source and the sink.
    pub fn into_parts(self) -> (Connection<C, A>, S, W)
        ensures connection { result.0 ≡ self.connection }
        ensures source { result.1 ≡ self.source }
        ensures sink { result.2 ≡ self.sink }
    {
        let End {
            connection,
            source,
            sink,
        } = self;
        (connection, source, sink)
    }
}

//! Serving a connection of the `git://` transport, including the first line.

ghost use Rattle.std.specs.Prelude.{◌≡◌, ◌↔◌, IsTrue};
ghost use Rattle.gpkt.specs.Sending.{input_of, output_of};
ghost use Rattle.gobject.specs.Packs.{MayPack};
ghost use Rattle.ganswer.specs.declared.one_pack.Packing.TheVariants.{Unasked};
ghost use Rattle.gserver.specs.GitConnections.{Hears, ReportsGitPacking, ServesGit, elsewhere_packets};
ghost use Rattle.gserver.specs.steps.Connections.{PassesPackets};

use crate::error_line::{report, send_error};
use crate::serving::{Served, serve};
use ganswer::{OnePack, ServeFault, Server};
use ggrammar::Ends;
use ghello::{Hello, read_hello};
use gobject::Packer;
use gpkt::{PacketBuffer, PacketReader, Sink, Source, WriteFault};
use std::alloc::Allocator;

/// A repository that a server exports at a path (git-daemon(1)).
#[derive(Clone, Copy)]
pub struct Export<'a, A: Allocator + Copy> {
    /// The repository to serve.
    pub server: &'a Server<A>,
    /// The path that a client must request, byte for byte.
    pub path: &'a [u8],
    /// The packets that end each reply.
    pub ends: Ends,
}

/// How a `git://` connection ended.
#[derive(Debug, Drop)]
pub enum GitEnd {
    /// The client requested the served path, and the connection ended with this result.
    Served(Served),
    /// The client requested another path. Only an error packet was written and flushed.
    Elsewhere,
    /// The first line was refused, or memory ran out before the line was read and stored. Only an
    /// error packet was written and flushed.
    Refused(ServeFault),
    /// The sink failed while the error packet was written. A prefix of the packet was written.
    WriteFailed,
}

/// Serves one connection (gitprotocol-pack(5), "Git Transport"). Reads the client's first line, and
/// continues like [`serve`] if the client requests the served path. Compares the paths byte by
/// byte, and ignores the host.
///
/// If the line names another path or is refused, an `ERR` packet replaces the advertisement, and
/// nothing after the line is read. If there is no memory for the reader's buffer, nothing is read,
/// and the `ERR` packet reports out of memory.
///
/// The packer is used only if the client requests the served path. Faults of the packer are
/// reported as [`serve`] reports them.
pub fn serve_git<S: Source, W: Sink, A: Allocator + Copy, K: Packer<A>>(
    export: &Export<'_, A>,
    packer: &mut OnePack<'_, K>,
    source: &mut S,
    sink: &mut W,
) -> GitEnd
    requires unasked { packer.old.answered ≡ Unasked }
    ensures serves { ServesGit export.now.server.now (MayPack (K.packs packer.old.packer))
        (K.pack_fails packer.old.packer) export.now.path.now export.now.ends
        (input_of S.remaining S.is_down source.old source.new)
        (output_of W.contents W.passed_on W.is_down sink.old sink.new) result }
    ensures packing { ReportsGitPacking result packer.new.answered }
    ensures packer { packer.new.packer ≡ packer.old.packer }
    ensures source_loans { S.loans source.new ≡ S.loans source.old }
    ensures sink_loans { W.loans sink.new ≡ W.loans sink.old }
{
    match hear(source, export.server.graph().allocator()) {
        Ok(hello) if asks_for(export.path, &hello) => {
            GitEnd::Served(serve(export.server, packer, export.ends, source, sink))
        }
        Ok(_) => match send_away(sink) {
            Ok(()) => GitEnd::Elsewhere,
            Err(_) => GitEnd::WriteFailed,
        },
        Err(fault) => match report(&fault, sink) {
            Ok(()) => GitEnd::Refused(fault),
            Err(_) => GitEnd::WriteFailed,
        },
    }
}

/// Reads the first line of a connection (gitprotocol-pack(5), "Git Transport"), and nothing after
/// it.
///
/// Fails with fault 28 (out of memory) if there is no memory for the reader's buffer, and then
/// reads nothing. Fails with a fault of the packet reader (20 to 24) if the bytes are not a valid
/// packet or the source fails. Fails with `Ended` (54) if the input ends before the packet. Fails
/// with `UnexpectedFrame` (41) or `BadText` (42) if the packet is not a first line. Fails with
/// `Memory` (53) if memory runs out while storing the line.
pub fn hear<S: Source, A: Allocator + Copy>(
    source: &mut S,
    alloc: A,
) -> Result<Hello<A>, ServeFault>
    ensures hears { Hears (input_of S.remaining S.is_down source.old source.new) result }
    ensures loans { S.loans source.new ≡ S.loans source.old }
{
    let buffer = match PacketBuffer::new(alloc) {
        Ok(buffer) => buffer,
        Err(fault) => return Err(ServeFault::Reader(fault)),
    };
    let mut reader = PacketReader::with_buffer(buffer, source);
    let heard = read_hello(&mut reader, alloc);
    let _source = reader.into_inner();
    match heard {
        Ok(hello) => Ok(hello),
        Err(fault) => Err(ServeFault::Request(fault)),
    }
}

// Returns whether the first line of the client requests `path`.
fn asks_for<A: Allocator + Copy>(path: &[u8], hello: &Hello<A>) -> bool
    ensures { IsTrue result ↔ (hello.now.path ≡ path.now) }
{
    hello.path() == path
}

// Writes and flushes the error packet for a client that requests another path.
fn send_away<W: Sink>(sink: &mut W) -> Result<(), WriteFault>
    ensures sent { PassesPackets (output_of W.contents W.passed_on W.is_down sink.old sink.new)
        result elsewhere_packets }
    ensures loans { W.loans sink.new ≡ W.loans sink.old }
{
    send_error(b"upload-pack: no such repository", sink)
}

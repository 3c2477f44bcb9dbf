//! The first line of a connection, as the client writes it.

ghost use Rattle.std.specs.Prelude.{◌≡◌, false};
ghost use Rattle.gpkt.specs.Streams.{SameSink, given};
ghost use Rattle.gclient.specs.Greetings.{PassesOrFails, hello_bytes};

use ghello::{Hello, write_hello};
use gpkt::laws::writes_join;
use gpkt::{PacketWriter, Sink, WriteFault};
use std::alloc::Allocator;

/// Writes and flushes the first line (gitprotocol-pack(5), "Git Transport"). Allocates nothing.
///
/// Fails if the sink fails. The sink has then received a prefix of the line.
pub fn greet<W: Sink, A: Allocator + Copy>(hello: &Hello<A>, sink: &mut W) -> Result<(), WriteFault>
    ensures greets { PassesOrFails (given W.Sink sink.old sink.new)
        result (hello_bytes hello.now) }
    ensures loans { SameSink W.Sink sink.old sink.new }
{
    let mut writer = PacketWriter::new(sink);
    let sent = send_hello(hello, &mut writer);
    let _sink = writer.into_inner();
    sent
}

fn send_hello<W: Sink, A: Allocator + Copy>(
    hello: &Hello<A>,
    writer: &mut PacketWriter<W>,
) -> Result<(), WriteFault>
    requires well { writer.old.failed ≡ false }
    ensures sent { PassesOrFails (given W.Sink writer.old.sink writer.new.sink) result (hello_bytes hello.now) }
    ensures loans { SameSink W.Sink writer.old.sink writer.new.sink }
{
    // Laws that the proof uses.
    writes_join::<W>();
    match write_hello(hello, writer) {
        Ok(()) => writer.push(),
        Err(fault) => Err(fault),
    }
}

//! Writing and flushing an error packet (gitprotocol-pack(5), "error-line").

ghost use Rattle.std.specs.Prelude.{◌≡◌, ◌≤◌, false, length};
ghost use Rattle.gpkt.specs.Sending.{output_of};
ghost use Rattle.ggrammar.specs.Writing.{WritesPackets};
ghost use Rattle.gserver.specs.ErrTexts.{error_packets};
ghost use Rattle.gserver.specs.Refusals.{err_packets, max_err_text};
ghost use Rattle.gserver.specs.steps.Connections.{PassesPackets};

use crate::refusal::{MAX_ERR_TEXT, err_text};
use ganswer::ServeFault;
use ggrammar::laws::writes_packets;
use gpkt::laws::writes_join;
use gpkt::{PacketWriter, Sink, WriteFault};

/// Writes an error packet with a text of at most 128 bytes, and flushes the sink.
pub(crate) fn send_error<W: Sink>(text: &[u8], sink: &mut W) -> Result<(), WriteFault>
    requires { length text.now ≤ max_err_text }
    ensures sent { PassesPackets (output_of W.contents W.passed_on W.is_down sink.old sink.new)
        result (error_packets text.now) }
    ensures loans { W.loans sink.new ≡ W.loans sink.old }
{
    let mut writer = PacketWriter::new(sink);
    let sent = send_to(text, &mut writer);
    let _sink = writer.into_inner();
    sent
}

/// Writes and flushes the error packet that reports a fault. Allocates nothing.
pub(crate) fn report<W: Sink>(fault: &ServeFault, sink: &mut W) -> Result<(), WriteFault>
    ensures sent { PassesPackets (output_of W.contents W.passed_on W.is_down sink.old sink.new)
        result (err_packets fault.now) }
    ensures loans { W.loans sink.new ≡ W.loans sink.old }
{
    let mut text = [0; MAX_ERR_TEXT];
    let len = err_text(fault, &mut text);
    send_error(&text[..len], sink)
}

fn send_to<W: Sink>(text: &[u8], writer: &mut PacketWriter<W>) -> Result<(), WriteFault>
    requires well { writer.old.failed ≡ false }
    requires short { length text.now ≤ max_err_text }
    ensures sent { PassesPackets (output_of W.contents W.passed_on W.is_down writer.old.sink
        writer.new.sink) result (error_packets text.now) }
    ensures loans { W.loans writer.new.sink ≡ W.loans writer.old.sink }
{
    // Laws that the proof uses.
    writes_join::<W>();
    write_error(text, writer)?;
    writer.push()
}

fn write_error<W: Sink>(text: &[u8], writer: &mut PacketWriter<W>) -> Result<(), WriteFault>
    requires { length text.now ≤ max_err_text }
    ensures { WritesPackets W.contents W.passed_on W.is_down W.loans writer.old writer.new result
        (error_packets text.now) }
{
    // Laws that the proof uses.
    writes_packets::<W>();
    writer.text2(b"ERR ", text)
}

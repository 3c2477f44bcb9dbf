//! Functions that write bytes to a sink, with or without a flush.

ghost use Rattle.gcmd.specs.steps.Outputs.{Puts, SendsTo};

use gpkt::{Down, Sink, write_all};

/// Writes and flushes the bytes. Fails if the sink fails, after a prefix of the bytes was written.
/// A failed write leaves the flushed bytes unchanged.
pub(crate) fn send<W: Sink>(bytes: &[u8], sink: &mut W) -> Result<(), Down>
    ensures { SendsTo W.Sink sink.old sink.new result bytes.now }
{
    match put(bytes, sink) {
        Ok(()) => sink.flush(),
        Err(down) => Err(down),
    }
}

/// Writes the bytes without a flush. Fails if the sink fails, after a prefix of the bytes was
/// written.
pub(crate) fn put<W: Sink>(bytes: &[u8], sink: &mut W) -> Result<(), Down>
    ensures { Puts W.Sink sink.old sink.new result bytes.now }
{
    match write_all(sink, bytes) {
        Ok(()) => Ok(()),
        Err(fault) => Err(fault),
    }
}

// Writing bytes to a sink, all of them.
ghost use Rattle.byte_edges.specs.Edges.{Writes};

use crate::{Failed, Sink};

/// A sink failed before all bytes were written.
#[derive(Clone, Copy, Debug, PartialEq, Eq)]
pub struct WriteFault {}

impl From<Failed> for WriteFault {
    fn from(_: Failed) -> WriteFault {
        WriteFault {}
    }
}

/// Writes all bytes, or a prefix of them where the sink fails.
pub fn write_bytes<K: Sink>(bytes: &[u8], sink: &mut K) -> Result<(), WriteFault>
    ensures { Writes K.written K.faults sink.old sink.new bytes.now result }
{
    let mut at = 0;
    while at < bytes.len() {
        at += sink.write(&bytes[at..])?;
    }
    Ok(())
}

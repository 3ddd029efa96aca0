// Reading a trace from a reader of bytes.
ghost use Rattle.std.specs.Prelude.{◌≡◌, IfOk, IfErr, IfSome, OnOk};
ghost use Rattle.std.specs.Io.KnownBytes.{IsAtEnd};
ghost use Rattle.trace_file.specs.Outcome.{IsFaultOf, Leaves};
ghost use Rattle.trace_file.specs.Text.{IsPair, IsTrace};

use crate::trace::Trace;
use crate::trace_fault::TraceFault;
use crate::trace_reader::{PIECE, TraceReader};
use std::alloc::Global;
use std::io::Read;

/// Reads a trace, from the reader's next byte to its end, in pieces of 4,096 bytes.
///
/// It answers the one pair whose trace was read, or the first fault. A failed read is `ReadFault` at
/// once and is not tried again. After a fault no history is handed out. Memory for the calls is taken
/// as they are read, not by what the count says.
pub fn read_trace<R: Read>(alloc: Global, reader: &mut R) -> Result<Trace, TraceFault>
    // Whatever is read, a trace has a lawful pair.
    ensures pair { IfOk result (λ trace. IsPair trace.history trace.certificate) }

    // If the bytes that the reader has left are known:
    ensures found { IfOk result (λ trace. IfSome (R.remaining reader.old) (λ bytes.
        IsTrace bytes trace.history trace.certificate)) }
    ensures fault { IfErr result (λ fault. IfSome (R.remaining reader.old) (λ bytes.
        IsFaultOf bytes fault)) }
    ensures end { OnOk result (IsAtEnd (R.remaining reader.new)) }
    ensures left { IfErr result (Leaves (R.remaining reader.old) (R.remaining reader.new)) }
{
    let mut parts = TraceReader::new(alloc);
    let mut buffer = [0u8; PIECE];
    loop {
        let at = parts.bytes_fed();
        match reader.read(&mut buffer) {
            Ok(0) => {
                return match parts.finish() {
                    Ok(trace) => Ok(trace),
                    Err(fault) => Err(fault),
                };
            }
            Ok(count) => match parts.feed(&buffer[..count]) {
                Ok(()) => {}
                Err(fault) => return Err(fault),
            },
            Err(_) => return Err(TraceFault::ReadFault { at }),
        }
    }
}

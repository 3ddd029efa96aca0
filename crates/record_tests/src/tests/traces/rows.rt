//! What readers of traces rely on, of any bytes: the contract of each function here denies what a wrong body of the reader
//! would do.
ghost use Rattle.std.specs.Prelude.{◌≡◌, ◌≢◌, ◌++◌, ℕ, List, [], Ok, Err, Some, length};
ghost use Rattle.trace_file.specs.declared.call.Call.{Call};
ghost use Rattle.trace_file.specs.declared.trace_fault.TraceFault.{TraceFault};
ghost use Rattle.trace_file.specs.declared.trace_fault.TraceFault.TheVariants.{BadKey, OutOfMemory, TrailingBytes};
ghost use Rattle.trace_file.specs.Reading.{first_fault_of, outcome_of};
ghost use Rattle.trace_file.specs.Standing.{HasBadKey};
ghost use Rattle.trace_file.specs.Text.{IsTrace};

use std::alloc::Global;
use trace_file::{Trace, TraceFault, TraceReader, fault_laws};

/// Two pieces, cut anywhere, also inside a field, give what the joined bytes give, if memory is not refused.
pub fn read_in_two_pieces(alloc: Global, front: &[u8], rest: &[u8]) -> Result<Trace, TraceFault>
    ensures { result ≢ Err OutOfMemory → result ≡ outcome_of (front.now ++ rest.now) }
{
    let mut parts = TraceReader::new(alloc);
    let _front = parts.feed(front);
    let _rest = parts.feed(rest);
    parts.finish()
}

/// A call whose key has no bytes is refused at the byte of the key's length, whatever follows it.
pub fn read_a_key_of_no_bytes(alloc: Global, front: &[u8], rest: &[u8]) -> Result<Trace, TraceFault>
    ensures { (at : ℕ) → HasBadKey (front.now ++ rest.now) at → result ≢ Err OutOfMemory →
        result ≡ Err (BadKey at) }
{
    fault_laws();
    let read = read_in_two_pieces(alloc, front, rest);
    read
}

/// No byte is taken after the certificate, also if it comes in a piece of its own: the first one is named.
pub fn read_after_the_certificate(
    alloc: Global,
    whole: &[u8],
    more: &[u8],
) -> Result<Trace, TraceFault>
    ensures { (history : List Call) (certificate : List ℕ) →
        IsTrace whole.now history certificate → more.now ≢ [] → result ≢ Err OutOfMemory →
        result ≡ Err (TrailingBytes (length whole.now)) }
{
    fault_laws();
    let read = read_in_two_pieces(alloc, whole, more);
    read
}

/// After a fault nothing is taken: the next piece is refused for the same fault, if memory is not refused.
pub fn feed_after_a_fault(
    parts: &mut TraceReader,
    piece: &[u8],
    next: &[u8],
) -> Result<(), TraceFault>
    ensures { (stream : List ℕ) (fault : TraceFault) → parts.old ≡ Ok stream →
        first_fault_of (stream ++ piece.now) ≡ Some fault → result ≢ Err OutOfMemory →
        result ≡ Err fault }
{
    let _first = parts.feed(piece);
    let again = parts.feed(next);
    again
}

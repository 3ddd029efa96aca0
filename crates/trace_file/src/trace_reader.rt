// Reading a trace that comes in pieces.
ghost use Rattle.std.specs.Prelude.{◌≡◌, ◌≢◌, ◌++◌, ◌-◌, ◌+◌, ◌<◌, ◌≤◌, ◌^◌, [], Ok, Err, Some, None, List, ℕ, length, drop, IfOk, IfErr, OnOk, vec_len};

use crate::cursor::Cursor;
use crate::trace::Trace;
use crate::trace_fault::TraceFault;
use crate::trace_so_far::TraceSoFar;
use std::alloc::Global;
use std::marker::Model;

/// How many bytes are taken at a time.
pub(crate) const PIECE: usize = 4096;

/// A reader of a trace that comes in pieces, cut anywhere.
///
/// Contracts see it as the stream that was fed so far, or as the fault that was answered. Each field
/// is judged once it is whole. Between calls it keeps, beside the finished calls and positions, at
/// most one unfinished field or record.
#[derive(Drop)]
pub struct TraceReader {
    taken: TraceSoFar,
    at: u64,
    pending: Vec<u8>,
    fault: Option<TraceFault>,
}

impl Model for TraceReader {
    ghost use Rattle.std.specs.Prelude.{List, ℕ, Result};
    ghost use Rattle.trace_file.specs.declared.trace_fault.TraceFault.{TraceFault};

    ghost Value = { Result (List ℕ) TraceFault };

    ghost use Rattle.trace_file.specs.Stream.{IsReader, stream_of, fed_of};

    ghost view = { λ r. fed_of r.fault (stream_of r.taken r.pending.items) };

    ghost invariant = { λ r. IsReader r.taken r.at r.pending.items r.fault };
}

impl TraceReader {
    ghost use Rattle.trace_file.specs.Reading.{first_fault_of, outcome_of};
    ghost use Rattle.trace_file.specs.Stream.{finished};
    ghost use Rattle.trace_file.specs.Text.{IsTrace};

    /// The reader of a stream of which nothing was fed yet. It takes no memory.
    pub fn new(alloc: Global) -> TraceReader
        ensures { result ≡ Ok [] }
    {
        TraceReader {
            taken: TraceSoFar::new(alloc),
            at: 0,
            pending: Vec::new(alloc),
            fault: None,
        }
    }

    /// How many bytes were fed, as long as no fault was answered.
    pub fn bytes_fed(&self) -> u64
        ensures { IfOk self.now (λ stream. result ≡ length stream) }
    {
        self.at + self.pending.len() as u64
    }

    /// What the stream is, if it ends here. It takes no memory.
    pub fn finish(self) -> Result<Trace, TraceFault>
        ensures exact { result ≡ finished self }

        // It is the trace that was fed, or was cut short.
        ensures trace { IfOk result (λ trace. IfOk self (λ stream.
            IsTrace stream trace.history trace.certificate)) }
        ensures cut { IfErr result (λ fault. IfOk self (λ stream.
            fault ≡ TraceFault.Truncated (length stream))) }
    {
        let TraceReader {
            taken,
            at,
            pending,
            fault,
        } = self;
        match fault {
            Some(fault) => Err(fault),
            None => match taken.ended(at + pending.len() as u64) {
                Ok(trace) => Ok(trace),
                Err(fault) => Err(fault),
            },
        }
    }

    /// Takes the next piece of the stream, of any length.
    ///
    /// It answers the first fault of the stream so far, or `OutOfMemory`; after either the reader
    /// answers the same from then on.
    pub fn feed(&mut self, piece: &[u8]) -> Result<(), TraceFault>
        ensures ok { IfOk self.old (λ stream. OnOk result (self.new ≡ Ok (stream ++ piece.now))) }
        ensures no_fault { IfOk self.old (λ stream.
            OnOk result (first_fault_of (stream ++ piece.now) ≡ None)) }

        // The fault is that of the stream so far, whatever follows it.
        ensures first { IfOk self.old (λ stream. IfErr result (λ fault. fault ≢ TraceFault.OutOfMemory →
            (more : List ℕ) → first_fault_of (stream ++ piece.now ++ more) ≡ Some fault)) }
        ensures failed { IfErr result (λ fault. self.new ≡ Err fault) }
        ensures failed_before { IfErr self.old (λ fault. result ≡ Err fault) }
    {
        let mut rest = piece;
        loop {
            let len = rest.len().min(PIECE);
            let (chunk, behind) = rest.split_at(len);
            match self.take(chunk) {
                Ok(()) => {}
                Err(fault) => return Err(fault),
            }
            rest = behind;
            if rest.is_empty() {
                return Ok(());
            }
        }
    }

    /// The same for one piece, which it copies whole.
    fn take(&mut self, piece: &[u8]) -> Result<(), TraceFault>
        ensures ok { IfOk self.old (λ stream. OnOk result (self.new ≡ Ok (stream ++ piece.now))) }
        ensures no_fault { IfOk self.old (λ stream.
            OnOk result (first_fault_of (stream ++ piece.now) ≡ None)) }
        ensures first { IfOk self.old (λ stream. IfErr result (λ fault. fault ≢ TraceFault.OutOfMemory →
            (more : List ℕ) → first_fault_of (stream ++ piece.now ++ more) ≡ Some fault)) }
        ensures failed { IfErr result (λ fault. self.new ≡ Err fault) }
        ensures failed_before { IfErr self.old (λ fault. result ≡ Err fault) }
    {
        match self.fault {
            Some(fault) => return Err(fault),
            None => {}
        }
        let Ok(()) = self.pending.extend_from_slice(piece) else {
            self.fault = Some(TraceFault::OutOfMemory);
            return Err(TraceFault::OutOfMemory);
        };
        match advance(&mut self.taken, self.at, &mut self.pending) {
            Ok(at) => {
                self.at = at;
                Ok(())
            }
            Err(fault) => {
                self.fault = Some(fault);
                Err(fault)
            }
        }
    }
}

ghost use Rattle.trace_file.specs.Reading.{place, trace_at};
ghost use Rattle.trace_file.specs.Stream.{IsReading, stream_of, StartsOn, FaultIn, Keeps};

/// Takes as much as is whole of the pending bytes, and answers the offset of those that are left.
fn advance(taken: &mut TraceSoFar, at: u64, pending: &mut Vec<u8>) -> Result<u64, TraceFault>
    requires { StartsOn taken.old at pending.old.items }
    ensures ok { IfOk result (λ at. Keeps taken.old pending.old.items taken.new at pending.new.items) }
    ensures err { IfErr result (λ fault. FaultIn (stream_of taken.old pending.old.items) fault) }
{
    let cursor = Cursor::new(at, pending.as_slice());
    match taken.take(cursor) {
        Ok(rest) => {
            let at = rest.at;
            let left = rest.bytes.len();
            keep_last(pending, left);
            Ok(at)
        }
        Err(fault) => Err(fault),
    }
}

/// Keeps the last `count` bytes. If all are kept, none is moved.
fn keep_last(bytes: &mut Vec<u8>, count: usize)
    requires { count ≤ length bytes.old.items }
    ensures { bytes.new.items ≡ drop (length bytes.old.items - count) bytes.old.items }
{
    let start = bytes.len() - count;
    if start == 0 {
        return;
    }
    bytes.copy_within(start.., 0);
    bytes.truncate(count);
}

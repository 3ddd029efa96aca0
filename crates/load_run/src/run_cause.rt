// What is to be told of a run beside its end.
use load::{FileName, Load, SystemFault};
use shared_cache::FinishFault;
use std::io;
use std::io::Write;

/// What is to be told of a run beside its end.
#[derive(Drop)]
pub enum RunCause {
    /// This of the system failed.
    System(SystemFault),
    /// The file of the trace was not opened, for this reason.
    Opening(io::Error),
    /// The trace was not written whole.
    Writing,
    /// The cache was not finished, for this reason.
    Unfinished(FinishFault),
    /// This many callers stopped at a refusal.
    Stopped(usize),
}

impl RunCause {
    /// Tells what failed, with the file if one did, and what to do. What `err` refuses is not told.
    pub fn tell<E: Write>(&self, load: &Load, err: &mut E) {
        match self {
            RunCause::System(fault) => fault.tell(err),
            RunCause::Opening(error) => tell_unopened(&load.trace, error, err),
            RunCause::Writing => tell_unwritten(&load.trace, err),
            RunCause::Unfinished(fault) => tell_unfinished(*fault, err),
            RunCause::Stopped(callers) => tell_stopped(*callers, load, err),
        }
    }
}

/// Tells why the file of the trace was not opened.
fn tell_unopened<E: Write>(trace: &FileName, error: &io::Error, err: &mut E) {
    let name = trace.as_str();
    let _ = write!(
        err,
        "{name}: {error}\nname a file with --trace that can be written\n"
    );
}

/// Tells that the trace was not written whole.
fn tell_unwritten<E: Write>(trace: &FileName, err: &mut E) {
    let name = trace.as_str();
    let _ = write!(
        err,
        "{name}: the trace was not written whole\nfree room on its disk, or name another file with --trace\n"
    );
}

/// Tells for which fault a cache was not finished.
fn tell_unfinished<E: Write>(fault: FinishFault, err: &mut E) {
    if fault == FinishFault::OutOfMemory {
        return;
    }
    let _ = write!(
        err,
        "the cache could not be closed into one history: {fault}\n"
    );
    let _ = err.write_all(
        b"this is a bug of kangaroo: report it with the command line and these lines\n",
    );
}

/// Tells how many callers stopped at a refusal, and why that may be.
fn tell_stopped<E: Write>(callers: usize, load: &Load, err: &mut E) {
    if callers == 0 {
        return;
    }
    let all = load.callers;
    let _ = write!(
        err,
        "{callers} of {all} callers stopped at a refusal; the history up to there was judged\n"
    );
    let _ = err.write_all(
        b"memory was refused, or a lane had its 16777216 calls: ask for fewer --operations or more --lanes, or free memory\n",
    );
}

//! A trace is judged for a caller in C.
use super::*;
use c_lane::judge_trace;

// Judges a trace, once more if memory was refused.
fn judge(alloc: Global, trace: &[u8], line: &mut [u8; 64], length: &mut usize) -> Status {
    match judge_trace(alloc, &SEED, trace, line, length) {
        Status::NoMemory => judge_trace(alloc, &SEED, trace, line, length),
        status => status,
    }
}

// Whether a trace is judged so.
fn is_judged(alloc: Global, trace: &[u8], status: Status, text: &[u8]) -> bool {
    let mut line = [0u8; 64];
    let mut length = 77;
    let judged = judge(alloc, trace, &mut line, &mut length);
    judged == status && length <= 64 && &line[..length] == text
}

// One put of `1` at `a`, and its certificate.
static ONE_PUT: [u8; 40] = [
    0x4b, 0x47, 0x54, 0x52, 0x41, 0x43, 0x45, 0x31, 0, 0, 0, 1, 1, 0, 0, 0, 0, 0, 0, 0, 0, 0, 1, 0,
    0, 0, 0, 0, 0, 0, 3, 1, 0x61, 0, 1, 0x31, 0, 0, 0, 0,
];

// The same as a hit: nothing was put.
static ONE_HIT: [u8; 40] = [
    0x4b, 0x47, 0x54, 0x52, 0x41, 0x43, 0x45, 0x31, 0, 0, 0, 1, 3, 0, 0, 0, 0, 0, 0, 0, 0, 0, 1, 0,
    0, 0, 0, 0, 0, 0, 3, 1, 0x61, 0, 1, 0x31, 0, 0, 0, 0,
];

#[test]
fn a_trace_is_judged(rt: HostRuntime) {
    let alloc = rt.alloc();
    assert!(rt;
        is_judged(alloc, &ONE_PUT, Status::Done, b"accepted 1 calls")
            && is_judged(
                alloc,
                &ONE_HIT,
                Status::Rejected,
                b"rejected WrongHit place 0"
            )
            && is_judged(
                alloc,
                b"KGTRACE9",
                Status::BadTrace,
                b"bad trace BadMagic at 7"
            )
            && is_judged(alloc, b"", Status::BadTrace, b"bad trace Truncated at 0")
    );
}

//! An object goes from memory to the log and on to its set.
use super::*;

static MEMORY: &[u8] = b"
    config 1 1 4 2 1 8 1 65536
    put a 1 0 nobody
    get a memory 1; get b absent
";

#[test]
fn what_was_put_is_in_memory(rt: HostRuntime) -> Result<(), Fail> {
    play(rt.alloc(), MEMORY)
}

static TIERS: &[u8] = b"
    config 1 1 1 2 1 8 1 65536
    put ax 1 0 nobody; put bx 2 0 logged
    get ax log 1
    flush sealed; flush wrote; flush nothing
    get ax log 1
    move written
    get ax set 1
    move freed; move nothing
    put cx 3 0 logged; flush sealed; flush wrote
    move written
    get ax set 1; get bx set 2; get cx memory 3
    forget cx
    get cx absent
";

#[test]
fn an_object_goes_through_the_tiers(rt: HostRuntime) -> Result<(), Fail> {
    play(rt.alloc(), TIERS)
}

static ALONE: &[u8] = b"
    config 1 1 1 2 1 8 2 65536
    put ax 1 0 nobody; put bx 2 0 logged; flush sealed; flush wrote
    move dropped
    get ax absent
    move freed

    # A record that was readmitted has the prediction of a new one, so it is dropped if it is not asked for again.
    config 1 1 1 2 1 8 2 65536
    put ax 1 0 nobody; put bx 2 0 logged
    get ax log 1
    flush sealed; flush wrote
    move readmitted; move freed
    flush sealed; flush wrote
    move dropped
    get ax absent; get bx memory 2
";

#[test]
fn what_moves_alone_is_dropped_or_readmitted(rt: HostRuntime) -> Result<(), Fail> {
    play(rt.alloc(), ALONE)
}

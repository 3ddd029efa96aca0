//! A get that meets an expired pair: it changes nothing, and asks no lower tier.
use super::*;

static EXPIRING: &[u8] = b"
    # A pair expires in memory, in the log and in its set, and stays there. A newer pair that has expired hides an older one.
    config 1 1 1 2 1 8 1 65536
    put ax 1 0 nobody
    get-late ax expired; get ax memory 1
    put bx 2 0 logged
    get-late ax expired; get ax log 1
    flush sealed
    get-late ax expired
    flush wrote
    get-late ax expired; get ax log 1
    move written
    get-late ax expired; get ax set 1; get-late cx absent
    put ax 3 0 logged
    get-late ax expired; get-late bx expired; get bx log 2

    # Two pairs in memory: one that has expired does not come to the front, so it leaves first.
    config 1 1 2 2 1 8 1 65536
    put ax 1 0 nobody; put bx 2 0 nobody
    get-late ax expired
    put cx 3 0 logged
    get ax log 1
";

#[test]
fn what_has_expired_is_told_and_stays(rt: HostRuntime) -> Result<(), Fail> {
    play(rt.alloc(), EXPIRING)
}

//! The segments of the device, used again and again.
use super::*;

static WAITS: &[u8] = b"
    config 1 1 1 2 1 8 1 65536
    append ax 1 appended; flush sealed; flush wrote; append bx 2 appended; flush sealed; flush wrote
    append cx 3 appended; flush sealed; flush log full; flush log full
    # Four segments are held.
    append dx 4 appended
    look dx hit 4
    strike ax
    free freed
    flush wrote
    look bx hit 2; look cx hit 3; look dx hit 4
";

#[test]
fn a_flush_waits_for_a_free_segment(rt: HostRuntime) -> Result<(), Fail> {
    play(rt.alloc(), WAITS)
}

// In each round a key's record of an earlier round gives way to that of this round, which fills a segment and is written.
// Once there are two segments on the device the oldest one is freed; its live records are readmitted before, and in each fourth
// round they are dropped, and then their keys have no value.
static FIFTEEN_ROUNDS: &[u8] = b"
    config 1 1 1 2 1 8 1 65536
    strike ax; append ax 0 appended; flush sealed; flush wrote
    look ax hit 0; look bx absent; look cx absent; look dx absent; look ex absent
    strike bx; append bx 1 appended; flush sealed; flush wrote
    readmit readmitted; free freed
    look ax hit 0; look bx hit 1; look cx absent; look dx absent; look ex absent
    strike cx; append cx 2 appended; flush sealed; flush wrote
    readmit readmitted; free freed
    look ax hit 0; look bx hit 1; look cx hit 2; look dx absent; look ex absent
    strike dx; append dx 3 appended; flush sealed; flush wrote
    readmit readmitted; readmit readmitted; free freed
    look ax hit 0; look bx hit 1; look cx hit 2; look dx hit 3; look ex absent
    strike ex; append ex 4 appended; flush sealed; flush wrote
    drop-oldest dropped; drop-oldest dropped; free freed
    look ax hit 0; look bx absent; look cx hit 2; look dx absent; look ex hit 4
    strike ax; append ax 5 appended; flush sealed; flush wrote
    readmit readmitted; readmit readmitted; free freed
    look ax hit 5; look bx absent; look cx hit 2; look dx absent; look ex hit 4
    strike bx; append bx 6 appended; flush sealed; flush wrote
    readmit readmitted; free freed
    look ax hit 5; look bx hit 6; look cx hit 2; look dx absent; look ex hit 4
    strike cx; append cx 7 appended; flush sealed; flush wrote
    readmit readmitted; readmit readmitted; free freed
    look ax hit 5; look bx hit 6; look cx hit 7; look dx absent; look ex hit 4
    strike dx; append dx 8 appended; flush sealed; flush wrote
    drop-oldest dropped; drop-oldest dropped; free freed
    look ax absent; look bx hit 6; look cx absent; look dx hit 8; look ex hit 4
    strike ex; append ex 9 appended; flush sealed; flush wrote
    readmit readmitted; readmit readmitted; free freed
    look ax absent; look bx hit 6; look cx absent; look dx hit 8; look ex hit 9
    strike ax; append ax A appended; flush sealed; flush wrote
    readmit readmitted; free freed
    look ax hit A; look bx hit 6; look cx absent; look dx hit 8; look ex hit 9
    strike bx; append bx B appended; flush sealed; flush wrote
    readmit readmitted; readmit readmitted; free freed
    look ax hit A; look bx hit B; look cx absent; look dx hit 8; look ex hit 9
    strike cx; append cx C appended; flush sealed; flush wrote
    drop-oldest dropped; drop-oldest dropped; free freed
    look ax hit A; look bx absent; look cx hit C; look dx hit 8; look ex absent
    strike dx; append dx D appended; flush sealed; flush wrote
    readmit readmitted; readmit readmitted; free freed
    look ax hit A; look bx absent; look cx hit C; look dx hit D; look ex absent
    strike ex; append ex E appended; flush sealed; flush wrote
    readmit readmitted; free freed
    look ax hit A; look bx absent; look cx hit C; look dx hit D; look ex hit E
";

#[test]
fn the_ring_goes_round(rt: HostRuntime) -> Result<(), Fail> {
    play(rt.alloc(), FIFTEEN_ROUNDS)
}

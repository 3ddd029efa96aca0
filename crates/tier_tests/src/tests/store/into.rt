//! A get into a buffer, and a removal by a key's bytes: neither takes memory.
use super::*;

static INTO: &[u8] = b"
    # The hits of each tier, pairs that have expired there, and bytes of which no tier has a pair.
    config 1 1 1 2 1 8 1 65536
    put ax 1 0 nobody
    get-into ax memory 1; get-into-late ax expired; get-into cx absent; get-into - absent
    get-into a*256 absent
    put bx - 0 logged
    get-into bx memory -; get-into ax log 1
    flush sealed; flush wrote
    get-into ax log 1; get-into-late ax expired
    move written
    get-into ax set 1; get-into-late ax expired; get-into - absent; get-into a*256 absent
    remove-bytes -; remove-bytes a*256
    get-into ax set 1; get-into bx memory -
    remove-bytes ax
    get-into ax absent

    # A removal takes a pair out of memory and out of the log. A pair that a get raised does not leave memory first.
    config 1 1 2 2 1 8 1 65536
    put ax 1 0 nobody; put bx 2 0 nobody
    get-into-late bx expired; get-into ax memory 1
    put cx 3 0 logged
    get-into ax memory 1; get-into bx log 2
    remove-bytes ax; remove-bytes bx
    get-into ax absent; get-into bx absent
";

#[test]
fn a_hit_is_in_the_buffer_and_a_removed_key_is_absent(rt: HostRuntime) -> Result<(), Fail> {
    play(rt.alloc(), INTO)
}

// Scripts, with all that they must write at pages of 256 bytes, and how they must end. And the sizes that a put may have.
use super::played::play;
use std::test::Fail;

static CALLS: &[u8] = b"
config 1 1 4 2 1 8 1 65536 -> ready; put a 1 0 -> stored; get a -> hit 1 memory; get b -> miss absent
verdict -> accepted 3 calls; end ended
# one object fits in memory, and if nothing is admitted to the log the older one is lost
config 1 1 1 2 1 8 1 0 -> ready; put a 1 0 -> stored; put b 2 0 -> stored; get a -> miss absent; get b -> hit 2 memory
put b - 0 -> stored; get b -> hit - memory; verdict -> accepted 6 calls; cut; end ended
# a get brings its pair to the front, so the other one leaves
config 1 1 2 2 1 8 1 0 -> ready; put a 1 0 -> stored; put b 2 0 -> stored; get a -> hit 1 memory; put c 3 0 -> stored
get b -> miss absent; get a -> hit 1 memory; get c -> hit 3 memory; end ended
# what was removed or forgotten is not hit, and a forgetting is no call
config 1 1 1 2 1 8 1 65536 -> ready; put ax 1 0 -> stored; remove ax -> removed; get ax -> miss absent
put ax 2 0 -> stored; forget ax -> forgotten; get ax -> miss absent; verdict -> accepted 5 calls; end ended
config 1 1 1 2 1 8 1 65536 -> ready; put a 1 0 -> stored
trace -> 4b4754524143453200000001010000000000000000000100000000000000030161000131ffffffffffffffff00000000; end ended
# a hyphen is the empty value
config 1 1 1 2 1 8 1 65536 -> ready; put a - 0 -> stored
trace -> 4b47545241434532000000010100000000000000000001000000000000000301610000ffffffffffffffff00000000; end ended
# a pair that has expired is a miss and changes nothing, in memory and in the log
config 1 1 1 2 1 8 1 65536 -> ready; put ax 1 0 10 -> stored; get ax 9 -> hit 1 memory; get ax 10 -> miss expired
get ax -> hit 1 memory; verdict -> accepted 4 calls; end ended
config 1 1 1 2 1 8 1 65536 -> ready; put ax 1 0 10 -> stored; put bx 2 0 -> stored; get ax 10 -> miss expired
get ax 9 -> hit 1 log; verdict -> accepted 4 calls; end ended
# what never expires is live at the last moment, and an expired put uncovers no older one
config 1 1 2 2 1 8 1 65536 -> ready; put ax 1 0 18446744073709551615 -> stored
get ax 18446744073709551615 -> hit 1 memory; put ax 2 0 0 -> stored; get ax -> miss expired
trace -> 4b475452414345320000000401000000000000000000010000000000000003026178000131ffffffffffffffff03000000000000000000040000000000000006026178000131ffffffffffffffff010000000000000000000700000000000000090261780001320000000000000000040000000000000000000a000000000000000c02617800000000000000010000000200000003
end ended
config 1 1 4 2 1 8 1 65536 -> ready; verdict -> accepted 0 calls; end ended
";

static BAD: &[u8] = b"
config 1 0 1 2 1 8 1 1 -> bad config sets; get a ->; end bad config
config 1 1 1 2 1 8 33 1 -> bad config threshold; cut; end bad config
config 2 1 1 2 1 8 1 1 -> bad config lanes; end bad config
config 2 0 1 2 1 8 1 1 -> bad config sets; end bad config
config 1 1 1 2 1 8 1 65537 -> bad config admit; end bad config
config 1 1 1 2 1 8 1 65536 -> ready; get -> bad line 2; get a ->; end bad line
config 1 1 1 2 1 8 1 4294967296 -> bad line 1; end bad line
-> bad line 1; cut; end bad line
-> bad line 1; end bad line
";

/// An object has the room of a page of 256 bytes, and keys and values have their limits on one of 4,096.
static SIZES: &[u8] = b"
config 1 1 4 2 1 8 1 65536 -> ready; put k v*225 0 -> stored; end ended
config 1 1 4 2 1 8 1 65536 -> ready; put k v*226 0 -> too large; end ended
large; config 1 1 4 2 1 8 1 65536 -> ready; put k*255 v*2048 0 -> stored; end ended
large; config 1 1 4 2 1 8 1 65536 -> ready; put k*256 v 0 -> bad line 2; end bad line
large; config 1 1 4 2 1 8 1 65536 -> ready; put k v*2049 0 -> bad line 2; end bad line
large; config 1 1 4 2 1 8 1 65536 -> ready; put k v*5000 0 -> bad line 2; end bad line
";

#[test]
fn calls_are_answered_and_judged(rt: HostRuntime) -> Result<(), Fail> {
    play(rt.alloc(), CALLS)
}

#[test]
fn bad_lines_and_configurations_end_a_script(rt: HostRuntime) -> Result<(), Fail> {
    play(rt.alloc(), BAD)
}

#[test]
fn objects_keys_and_values_have_their_limits(rt: HostRuntime) -> Result<(), Fail> {
    play(rt.alloc(), SIZES)
}

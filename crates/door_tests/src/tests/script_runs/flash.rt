// Scripts whose objects go through the log to their sets, with the reply that each line must get.
use super::played::play;
use std::test::Fail;

static LOG: &[u8] = b"
# In the log's buffer what memory pushed out is found.
config 1 1 1 2 1 8 1 65536 -> ready; put ax 1 0 -> stored; put bx 2 0 -> stored; get ax -> hit 1 log; end ended
# A put drops its neighbours of one tag from the log.
config 1 1 1 2 1 8 1 65536 -> ready; put a 1 0 -> stored; put b 2 0 -> stored; put c 3 0 -> stored
get a -> miss absent; get b -> hit 2 log; end ended
# If nothing is admitted it is lost.
config 1 1 1 2 1 8 1 0 -> ready; put ax 1 0 -> stored; put bx 2 0 -> stored; get ax -> miss absent; end ended
# The low 16 bits of the word of the put that pushes a pair out admit it, or do not.
config 1 1 1 2 1 8 1 32768 -> ready; put ax 1 0 -> stored; put bx 2 32767 -> stored; get ax -> hit 1 log
put cx 3 32768 -> stored; get bx -> miss absent; put dx 4 98303 -> stored; get cx -> hit 3 log
put ex 5 4294967295 -> stored; get dx -> miss absent; put fx 6 65536 -> stored; get ex -> hit 5 log; end ended
# The log is full until a segment is freed.
config 1 1 1 2 1 8 1 65536 -> ready; put ax 1 0 -> stored; put bx 2 0 -> stored; flush -> sealed; flush -> wrote
put cx 3 0 -> stored; flush -> sealed; flush -> wrote; put dx 4 0 -> stored; flush -> sealed; flush -> log full
move -> written; move -> freed; flush -> wrote; flush -> nothing; get ax -> hit 1 set; end ended
# The index has room for one entry.
config 1 1 1 2 1 1 1 65536 -> ready; put ax 1 0 -> stored; put bx 2 0 -> stored; put cx 3 0 -> stored
get bx -> miss absent; get ax -> hit 1 log; end ended
# Both buffers hold a record, and there is no place for a third.
config 1 1 1 2 1 8 1 65536 -> ready
put ax axvvvvvvvvvvvvvvvvvvvvvvvvvvvvvvvvvvvvvvvvvvvvvvvvvvvvvvvvvvvvvvvvvvvvvvvvvvvvvvvvvvvvvvvvvvvvvvvvvvvvvvvvvvvvvvvvvv 0 -> stored
put bx bxvvvvvvvvvvvvvvvvvvvvvvvvvvvvvvvvvvvvvvvvvvvvvvvvvvvvvvvvvvvvvvvvvvvvvvvvvvvvvvvvvvvvvvvvvvvvvvvvvvvvvvvvvvvvvvvvvv 0 -> stored
put cx cxvvvvvvvvvvvvvvvvvvvvvvvvvvvvvvvvvvvvvvvvvvvvvvvvvvvvvvvvvvvvvvvvvvvvvvvvvvvvvvvvvvvvvvvvvvvvvvvvvvvvvvvvvvvvvvvvvv 0 -> stored
put dx dxvvvvvvvvvvvvvvvvvvvvvvvvvvvvvvvvvvvvvvvvvvvvvvvvvvvvvvvvvvvvvvvvvvvvvvvvvvvvvvvvvvvvvvvvvvvvvvvvvvvvvvvvvvvvvvvvvv 0 -> stored
get ax -> hit axvvvvvvvvvvvvvvvvvvvvvvvvvvvvvvvvvvvvvvvvvvvvvvvvvvvvvvvvvvvvvvvvvvvvvvvvvvvvvvvvvvvvvvvvvvvvvvvvvvvvvvvvvvvvvvvvvv log
get bx -> hit bxvvvvvvvvvvvvvvvvvvvvvvvvvvvvvvvvvvvvvvvvvvvvvvvvvvvvvvvvvvvvvvvvvvvvvvvvvvvvvvvvvvvvvvvvvvvvvvvvvvvvvvvvvvvvvvvvvv log
get cx -> miss absent
get dx -> hit dxvvvvvvvvvvvvvvvvvvvvvvvvvvvvvvvvvvvvvvvvvvvvvvvvvvvvvvvvvvvvvvvvvvvvvvvvvvvvvvvvvvvvvvvvvvvvvvvvvvvvvvvvvvvvvvvvvv memory
flush -> wrote; put ex 1 0 -> stored; flush -> wrote
get bx -> hit bxvvvvvvvvvvvvvvvvvvvvvvvvvvvvvvvvvvvvvvvvvvvvvvvvvvvvvvvvvvvvvvvvvvvvvvvvvvvvvvvvvvvvvvvvvvvvvvvvvvvvvvvvvvvvvvvvvv log
end ended
# If there is nothing to flush or to move, and nothing of it is a call.
config 1 1 1 2 1 8 1 65536 -> ready; flush -> nothing; move -> nothing; put ax 1 0 -> stored; flush -> nothing
move -> nothing; verdict -> accepted 1 calls
trace -> 4b475452414345320000000101000000000000000000010000000000000003026178000131ffffffffffffffff00000000; end ended
";

static MOVES: &[u8] = b"
# Pairs go through the log to their set, and those of the set take part in the next move.
config 1 1 1 2 1 8 1 65536 -> ready; put ax 1 0 -> stored; put bx 2 0 -> stored; get ax -> hit 1 log; flush -> sealed
flush -> wrote; flush -> nothing; get ax -> hit 1 log; move -> written; get ax -> hit 1 set; move -> freed
move -> nothing; put cx 3 0 -> stored; flush -> sealed; flush -> wrote; move -> written; get ax -> hit 1 set
get bx -> hit 2 set; get cx -> hit 3 memory; verdict -> accepted 9 calls; end ended
# Below the threshold a record that was not asked for is dropped.
config 1 1 1 2 1 8 2 65536 -> ready; put ax 1 0 -> stored; put bx 2 0 -> stored; flush -> sealed; flush -> wrote
move -> dropped; get ax -> miss absent; move -> freed; verdict -> accepted 3 calls; end ended
# One that was asked for is readmitted.
config 1 1 1 2 1 8 2 65536 -> ready; put ax 1 0 -> stored; put bx 2 0 -> stored; get ax -> hit 1 log; flush -> sealed
flush -> wrote; move -> readmitted; get ax -> hit 1 log; move -> freed; verdict -> accepted 4 calls; end ended
# A record that was hit in its set stays there, if not all fit on the page, and one that was not leaves.
config 1 1 1 2 1 8 1 65536 -> ready
put ax axvvvvvvvvvvvvvvvvvvvvvvvvvvvvvvvvvvvvvvvvvvvvvvvvvvvvvvvvvvvvvvvvvvvvvvvvvvvvvvvvvvvvvvvvvv 0 -> stored
put bx bxvvvvvvvvvvvvvvvvvvvvvvvvvvvvvvvvvvvvvvvvvvvvvvvvvvvvvvvvvvvvvvvvvvvvvvvvvvvvvvvvvvvvvvvvvv 0 -> stored
put cx 3 0 -> stored; flush -> sealed; flush -> wrote; move -> written
get ax -> hit axvvvvvvvvvvvvvvvvvvvvvvvvvvvvvvvvvvvvvvvvvvvvvvvvvvvvvvvvvvvvvvvvvvvvvvvvvvvvvvvvvvvvvvvvvv set
put dx dxvvvvvvvvvvvvvvvvvvvvvvvvvvvvvvvvvvvvvvvvvvvvvvvvvvvvvvvvvvvvvvvvvvvvvvvvvvvvvvvvvvvvvvvvvv 0 -> stored
put ex 5 0 -> stored; flush -> sealed; flush -> wrote; move -> freed; move -> written
get ax -> hit axvvvvvvvvvvvvvvvvvvvvvvvvvvvvvvvvvvvvvvvvvvvvvvvvvvvvvvvvvvvvvvvvvvvvvvvvvvvvvvvvvvvvvvvvvv set
get bx -> miss absent
get dx -> hit dxvvvvvvvvvvvvvvvvvvvvvvvvvvvvvvvvvvvvvvvvvvvvvvvvvvvvvvvvvvvvvvvvvvvvvvvvvvvvvvvvvvvvvvvvvv set
get cx -> hit 3 set; verdict -> accepted 10 calls; end ended
# Hits of all tiers are recorded.
config 1 1 1 2 1 8 1 65536 -> ready; put ax 1 0 -> stored; put bx - 0 -> stored; get ax -> hit 1 log; flush -> sealed
flush -> wrote; move -> written; get ax -> hit 1 set
trace -> 4b475452414345320000000401000000000000000000010000000000000003026178000131ffffffffffffffff010000000000000000000400000000000000060262780000ffffffffffffffff030000000000000000000700000000000000090261780001310000000000000000030000000000000000000a000000000000000c026178000131000000000000000000000000000000010000000200000003
verdict -> accepted 4 calls; end ended
";

static STRIKES: &[u8] = b"
# The ninth strike forgets the set.
config 1 1 1 2 1 16 1 65536 -> ready; put ax 1 0 -> stored; put bx 1 0 -> stored; put cx 1 0 -> stored
put dx 1 0 -> stored; put ex 1 0 -> stored; put fx 1 0 -> stored; put gx 1 0 -> stored; put hx 1 0 -> stored
put ix 1 0 -> stored; put jx 1 0 -> stored; put kx 1 0 -> stored; flush -> sealed; flush -> wrote; move -> written
remove ax -> removed; remove bx -> removed; remove cx -> removed; remove dx -> removed; remove ex -> removed
remove fx -> removed; remove gx -> removed; remove hx -> removed; get jx -> hit 1 set; remove ix -> removed
get jx -> miss absent; verdict -> accepted 22 calls; end ended
# A strike that is known is no ninth.
config 1 1 1 2 1 16 1 65536 -> ready; put ax 1 0 -> stored; put bx 1 0 -> stored; put cx 1 0 -> stored
put dx 1 0 -> stored; put ex 1 0 -> stored; put fx 1 0 -> stored; put gx 1 0 -> stored; put hx 1 0 -> stored
put ix 1 0 -> stored; put jx 1 0 -> stored; put kx 1 0 -> stored; flush -> sealed; flush -> wrote; move -> written
remove ax -> removed; remove bx -> removed; remove cx -> removed; remove dx -> removed; remove ex -> removed
remove fx -> removed; remove gx -> removed; remove hx -> removed; remove ax -> removed; forget hx -> forgotten
get ix -> hit 1 set; get ax -> miss absent; put bx 2 0 -> stored; get jx -> hit 1 set; get bx -> hit 2 memory
end ended
# What was removed or forgotten is gone from memory, log and set.
config 1 1 1 2 1 8 1 65536 -> ready; put ax 1 0 -> stored; put bx 2 0 -> stored; flush -> sealed; flush -> wrote
move -> written; get ax -> hit 1 set; remove ax -> removed; get ax -> miss absent; put cx 3 0 -> stored
get bx -> hit 2 log; forget bx -> forgotten; get bx -> miss absent; put dx 4 0 -> stored; get cx -> hit 3 log
verdict -> accepted 10 calls; end ended
# A value that was replaced stays hidden in its set, and out of the next move, also if the new one was lost.
config 1 1 1 2 1 8 1 32768 -> ready; put ax 1 0 -> stored; put bx 2 0 -> stored; flush -> sealed; flush -> wrote
move -> written; put ax 3 65535 -> stored; put cx 4 65535 -> stored; get ax -> miss absent; put dx 5 0 -> stored
flush -> sealed; flush -> wrote; move -> freed; move -> written; get ax -> miss absent; get cx -> hit 4 set
verdict -> accepted 8 calls; end ended
";

static LARGER: &[u8] = b"
# Two sets over pages of 4,096 bytes.
large
config 1 2 1 2 1 32 2 65536 -> ready; put ax 1 0 -> stored; put bx 1 0 -> stored; put cx 1 0 -> stored
put dx 1 0 -> stored; put ex 1 0 -> stored; put fx 1 0 -> stored; put gx 1 0 -> stored; put hx 1 0 -> stored
put ix 1 0 -> stored; put jx 1 0 -> stored; put kx 1 0 -> stored; put lx 1 0 -> stored; put mx 1 0 -> stored
put nx 1 0 -> stored; put ox 1 0 -> stored; put px 1 0 -> stored; put qx 1 0 -> stored; put rx 1 0 -> stored
put sx 1 0 -> stored; put tx 1 0 -> stored; get ax -> hit 1 log; flush -> sealed; put ux 2 0 -> stored
get bx -> hit 1 log; get tx -> hit 1 log; flush -> wrote; move -> written; move -> written; move -> freed
get ax -> hit 1 set; get bx -> hit 1 set; get tx -> hit 1 set; remove ax -> removed; remove cx -> removed
remove ex -> removed; remove gx -> removed; remove ix -> removed; remove kx -> removed; remove mx -> removed
remove ox -> removed; get sx -> hit 1 set; remove qx -> removed; get sx -> miss absent; get bx -> hit 1 set
put vx 3 0 -> stored; get ux -> hit 2 log; flush -> sealed; flush -> wrote; move -> readmitted; get ux -> hit 2 log
move -> freed; move -> nothing; put wx 4 0 -> stored; get vx -> hit 3 log; flush -> sealed; flush -> wrote
move -> readmitted; get vx -> hit 3 log; get ux -> hit 2 log; get tx -> hit 1 set; verdict -> accepted 47 calls
end ended
# Hits of all tiers, a readmission, and a value that was replaced and does not come back.
large
config 1 1 1 2 1 8 2 32768 -> ready; put apple red 0 -> stored; get apple -> hit red memory
put pear green 0 -> stored; get apple -> hit red log; flush -> sealed; flush -> wrote; move -> readmitted
get apple -> hit red log; move -> freed; put plum blue 0 -> stored; get pear -> hit green log; flush -> sealed
flush -> wrote; move -> written; get apple -> hit red set; get pear -> hit green set; put pear yellow 0 -> stored
get pear -> hit yellow memory; put fig black 65535 -> stored; get pear -> miss absent; remove apple -> removed
get apple -> miss absent; get plum -> hit blue log; verdict -> accepted 16 calls; end ended
";

#[test]
fn what_memory_pushes_out_goes_through_the_log(rt: HostRuntime) -> Result<(), Fail> {
    play(rt.alloc(), LOG)
}

#[test]
fn what_the_log_has_moves_to_its_set(rt: HostRuntime) -> Result<(), Fail> {
    play(rt.alloc(), MOVES)
}

#[test]
fn what_was_struck_is_not_found_again(rt: HostRuntime) -> Result<(), Fail> {
    play(rt.alloc(), STRIKES)
}

#[test]
fn objects_go_through_the_tiers_of_larger_pages(rt: HostRuntime) -> Result<(), Fail> {
    play(rt.alloc(), LARGER)
}

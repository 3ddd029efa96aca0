//! The numbers that a load tells. If all its objects stay in memory they are those of a model outside: a map with expiry for
//! each caller, over the words of PCG's reference generator with the load's seed and the caller's number as its stream.
use crate::tests::loads::load;
use std::test::Fail;

static IN_MEMORY: &[u8] = b"
k serve-load --lanes 1 --callers 1 --operations 2000 --keys 40 --gets 60 --removes 10 --value-bytes 8 --seed 7
status 0; out begins operations 2000|
out has |hits-memory 855|hits-log 0|hits-set 0|misses-absent 311|misses-expired 0|misses-fault 0|misses-damaged 0|puts-stored 610|
out has |removals 224|memory-objects 35|log-records 0|refused 0|wrong-hits 0|
k serve-load --lanes 1 --callers 1 --operations 2000 --keys 40 --gets 60 --removes 10 --seed 8
status 0; out begins operations 2000|
out has |hits-memory 828|hits-log 0|hits-set 0|misses-absent 389|misses-expired 0|misses-fault 0|misses-damaged 0|puts-stored 571|
out has |removals 212|memory-objects 32|log-records 0|refused 0|wrong-hits 0|
k serve-load --lanes 3 --shards 2 --memory 100 --callers 3 --operations 1500 --keys 30 --gets 50 --removes 20 --value-bytes 33 --ttl 40 --seed 9
status 0; out begins operations 4500|
out has |hits-memory 653|hits-log 0|hits-set 0|misses-absent 978|misses-expired 629|misses-fault 0|misses-damaged 0|puts-stored 1308|
out has |removals 932|memory-objects 55|log-records 0|refused 0|wrong-hits 0|
k serve-load --lanes 2 --memory 50 --callers 1 --operations 2000 --keys 40 --gets 60 --removes 10 --value-bytes 2048 --ttl 30 --leases 8 --seed 8
status 0; out begins operations 2000|
out has |hits-memory 497|hits-log 0|hits-set 0|misses-absent 151|misses-expired 569|misses-fault 0|misses-damaged 0|puts-stored 571|puts-bytes 1175118|puts-refused 0|leases 720|fills-stored 720|fills-bytes 1481760|fills-refused 0|fills-stale 0|
out has |removals 212|memory-objects 35|log-records 0|refused 0|wrong-hits 0|
";

/// Puts alone, on so many small lanes that upkeep is due in some at the end, whatever the seed, if nobody does it.
static DUE: &[u8] = b"
k serve-load --lanes 16 --sets 3 --memory 4 --segments 8 --segment-pages 2 --callers 1 --workers 1 --operations 1605 --keys 200 --gets 0 --removes 0
status 0; tended
";

/// Gets and puts are timed and removals are not.
static TIMED: &[u8] = b"
k serve-load --lanes 1 --callers 2 --operations 2000 --keys 50 --gets 100 --removes 0
status 0; out lacks |get-max-ns 0|; out has |put-max-ns 0|
k serve-load --lanes 1 --callers 2 --operations 2000 --keys 50 --gets 0 --removes 0
status 0; out has |get-max-ns 0|; out lacks |put-max-ns 0|
k serve-load --lanes 1 --callers 2 --operations 2000 --keys 50 --gets 0 --removes 100
status 0; out has |get-max-ns 0|; out has |put-max-ns 0|
k serve-load --lanes 1 --callers 2 --operations 2000 --keys 50 --gets 50 --removes 10
status 0; out lacks |get-max-ns 0|; out lacks |put-max-ns 0|
";

static OBJECT: &[u8] = b"
k serve-load --json --lanes 1 --callers 2 --operations 2000 --keys 50
status 0; err is
out begins {\"operations\":4000,\"seconds\":; out ends ,\"refused\":0,\"wrong-hits\":0}|
";

#[test]
fn a_load_in_memory_tells_what_its_seed_determines(rt: HostRuntime) -> Result<(), Fail> {
    load(&rt, IN_MEMORY)
}

#[test]
fn workers_do_what_is_due(rt: HostRuntime) -> Result<(), Fail> {
    load(&rt, DUE)
}

#[test]
fn gets_and_puts_are_timed_and_removals_are_not(rt: HostRuntime) -> Result<(), Fail> {
    load(&rt, TIMED)
}

#[test]
fn a_load_can_be_told_as_an_object(rt: HostRuntime) -> Result<(), Fail> {
    load(&rt, OBJECT)
}

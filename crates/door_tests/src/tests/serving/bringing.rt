//! Loads in which objects on flash are brought back into memory, and loads in which none is.
use crate::tests::loads::load;
use std::test::Fail;

/// Of so many hits on flash that were read there one has its object brought back, and then copies answer or do not.
static BRINGING: &[u8] = b"
k serve-load --lanes=1 --memory=8 --operations=4000 --keys=20
status 0; brought 0 no-copies
k serve-load --lanes=2 --shards=2 --memory=8 --operations=4000 --keys=20 --bring-back=1
status 0; brought 1 copies
k serve-load --lanes=1 --memory=9 --operations=4000 --keys=20 --leases=8 --ttl=500 --bring-back=3
status 0; brought 3 copies
k serve-load --lanes=1 --memory=8 --operations=4000 --keys=20 --bring-back=1000000
status 0; brought 1000000 no-copies
k serve-load --size=4M --memory-bytes=600K --operations=8000 --keys=2000 --bring-back=1
status 0; brought 1 copies
";

#[test]
fn of_so_many_hits_on_flash_one_has_its_object_brought_back(rt: HostRuntime) -> Result<(), Fail> {
    load(&rt, BRINGING)
}

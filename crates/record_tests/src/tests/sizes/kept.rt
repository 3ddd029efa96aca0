//! What a caller may count on for any sizes, proved of public calls.
ghost use Rattle.std.specs.Prelude.{◌≤◌};

use super::rows::wanted;
use cache_sizes::{Shape, Wanted};
use record_pages::Layout;

// The layout of a shard: no configuration of a shape is refused.
fn layout(wanted: &Wanted) -> Option<Layout> {
    let Ok(shape) = Shape::of(wanted) else {
        return None;
    };
    Some(shape.config(2, 65536).check().unwrap())
}

// The bytes of all files, which are no more than there is flash.
fn file_bytes(wanted: &Wanted) -> u64
    ensures { result ≤ wanted.now.flash_bytes }
{
    let Ok(shape) = Shape::of(wanted) else {
        return 0;
    };
    shape.flash_bytes()
}

// The bytes of memory, which are no more than there are.
fn memory_bytes(wanted: &Wanted) -> u64
    ensures { result ≤ wanted.now.memory_bytes }
{
    let Ok(shape) = Shape::of(wanted) else {
        return 0;
    };
    shape.memory_bytes(wanted.object_bytes)
}

#[test]
fn the_least_flash_has_a_layout(rt: HostRuntime) {
    let wanted = wanted((12_288, 36_040, 2303, 1));
    assert!(rt;
        layout(&wanted).is_some()
            && file_bytes(&wanted) == 12_288
            && memory_bytes(&wanted) == 36_040
    );
}

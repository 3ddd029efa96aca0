//! The published vectors of the hash, and two places.
use record_pages::Config;
use set_hash::{Placed, hash, place};
use std::test::Fail;

/// Published vectors: a text, and its hash.
#[derive(Clone, Copy)]
struct Vector(&'static [u8], u64);

static VECTORS: [Vector; 4] = [
    Vector(b"", 0xcbf29ce484222325),
    Vector(b"a", 0xaf63dc4c8601ec8c),
    Vector(b"b", 0xaf63df4c8601f1a5),
    Vector(b"foobar", 0x85944171f73967e8),
];

#[test]
fn published_vectors_are_met(rt: HostRuntime) {
    for vector in &VECTORS {
        assert!(rt; hash(vector.0) == vector.1);
    }
}

static OF_A: Placed = Placed {
    hash: 0xaf63dc4c8601ec8c,
    lane: 0,
    set: 2,
    tag: 0xaf63,
    probes: [140, 217, 38, 115],
};

static OF_FOOBAR: Placed = Placed {
    hash: 0x85944171f73967e8,
    lane: 0,
    set: 0,
    tag: 0x8594,
    probes: [232, 89, 202, 59],
};

#[test]
fn two_keys_have_their_places(rt: HostRuntime) -> Result<(), Fail> {
    let config = Config {
        lanes: 2,
        sets: 4,
        memory: 1,
        segments: 2,
        segment_pages: 1,
        entries: 8,
        threshold: 1,
        admit: 0,
    };
    let layout = config.check()?;
    assert!(rt; place(&layout, b"a") == OF_A && place(&layout, b"foobar") == OF_FOOBAR);
    Ok(())
}

//! Hit bits of a set.
use rriparoo::HitBits;

#[test]
fn hits_are_noted_by_place(rt: HostRuntime) {
    let mut hits = HitBits::empty();
    assert!(rt; !hits.has(127));
    hits.set(127);
    hits.set(0);
    assert!(rt; hits.has(127) && hits.has(0) && !hits.has(63));
}

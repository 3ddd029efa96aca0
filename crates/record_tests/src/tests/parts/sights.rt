//! How many keys a sketch sees. The numbers are those of a model in Python.
use sight_sketch::SightSketch;
use std::test::Fail;

// Meets keys with these numbers, and says how many of them it saw.
fn seen(sketch: &mut SightSketch, first: u64, last: u64) -> u64 {
    let mut count = 0u64;
    for number in first..last {
        let hash = number.wrapping_mul(0x9e37_79b9_7f4a_7c15);
        count = count.wrapping_add(u64::from(sketch.meet(hash)));
    }
    count
}

#[test]
fn a_sketch_sees_what_it_met_and_few_others(rt: HostRuntime) -> Result<(), Fail> {
    let mut sketch = SightSketch::new(rt.alloc(), 16)?;
    let new = seen(&mut sketch, 1, 1001);
    let again = seen(&mut sketch, 825, 1001);
    assert!(rt; sketch.half_bits() == 1024 && new == 97 && again == 176);
    Ok(())
}

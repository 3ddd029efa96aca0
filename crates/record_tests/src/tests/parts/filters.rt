//! A filter admits what was added, and not what asks for other bits.
use bloom::Filter;
use std::test::Fail;

#[test]
fn a_filter_admits_what_was_added(rt: HostRuntime) {
    let first = [140, 217, 38, 115];
    let second = [232, 89, 202, 59];
    let mut filter = Filter::empty();
    assert!(rt; filter.is_empty() && !filter.may_hold(first));
    filter.add(first);
    assert!(rt;
        !filter.is_empty()
            && filter.may_hold(first)
            && !filter.may_hold(second)
            && !filter.may_hold([140, 217, 38, 116])
    );
    filter.add(second);
    assert!(rt; filter.may_hold(first) && filter.may_hold([140, 232, 255 - 23, 59]));
    filter.clear();
    assert!(rt; !filter.may_hold(first));
}

#[test]
fn a_filter_of_high_bits_alone_is_cleared(rt: HostRuntime) {
    let high = [252, 253, 254, 255];
    let mut filter = Filter::empty();
    filter.add(high);
    assert!(rt; !filter.is_empty() && filter.may_hold(high));
    filter.clear();
    assert!(rt; filter.is_empty() && !filter.may_hold(high));
}

#[test]
fn filters_of_a_list_are_apart(rt: HostRuntime) -> Result<(), Fail> {
    let mut filters = vec![in rt.alloc(); Filter::empty(); 3]?;
    assert!(rt; filters.len() == 3);
    filters[1].add([1, 2, 3, 4]);
    assert!(rt; filters[1].may_hold([1, 2, 3, 4]) && !filters[0].may_hold([1, 2, 3, 4]));
    Ok(())
}

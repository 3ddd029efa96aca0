//! How many pages a budget grants, by a clock that jumps.
use write_budget::WriteBudget;

// Asks for so many pages at a moment, and says how many were granted.
fn granted(budget: &mut WriteBudget, moment: u64, pages: u32) -> u32 {
    let mut count = 0u32;
    for _ in 0..pages {
        count = count.wrapping_add(u32::from(budget.grant(moment)));
    }
    count
}

#[test]
fn a_budget_of_a_page_a_second_saves_up_those_of_a_minute(rt: HostRuntime) {
    let mut budget = WriteBudget::new(86_400, 5000);
    assert!(rt; granted(&mut budget, 5999, 2) == 0 && granted(&mut budget, 6000, 2) == 1);
    assert!(rt; granted(&mut budget, 8500, 3) == 2 && granted(&mut budget, 9000, 3) == 1);
    assert!(rt; granted(&mut budget, 1_000_000, 100) == 60 && budget.saved() == 0);
}

#[test]
fn a_clock_that_goes_back_grants_nothing_and_loses_nothing(rt: HostRuntime) {
    let mut budget = WriteBudget::new(86_400, 0);
    assert!(rt; granted(&mut budget, 3500, 1) == 1 && budget.saved() == 2);
    assert!(rt; granted(&mut budget, 3499, 5) == 0 && budget.saved() == 2);
    assert!(rt; granted(&mut budget, 4000, 5) == 3);
}

#[test]
fn a_budget_of_a_page_a_day_has_room_for_one(rt: HostRuntime) {
    let mut none = WriteBudget::new(0, 0);
    let mut one = WriteBudget::new(1, 0);
    assert!(rt; granted(&mut none, u64::MAX, 2) == 0);
    assert!(rt; granted(&mut one, 86_399_999, 2) == 0 && granted(&mut one, u64::MAX, 3) == 1);
}

//! The plans of both policies, called by their type and through the bound.
use policy_laws::{Choice, EvictionPolicy, Fifo, Item, Items, Job, Plan};
use record_pages::Prediction;
use rriparoo::{Rriparoo, age};
use std::alloc::{AllocError, Global};
use std::test::Fail;

/// An item: its size and prediction, whether it was hit, and whether it is fresh.
type Row = (u32, u8, bool, bool);

/// Two hits apart, a table of five items of which four fit.
const FIVE: [Row; 5] = [
    (7, 3, true, false),
    (7, 5, false, false),
    (7, 4, false, false),
    (7, 6, false, true),
    (7, 2, false, true),
];

/// If the second item does not fit, a smaller one after it does.
const SMALLER_BEHIND: [Row; 3] = [
    (20, 3, false, true),
    (15, 3, false, true),
    (8, 3, false, false),
];

const ALL_FIT: [Row; 2] = [(7, 2, false, false), (7, 4, false, false)];

/// The promoted item is farther than the other old one, and a hit of a fresh item counts for nothing.
static PROMOTED_FROM_AFAR: [Row; 3] = [
    (7, 6, true, false),
    (7, 3, false, false),
    (7, 5, true, true),
];

fn prediction(number: u8) -> Result<Prediction, &'static str> {
    Prediction::new(number).ok_or("a prediction is at most 7")
}

fn items(alloc: Global, rows: &[Row]) -> Result<Items, Fail> {
    let mut items = Items::new(alloc);
    for (size, number, hit, fresh) in rows {
        items.push(Item {
            size: *size,
            prediction: prediction(*number)?,
            hit: *hit,
            fresh: *fresh,
        })?;
    }
    Ok(items)
}

/// A job of these items, with a room of 28 bytes.
fn job(alloc: Global, rows: &[Row]) -> Result<Job, Fail> {
    Ok(Job {
        number: 1,
        set: 0,
        room: 28,
        items: items(alloc, rows)?,
    })
}

/// A job of this many fresh items, the least that there are, for a page of 4,096 bytes.
fn least(alloc: Global, count: usize) -> Result<Job, Fail> {
    let mut items = Items::new(alloc);
    for _ in 0..count {
        items.push(Item {
            size: 13,
            prediction: prediction(6)?,
            hit: false,
            fresh: true,
        })?;
    }
    Ok(Job {
        number: 1,
        set: 0,
        room: 4078,
        items,
    })
}

fn through_the_bound<P: EvictionPolicy>(
    policy: &P,
    alloc: Global,
    job: &Job,
) -> Result<Plan, AllocError> {
    policy.choose(alloc, job)
}

/// Whether a plan keeps just these items, with these predictions.
fn is_plan(plan: &Plan, wanted: &[(usize, u8)]) -> bool {
    if plan.len() != wanted.len() || plan.is_empty() != wanted.is_empty() {
        return false;
    }
    for index in 0..wanted.len() {
        if !is_choice(*plan.at(index), wanted[index]) {
            return false;
        }
    }
    true
}

fn is_choice(choice: Choice, (item, number): (usize, u8)) -> bool {
    choice.item == item && choice.prediction.get() == number
}

/// Whether a plan keeps the first items, this many, in their order.
fn keeps_first(plan: &Plan, count: usize) -> bool {
    for index in 0..plan.len() {
        if !is_choice(*plan.at(index), (index, 6)) {
            return false;
        }
    }
    plan.len() == count
}

/// Whether the first items have these ages.
fn are_ages(job: &Job, ages: &[u8]) -> bool {
    for index in 0..ages.len() {
        if index >= job.items.len() || age(job, index).get() != ages[index] {
            return false;
        }
    }
    true
}

/// How a plan is asked for.
#[derive(Clone, Copy)]
enum By {
    Fifo,
    FifoThroughTheBound,
    Rriparoo,
    RriparooThroughTheBound,
}

fn planned(alloc: Global, by: By, job: &Job) -> Result<Plan, AllocError> {
    match by {
        By::Fifo => Fifo.choose(alloc, job),
        By::FifoThroughTheBound => through_the_bound(&Fifo, alloc, job),
        By::Rriparoo => Rriparoo.choose(alloc, job),
        By::RriparooThroughTheBound => through_the_bound(&Rriparoo, alloc, job),
    }
}

/// Items, the ages of the first of them, how they are planned, and which items the plan keeps with which predictions.
#[derive(Clone, Copy)]
struct Case(&'static [Row], &'static [u8], By, &'static [(usize, u8)]);

static CASES: [Case; 4] = [
    // fresh items are kept first
    Case(
        &FIVE,
        &[],
        By::FifoThroughTheBound,
        &[(3, 6), (4, 2), (0, 3), (1, 5)],
    ),
    // a smaller item is kept after one that does not fit
    Case(&SMALLER_BEHIND, &[], By::Fifo, &[(0, 3), (2, 3)]),
    // the farthest item is left out
    Case(
        &FIVE,
        &[0, 7, 6, 6],
        By::RriparooThroughTheBound,
        &[(0, 0), (4, 2), (2, 6), (3, 6)],
    ),
    // items age if all fit
    Case(&ALL_FIT, &[5, 7], By::Rriparoo, &[(0, 5), (1, 7)]),
];

/// Whether the items of a job are these.
fn are_items(job: &Job, rows: &[Row]) -> bool {
    if job.items.len() != rows.len() || job.items.is_empty() {
        return false;
    }
    for index in 0..rows.len() {
        if job.items.at(index).fresh != rows[index].3 {
            return false;
        }
    }
    true
}

/// Whether items have their ages and are planned so.
fn is_met(alloc: Global, case: &Case) -> Result<bool, Fail> {
    let job = job(alloc, case.0)?;
    let plan = planned(alloc, case.2, &job)?;
    Ok(are_items(&job, case.0) && are_ages(&job, case.1) && is_plan(&plan, case.3))
}

#[test]
fn items_are_planned_as_is_written(rt: HostRuntime) -> Result<(), Fail> {
    for case in &CASES {
        assert!(rt; is_met(rt.alloc(), case)?);
    }
    Ok(())
}

#[test]
fn promoted_and_fresh_items_age_no_other(rt: HostRuntime) -> Result<(), Fail> {
    let job = job(rt.alloc(), &PROMOTED_FROM_AFAR)?;
    assert!(rt; are_ages(&job, &[0, 7, 5]));
    Ok(())
}

/// Whether a plan of this many of the least items keeps the first of them, so many.
fn keeps(alloc: Global, count: usize, kept: usize) -> Result<bool, Fail> {
    let job = least(alloc, count)?;
    let plan = Rriparoo.choose(alloc, &job)?;
    Ok(keeps_first(&plan, kept))
}

#[test]
fn a_plan_keeps_128_of_129_items(rt: HostRuntime) -> Result<(), Fail> {
    assert!(rt; keeps(rt.alloc(), 100, 100)? && keeps(rt.alloc(), 129, 128)?);
    Ok(())
}

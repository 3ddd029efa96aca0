// The threads of the example.
use crate::database::{Database, ROWS};
use crate::rows::{RowCache, change, look_up};
use deed_book::{BookName, KeyLanes};
use std::alloc::Global;
use std::sync::Wait;
use std::sync::atomic::{AtomicU64, Ordering};
use std::thread::{Threads, join, map_indices};

/// How many callers there are, each in a thread.
const CALLERS: usize = 4;

/// How many rows each looks up, one after the other.
const LOOK_UPS: u32 = 20_000;

/// What callers made.
#[derive(Clone, Copy, PartialEq, Eq)]
pub struct Made {
    /// Rows that were looked up.
    pub reads: u64,
    /// Those of them that gave an older version than the same caller had seen.
    pub back: u64,
}

/// Looks rows up in an order of its own, and changes the row at every tenth.
fn call<L: KeyLanes, J: BookName, R: Wait>(
    rt: &R,
    alloc: Global,
    cache: &RowCache<L, J>,
    database: &Database,
    caller: usize,
) -> Made {
    let mut seat = cache.seat();
    let mut newest = [0; ROWS];
    let mut back = 0u64;
    let mut drawn = caller as u64;
    for number in 0..LOOK_UPS {
        drawn = drawn
            .wrapping_mul(6_364_136_223_846_793_005)
            .wrapping_add(1_442_695_040_888_963_407);
        let row = (drawn >> 56) as u8;
        if number % 10 == 0 {
            change(rt, cache, &mut seat, database, row);
        }
        let version = look_up(rt, alloc, cache, &mut seat, database, row);
        if version < newest[row as usize] {
            back = back.wrapping_add(1);
        } else {
            newest[row as usize] = version;
        }
    }
    Made {
        reads: u64::from(LOOK_UPS),
        back,
    }
}

/// What all callers made together; none if there was no memory for it.
fn made_by_callers<L: KeyLanes + Send + Sync, J: BookName + Send + Sync, R: Threads + Wait + Sync>(
    rt: &R,
    alloc: Global,
    cache: &RowCache<L, J>,
    database: &Database,
) -> Option<Made> {
    let made = map_indices(
        rt,
        alloc,
        CALLERS,
        &|caller| { call(rt, alloc, cache, database, caller) },
    );
    let Ok(each) = made else {
        return None;
    };
    let mut all = Made { reads: 0, back: 0 };
    for one in &each {
        all.reads = all.reads.wrapping_add(one.reads);
        all.back = all.back.wrapping_add(one.back);
    }
    Some(all)
}

/// Does what is due in each lane, until the callers have ended.
fn tend<L: KeyLanes, J: BookName, R: Wait>(rt: &R, cache: &RowCache<L, J>, ended: &AtomicU64) {
    for _ in rt.forever() {
        if ended.load(Ordering::SeqCst) != 0 {
            return;
        }
        for lane in 0..cache.lanes() {
            let _step = cache.upkeep_step(rt, lane);
        }
    }
}

/// The same, beside a thread that tends the cache.
pub fn made_by_all<L: KeyLanes + Send + Sync, J: BookName + Send + Sync, R: Threads + Wait + Sync>(
    rt: &R,
    alloc: Global,
    cache: &RowCache<L, J>,
    database: &Database,
) -> Option<Made> {
    let ended = AtomicU64::new(0);
    let ended = &ended;
    let (made, _) = join(
        rt,
        || {
            let made = made_by_callers(rt, alloc, cache, database);
            ended.store(1, Ordering::SeqCst);
            made
        },
        || tend(rt, cache, ended),
    );
    made
}

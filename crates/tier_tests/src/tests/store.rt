//! A store from end to end: what was put is found in each tier in turn, until it is struck, moved, dropped or lost.
//! A test is a text whose steps are calls of a store, each with what it gives; `scripted.rt` says which steps there are.
mod calls;
mod expiring;
mod failing;
mod filling;
mod going_back;
mod into;
mod moving;
mod names;
mod opening;
mod putting_back;
mod rows;
mod run;
mod scripted;
mod several;
mod splitting;
mod striking;
mod untrue;
mod untrue_device;

use self::scripted::play;
use super::texts::{EXPIRES, WAS_HELD, name_of_flush, pages_of};
use mover::{Aborted, Committed, CopyFate, MovedWhole, OpenFault, Store};
use page_device::{FuseDevice, MemoryDevice, PageDevice};
use record_pages::{Config, Field, Pushed, PutFault, Tier};
use rriparoo::Rriparoo;
use std::alloc::{AllocError, Global};
use std::test::Fail;
use test_devices::{StaleDevice, TextStep, is, key, value};

// One lane of one set, with one object in memory and two segments of one page. Page 0 is the set's, pages 1 and 2 are the log's.
const ONE_SET: Config = Config {
    lanes: 1,
    sets: 1,
    memory: 1,
    segments: 2,
    segment_pages: 1,
    entries: 8,
    threshold: 1,
    admit: 65536,
};

//! The sets through an owner: what was written is found, and what was struck, lost or forgotten is not. A test is a text whose
//! steps are calls of sets; `run.rt` and `scripted.rt` say which steps there are.
mod calls;
mod failing;
mod finding;
mod locating;
mod owner;
mod rows;
mod run;
mod scripted;
mod striking;

use self::owner::Owner;
use self::scripted::{play, play_on_blank};
use super::texts::{EXPIRES, NONE_REFUSED, Refused, Tried, WAS_HELD, device, layout, tell_looked};
use kset::{KSet, LocatedInSet, Rewritten, SetRead, SetRecord};
use page_device::{MemoryDevice, PageDevice};
use record_pages::{
    Config, Key, Layout, Looked, MAX_SET_RECORDS, Prediction, Record, SetPageWriter, TimedValue,
};
use std::alloc::{AllocError, Global};
use std::test::Fail;
use test_devices::{BlankDevice, Scripted, TextStep, is, key, run_text, value};

// One lane of one set.
const ONE_SET: Config = Config {
    lanes: 1,
    sets: 1,
    memory: 1,
    segments: 2,
    segment_pages: 1,
    entries: 8,
    threshold: 1,
    admit: 65536,
};

//! The log through an owner: what was appended is found with its value, in memory and on the device, until it is struck,
//! moved or lost. A test is a text whose steps are calls of a log; `run.rt` and `scripted.rt` say which steps there are.
ghost use Rattle.record_pages.specs.Sizes.{IsPageSize};

mod calls;
mod entering;
mod failing;
mod leaving;
mod locating;
mod names;
mod owner;
mod pages;
mod passing;
mod ring;
mod rows;
mod run;
mod scripted;

use self::names::{name_of_appended, name_of_missed, name_of_oldest, name_of_readmitted};
use self::owner::Owner;
use self::scripted::{play, play_on_blank};
use super::texts::{
    EXPIRES, NONE_REFUSED, Refused, Tried, WAS_HELD, device, layout, name_of_flush, pages_of,
    tell_looked,
};
use klog::{
    Appended, Flushed, KLog, LocatedInLog, Oldest, Readmitted, SetTaken, TakenRecord, TakenRecords,
};
use klog_index::{Entry, Place};
use page_device::{FuseDevice, MemoryDevice, PageDevice};
use record_pages::{Config, Key, Layout, Looked, TimedValue};
use std::alloc::{AllocError, Global};
use std::process::Abort;
use std::test::Fail;
use test_devices::{BlankDevice, Scripted, TextStep, is, key, run_text, value};

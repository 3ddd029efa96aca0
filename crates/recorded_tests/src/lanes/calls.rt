//! A recorded lane from end to end: each call with its answer and its record, in memory, in the log and in its set. A test is a text;
//! `run.rt` says which steps there are.
mod rows;
mod run;

use self::run::play;
use super::super::texts::{name_of_flush, name_of_pushed, tell_act, tell_answer};
use mover::MovedWhole;
use page_device::{FuseDevice, MemoryDevice, PageDevice};
use record_pages::{Answer, Key, NEVER, Pushed};
use recorded_lane::{RecordFault, RecordPutFault, RecordedLane};
use rriparoo::Rriparoo;
use set_hash::place;
use std::alloc::{AllocError, Global};
use std::test::Fail;
use test_devices::{Scripted, Spelled, TextStep, is, key, run_text, value};
use trace_file::{ActRef, History};

/// A lane over a device that refuses calls.
type Lane = RecordedLane<FuseDevice<MemoryDevice<256>>, 256>;

static EACH_CALL: &[u8] = b"
    # A value is a hit in each tier.
    open 0 1 1 1 2 1 8 1 65536; is 0 1 1 1 2 1 8 1 65536
    get ax absent as 0 1 2 ax miss
    put ax 1 0 nobody as 1 3 4 ax put 1
    get ax memory 1 as 2 5 6 ax hit 1 2
    put bx 2 0 logged as 3 7 8 bx put 2
    get ax log 1 as 4 9 10 ax hit 1 4
    flush sealed; flush wrote
    get ax log 1 as 5 11 12 ax hit 1 5
    move written
    get ax set 1 as 6 13 14 ax hit 1 6
    remove ax as 7 15 16 ax remove
    get ax absent as 8 17 18 ax miss
    forget bx
    get bx absent as 9 19 20 bx miss
    acts mphphhhrmm; count 10 20; end 10 20 3

    # No call is made.
    open 0 1 1 1 2 1 8 1 65536; is 0 1 1 1 2 1 8 1 65536; acts -; count 0 0 empty; end 0 0 3

    # A refused put leaves the older value.
    open 0 1 1 1 2 1 8 1 65536; is 0 1 1 1 2 1 8 1 65536
    put ax 1 0 nobody as 0 1 2 ax put 1
    put ax v*225 0 too large
    get ax memory 1 as 1 3 4 ax hit 1 1
    put bx v*224 0 logged as 2 5 6 bx put v*224
    acts php; count 3 6; end 3 6 3

    # A fault is recorded as a miss. The write of the log's page is the first call of the device, and the second is refused.
    refuse 2; open 0 1 1 1 2 1 8 1 65536; is 0 1 1 1 2 1 8 1 65536
    put ax 1 0 nobody as 0 1 2 ax put 1
    put bx 2 0 logged as 1 3 4 bx put 2
    flush sealed; flush wrote
    get ax fault as 2 5 6 ax miss
    get ax log 1 as 3 7 8 ax hit 1 3
    acts ppmh; count 4 8; end 4 8 3

    # An object leaves memory by its word.
    open 0 1 1 1 2 1 8 1 65536; is 0 1 1 1 2 1 8 1 65536
    put ax 1 0 nobody as 0 1 2 ax put 1
    get ax memory 1 as 1 3 4 ax hit 1 1
    put bx 2 65535 logged as 2 5 6 bx put 2
    remove ax as 3 7 8 ax remove
    acts phpr; count 4 8; end 4 8 3

    # The second of two lanes has its own keys.
    open 1 2 1 1 2 1 8 1 65536; is 1 2 1 1 2 1 8 1 65536
    put b 1 0 nobody as 0 1 2 b put 1
    put d 2 0 logged as 1 3 4 d put 2
    get b log 1 as 2 5 6 b hit 1 2
    acts pph; count 3 6; end 3 6 3
";

#[test]
fn each_call_gives_what_it_must_and_is_recorded(rt: HostRuntime) -> Result<(), Fail> {
    play(rt.alloc(), EACH_CALL)
}

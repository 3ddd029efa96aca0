// The largest index, filled and emptied.
ghost use Rattle.std.specs.Prelude.{◌≡◌, ◌<◌, ◌/◌, ◌%◌, []};

use super::Owner;
use klog_index::{LogIndex, Place};
use record_pages::Prediction;
use std::test::Fail;
use test_devices::run_text;

const ENTRIES: u32 = 1048576;

const SETS: u32 = 65536;

// A place of its own for each number.
fn place_of(number: u32) -> Place
    requires { number < 1048576 }
    ensures { result ≡ record {
      segment = number / 4096;
      page = number / 64 % 64;
      slot = number % 64;
    } }
{
    Place {
        segment: (number / 4096) as u16,
        page: (number / 64 % 64) as u8,
        slot: (number % 64) as u8,
    }
}

// Adds as many entries as there may be, 16 to each set.
fn fill(index: &mut LogIndex) -> Result<(), Fail>
    requires sets { index.old.sets ≡ 65536 }
    requires empty { index.old.entries ≡ [] }
    ensures { index.new.sets ≡ 65536 }
{
    let six = Prediction::new(6).unwrap();
    for number in 0..ENTRIES {
        index.add(number % SETS, 5, place_of(number), six)?;
    }
    Ok(())
}

// Strikes each set's entries.
fn empty(index: &mut LogIndex)
    requires { index.old.sets ≡ 65536 }
    ensures { index.new.sets ≡ 65536 }
{
    for set in 0..SETS {
        index.drop_tag(set, 5);
    }
}

impl Owner {
    fn empty(&mut self) {
        empty(&mut self.index);
    }
}

// The first entry, and what the last set has.
static FILLED: &[u8] = b"
    len 1048576 full; oldest set 0 5 at 0 0 0 6; count 65535 16
    of-set 65535 0 set 65535 5 at 255 63 63 6; of-set 65535 16 none
";

static EMPTIED: &[u8] = b"len 0 empty room; find 65535 65535 0 none; oldest none";

#[test]
fn the_largest_index_is_filled_and_emptied(rt: HostRuntime) -> Result<(), Fail> {
    let alloc = rt.alloc();
    let mut index = LogIndex::open(alloc, SETS, ENTRIES)?;
    fill(&mut index)?;
    let mut owner = Owner { index };
    run_text(alloc, &mut owner, FILLED)?;
    owner.empty();
    run_text(alloc, &mut owner, EMPTIED)
}

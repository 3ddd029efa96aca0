//! What is found of what was written.
use super::run::{push, read, record};
use super::scripted::sets;
use super::*;

static FOUND_UNTIL_STRUCK: &[u8] = b"
    refuse 6; config 1 1 1 2 1 8 1 65536
    write ax=1 bx=2 written
    look ax hit 1
    # What has expired is no hit.
    look-late bx expired
    read ax=1 hit bx=2
    strike bx
    look bx absent
    read ax=1 hit
    forget
    look ax absent
    read none
    # The sixth call of the device.
    write ax=1 bx=2 forgotten
";

#[test]
fn written_records_are_found_until_they_are_struck_or_forgotten(
    rt: HostRuntime,
) -> Result<(), Fail> {
    play(rt.alloc(), FOUND_UNTIL_STRUCK)
}

static THE_FIRST_OF_TWO: &[u8] = b"
    config 1 1 1 2 1 8 1 65536
    write ab=1 cd=2 cd=3 written
    locate cd 1 2; look cd hit 2
    read ab=1 cd=2 hit cd=3
    # A rewriting clears the hits.
    write ab=1 cd=2 cd=3 written
    read ab=1 cd=2 cd=3
";

#[test]
fn the_first_of_two_records_with_a_key_is_found(rt: HostRuntime) -> Result<(), Fail> {
    play(rt.alloc(), THE_FIRST_OF_TWO)
}

type Wide = MemoryDevice<4096>;

// A page with as many records as a set page may have, of the least size, 13 bytes: all but the last of one key, and that of another.
fn full(alloc: Global) -> Result<SetPageWriter<4096>, Fail> {
    let mut writer = SetPageWriter::new();
    let first = record(alloc, b"a", b"")?;
    for _ in 1..MAX_SET_RECORDS {
        push(&mut writer, &first);
    }
    push(&mut writer, &record(alloc, b"b", b"")?);
    Ok(writer)
}

static FINDS_THE_LAST: &[u8] = b"look b hit -";

// Whether these are as many records as a set page may have, of which the last alone is hit.
fn is_last_alone_hit(read: SetRead) -> bool {
    let SetRead::Records(records) = read else {
        return false;
    };
    if records.len() != MAX_SET_RECORDS {
        return false;
    }
    for number in 0..records.len() {
        if records.at(number).hit != (number + 1 == MAX_SET_RECORDS) {
            return false;
        }
    }
    true
}

// Whether the last alone of as many records as a set page may have is hit, once it was found.
fn hits_the_last(alloc: Global, owner: &mut Owner<Wide, 4096>) -> Result<bool, Fail> {
    let key = key(alloc, b"ax")?;
    owner.rewrite(&key, &full(alloc)?);
    run_text(alloc, owner, FINDS_THE_LAST)?;
    Ok(is_last_alone_hit(read(alloc, owner, &key)?))
}

fn wide_sets(alloc: Global) -> Result<Box<Owner<Wide, 4096>>, Fail> {
    sets(alloc, &ONE_SET, MemoryDevice::new(alloc, 3)?)
}

#[test]
fn the_last_of_128_slots_is_hit(rt: HostRuntime) -> Result<(), Fail> {
    let is_hit = hits_the_last(rt.alloc(), &mut *wide_sets(rt.alloc())?)?;
    assert!(rt; is_hit);
    Ok(())
}

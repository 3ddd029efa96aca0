//! What each command of memcached's protocol does to a lane.
mod rows;

use super::scripted::play;
use item_lane::{CacheItem, Head, HeadText};
use record_pages::Value;
use std::test::Fail;

static STORES: &[u8] = b"
    open 3; at 1 0
    get ax none
    replace ax any 0 1 never one not stored
    replace ax 1 0 2 never one not found
    append ax any 0 3 never one not stored
    prepend ax any 0 4 never one not stored
    get ax none
    add ax any 7 5 90 one stored
    set bx 0 6 never other stored
    at 2 0
    add ax any 0 7 never two not stored
    get ax 7 5 90 one
    append ax any 0 8 never ,~two stored
    prepend ax 8 0 9 never no,~ stored
    at 3 0
    get ax 7 9 90 no,~one,~two
    replace ax 8 0 10 never x exists
    get ax 7 9 90 no,~one,~two
    replace ax 9 0 11 never x stored
    at 95 0
    get ax 0 11 never x
    get bx 0 6 never other
";

#[test]
fn stores_depend_on_the_live_item(rt: HostRuntime) -> Result<(), Fail> {
    play(rt.alloc(), STORES)
}

static ENDS: &[u8] = b"
    open 3; at 10 0
    set ax 1 5 20 one stored
    at 19 0
    get ax 1 5 20 one
    at 20 0
    get ax none
    touch ax never not found
    add ax any 1 6 40 two stored
    at 21 0
    touch ax 60 touched
    at 59 0
    get-and-touch ax never 1 6 60 two touched
    at 60 6
    get ax 1 6 never two
    at 60 7
    get ax none
    get-and-touch ax 70 none not found
    replace ax any 0 8 never x not stored
    add ax any 0 9 never three stored
    set bx 0 10 never other stored
    delete ax 8 exists
    delete ax 9 deleted
    delete ax any not found
    get ax none
    get bx 0 10 never other
";

#[test]
fn items_end_by_expiry_by_a_flush_and_by_a_delete(rt: HostRuntime) -> Result<(), Fail> {
    play(rt.alloc(), ENDS)
}

static NUMBERS: &[u8] = b"
    open 3; at 1 0
    up ax 1 2 not found
    set ax 9 3 90 99 stored
    up ax 5 4 number 104
    get ax 9 4 90 104
    down ax 5 5 number 99
    get ax 9 5 90 99~
    down ax 100 6 number 0
    get ax 9 6 90 0~~
    set bx 0 7 never 18446744073709551615 stored
    up bx 2 8 number 1
    set bx 0 9 never 18446744073709551616 stored
    up bx 1 10 not a number
    get bx 0 9 never 18446744073709551616
";

#[test]
fn numbers_go_up_and_down(rt: HostRuntime) -> Result<(), Fail> {
    play(rt.alloc(), NUMBERS)
}

static LARGE: &[u8] = b"
    open 3; at 1 0
    set ax 0 1 never old stored
    set ax 0 2 never x*2040 too large
    get ax none
    set ax 0 3 never x*2039 stored
    get ax 0 3 never x*2039
    set ax 0 4 9 x*2039 too large
";

#[test]
fn a_set_that_is_refused_leaves_no_older_item(rt: HostRuntime) -> Result<(), Fail> {
    play(rt.alloc(), LARGE)
}

static MARKED: Head = Head {
    flags: 258,
    cas: 3,
    expires: Some(65_536),
    is_stale: true,
    is_won: true,
};

// The cell of an item with the head `MARKED`.
static CELL: [u8; 19] = [
    15, 0, 0, 0, 0, 0, 0, 0, 3, 0, 0, 1, 2, 0, 1, 0, 0, b'o', b'k',
];

#[test]
fn a_cell_has_its_bytes(rt: HostRuntime) -> Result<(), Fail> {
    let head = HeadText::of(&MARKED);
    let cell = Value::of_parts(rt.alloc(), head.bytes(), b"o", b"k")
        .ok()
        .ok_or("no value")?;
    assert!(rt; cell.bytes() == CELL.as_slice());
    let item = CacheItem::decode(&CELL).ok_or("no cell")?;
    assert!(rt;
        item.head == MARKED
            && item.bytes == b"ok".as_slice()
            && CacheItem::decode(&CELL[..16]).is_none()
            && CacheItem::decode(&[31, 0, 0, 0, 0, 0, 0, 0, 3, 0, 0, 1, 2, 0, 1, 0, 0]).is_none()
            && CacheItem::decode(&[4, 0, 0, 0, 0, 0, 0, 0, 3, 0, 0, 0, 0, b'x']).is_none()
    );
    Ok(())
}

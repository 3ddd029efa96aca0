// Streams of requests, cut anywhere.
mod rows;

use super::scripted::play;
use std::test::Fail;

static CUT: &[u8] = b"
    send set k 0 0 3$a; bytes 10; more b$get a ~bc~$~gats 5 d; bytes 10; more set k 0 0 11$12345678901$\
        ms k 2 S$xy$mn$set k 0 0 2$abcdfoo$gets$quit$
    events 1 39 0 Data { request: Store(StoreRequest { mode: Set, key: [107], flags: 0, exptime: Never, length: 3, cas: 0, noreply: false }), data: [97, 10, 98] }$\
        Request(Get { with_cas: false })$Key { key: [97], exptime: None, with_cas: false }$\
        Key { key: [98, 99], exptime: None, with_cas: false }$KeysEnd$\
        Request(GetAndTouch { exptime: At(5), with_cas: true })$\
        Key { key: [100], exptime: Some(At(5)), with_cas: true }$KeysEnd$\
        TooLarge(Store(StoreRequest { mode: Set, key: [107], flags: 0, exptime: Never, length: 11, cas: 0, noreply: false }))$\
        Refused(LineRefusal { fault: BadFlag, noreply: false, block: OfLength(2) })$Request(MetaNoop)$\
        Refused(LineRefusal { fault: BadData, noreply: false, block: Absent })$\
        Refused(LineRefusal { fault: Unknown, noreply: false, block: Absent })$\
        Refused(LineRefusal { fault: Unknown, noreply: false, block: Absent })$Request(Quit)$
    events 1000 1000 0 Data { request: Store(StoreRequest { mode: Set, key: [107], flags: 0, exptime: Never, length: 3, cas: 0, noreply: false }), data: [97, 10, 98] }$\
        Request(Get { with_cas: false })$Key { key: [97], exptime: None, with_cas: false }$\
        Key { key: [98, 99], exptime: None, with_cas: false }$KeysEnd$\
        Request(GetAndTouch { exptime: At(5), with_cas: true })$\
        Key { key: [100], exptime: Some(At(5)), with_cas: true }$KeysEnd$\
        TooLarge(Store(StoreRequest { mode: Set, key: [107], flags: 0, exptime: Never, length: 11, cas: 0, noreply: false }))$\
        Refused(LineRefusal { fault: BadFlag, noreply: false, block: OfLength(2) })$Request(MetaNoop)$\
        Refused(LineRefusal { fault: BadData, noreply: false, block: Absent })$\
        Refused(LineRefusal { fault: Unknown, noreply: false, block: Absent })$\
        Refused(LineRefusal { fault: Unknown, noreply: false, block: Absent })$Request(Quit)$
";

#[test]
fn a_stream_gives_the_same_however_it_is_cut(rt: HostRuntime) -> Result<(), Fail> {
    play(rt.alloc(), CUT)
}

static BLOCKS: &[u8] = b"
    send set k 0 x 9$flush_all$cas k 0 0 9$flush_all$add k x 0 9 noreply$flush_all$ms k 9 !$flush_all$mn$\
        set k 0 0 4294967305$flush_all$
    events 1 29 0 Refused(LineRefusal { fault: BadFormat, noreply: false, block: OfLength(9) })$\
        Refused(LineRefusal { fault: Unknown, noreply: false, block: OfLength(9) })$\
        Refused(LineRefusal { fault: BadFormat, noreply: true, block: OfLength(9) })$\
        Refused(LineRefusal { fault: BadFlag, noreply: false, block: OfLength(9) })$Request(MetaNoop)$\
        Refused(LineRefusal { fault: BadFormat, noreply: false, block: Unreadable })$
";

#[test]
fn a_block_of_a_refused_line_is_no_request(rt: HostRuntime) -> Result<(), Fail> {
    play(rt.alloc(), BLOCKS)
}

static BINARY: &[u8] = b"
    send mn$; bytes 128 11 0 10; more get a$
    events 1 8 0 Request(MetaNoop)$Foreign$
";

#[test]
fn the_binary_protocol_has_an_event_of_its_own(rt: HostRuntime) -> Result<(), Fail> {
    play(rt.alloc(), BINARY)
}

static HTTP: &[u8] = b"
    send PUT / HTTP$mn HTTP/1.1$get HTTP/1.1$DELETE / HTTP/1.0$mn$
    events 1 8 0 Refused(LineRefusal { fault: Unknown, noreply: false, block: Absent })$Request(MetaNoop)$\
        Request(Get { with_cas: false })$\
        Key { key: [72, 84, 84, 80, 47, 49, 46, 49], exptime: None, with_cas: false }$KeysEnd$Foreign$
";

#[test]
fn a_line_of_http_ends_the_stream(rt: HostRuntime) -> Result<(), Fail> {
    play(rt.alloc(), HTTP)
}

static KEYS: &[u8] = b"
    send get a; fill ~*2100; more bc d$mn$
    events 700 700 0 Request(Get { with_cas: false })$Key { key: [97], exptime: None, with_cas: false }$\
        Key { key: [98, 99], exptime: None, with_cas: false }$Key { key: [100], exptime: None, with_cas: false }$\
        KeysEnd$Request(MetaNoop)$
";

#[test]
fn a_long_line_of_keys_is_given_key_by_key(rt: HostRuntime) -> Result<(), Fail> {
    play(rt.alloc(), KEYS)
}

static LONG_KEY: &[u8] = b"
    send get a~; fill k*251; more ~e$mn$
    events 1 5 0 Request(Get { with_cas: false })$Key { key: [97], exptime: None, with_cas: false }$\
        Refused(LineRefusal { fault: BadFormat, noreply: false, block: Absent })$Request(MetaNoop)$
";

#[test]
fn a_key_of_251_bytes_refuses_the_rest_of_its_line(rt: HostRuntime) -> Result<(), Fail> {
    play(rt.alloc(), LONG_KEY)
}

static LONG_LINES: &[u8] = b"
    send version; fill ~*2040; more $mn$
    events 1 2 0 Request(Version)$Request(MetaNoop)$
    send version; fill ~*2041; more $mn$
    events 700 700 0 Refused(LineRefusal { fault: LineTooLong, noreply: false, block: Absent })$
";

#[test]
fn another_line_has_at_most_2048_bytes(rt: HostRuntime) -> Result<(), Fail> {
    play(rt.alloc(), LONG_LINES)
}

// What lines ask for.
use super::scripted::play;
use std::test::Fail;

static STORING: &[u8] = b"
    send set key 1 2 3
    asks Ok(Store(StoreRequest { mode: Set, key: [107, 101, 121], flags: 1, exptime: At(2), length: 3, cas: 0, noreply: false }))
    send set k 4294967303 4294967295 +3
    asks Ok(Store(StoreRequest { mode: Set, key: [107], flags: 7, exptime: Past, length: 3, cas: 0, noreply: false }))
    send set k +5 4294967396 00000000000000000000000003
    asks Ok(Store(StoreRequest { mode: Set, key: [107], flags: 5, exptime: At(100), length: 3, cas: 0, noreply: false }))
    send set k 0 -9223372036854775808 0
    asks Ok(Store(StoreRequest { mode: Set, key: [107], flags: 0, exptime: Past, length: 0, cas: 0, noreply: false }))
    send cas k 7 0 5 18446744073709551615 noreply
    asks Ok(Store(StoreRequest { mode: Cas, key: [107], flags: 7, exptime: Never, length: 5, cas: 18446744073709551615, noreply: true }))
    send add k 0 -1 1 noreply
    asks Ok(Store(StoreRequest { mode: Add, key: [107], flags: 0, exptime: Past, length: 1, cas: 0, noreply: true }))
    send replace k 0 -0 1 x
    asks Ok(Store(StoreRequest { mode: Replace, key: [107], flags: 0, exptime: Never, length: 1, cas: 0, noreply: false }))
    send append k 0 9 1
    asks Ok(Store(StoreRequest { mode: Append, key: [107], flags: 0, exptime: At(9), length: 1, cas: 0, noreply: false }))
    send ~prepend ~~k 4294967295 ~-2147483648 2147483647~
    asks Ok(Store(StoreRequest { mode: Prepend, key: [107], flags: 4294967295, exptime: Past, length: 2147483647, cas: 0, noreply: false }))
";

#[test]
fn storing_lines_have_their_numbers_in_order(rt: HostRuntime) -> Result<(), Fail> {
    play(rt.alloc(), STORING)
}

static WITH_KEYS: &[u8] = b"
    send get a b
    asks Ok(Get { with_cas: false })
    send gets a
    asks Ok(Get { with_cas: true })
    send gat 9 a
    asks Ok(GetAndTouch { exptime: At(9), with_cas: false })
    send gats 0 a
    asks Ok(GetAndTouch { exptime: Never, with_cas: true })
    send delete k
    asks Ok(Delete { key: [107], noreply: false })
    send delete k 0 noreply
    asks Ok(Delete { key: [107], noreply: true })
    send touch k -5 noreply
    asks Ok(Touch { key: [107], exptime: Past, noreply: true })
    send incr n 10
    asks Ok(Delta(DeltaRequest { direction: Up, key: [110], amount: 10, noreply: false }))
    send decr m 18446744073709551615 noreply
    asks Ok(Delta(DeltaRequest { direction: Down, key: [109], amount: 18446744073709551615, noreply: true }))
";

#[test]
fn lines_with_keys_ask_for_what_they_name(rt: HostRuntime) -> Result<(), Fail> {
    play(rt.alloc(), WITH_KEYS)
}

static OF_THE_SERVER: &[u8] = b"
    send flush_all
    asks Ok(FlushAll { delay: 0, noreply: false })
    send flush_all noreply
    asks Ok(FlushAll { delay: 0, noreply: true })
    send flush_all 30 noreply
    asks Ok(FlushAll { delay: 30, noreply: true })
    send stats
    asks Ok(Stats { argument: [], further: [] })
    send stats ab c d
    asks Ok(Stats { argument: [97, 98], further: [99] })
    send version
    asks Ok(Version)
    send verbosity 2 noreply
    asks Ok(Verbosity { level: 2, noreply: true })
    send quit
    asks Ok(Quit)
    send shutdown
    asks Ok(Shutdown { graceful: false })
    send shutdown graceful
    asks Ok(Shutdown { graceful: true })
    send mn
    asks Ok(MetaNoop)
";

#[test]
fn lines_of_the_server_ask_for_what_they_name(rt: HostRuntime) -> Result<(), Fail> {
    play(rt.alloc(), OF_THE_SERVER)
}

static META: &[u8] = b"
    send mg k v ~t
    asks Ok(Meta(MetaRequest { command: Get, key: [107], length: 0, flags: [118, 32, 32, 116] }))
    send ms k 5 q
    asks Ok(Meta(MetaRequest { command: Set, key: [107], length: 5, flags: [113] }))
    send md k~
    asks Ok(Meta(MetaRequest { command: Delete, key: [107], length: 0, flags: [] }))
    send ma k MD
    asks Ok(Meta(MetaRequest { command: Arithmetic, key: [107], length: 0, flags: [77, 68] }))
    send me k
    asks Ok(Meta(MetaRequest { command: Debug, key: [107], length: 0, flags: [] }))
";

#[test]
fn meta_lines_have_a_key_and_flags(rt: HostRuntime) -> Result<(), Fail> {
    play(rt.alloc(), META)
}

static REFUSED: &[u8] = b"
    send incr k x noreply
    asks Err(LineRefusal { fault: BadDelta, noreply: true, block: Absent })
    send set k x 0 1 noreply
    asks Err(LineRefusal { fault: BadFormat, noreply: true, block: OfLength(1) })
    send incr k x
    asks Err(LineRefusal { fault: BadDelta, noreply: false, block: Absent })
    send shutdown noreply
    asks Err(LineRefusal { fault: BadShutdown, noreply: false, block: Absent })
    send touch k 1 2 3 noreply
    asks Err(LineRefusal { fault: Unknown, noreply: false, block: Absent })
    send ms k 10 !
    asks Err(LineRefusal { fault: BadFlag, noreply: false, block: OfLength(10) })
    send ms k x !
    asks Err(LineRefusal { fault: BadFormat, noreply: false, block: Unreadable })
    send set k x 0 10
    asks Err(LineRefusal { fault: BadFormat, noreply: false, block: OfLength(10) })
    send set k 0 0 noreply
    asks Err(LineRefusal { fault: BadFormat, noreply: true, block: Unreadable })
    send cas k 0 0 +5
    asks Err(LineRefusal { fault: Unknown, noreply: false, block: OfLength(5) })
    send set k 0 0 5 6 7 noreply
    asks Err(LineRefusal { fault: Unknown, noreply: false, block: OfLength(5) })
    send add k 0 0 4294967301
    asks Err(LineRefusal { fault: BadFormat, noreply: false, block: Unreadable })
    send ms k
    asks Err(LineRefusal { fault: BadFormat, noreply: false, block: Unreadable })
";

#[test]
fn refusals_say_whether_they_are_answered_and_what_they_pass_over(
    rt: HostRuntime,
) -> Result<(), Fail> {
    play(rt.alloc(), REFUSED)
}

static LETTERS: &[u8] = b"
    send ms key 5 T60 ~F7 C99 I Oabc MA q
    flags Some(At(60)) Some(7) Some([97, 98, 99]) Some([]) None
";

#[test]
fn meta_flags_are_looked_up_by_letter(rt: HostRuntime) -> Result<(), Fail> {
    play(rt.alloc(), LETTERS)
}

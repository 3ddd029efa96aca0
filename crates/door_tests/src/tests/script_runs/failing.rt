// Readers that are slow or fail, a writer that fails, and memory that may be refused.
use super::played::play;
use scripts::{ScriptFault, Scripted, run_script};
use std::test::Fail;

/// A slow reader gives the same. If a read fails, neither the line that was being read nor a line after the fault is answered, though
/// the reader would go on. A line is judged at its 4,097th byte, and a reader that fails after that is not asked.
static SLOW: &[u8] = b"
large; slow; config 1 1 4 2 1 8 1 65536 -> ready; put a 1 0 -> stored; get a -> hit 1 memory; get -> bad line 4; cut
end bad line
large; slow; fails 0; config 1 1 4 2 1 8 1 65536 -> ready; put a 1 0 -> stored; get a -> hit 1 memory; get ->; cut
end read fault
large; slow; fails 3; config 1 1 4 2 1 8 1 65536 -> ready; put a 1 0 -> stored; get a -> hit 1 memory; get ->; cut
end read fault
large; slow; fails 5; config 1 1 4 2 1 8 1 65536 -> ready; put a 1 0 -> stored; get a ->; get ->; cut; end read fault
large; slow; fails 46; config 1 1 4 2 1 8 1 65536 ->; put a 1 0 ->; get a ->; get ->; cut; end read fault
large; slow; fails 0; x*4097 -> bad line 1; cut; end bad line
large; slow; fails 1; x*4097 ->; cut; end read fault
";

/// A writer may take nothing. Then the script is given up.
static BROKEN: &[u8] = b"
large; refuse-writes; config 1 1 4 2 1 8 1 65536 ->; end write fault
";

#[test]
fn a_slow_reader_gives_the_same_until_it_fails(rt: HostRuntime) -> Result<(), Fail> {
    play(rt.alloc(), SLOW)
}

#[test]
fn a_writer_may_fail(rt: HostRuntime) -> Result<(), Fail> {
    play(rt.alloc(), BROKEN)
}

static TIERS: &[u8] =
    b"config 1 1 1 2 1 8 2 65536\nput ax 1 0\nput bx 2 0\nget ax\nflush\nflush\nmove\nmove\nget ax\nremove ax\nverdict\ntrace\n";

static TIERS_REPLIES: &[u8] =
    b"ready\nstored\nstored\nhit 1 log\nsealed\nwrote\nreadmitted\nfreed\nhit 1 log\nremoved\naccepted 5 calls\n4b475452414345320000000501000000000000000000010000000000000003026178000131ffffffffffffffff01000000000000000000040000000000000006026278000132ffffffffffffffff030000000000000000000700000000000000090261780001310000000000000000030000000000000000000a000000000000000c0261780001310000000000000000020000000000000000000d000000000000000f0261780000000000000001000000020000000300000004\n";

/// Whether this is all that the script above must write if it ended so, or if it was given up, the
/// replies of its first lines.
fn wrote_first_replies(out: &[u8], ending: Result<Scripted, ScriptFault>) -> bool {
    match ending {
        Ok(_) => out == TIERS_REPLIES,
        Err(fault) => {
            fault == ScriptFault::OutOfMemory
                && TIERS_REPLIES.starts_with(out)
                && (out.is_empty() || out.ends_with(b"\n"))
        }
    }
}

/// Memory may be refused here, since it is when the tests are tried with a growth that fails.
#[test]
fn a_script_that_lacks_memory_has_answered_the_lines_before(rt: HostRuntime) -> Result<(), Fail> {
    let mut out: Vec<u8> = Vec::new(rt.alloc());
    out.reserve(TIERS_REPLIES.len())?;
    let mut reader = TIERS;
    let ending = run_script::<256, &[u8], Vec<u8>>(rt.alloc(), &mut reader, &mut out);
    assert!(rt; wrote_first_replies(out.as_slice(), ending));
    Ok(())
}

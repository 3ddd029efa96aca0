// Which lines are spelled as a script's lines.
use scripts::{Scripted, run_script};
use std::alloc::Global;
use std::test::Fail;

static GOOD: &[u8] = b"put a 1 4294967295
put ~ ! 0
flush
move
put a 1 0 18446744073709551615
get a 18446744073709551615
get a";

/// The last one is empty.
static BAD: &[u8] = b"put a 1 4294967296
put a 1 0 18446744073709551616
put a 1 0 never
put a 1 0 00
put a 1 0 1 2
get a 18446744073709551616
get a x
get a 1 2
put a 1 10000000000
put a 1 00
put a 1 07
put a 1 +7
put a 1 -7
put  a 1 0
 put a 1 0
put a 1 0\x20
put a\t1 0
put a 1 0\r
put a \x7f 0
put a \x80 0
config 1 1 4 2 1 8 1 65536
Verdict
flush x
move x
flush\x20
Move
flushes
";

/// How a script with this second line ends.
fn ends(alloc: Global, line: &[u8]) -> Result<Scripted, Fail> {
    let mut input = b"config 1 1 4 2 1 8 1 65536\n".to_vec(alloc)?;
    input.extend_from_slice(line)?;
    input.extend_from_slice(b"\nverdict\n")?;
    let mut reader = input.as_slice();
    let mut out: Vec<u8> = Vec::new(alloc);
    Ok(run_script::<256, &[u8], Vec<u8>>(alloc, &mut reader, &mut out)?)
}

/// Whether there are so many lines, each of which ends a script so.
fn all_end(alloc: Global, lines: &[u8], count: u32, ending: Scripted) -> Result<bool, Fail> {
    let mut ended = 0u32;
    for line in lines.split(|b| *b == b'\n') {
        if ends(alloc, line)? != ending {
            return Ok(false);
        }
        ended = ended.wrapping_add(1);
    }
    Ok(ended == count)
}

#[test]
fn lines_are_spelled_exactly(rt: HostRuntime) -> Result<(), Fail> {
    assert!(rt;
        all_end(rt.alloc(), GOOD, 7, Scripted::Ended)?
            && all_end(rt.alloc(), BAD, 28, Scripted::BadLine)?
    );
    Ok(())
}

// When the replies of a script are flushed: before a read, if there are some, and at no other time. A reader gives a piece at each
// read; each text tells how often the output must be flushed, and how many bytes it must have then.
use super::played::play;
use std::test::Fail;

static PIECES: &[u8] = b"
# a line at a time: each reply goes out before the next line is asked for
config 1 1 4 2 1 8 1 65536 -> ready; |put a 1 0 -> stored; end ended; flushed 2 13
# all at once: one flush, before the read that finds the end
config 1 1 4 2 1 8 1 65536 -> ready; put a 1 0 -> stored; get a -> hit 1 memory; end ended; flushed 1 26
# the end is not asked for again after a last line with no line feed
config 1 1 4 2 1 8 1 65536 -> ready; |get a -> miss absent; cut; end ended; flushed 1 6
# if no reply came since the last flush there is none
config 1 1 4 2 1 8 1 65536 -> ready; put a| 1| 0 -> stored; |put -> bad line 3; cut; end bad line; flushed 2 13
# a script that ends at a bad line reads no further
config 1 1 4 2 1 8 1 65536 -> ready; get -> bad line 2; |get a ->; end bad line; flushed 0 0
";

#[test]
fn replies_go_out_before_a_read(rt: HostRuntime) -> Result<(), Fail> {
    play(rt.alloc(), PIECES)
}

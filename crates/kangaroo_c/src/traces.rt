// Judging a trace.
ghost use Rattle.std.specs.Prelude.{◌≡◌};
ghost use Rattle.c_lane.specs.Judging.{JudgesTrace};
ghost use Rattle.kangaroo_c.specs.Telling.{IsJudgedBy};

use c_lane::{Seed, judge_trace};
use std::alloc::Global;

/// Judges a trace, and writes the line of its verdict to the front of a buffer.
#[unsafe(no_mangle)]
pub extern "C" fn kl_check(
    alloc: Global,
    seed: &Seed,
    trace: &[u8],
    line: &mut [u8],
    length: &mut usize,
) -> i32
    ensures { IsJudgedBy trace.now line.old result line.new length.new }
{
    judge_trace(alloc, seed, trace, line, length).number()
}

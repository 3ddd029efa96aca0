// How the program ends, by what its output takes: each text tells how many bytes it takes.
use super::played::play;
use super::streams::{Output, Refuses};
use command_line::{Ending, tell_help};
use std::test::Fail;

static LAST_LINES: &[u8] = b"
config 1 1 4 2 1 8 1 65536 -> ready; answer done 6
config 1 1 4 2 1 8 1 65536 -> ready; get -> bad line 2; answer bad line 17
config 1 0 4 2 1 8 1 65536 -> bad config sets; answer bad config 16
";

static FAILING: &[u8] = b"
refuse-writes; config 1 1 4 2 1 8 1 65536 ->; answer file fault 0
refuse-flushes; config 1 1 4 2 1 8 1 65536 -> ready; answer file fault 6
refuse-flushes; config 1 1 4 2 1 8 1 65536 -> ready; get -> bad line 2; answer file fault 17
";

/// The replies to the whole lines are written out also if the input fails.
static CUT: &[u8] = b"
fails 0; config 1 1 4 2 1 8 1 65536 -> ready; put a ->; cut; answer read fault 6
";

#[test]
fn a_script_ends_the_program_by_its_last_line(rt: HostRuntime) -> Result<(), Fail> {
    play(rt.alloc(), LAST_LINES)
}

#[test]
fn an_output_that_fails_ends_the_program_with_a_file_fault(rt: HostRuntime) -> Result<(), Fail> {
    play(rt.alloc(), FAILING)
}

#[test]
fn an_input_that_fails_ends_the_program_with_a_read_fault(rt: HostRuntime) -> Result<(), Fail> {
    play(rt.alloc(), CUT)
}

#[test]
fn a_help_text_is_written_or_a_file_fault(rt: HostRuntime) {
    let mut output = Output::new(rt.alloc(), Refuses::Nothing);
    assert!(rt; tell_help(&mut output, "how") == Ending::Done && output.bytes.len() == 3);
    output.refuses = Refuses::Writes;
    assert!(rt; tell_help(&mut output, "how") == Ending::FileFault);
    output.refuses = Refuses::Flushes;
    assert!(rt; tell_help(&mut output, "how") == Ending::FileFault);
}

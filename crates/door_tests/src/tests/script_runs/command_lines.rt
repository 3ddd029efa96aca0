// What the words of a command line ask for, and how the program ends.
use crate::tests::asked::ask;
use std::test::Fail;

/// The commands with their options.
static LINES: &[u8] = b"
kangaroo script -> script
kangaroo check a.trace -> check a.trace
kangaroo --help -> help; has Usage: kangaroo <COMMAND>|
kangaroo --version -> help; is kangaroo 1.0.1|
# Wider calls, and how many calls there have to be.
kangaroo judge --skew 25 - -> judge -*1 skew 25
kangaroo judge --skew=9223372036854775808 - -> refused; usage
kangaroo judge --skew=1 --trace=b.trace - -> refused; usage
kangaroo judge --skew=0 --trace=b.trace - -> judge -*1 trace=b.trace
kangaroo judge --at-least 1000 - -> judge -*1 at-least 1000
kangaroo judge --at-least=268435457 - -> refused; usage
kangaroo judge --at-least=1K - -> refused; usage
# All options of each command.
kangaroo check --explain a.trace --picture a.svg -> check a.trace explain picture=a.svg
kangaroo judge - -> judge -*1
kangaroo judge --trace b.trace --picture=a.svg --explain --all --junit=c.xml a.txt -> judge a.txt explain all picture=a.svg trace=b.trace junit=c.xml
kangaroo judge --html d.html - -> judge -*1 page html=d.html
kangaroo judge --all --junit=c.xml --html=d.html a.txt -> judge a.txt all junit=c.xml page html=d.html
kangaroo show a.trace -> show a.trace
kangaroo show a.trace --key a%20b -> show a.trace key=a%20b
kangaroo judge --explain -> refused; usage
kangaroo show a.trace --explain -> refused; usage
kangaroo check a.trace --json -> check a.trace json
kangaroo judge --json - -> judge -*1 json
kangaroo script --json -> refused; usage
kangaroo show a.trace --json -> refused; usage
kangaroo check a.trace --json=true -> refused; usage
";

/// Shares, bad lines and windows; and several files.
static READINGS: &[u8] = b"
kangaroo judge - -> judge -*1; share 0 1
kangaroo judge --skip-bad - -> judge -*1 skip-bad; share 0 1
kangaroo judge --keys 2/8 - -> judge -*1; share 2 8
kangaroo judge --window=0 - -> judge -*1 window 0; share 0 1
kangaroo judge --window 9223372036854775807 - -> judge -*1 window 9223372036854775807; share 0 1
kangaroo judge a.txt - -> judge a.txt -*1
kangaroo judge b --json a -> judge b a json
# Refused are shares that are none, windows that are no numbers, a trace of calls that are forgotten, and several files where one is taken.
kangaroo judge --keys=8/8 - -> refused; usage
kangaroo judge --keys=2 - -> refused; usage
kangaroo judge --keys=/8 - -> refused; usage
kangaroo judge --keys=2/ - -> refused; usage
kangaroo judge --keys=1/4294967296 - -> refused; usage
kangaroo judge --keys=a/8 - -> refused; usage
kangaroo judge --keys=1/2/3 - -> refused; usage
kangaroo judge --window=9223372036854775808 - -> refused; usage
kangaroo judge --window=1s - -> refused; usage
kangaroo judge --window=1 --trace=b.trace - -> refused; usage
kangaroo judge --window=0 --trace=b.trace - -> refused; usage
kangaroo judge - - -> refused; usage
kangaroo judge --trace=t a b -> refused; usage
kangaroo judge --picture=p a b -> refused; usage
kangaroo judge --junit=j a b -> refused; usage
kangaroo judge --html=h a b -> refused; usage
kangaroo check a.trace b.trace -> refused; usage
";

/// A help begins with what is done and ends with the manual.
static HELPS: &[u8] = b"
kangaroo --help -> help; ends |Manual: man kangaroo, or docs/CLI.md|
begins A flash cache for small objects, and a checker of recorded histories|
kangaroo show --help -> help; ends |Manual: man kangaroo, or docs/CLI.md|; begins Print a trace as text, one call per line|
kangaroo help run -> help; ends |Manual: man kangaroo, or docs/CLI.md|
begins Stress a recorded cache with threads, and check the history of their calls|
# The program calls itself by one name, whatever file it was started as.
out/bench_driver --help -> help; has Usage: kangaroo <COMMAND>|
out/bench_driver check -> refused; usage
";

static OTHERS: &[u8] = b"
# What the words are if one of them is not text can't be told, but how they are spelled can.
no-text refused; usage
-> refused; usage
kangaroo -> refused; usage
kangaroo check -> refused; usage
kangaroo script more -> refused; usage
kangaroo check a.trace more -> refused; usage
kangaroo cheque a.trace -> refused; usage
";

/// What is told at each ending with its status, and what a bad script is told its lines may be.
static ENDINGS: &[u8] = b"
ending read fault; status 3; is file fault|the input was not read whole|
ending file fault; status 3; is file fault|the output was not written whole|
ending out of memory; is out of memory|free memory, or give smaller numbers to the config line of a script|
ending bad words; status 2; is
ending done; status 0; is
ending bad line; status 2
is the first line is: config LANES SETS MEMORY SEGMENTS SEGMENT-PAGES ENTRIES THRESHOLD ADMIT|a later line is one of: put KEY VALUE WORD [EXPIRES], get KEY [MOMENT], remove KEY, forget KEY, flush, move, verdict, trace|separate words by exactly one space, write numbers without leading zeros, and end each line by a line feed|
ending bad config; status 2
is config takes: LANES 1, SETS 1 to 65536, MEMORY 1 to 1048576, SEGMENTS 2 to 256, SEGMENT-PAGES 1 to 64, ENTRIES 1 to 1048576, THRESHOLD 1 to 32, ADMIT 0 to 65536|
without-random; status 3; is file fault|no random numbers: permission denied|
";

#[test]
fn command_lines_are_read(rt: HostRuntime) -> Result<(), Fail> {
    ask(rt.alloc(), LINES)
}

#[test]
fn shares_bad_lines_windows_and_several_files_are_asked_for(rt: HostRuntime) -> Result<(), Fail> {
    ask(rt.alloc(), READINGS)
}

#[test]
fn a_help_begins_with_what_is_done_and_ends_with_the_manual(rt: HostRuntime) -> Result<(), Fail> {
    ask(rt.alloc(), HELPS)
}

#[test]
fn other_command_lines_get_a_usage(rt: HostRuntime) -> Result<(), Fail> {
    ask(rt.alloc(), OTHERS)
}

#[test]
fn each_ending_tells_what_failed(rt: HostRuntime) -> Result<(), Fail> {
    ask(rt.alloc(), ENDINGS)
}

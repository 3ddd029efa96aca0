// What the help of the program and of its subcommands says: a line of what each does, and after the options when to use it,
// an example, the exit statuses, and where the manual is.

/// A line of what a command does, and what stands after its options.
#[derive(Clone, Copy)]
pub struct Help {
    /// What it does.
    pub about: &'static str,
    /// When to use it, an example, the exit statuses, and where the manual is.
    pub notes: &'static str,
}

/// That of the program.
pub const PROGRAM: Help = Help {
    about: "A flash cache for small objects, and a checker of recorded histories",
    notes: "Ask for the options of a command with: kangaroo COMMAND --help\n\nExample:\n  kangaroo run --trace run.trace && kangaroo check run.trace\n\nExit status: 0 done or accepted, 1 rejected or a wrong hit, 2 bad input, 3 memory, a file or the\n             system failed, 4 undecided\nManual: man kangaroo, or docs/CLI.md",
};

/// That of `script`.
pub const SCRIPT: Help = Help {
    about: "Answer the cache commands of a script on standard input",
    notes: "Use it to try the cache by hand: each line gets an answer. The first line sets the cache up,\nand each later line is a command:\n  config LANES SETS MEMORY SEGMENTS SEGMENT-PAGES ENTRIES THRESHOLD ADMIT\n  put KEY VALUE WORD [EXPIRES]    get KEY [MOMENT]    remove KEY    forget KEY\n  flush    move    verdict    trace\n\nExample:\n  printf 'config 1 1 4 2 1 8 1 65536\\nput a 1 0\\nget a\\nverdict\\n' | kangaroo script\n\nExit status: 0 the script ended, 2 a bad line, 3 memory, the input, the output or the system failed\nManual: man kangaroo, or docs/CLI.md",
};

/// That of `check`.
pub const CHECK: Help = Help {
    about: "Check a recorded history with its certificate (a trace)",
    notes: "Use it on a trace of kangaroo run, of kangaroo judge --trace, or of a recorder of your own. The\ncertificate is an order of the calls; in it each hit has to read the latest put of its key.\n\nExample:\n  kangaroo run --trace run.trace && kangaroo check --explain run.trace\n\nExit status: 0 accepted, 1 rejected, 2 not a trace, 3 memory, a file or the system failed\nManual: man kangaroo, or docs/CLI.md",
};

/// That of `judge`.
pub const JUDGE: Help = Help {
    about: "Check a history given as text, one call per line",
    notes: "Use it on the log of any cache or store that put, got and removed values by key. It looks for an\norder of the calls in which each hit reads the latest put of its key. A line is one of:\n  CALLER START END put KEY VALUE [EXPIRES]    CALLER START END hit KEY VALUE [MOMENT]\n  CALLER START END remove KEY                 CALLER START END miss KEY\n\nExample:\n  printf 'alice 10 20 put color red\\nbob 12 30 hit color red\\n' | kangaroo judge -\n\nExit status: 0 accepted, 1 rejected, 2 a bad line or too few calls, 3 memory, a file or the\n             system failed, 4 undecided; of several files the first of 3, 2, 1, 4 and 0\nManual: man kangaroo, or docs/CLI.md",
};

/// That of `show`.
pub const SHOW: Help = Help {
    about: "Print a trace as text, one call per line",
    notes: "Use it to read a trace, to search it, or to cut it down to one key. Its lines are those\nthat kangaroo judge reads.\n\nExample:\n  kangaroo show --key k17 run.trace | kangaroo judge --explain -\n\nExit status: 0 printed, 2 not a trace, not a key, or a call that has no text, 3 memory, a file or\n             the system failed\nManual: man kangaroo, or docs/CLI.md",
};

/// That of `run`.
pub const RUN: Help = Help {
    about: "Stress a recorded cache with threads, and check the history of their calls",
    notes: "Use it to test the cache. Each call is recorded; after the last one the history is checked with its\ncertificate, and both are written as a trace.\n\nExample:\n  kangaroo run --callers 8 --operations 50000 --keys 100 --trace run.trace\n\nExit status: 0 accepted, 1 rejected, 2 bad options, 3 a caller stopped, or memory, a file or the\n             system failed\nManual: man kangaroo, or docs/CLI.md",
};

/// That of `serve-load`.
pub const SERVE: Help = Help {
    about: "Load the cache that serves with threads, and report hits, latencies and writes",
    notes: "Use it to measure the cache. Nothing is recorded; each caller checks the hits of its own keys.\n\nExample:\n  kangaroo serve-load --size 100M --callers 4 --keys 50000\n\nExit status: 0 no hit was wrong, 1 a hit was wrong, 2 bad options, 3 memory, a file or the system\n             failed\nManual: man kangaroo, or docs/CLI.md",
};

// What the help says of the options that judge and show.

/// Whether it is said why a history is rejected.
pub const EXPLAIN: &str =
    "Explain why the history is rejected, and show the calls around the place";

/// Whether all faults of a rejected history are listed.
pub const ALL: &str = "List all faults of a rejected history, one a line";

/// The file that a picture is drawn to.
pub const PICTURE: &str = "Draw why the history is rejected to this file, as SVG";

/// The file that an accepted history is written to.
pub const TRACE: &str = "Write an accepted history to this file, as a trace that check accepts";

/// The file that what came of judging is written to, as JUnit has it.
pub const JUNIT: &str = "Write what came of it to this file, as a JUnit test that CI systems show";

/// The file that a page of the calls and the faults is written to.
pub const HTML: &str = "Write all calls and faults to this file, as a page that a browser draws";

/// How many calls an accepted history has to have.
pub const AT_LEAST: &str =
    "End with status 2 if an accepted history has fewer calls than this, 0 to\n268435456. [default: 0]";

/// By how much each stamp may differ from the truth.
pub const SKEW: &str =
    "Judge as if each time might be wrong by so much, in the unit of the\ninput's times, 0 to 9223372036854775807. [default: 0]";

/// Whether values that were there from the start are taken as such.
pub const WARM: &str =
    "Take values that were read and never put as there from the start,\none of a key";

/// Which keys' calls are judged.
pub const KEYS: &str =
    "Judge one in Q keys: those whose hash leaves the remainder P, which is\nless than Q. With 0/Q to Q-1/Q each key is judged once.";

/// Whether bad lines are passed over.
pub const SKIP_BAD: &str = "Pass over lines that are not calls, and count them";

/// How far back a call may start, if the calls are judged as they come.
pub const WINDOW: &str =
    "Judge the calls as they come, and forget what can't matter any more. A\ncall may start so much before the last END that was read before, in the\nunit of the input's times, 0 to 9223372036854775807.";

/// The key whose calls alone are written.
pub const KEY: &str = "Print only the calls on this key (percent-encoded)";

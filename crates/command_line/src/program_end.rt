// How the program ended, with what failed.
ghost use Rattle.std.specs.Prelude.{◌≡◌};
ghost use Rattle.std.specs.Process.{exit_status};
ghost use Rattle.command_line.specs.Endings.{status_of};

use crate::ending::Ending;
use std::io;
use std::io::Write;
use std::process::ExitCode;

/// What the lines of a script may be.
const LINES: &str =
    "the first line is: config LANES SETS MEMORY SEGMENTS SEGMENT-PAGES ENTRIES THRESHOLD ADMIT\na later line is one of: put KEY VALUE WORD [EXPIRES], get KEY [MOMENT], remove KEY, forget KEY, flush, move, verdict, trace\nseparate words by exactly one space, write numbers without leading zeros, and end each line by a line feed\n";

/// What the fields of a script's configuration may be.
const CONFIG: &str =
    "config takes: LANES 1, SETS 1 to 65536, MEMORY 1 to 1048576, SEGMENTS 2 to 256, SEGMENT-PAGES 1 to 64, ENTRIES 1 to 1048576, THRESHOLD 1 to 32, ADMIT 0 to 65536\n";

/// How the program ended, and why the system gave no random numbers, if that is the cause.
#[derive(Drop)]
pub struct ProgramEnd {
    pub ending: Ending,
    without_random: Option<io::Error>,
}

impl ProgramEnd {
    /// The program ended so, with nothing more to tell.
    pub fn plain(ending: Ending) -> ProgramEnd
        ensures { result.ending ≡ ending }
    {
        ProgramEnd {
            ending,
            without_random: None,
        }
    }

    /// The program ended since the system gave no random numbers.
    pub fn without_random(error: io::Error) -> ProgramEnd
        ensures { result.ending ≡ Ending.FileFault }
    {
        ProgramEnd {
            ending: Ending::FileFault,
            without_random: Some(error),
        }
    }

    /// Writes the line of its ending, if that has one, and then lines that say what was wrong and what to do: after `file fault`
    /// that the system gave no random numbers, with its cause, or that the input or the output failed; after a bad line or a bad
    /// configuration of a script what is taken. What `err` refuses is not told, so no clause says what it holds.
    pub fn tell<E: Write>(&self, err: &mut E) {
        if let Some(message) = self.ending.message() {
            let _ = write!(err, "{message}\n");
        }
        match &self.without_random {
            Some(error) => {
                let _ = write!(err, "no random numbers: {error}\n");
            }
            None => self.tell_more(err),
        }
        let _ = err.flush();
    }

    /// Writes what else is to be said of its ending.
    fn tell_more<E: Write>(&self, err: &mut E) {
        let text = match self.ending {
            Ending::ReadFault => "the input was not read whole\n",
            Ending::FileFault => "the output was not written whole\n",
            Ending::BadLine => LINES,
            Ending::BadConfig => CONFIG,
            Ending::OutOfMemory => {
                "free memory, or give smaller numbers to the config line of a script\n"
            }
            Ending::Done | Ending::BadWords => "",
        };
        let _ = err.write_all(text.as_bytes());
    }

    /// The status that `main` returns.
    pub fn code(&self) -> ExitCode
        ensures { exit_status result ≡ status_of self.now.ending }
    {
        self.ending.code()
    }
}

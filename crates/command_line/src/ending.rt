// How the program ends after a script, help, or words that it does not take.
ghost use Rattle.std.specs.Prelude.{◌≡◌};
ghost use Rattle.std.specs.Option.{option_map};
ghost use Rattle.std.specs.Process.{exit_status};
ghost use Rattle.command_line.specs.Endings.{ending_of_script, status_of, message_of};

use scripts::{ScriptFault, Scripted};
use std::process::ExitCode;

/// How the program ends.
#[derive(Clone, Copy, PartialEq, Eq)]
pub enum Ending {
    /// All was done: the script ended, or help was given.
    Done,
    /// The words of the command line were bad.
    BadWords,
    /// A line of a script was bad.
    BadLine,
    /// A field of a script's configuration was out of its range.
    BadConfig,
    /// Memory was refused.
    OutOfMemory,
    /// The input of a script failed, and the output did not.
    ReadFault,
    /// A file or the output failed.
    FileFault,
}

impl Ending {
    /// How the program ends after a script.
    pub fn of_script(outcome: Result<Scripted, ScriptFault>) -> Ending
        ensures { result ≡ ending_of_script outcome }
    {
        match outcome {
            Ok(Scripted::Ended) => Ending::Done,
            Ok(Scripted::BadLine) => Ending::BadLine,
            Ok(Scripted::BadConfig) => Ending::BadConfig,
            Err(ScriptFault::OutOfMemory) => Ending::OutOfMemory,
            Err(ScriptFault::ReadFault) => Ending::ReadFault,
            Err(ScriptFault::WriteFault) => Ending::FileFault,
        }
    }

    /// The status that the program ends with.
    pub fn status(self) -> u8
        ensures { result ≡ status_of self }
    {
        match self {
            Ending::Done => 0,
            Ending::BadWords | Ending::BadLine | Ending::BadConfig => 2,
            Ending::OutOfMemory | Ending::ReadFault | Ending::FileFault => 3,
        }
    }

    /// The same, as `main` returns it.
    pub fn code(self) -> ExitCode
        ensures { exit_status result ≡ status_of self }
    {
        ExitCode::from(self.status())
    }

    /// The line that it writes to standard error, if it writes one.
    pub fn message(self) -> Option<&'static str>
        ensures { option_map (λ m. m.now) result ≡ message_of self }
    {
        match self {
            Ending::Done | Ending::BadWords | Ending::BadLine | Ending::BadConfig => None,
            Ending::OutOfMemory => Some("out of memory"),
            Ending::ReadFault | Ending::FileFault => Some("file fault"),
        }
    }
}

ghost use Rattle.std.specs.Prelude.{◌≡◌};
ghost use Rattle.history_text.specs.Outcome.{of_read_line};

use crate::bad_line::BadLine;
use script_words::ReadLineFault;

/// Why a text was not read.
#[derive(Clone, Copy, PartialEq, Eq)]
pub enum ReadTextFault {
    /// This line is the first bad one.
    Bad(BadLine),
    /// The reader failed. A failed read is not tried again.
    ReadFault,
    /// Memory was refused.
    OutOfMemory,
    /// There are more calls than 64 bits can count. Reading a whole text never gives this fault, since a history ends long before.
    CountFull,
}

impl From<ReadLineFault> for ReadTextFault {
    ghost from_gives = { λ fault e. e ≡ of_read_line fault };

    fn from(fault: ReadLineFault) -> ReadTextFault {
        match fault {
            ReadLineFault::OutOfMemory => ReadTextFault::OutOfMemory,
            ReadLineFault::ReadFault => ReadTextFault::ReadFault,
        }
    }
}

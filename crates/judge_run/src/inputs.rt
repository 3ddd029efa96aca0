// The input that a request names.
ghost use Rattle.std.specs.Prelude.{◌↔◌, IsTrue};
ghost use Rattle.judge_run.specs.Inputs.{IsStandardInput};

use trace_file::FileName;

/// The file name that means the standard input.
const STANDARD_INPUT: &str = "-";

/// Whether a name means the standard input.
pub(crate) fn is_standard_input(file: &FileName) -> bool
    ensures { IsTrue result ↔ IsStandardInput file.now }
{
    file.as_str() == STANDARD_INPUT
}

/// The name of an input in messages.
pub(crate) fn input_name(file: &FileName) -> &str {
    if is_standard_input(file) {
        "standard input"
    } else {
        file.as_str()
    }
}

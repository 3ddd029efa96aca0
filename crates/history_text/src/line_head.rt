// The first words of a line.
use trace_file::CallKind;

/// The first words of a line after its caller.
#[derive(Clone, Copy)]
pub(crate) struct LineHead {
    pub(crate) start: u64,
    pub(crate) end: u64,
    pub(crate) kind: CallKind,
}

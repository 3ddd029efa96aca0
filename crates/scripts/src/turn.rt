use crate::scripted::Scripted;

/// Whether a script goes on after a line.
#[derive(Clone, Copy)]
pub enum Turn {
    GoesOn,
    Ends(Scripted),
}

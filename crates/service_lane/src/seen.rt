// What a get saw.
use crate::copied::Copied;
use mover::AnswerKind;

/// What a get saw, and what it did with the copies.
#[derive(Clone, Copy, PartialEq, Eq)]
pub(crate) struct Seen {
    pub(crate) kind: AnswerKind,
    pub(crate) copied: Copied,
}

// What the fourth word of a line says that its call did.
ghost use Rattle.std.specs.Prelude.{◌≡◌};
ghost use Rattle.trace_file.specs.Lent.{act_shown};
ghost use Rattle.history_text.specs.Spelling.{has_words, kind_of, returns};
ghost use Rattle.history_text.specs.Spelled.{act_by};

use crate::line_cause::LineCause;
use trace_file::{ActRef, CallKind};

/// The kind that a word names.
pub(crate) fn kind_of(word: &[u8]) -> Result<CallKind, LineCause>
    ensures { result ≡ kind_of word.now }
{
    if word == b"put".as_slice() {
        Ok(CallKind::Put)
    } else if word == b"hit".as_slice() {
        Ok(CallKind::Hit)
    } else if word == b"miss".as_slice() {
        Ok(CallKind::Miss)
    } else if word == b"remove".as_slice() {
        Ok(CallKind::Remove)
    } else {
        Err(LineCause::BadKind)
    }
}

/// Whether a line of this kind can have this many words: the time of a put or a hit may be left out.
pub(crate) fn has_words(kind: CallKind, count: usize) -> bool
    ensures { result ≡ has_words kind count }
{
    match kind {
        CallKind::Put | CallKind::Hit => count == 6 || count == 7,
        CallKind::Miss | CallKind::Remove => count == 5,
    }
}

/// Whether a call of this kind is known by what it returned, so that one that never returned was none.
pub(crate) fn returns(kind: CallKind) -> bool
    ensures { result ≡ returns kind }
{
    match kind {
        CallKind::Hit | CallKind::Miss => true,
        CallKind::Put | CallKind::Remove => false,
    }
}

/// The act of a kind, with the bytes of its value and its time if it has them.
pub(crate) fn act_by(kind: CallKind, value: &[u8], time: u64) -> ActRef<'_>
    ensures { act_shown result ≡ act_by kind value.now time }
{
    match kind {
        CallKind::Put => ActRef::Put(value, time),
        CallKind::Hit => ActRef::Hit(value, time),
        CallKind::Miss => ActRef::Miss,
        CallKind::Remove => ActRef::Remove,
    }
}

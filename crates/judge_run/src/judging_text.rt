// Judging the history that a text spells.
ghost use Rattle.std.specs.Prelude.{◌≡◌, None, IfOk, IfErr, length};
ghost use Rattle.history_text.specs.Text.{text_by};
ghost use Rattle.judge_run.specs.Scopes.{IsCounted, IsWarmedIf, text_scoped};
ghost use Rattle.judge_run.specs.Streams.{IsEndedBy, IsFaultBy, IsJudgedBy, IsLeftBy, IsVerdict, was_accepted, was_decided};
ghost use Rattle.certificate_finder.specs.Finding.{IfRejected, IsFound};
ghost use Rattle.judge_run.specs.Listing.{IsListed};

use crate::extent::Extent;
use crate::judged_text::JudgedText;
use crate::listing::faults_of;
use crate::scope::Scope;
use crate::scoping::widen;
use crate::stream_end::StreamEnd;
use crate::streaming::judge_stream;
use crate::warming::warm_if;
use certificate_finder::find_with_hasher;
use history_text::{ReadText, ReadTextFault, TextHistory, read_text};
use std::alloc::{AllocError, Global};
use std::hash::BuildHasher;
use std::io::Read;

/// The fewest calls of a piece, if a text is read as a stream.
const LEAST_PIECE: usize = 65_536;

/// Reads the history that a text spells, and looks for a certificate with which it is accepted as it is judged in this scope. If it
/// is rejected, all its faults are listed.
///
/// A bad line, a failed read and refused memory are faults: see `read_text`. The tables of callers, keys and values hash by
/// `hash_builder`: whoever wrote the text should not know its seed.
pub fn judge_text<S: BuildHasher + Copy + Drop, R: Read>(
    alloc: Global,
    hash_builder: S,
    scope: Scope,
    reader: &mut R,
) -> Result<JudgedText<S>, ReadTextFault>
    ensures text { IfOk result (λ judged. IsJudgedBy scope.window scope (R.remaining reader.old)
        (was_accepted judged.found) (was_decided judged.found)
        (text_by judged.text.history judged.text.lines.items judged.text.callers) judged.extent) }
    ensures found { IfOk result (λ judged. IsFound judged.text.history judged.found) }
    ensures faults { IfOk result (λ judged. IfRejected judged.found
        (λ _. IsListed judged.text.history judged.faults)) }
    ensures as_many { IfOk result (λ judged.
        length judged.text.lines.items ≡ length judged.text.history) }
    ensures end { IfOk result (λ judged. IsEndedBy scope.window (was_accepted judged.found)
        (R.remaining reader.new)) }
    ensures fault { IfErr result (IsFaultBy scope.window scope (R.remaining reader.old)) }
    ensures left { IfErr result (IsLeftBy scope.window scope
        (R.remaining reader.old) (R.remaining reader.new)) }
{
    match scope.window {
        None => match read_text(alloc, hash_builder, scope.reading, reader) {
            Ok(read) => match judge_read(alloc, hash_builder, scope, read) {
                Ok(judged) => Ok(judged),
                Err(AllocError) => Err(ReadTextFault::OutOfMemory),
            },
            Err(fault) => Err(fault),
        },
        Some(window) => {
            match judge_stream(alloc, hash_builder, scope, window, LEAST_PIECE, reader) {
                Ok(judged) => Ok(judged),
                Err(fault) => Err(fault),
            }
        }
    }
}

/// Judges what was read of a text, which is all of it.
fn judge_read<S: BuildHasher + Copy + Drop>(
    alloc: Global,
    hash_builder: S,
    scope: Scope,
    read: ReadText<S>,
) -> Result<JudgedText<S>, AllocError>
    requires { length read.text.lines.items ≡ length read.text.history }
    ensures warmed { IfOk result (λ judged. IsWarmedIf scope.warm
        (text_scoped scope (text_by read.text.history read.text.lines.items read.text.callers))
        (text_by judged.text.history judged.text.lines.items judged.text.callers)
        judged.extent.from_start) }
    ensures skipped { IfOk result (λ judged.
        IsCounted scope.reading.skip_bad read.skipped judged.extent.skipped) }
    ensures held { IfOk result (λ judged. judged.extent.forgotten ≡ None) }
    ensures verdict { IfOk result (λ judged. IsVerdict judged.text.history judged.text.lines.items
        judged.found judged.faults) }
{
    let ReadText { text, skipped } = read;
    let mut text = text;
    match judge_calls(alloc, hash_builder, scope, &mut text, skipped) {
        Ok(end) => Ok(JudgedText {
            text,
            extent: end.extent,
            found: end.found,
            faults: end.faults,
        }),
        Err(refused) => Err(refused),
    }
}

/// The same of the calls of a text, of which so many bad lines were passed over.
fn judge_calls<S: BuildHasher + Copy + Drop>(
    alloc: Global,
    hash_builder: S,
    scope: Scope,
    text: &mut TextHistory<S>,
    skipped: u64,
) -> Result<StreamEnd, AllocError>
    requires { length text.old.lines.items ≡ length text.old.history }
    ensures warmed { IfOk result (λ end. IsWarmedIf scope.warm
        (text_scoped scope (text_by text.old.history text.old.lines.items text.old.callers))
        (text_by text.new.history text.new.lines.items text.new.callers) end.extent.from_start) }
    ensures skipped { IfOk result (λ end. IsCounted scope.reading.skip_bad skipped end.extent.skipped) }
    ensures held { IfOk result (λ end. end.extent.forgotten ≡ None) }
    ensures verdict { IfOk result (λ end.
        IsVerdict text.new.history text.new.lines.items end.found end.faults) }
{
    let Ok(()) = widen(alloc, &mut text.history, scope.skew) else {
        return Err(AllocError);
    };
    let Ok(from_start) = warm_if(alloc, hash_builder, text, scope.warm) else {
        return Err(AllocError);
    };
    let Ok(found) = find_with_hasher(alloc, hash_builder, &text.history) else {
        return Err(AllocError);
    };
    let Ok(faults) = faults_of(alloc, hash_builder, &text.history, &found) else {
        return Err(AllocError);
    };
    let extent = Extent {
        from_start,
        skipped: counted(scope.reading.skip_bad, skipped),
        forgotten: None,
    };
    Ok(StreamEnd {
        extent,
        found,
        faults,
    })
}

/// A number, if it is asked for.
pub(crate) fn counted(asked: bool, count: u64) -> Option<u64>
    ensures { IsCounted asked count result }
{
    if asked { Some(count) } else { None }
}

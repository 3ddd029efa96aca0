// Judging a text piece by piece.
ghost use Rattle.std.specs.Prelude.{◌≡◌, ◌-◌, ◌<◌, ℕ, List, Option, IfErr, IfOk, IfSome, OnOk, length, not, true, false, None, Some};
ghost use Rattle.std.specs.Io.KnownBytes.{IsAtEnd};
ghost use Rattle.certificate_finder.specs.Finding.{IfRejected, IsFound};
ghost use Rattle.history_text.specs.Pieces.{Progress, left_of};
ghost use Rattle.history_text.specs.Reading.{IsAhead};
ghost use Rattle.history_text.specs.Text.{text_by};
ghost use Rattle.history_window.specs.Standing.{Acceptable};
ghost use Rattle.judge_run.specs.Listing.{IsListed};
ghost use Rattle.judge_run.specs.Scopes.{IsCounted};
ghost use Rattle.judge_run.specs.Streams.{IsEndOf, IsHeld, IsPiece, IsPieceEnd, IsPieceJudged, IsStreamFault, IsStreamed, judged_of, was_accepted, was_decided};

use crate::extent::Extent;
use crate::forgetting::forget;
use crate::forgotten::Forgotten;
use crate::judged_text::JudgedText;
use crate::judging_text::counted;
use crate::kind_counts::{counts_of, grown, with_waiting};
use crate::lined_calls::LinedCalls;
use crate::listing::faults_of;
use crate::parting::part_if;
use crate::piece_rule::PieceRule;
use crate::scope::Scope;
use crate::stream::Stream;
use crate::stream_end::StreamEnd;
use crate::taking::{put_before, take_piece};
use crate::warming::warm_if;
use certificate_finder::{Found, find_with_hasher, witness_excludes};
use history_text::{ReadTextFault, TextHistory, TextReader};
use history_window::{first_start, pieces_exclude, pieces_stand};
use std::alloc::{AllocError, Global};
use std::hash::BuildHasher;
use std::io::Read;
use std::mem::replace;
use trace_file::History;

/// Judges a text as its calls come, by pieces of at least so many calls, with a window so long, in the unit of the stamps.
///
/// A hit that ended at the stamp from which later calls may start may have read a put that is still to come. It waits for the next
/// piece, and all other calls are judged. After each piece it forgets what can exclude nothing any more. So each call has to start at most
/// the window's length before the last end of the calls of earlier pieces, or later; one that does not is a bad line. It ends with the
/// first piece with which the calls are not accepted.
pub fn judge_stream<S: BuildHasher + Copy + Drop, R: Read>(
    alloc: Global,
    hash_builder: S,
    scope: Scope,
    window: u64,
    least: usize,
    reader: &mut R,
) -> Result<JudgedText<S>, ReadTextFault>
    ensures text { IfOk result (λ judged. IsStreamed scope window least (R.remaining reader.old)
        (was_accepted judged.found) (was_decided judged.found)
        (text_by judged.text.history judged.text.lines.items judged.text.callers) judged.extent) }
    ensures found { IfOk result (λ judged. IsFound judged.text.history judged.found) }
    ensures faults { IfOk result (λ judged. IfRejected judged.found
        (λ _. IsListed judged.text.history judged.faults)) }
    ensures as_many { IfOk result (λ judged.
        length judged.text.lines.items ≡ length judged.text.history) }
    ensures end { IfOk result (λ judged. was_accepted judged.found ≡ true
        → IsAtEnd (R.remaining reader.new)) }
    ensures fault { IfErr result (IsStreamFault scope window least (R.remaining reader.old)) }
{
    let rule = PieceRule {
        scope,
        window,
        least,
    };
    let mut lines = TextReader::new(alloc, scope.reading);
    let mut stream = Stream {
        kept: LinedCalls::new(alloc),
        text: TextHistory::new(alloc, hash_builder),
        waiting: LinedCalls::new(alloc),
        bound: 0,
        latest: 0,
        forgotten: Forgotten::NONE,
    };
    match judge_pieces(alloc, hash_builder, rule, &mut stream, &mut lines, reader) {
        Ok(end) => Ok(JudgedText {
            text: stream.text,
            extent: end.extent,
            found: end.found,
            faults: end.faults,
        }),
        Err(fault) => Err(fault),
    }
}

/// Judges a stream piece by piece, up to its end. Each piece but the last has a line, and lines have an end.
fn judge_pieces<S: BuildHasher + Copy + Drop, R: Read>(
    alloc: Global,
    hash_builder: S,
    rule: PieceRule,
    stream: &mut Stream<S>,
    lines: &mut TextReader,
    reader: &mut R,
) -> Result<StreamEnd, ReadTextFault>
    requires ahead { IsAhead lines.old.ahead (R.remaining reader.old) }
    requires held { IsHeld rule (R.remaining reader.old) (left_of lines.old (R.remaining reader.old)) lines.old stream.old }
    ensures streamed { IfOk result (λ end. IsStreamed rule.scope rule.window rule.least (R.remaining reader.old)
        (was_accepted end.found) (was_decided end.found) (judged_of stream.new) end.extent) }
    ensures verdict { IfOk result (IsEndOf stream.new) }
    ensures whole { IfOk result (λ end. was_accepted end.found ≡ true → IsAtEnd (R.remaining reader.new)) }
    ensures fault { IfErr result (IsStreamFault rule.scope rule.window rule.least (R.remaining reader.old)) }
{
    loop {
        let _number = lines.number();
        match judge_next(alloc, hash_builder, rule, stream, lines, reader) {
            Ok(Some(end)) => return Ok(end),
            Ok(None) => {}
            Err(fault) => return Err(fault),
        }
    }
}

/// Reads the next piece, and judges it. If the stream goes on, it answers nothing.
fn judge_next<S: BuildHasher + Copy + Drop, R: Read>(
    alloc: Global,
    hash_builder: S,
    rule: PieceRule,
    stream: &mut Stream<S>,
    lines: &mut TextReader,
    reader: &mut R,
) -> Result<Option<StreamEnd>, ReadTextFault>
    requires ahead { IsAhead lines.old.ahead (R.remaining reader.old) }
    requires held { (known : Option (List ℕ)) × IsHeld rule known (left_of lines.old (R.remaining reader.old)) lines.old stream.old }
    ensures ahead { IsAhead lines.new.ahead (R.remaining reader.new) }
    ensures judged { IfOk result (λ end. (known : Option (List ℕ))
        → IsHeld rule known (left_of lines.old (R.remaining reader.old)) lines.old stream.old
        → IsPieceEnd rule known (left_of lines.new (R.remaining reader.new)) lines.new end stream.new) }
    ensures verdict { IfOk result (λ end. IfSome end (IsEndOf stream.new)) }
    ensures more { IfOk result (λ end. end ≡ None → lines.old.number < lines.new.number) }
    ensures whole { IfOk result (λ end. IfSome end (λ told.
        was_accepted told.found ≡ true → IsAtEnd (R.remaining reader.new))) }
    ensures fault { IfErr result (λ fault. (known : Option (List ℕ))
        → IsHeld rule known (left_of lines.old (R.remaining reader.old)) lines.old stream.old
        → IsStreamFault rule.scope rule.window rule.least known fault) }
{
    let over = match take_piece(alloc, rule, stream, lines, reader) {
        Ok(over) => over,
        Err(fault) => return Err(fault),
    };
    let skipped = counted(rule.scope.reading.skip_bad, lines.skipped());
    match judge_piece(alloc, hash_builder, rule, stream, over, skipped) {
        Ok(end) => Ok(end),
        Err(fault) => Err(fault),
    }
}

/// Judges the calls that are kept and those that are decided with a piece, of a text of which so many bad lines were passed over. If they
/// are accepted and the input is not over, it forgets what can exclude nothing any more, and answers nothing.
fn judge_piece<S: BuildHasher + Copy + Drop>(
    alloc: Global,
    hash_builder: S,
    rule: PieceRule,
    stream: &mut Stream<S>,
    over: bool,
    skipped: Option<u64>,
) -> Result<Option<StreamEnd>, ReadTextFault>
    requires kept { length stream.old.kept.lines.items ≡ length stream.old.kept.history }
    requires asked { length stream.old.text.lines.items ≡ length stream.old.text.history }
    ensures judged { IfOk result (λ end. (known left : Option (List ℕ)) (progress : Progress)
        → IsPiece rule known left progress over stream.old
        → (over ≡ true → IfSome known (λ _. IsAtEnd left))
        → IsCounted rule.scope.reading.skip_bad progress.skipped skipped
        → IsPieceEnd rule known left progress end stream.new) }
    ensures verdict { IfOk result (λ end. IfSome end (IsEndOf stream.new)) }
    ensures more { IfOk result (λ end. end ≡ None → over ≡ false) }
    ensures whole { IfOk result (λ end. IfSome end (λ told. was_accepted told.found ≡ true → over ≡ true)) }
    ensures fault { IfErr result (λ fault. (known left : Option (List ℕ)) (progress : Progress)
        → IsPiece rule known left progress over stream.old
        → IsStreamFault rule.scope rule.window rule.least known fault) }
{
    let Ok(from_start) = warm_piece(alloc, hash_builder, rule, stream, over) else {
        return Err(ReadTextFault::OutOfMemory);
    };
    match judge_warmed(alloc, hash_builder, stream, over, from_start, skipped) {
        Ok(end) => Ok(end),
        Err(fault) => Err(fault),
    }
}

/// Puts together the calls that are judged with a piece, and adds puts to them. It answers how many, if that is wanted.
fn warm_piece<S: BuildHasher + Copy + Drop>(
    alloc: Global,
    hash_builder: S,
    rule: PieceRule,
    stream: &mut Stream<S>,
    over: bool,
) -> Result<Option<usize>, AllocError>
    requires kept { length stream.old.kept.lines.items ≡ length stream.old.kept.history }
    requires asked { length stream.old.text.lines.items ≡ length stream.old.text.history }
    ensures judged { IfOk result (λ from_start. (known left : Option (List ℕ)) (progress : Progress)
        → IsPiece rule known left progress over stream.old
        → IsPieceJudged rule (not over) known left progress from_start stream.new) }
    ensures bound { OnOk result (stream.new.bound ≡ stream.new.latest - rule.window) }
    ensures as_many { OnOk result (length stream.new.text.lines.items ≡ length stream.new.text.history) }
{
    let bound = stream.latest.saturating_sub(rule.window);
    let Ok(waiting) = part_if(alloc, &mut stream.text, over, bound) else {
        return Err(AllocError);
    };
    stream.waiting = waiting;
    stream.bound = bound;
    let Ok(()) = put_before(alloc, &mut stream.kept, &mut stream.text) else {
        return Err(AllocError);
    };
    match warm_if(alloc, hash_builder, &mut stream.text, rule.scope.warm) {
        Ok(from_start) => Ok(from_start),
        Err(refused) => Err(refused),
    }
}

/// What comes of calls to which so many puts were added; nothing if the stream goes on.
fn judge_warmed<S: BuildHasher + Copy + Drop>(
    alloc: Global,
    hash_builder: S,
    stream: &mut Stream<S>,
    over: bool,
    from_start: Option<usize>,
    skipped: Option<u64>,
) -> Result<Option<StreamEnd>, ReadTextFault>
    requires { length stream.old.text.lines.items ≡ length stream.old.text.history }
    ensures judged { IfOk result (λ end. (rule : PieceRule) (known left : Option (List ℕ)) (progress : Progress)
        → stream.old.bound ≡ stream.old.latest - rule.window
        → IsPieceJudged rule (not over) known left progress from_start stream.old
        → (over ≡ true → IfSome known (λ _. IsAtEnd left))
        → IsCounted rule.scope.reading.skip_bad progress.skipped skipped
        → IsPieceEnd rule known left progress end stream.new) }
    ensures verdict { IfOk result (λ end. IfSome end (IsEndOf stream.new)) }
    ensures more { IfOk result (λ end. end ≡ None → over ≡ false) }
    ensures whole { IfOk result (λ end. IfSome end (λ told. was_accepted told.found ≡ true → over ≡ true)) }
    ensures fault { IfErr result (λ fault. (rule : PieceRule) (known left : Option (List ℕ)) (progress : Progress)
        → IsPieceJudged rule (not over) known left progress from_start stream.old
        → IsStreamFault rule.scope rule.window rule.least known fault) }
{
    let Ok(found) = find_with_hasher(alloc, hash_builder, &stream.text.history) else {
        return Err(ReadTextFault::OutOfMemory);
    };
    if !over && is_accepted(&found) {
        return match go_on(alloc, hash_builder, stream, from_start) {
            Ok(()) => Ok(None),
            Err(fault) => Err(fault),
        };
    }
    match end_with(
        alloc,
        hash_builder,
        stream,
        over,
        from_start,
        skipped,
        found,
    ) {
        Ok(end) => Ok(Some(end)),
        Err(fault) => Err(fault),
    }
}

/// Whether a certificate was found.
fn is_accepted(found: &Found) -> bool
    ensures { result ≡ was_accepted found.now }
{
    match found {
        Found::Accepted(_) => true,
        Found::Rejected(_) => false,
        Found::Undecided(_) => false,
    }
}

/// The end of a stream, by what was found for the calls that were judged. If more may come, they are not accepted.
fn end_with<S: BuildHasher + Copy + Drop>(
    alloc: Global,
    hash_builder: S,
    stream: &Stream<S>,
    over: bool,
    from_start: Option<usize>,
    skipped: Option<u64>,
    found: Found,
) -> Result<StreamEnd, ReadTextFault>
    requires found { IsFound stream.now.text.history found }
    requires as_many { length stream.now.text.lines.items ≡ length stream.now.text.history }
    requires unaccepted { over ≡ false → was_accepted found ≡ false }
    ensures streamed { IfOk result (λ told. (rule : PieceRule) (known left : Option (List ℕ)) (progress : Progress)
        → IsPieceJudged rule (not over) known left progress from_start stream.now
        → (over ≡ true → IfSome known (λ _. IsAtEnd left))
        → IsCounted rule.scope.reading.skip_bad progress.skipped skipped
        → IsPieceEnd rule known left progress (Some told) stream.now) }
    ensures found { IfOk result (λ told. told.found ≡ found) }
    ensures verdict { IfOk result (IsEndOf stream.now) }
    ensures fault { IfErr result (λ fault. (rule : PieceRule) (known left : Option (List ℕ)) (progress : Progress)
        → IsPieceJudged rule (not over) known left progress from_start stream.now
        → IsStreamFault rule.scope rule.window rule.least known fault) }
{
    pieces_stand();
    pieces_exclude();
    witness_excludes();
    let Ok(faults) = faults_of(alloc, hash_builder, &stream.text.history, &found) else {
        return Err(ReadTextFault::OutOfMemory);
    };
    let gone = match with_waiting(stream.forgotten, &stream.waiting.history) {
        Ok(gone) => gone,
        Err(fault) => return Err(fault),
    };
    let extent = Extent {
        from_start,
        skipped,
        forgotten: Some(gone),
    };
    Ok(StreamEnd {
        extent,
        found,
        faults,
    })
}

/// Keeps what can matter of calls that are accepted, to which so many puts were added.
fn go_on<S: BuildHasher + Copy + Drop>(
    alloc: Global,
    hash_builder: S,
    stream: &mut Stream<S>,
    from_start: Option<usize>,
) -> Result<(), ReadTextFault>
    requires { Acceptable stream.old.text.history }
    ensures held { OnOk result ((rule : PieceRule) (known left : Option (List ℕ)) (progress : Progress)
        → stream.old.bound ≡ stream.old.latest - rule.window
        → IsPieceJudged rule true known left progress from_start stream.old
        → IsHeld rule known left progress stream.new) }
    ensures fault { IfErr result (λ fault. (rule : PieceRule) (known left : Option (List ℕ)) (progress : Progress)
        → IsPieceJudged rule true known left progress from_start stream.old
        → IsStreamFault rule.scope rule.window rule.least known fault) }
{
    let first = first_start(&stream.waiting.history, stream.bound);
    let before = counts_of(&stream.text.history);
    let Ok(()) = forget(alloc, hash_builder, &mut stream.text, first) else {
        return Err(ReadTextFault::OutOfMemory);
    };
    let after = counts_of(&stream.text.history);
    let forgotten = match grown(stream.forgotten, &before, &after, from_start) {
        Ok(forgotten) => forgotten,
        Err(fault) => return Err(fault),
    };
    stream.forgotten = forgotten;
    stream.kept.history = replace(&mut stream.text.history, History::new(alloc));
    stream.kept.lines = replace(&mut stream.text.lines, Vec::new(alloc));
    Ok(())
}

// Reading a piece of a text.
ghost use Rattle.std.specs.Prelude.{◌≡◌, ◌<◌, ◌≤◌, ◌++◌, IfErr, IfOk, IfSome, List, ℕ, OnOk, Option, false, length, map, true};
ghost use Rattle.std.specs.Io.KnownBytes.{IsAtEnd};
ghost use Rattle.clock_skew.specs.Widening.{widened};
ghost use Rattle.history_text.specs.Pieces.{left_of};
ghost use Rattle.history_text.specs.Reading.{IsAhead};
ghost use Rattle.history_text.specs.Text.{text_by};
ghost use Rattle.judge_run.specs.Streams.{IsFirstOf, IsHeld, IsPiece, IsStreamFault, piece_size};

use crate::lined_calls::LinedCalls;
use crate::piece_rule::PieceRule;
use crate::scoping::widen;
use crate::stream::Stream;
use history_text::{BadLine, LineCause, ReadTextFault, TextHistory, TextReader};
use history_window::{first_before, last_end};
use std::alloc::{AllocError, Global};
use std::hash::BuildHasher;
use std::io::Read;
use std::mem::replace;
use trace_file::History;

/// Reads the next piece: so many calls, as many as are kept and wait if those are more, and at least one; or what is left. The calls are
/// widened by the skew, and stand after the hits that waited. One that starts before the stamp of the stream is a bad line. Of two bad
/// lines the first is told. It answers whether the input is over.
pub(crate) fn take_piece<S: BuildHasher + Drop, R: Read>(
    alloc: Global,
    rule: PieceRule,
    stream: &mut Stream<S>,
    lines: &mut TextReader,
    reader: &mut R,
) -> Result<bool, ReadTextFault>
    requires ahead { IsAhead lines.old.ahead (R.remaining reader.old) }
    requires held { (known : Option (List ℕ))
        × IsHeld rule known (left_of lines.old (R.remaining reader.old)) lines.old stream.old }
    ensures ahead { IsAhead lines.new.ahead (R.remaining reader.new) }
    ensures taken { IfOk result (λ over. (known : Option (List ℕ))
        → IsHeld rule known (left_of lines.old (R.remaining reader.old)) lines.old stream.old
        → IsPiece rule known (left_of lines.new (R.remaining reader.new)) lines.new over stream.new) }
    ensures more { IfOk result (λ over. over ≡ false → lines.old.number < lines.new.number) }
    ensures end { IfOk result (λ over. over ≡ true → IsAtEnd (R.remaining reader.new)) }
    ensures over { IfOk result (λ over. over ≡ true
        → IfSome (left_of lines.old (R.remaining reader.old))
        (λ _. IsAtEnd (left_of lines.new (R.remaining reader.new)))) }
    ensures fault { IfErr result (λ fault. (known : Option (List ℕ))
        → IsHeld rule known (left_of lines.old (R.remaining reader.old)) lines.old stream.old
        → IsStreamFault rule.scope rule.window rule.least known fault) }
{
    let most = most_of(rule.least, &stream.kept.history, &stream.waiting.history);
    let over = match lines.take_calls(alloc, &mut stream.text, reader, most) {
        Ok(over) => over,
        Err(ReadTextFault::Bad(bad)) => {
            let skew = rule.scope.skew;
            return Err(first_fault(alloc, skew, stream.bound, &mut stream.text, bad));
        }
        Err(ReadTextFault::ReadFault) => return Err(ReadTextFault::ReadFault),
        Err(ReadTextFault::OutOfMemory) => return Err(ReadTextFault::OutOfMemory),
        Err(ReadTextFault::CountFull) => return Err(ReadTextFault::CountFull),
    };
    let Ok(()) = widen(alloc, &mut stream.text.history, rule.scope.skew) else {
        return Err(ReadTextFault::OutOfMemory);
    };
    if let Some(late) = first_before(&stream.text.history, stream.bound) {
        return Err(before_window(stream.text.lines[late]));
    }
    stream.latest = last_end(&stream.text.history, stream.latest);
    match put_before(alloc, &mut stream.waiting, &mut stream.text) {
        Ok(()) => Ok(over),
        Err(AllocError) => Err(ReadTextFault::OutOfMemory),
    }
}

/// How many calls a piece has: so many, or as many as these if those are more, and at least one.
fn most_of(least: usize, kept: &History, waiting: &History) -> usize
    ensures least { least ≤ result }
    ensures some { 1 ≤ result }
    ensures size { result ≡ piece_size least kept.now waiting.now }
{
    let held = kept.len().saturating_add(waiting.len());
    least.max(held).max(1)
}

/// The first fault of a piece that was read up to a bad line: a call of it that starts before a stamp stands before that line.
fn first_fault<S: BuildHasher>(
    alloc: Global,
    skew: u64,
    bound: u64,
    piece: &mut TextHistory<S>,
    bad: BadLine,
) -> ReadTextFault
    requires { length piece.old.lines.items ≡ length piece.old.history }
    ensures { IsFirstOf (text_by (map (widened skew) piece.old.history) piece.old.lines.items piece.old.callers)
        bound bad result }
{
    let Ok(()) = widen(alloc, &mut piece.history, skew) else {
        return ReadTextFault::OutOfMemory;
    };
    match first_before(&piece.history, bound) {
        Some(late) => before_window(piece.lines[late]),
        None => ReadTextFault::Bad(bad),
    }
}

/// The fault of a call on this line that starts too early.
fn before_window(line: u64) -> ReadTextFault
    ensures { result ≡ ReadTextFault.Bad (record { number = line; cause = LineCause.BeforeWindow }) }
{
    ReadTextFault::Bad(BadLine {
        number: line,
        cause: LineCause::BeforeWindow,
    })
}

/// Puts calls before those of a text. What is left of them where they were is of no use.
pub(crate) fn put_before<S: BuildHasher>(
    alloc: Global,
    first: &mut LinedCalls,
    text: &mut TextHistory<S>,
) -> Result<(), AllocError>
    ensures { OnOk result (text_by text.new.history text.new.lines.items text.new.callers
        ≡ text_by (first.old.history ++ text.old.history) (first.old.lines.items ++ text.old.lines.items)
        text.old.callers) }
{
    let Ok(()) = append(&mut first.history, &text.history) else {
        return Err(AllocError);
    };
    let Ok(()) = first.lines.extend_from_slice(&text.lines) else {
        return Err(AllocError);
    };
    text.history = replace(&mut first.history, History::new(alloc));
    text.lines = replace(&mut first.lines, Vec::new(alloc));
    Ok(())
}

/// Appends the calls of a history.
fn append(history: &mut History, more: &History) -> Result<(), AllocError>
    ensures { OnOk result (history.new ≡ history.old ++ more.now) }
{
    for position in 0..more.len() {
        let call = more.at(position);
        history.push_ref(&call)?;
    }
    Ok(())
}

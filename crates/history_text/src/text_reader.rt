// Reading a text piece by piece.
ghost use Rattle.std.specs.Prelude.{◌≡◌, ◌+◌, ◌<◌, ◌≤◌, ◌^◌, [], IfOk, IfErr, IfSome, OnOk, length, true, false};
ghost use Rattle.std.specs.Io.KnownBytes.{IsAtEnd};
ghost use Rattle.history_text.specs.Outcome.{fault_at};
ghost use Rattle.history_text.specs.Pieces.{HasBefore, IsFaultFrom, LeftAfter, TakesPiece, left_of};
ghost use Rattle.history_text.specs.Reading.{IsAhead};
ghost use Rattle.history_text.specs.Text.{text_by};

use crate::bad_line::BadLine;
use crate::line_cause::LineCause;
use crate::lines::{MAX_TEXT_LINE_LEN, next_line};
use crate::pair_bytes::PairBytes;
use crate::read_text_fault::ReadTextFault;
use crate::reading::Reading;
use crate::text_fault::TextFault;
use crate::text_history::TextHistory;
use script_words::{LineRead, ReadAhead};
use std::alloc::Global;
use std::hash::BuildHasher;
use std::io::Read;
use std::marker::Model;

/// How far the text of a reader was read. One value belongs to one reader.
#[derive(Drop)]
pub struct TextReader {
    reading: Reading,
    number: u64,
    skipped: u64,
    ahead: ReadAhead<MAX_TEXT_LINE_LEN>,
    line: Vec<u8>,
    parts: PairBytes,
}

impl Model for TextReader {
    ghost use Rattle.std.specs.Prelude.{◌<◌, ◌≤◌, ◌^◌};
    ghost use Rattle.history_text.specs.Pieces.{Progress};

    ghost Value = { Progress };

    ghost view = { λ r. record { reading = r.reading; number = r.number; skipped = r.skipped; ahead = r.ahead } };

    ghost invariant = { λ r. (r.number ≤ 2 ^ 63) × (r.skipped < r.number) };
}

impl TextReader {
    /// Nothing was read yet. It takes memory at its first read.
    pub fn new(alloc: Global, reading: Reading) -> TextReader
        ensures { result ≡ record { reading = reading; number = 1; skipped = 0; ahead = record { bytes = []; over = false } } }
    {
        TextReader {
            reading,
            number: 1,
            skipped: 0,
            ahead: ReadAhead::new(alloc),
            line: Vec::new(alloc),
            parts: PairBytes::new(alloc),
        }
    }

    /// The number of the next line. The first has the number 1.
    pub fn number(&self) -> u64
        ensures number { result ≡ self.now.number }
        ensures few { self.now.number ≤ 2 ^ 63 }
    {
        self.number
    }

    /// How many bad lines were passed over.
    pub fn skipped(&self) -> u64
        ensures { result ≡ self.now.skipped }
    {
        self.skipped
    }

    /// Takes lines until the text got so many calls more, or the input is over. It says whether it is over.
    ///
    /// The calls are put after those of the text, which may be any. What the lines spell is the same as if the whole was read at
    /// once. At a bad line it stops before it, and the text has the calls of the lines before it. A failed read is `ReadFault` at once and is not
    /// tried again. It reads ahead at most 12,288 bytes, so a line that is too long is bad as soon as 8,193 bytes of it were read.
    /// Its head is long, since each answer says what was taken, how far the input was read, and what stays.
    pub fn take_calls<S: BuildHasher, R: Read>(
        &mut self,
        alloc: Global,
        text: &mut TextHistory<S>,
        reader: &mut R,
        most: usize,
    ) -> Result<bool, ReadTextFault>
        requires { IsAhead self.old.ahead (R.remaining reader.old) }
        ensures ahead { IsAhead self.new.ahead (R.remaining reader.new) }
        ensures piece { OnOk result (TakesPiece
            (left_of self.old (R.remaining reader.old)) self.old
            (text_by text.old.history text.old.lines.items text.old.callers)
            (left_of self.new (R.remaining reader.new)) self.new
            (text_by text.new.history text.new.lines.items text.new.callers)) }
        ensures few { OnOk result (length text.new.history ≤ length text.old.history + most) }
        ensures full { IfOk result (λ over. over ≡ false
            → length text.new.history ≡ length text.old.history + most) }
        ensures end { IfOk result (λ over. over ≡ true → IsAtEnd (R.remaining reader.new)) }
        ensures over { IfOk result (λ over. over ≡ true
            → IfSome (left_of self.old (R.remaining reader.old))
            (λ _. IsAtEnd (left_of self.new (R.remaining reader.new)))) }
        ensures fault { IfErr result (IsFaultFrom (left_of self.old (R.remaining reader.old)) self.old
            (text_by text.old.history text.old.lines.items text.old.callers)) }
        ensures unfilled { IfErr result (λ fault. (bad : BadLine) → fault ≡ ReadTextFault.Bad bad
            → length text.new.history < length text.old.history + most) }
        ensures stop { IfErr result (HasBefore (left_of self.old (R.remaining reader.old)) self.old
            (text_by text.old.history text.old.lines.items text.old.callers)
            (text_by text.new.history text.new.lines.items text.new.callers)) }
        ensures left { IfErr result (LeftAfter (left_of self.old (R.remaining reader.old)) self.old
            (text_by text.old.history text.old.lines.items text.old.callers) (R.remaining reader.new)) }
    {
        let held = text.history.len();
        while text.history.len() - held < most {
            match self.take_line(alloc, text, reader) {
                Ok(true) => {}
                Ok(false) => return Ok(true),
                Err(fault) => return Err(fault),
            }
        }
        Ok(false)
    }

    /// Takes the next line, and says whether there was one. Its head is long, since those of `take_calls` rest on it.
    fn take_line<S: BuildHasher, R: Read>(
        &mut self,
        alloc: Global,
        text: &mut TextHistory<S>,
        reader: &mut R,
    ) -> Result<bool, ReadTextFault>
        requires { IsAhead self.old.ahead (R.remaining reader.old) }
        ensures ahead { IsAhead self.new.ahead (R.remaining reader.new) }
        ensures piece { OnOk result (TakesPiece
            (left_of self.old (R.remaining reader.old)) self.old
            (text_by text.old.history text.old.lines.items text.old.callers)
            (left_of self.new (R.remaining reader.new)) self.new
            (text_by text.new.history text.new.lines.items text.new.callers)) }
        ensures one { OnOk result (length text.new.history ≤ length text.old.history + 1) }
        ensures more { IfOk result (λ more. more ≡ true → self.old.number < self.new.number) }
        ensures few { self.new.number ≤ 2 ^ 63 }
        ensures end { IfOk result (λ more. more ≡ false → IsAtEnd (R.remaining reader.new)) }
        ensures over { IfOk result (λ more. more ≡ false
            → IfSome (left_of self.old (R.remaining reader.old))
            (λ _. IsAtEnd (left_of self.new (R.remaining reader.new)))) }
        ensures fault { IfErr result (IsFaultFrom (left_of self.old (R.remaining reader.old)) self.old
            (text_by text.old.history text.old.lines.items text.old.callers)) }
        ensures kept { IfErr result (λ fault. (bad : BadLine) → fault ≡ ReadTextFault.Bad bad
            → text.new ≡ text.old) }
        ensures stop { IfErr result (HasBefore (left_of self.old (R.remaining reader.old)) self.old
            (text_by text.old.history text.old.lines.items text.old.callers)
            (text_by text.new.history text.new.lines.items text.new.callers)) }
        ensures left { IfErr result (LeftAfter (left_of self.old (R.remaining reader.old)) self.old
            (text_by text.old.history text.old.lines.items text.old.callers) (R.remaining reader.new)) }
    {
        let number = self.number;
        match next_line(reader, &mut self.ahead, &mut self.line) {
            Ok(LineRead::Line) => {}
            Ok(LineRead::TooLong) => {
                let cause = LineCause::TooLong;
                return Err(ReadTextFault::Bad(BadLine { number, cause }));
            }
            Ok(LineRead::End) => return Ok(false),
            Err(fault) => return Err(ReadTextFault::from(fault)),
        }
        match text.take_or_skip(
            alloc,
            self.reading,
            number,
            &self.line,
            &mut self.parts,
            self.skipped,
        ) {
            Ok(skipped) => {
                self.skipped = skipped;
                self.number = number + 1;
                Ok(true)
            }
            Err(fault) => Err(fault_at(number, fault)),
        }
    }
}

/// The fault of a text whose line with this number was not taken.
fn fault_at(number: u64, fault: TextFault) -> ReadTextFault
    ensures { result ≡ fault_at number fault }
{
    match fault {
        TextFault::Bad(cause) => ReadTextFault::Bad(BadLine { number, cause }),
        TextFault::OutOfMemory => ReadTextFault::OutOfMemory,
    }
}

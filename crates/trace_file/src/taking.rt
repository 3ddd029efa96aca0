// Taking the items of a trace from the bytes of a stream, as many as are whole.
ghost use Rattle.std.specs.Prelude.{◌≡◌, ◌≤◌, ◌<◌, ◌-◌, ◌+◌, ℕ, List, ◌^◌, length, IfOk, IfErr, OnErr, OnOk, Some, None, [], All};
ghost use Rattle.std.specs.Option.{option_map};
ghost use Rattle.trace_file.specs.Given.{shown};
ghost use Rattle.trace_file.specs.Reading.{call_at, position_at, many_at, at_end};
ghost use Rattle.trace_file.specs.Calls.{IsCall};
ghost use Rattle.trace_file.specs.Stream.{in_front, TakesItems, FailsAs, IsTaken, Opens, Advances, read_behind, text_so_far, counted_text, counted_at, IsCounted, Settles, whole, standing};
ghost use Rattle.trace_file.specs.Text.{call_text, position_text, IsCallOf};

use crate::certificate::Certificate;
use crate::cursor::Cursor;
use crate::header::Header;
use crate::history::History;
use crate::item_fault::ItemFault;
use crate::items::{call, header, position};
use crate::trace::Trace;
use crate::trace_fault::TraceFault;
use crate::trace_so_far::TraceSoFar;
use std::alloc::Global;

/// Takes the calls that are whole, up to as many as the header counts, and answers the place after them.
fn take_calls<'a>(
    history: &mut History,
    header: Header,
    cursor: Cursor<'a>,
) -> Result<Cursor<'a>, TraceFault>
    requires { length history.old ≤ header.count }
    ensures ok { IfOk result (λ rest. TakesItems (call_at header.version) (call_text header.version) (IsCallOf header.version) header.count history.old history.new (shown cursor.entry) (shown rest)) }
    ensures err { IfErr result (λ fault. FailsAs fault (in_front history.old (many_at (call_at header.version) (header.count - length history.old) (shown cursor.entry)))) }
{
    let mut rest = cursor;
    while history.len() < header.count as usize {
        match call(header.version, rest) {
            Ok((next, behind)) => {
                let Ok(()) = history.push_ref(&next) else {
                    return Err(TraceFault::OutOfMemory);
                };
                rest = behind;
            }
            Err(ItemFault::Short) => return Ok(rest),
            Err(ItemFault::Fault(fault)) => return Err(fault),
        }
    }
    Ok(rest)
}

/// Takes the positions that are whole, up to `count`, and answers the place after them.
fn take_positions<'a>(
    certificate: &mut Certificate,
    count: u32,
    cursor: Cursor<'a>,
) -> Result<Cursor<'a>, TraceFault>
    requires { length certificate.old ≤ count }
    ensures ok { IfOk result (λ rest. TakesItems position_at position_text (λ position. position < 2 ^ 32) count certificate.old certificate.new (shown cursor.entry) (shown rest)) }
    ensures err { IfErr result (λ fault. FailsAs fault (in_front certificate.old (many_at position_at (count - length certificate.old) (shown cursor.entry)))) }
{
    let mut rest = cursor;
    while certificate.len() < count as usize {
        match position(rest) {
            Ok((next, behind)) => {
                let Ok(()) = certificate.push(next) else {
                    return Err(TraceFault::OutOfMemory);
                };
                rest = behind;
            }
            Err(ItemFault::Short) => return Ok(rest),
            Err(ItemFault::Fault(fault)) => return Err(fault),
        }
    }
    Ok(rest)
}

/// Takes the calls and then the positions that are whole, up to as many as the header counts.
fn take_counted<'a>(
    history: &mut History,
    certificate: &mut Certificate,
    header: Header,
    cursor: Cursor<'a>,
) -> Result<Cursor<'a>, TraceFault>
    requires counted { IsCounted header history.old certificate.old }
    requires at { cursor.at ≡ length (counted_text header history.old certificate.old) }
    ensures ok { IfOk result (λ rest. Settles header history.old certificate.old (shown cursor.entry) history.new certificate.new (shown rest)) }
    ensures err { IfErr result (λ fault. FailsAs fault (counted_at header history.old certificate.old (shown cursor.entry))) }
{
    let rest = take_calls(history, header, cursor)?;
    if history.len() < header.count as usize {
        return Ok(rest);
    }
    let rest = take_positions(certificate, header.count, rest)?;
    if certificate.len() < header.count as usize {
        return Ok(rest);
    }
    if !rest.bytes.is_empty() {
        return Err(TraceFault::TrailingBytes { at: rest.at });
    }
    Ok(rest)
}

impl TraceSoFar {
    /// Nothing was taken yet. It takes no memory.
    pub(crate) fn new(alloc: Global) -> TraceSoFar
        ensures { result ≡ record { header = None; history = []; certificate = [] } }
    {
        TraceSoFar {
            header: None,
            history: History::new(alloc),
            certificate: Certificate::new(alloc),
        }
    }

    /// Whether all calls and positions that the header counts were taken.
    fn is_whole(&self) -> bool
        ensures { result ≡ whole self.now.header self.now.certificate }
    {
        match self.header {
            Some(header) => self.certificate.len() == header.count as usize,
            None => false,
        }
    }

    /// What was taken as a trace, if it is whole; otherwise the stream ended too early, after `fed` bytes.
    pub(crate) fn ended(self, fed: u64) -> Result<Trace, TraceFault>
        ensures { result ≡ at_end fed (standing self.header self.history self.certificate) }
    {
        if !self.is_whole() {
            return Err(TraceFault::Truncated { at: fed });
        }
        let TraceSoFar {
            header: _,
            history,
            certificate,
        } = self;
        Ok(Trace {
            history,
            certificate,
        })
    }

    /// Takes the header, once it is whole, and answers it and the place after it.
    fn take_header<'a>(
        &mut self,
        cursor: Cursor<'a>,
    ) -> Result<Option<(Header, Cursor<'a>)>, TraceFault>
        requires taken { IsTaken self.old.header self.old.history self.old.certificate }
        requires at { cursor.at ≡ length (text_so_far self.old.header self.old.history self.old.certificate) }
        ensures ok { IfOk result (λ opened. Opens self.old self.new (shown cursor.entry) (option_map (λ x. (x.0, shown x.1)) opened)) }
        ensures err { IfErr result (λ fault. FailsAs fault (read_behind self.old.header self.old.history self.old.certificate (shown cursor.entry))) }
    {
        match self.header {
            Some(header) => Ok(Some((header, cursor))),
            None => match header(cursor) {
                Ok((header, behind)) => {
                    self.header = Some(header);
                    Ok(Some((header, behind)))
                }
                Err(ItemFault::Short) => Ok(None),
                Err(ItemFault::Fault(fault)) => Err(fault),
            },
        }
    }

    /// Takes as much as is whole of the bytes after what was taken, and answers the place after it.
    ///
    /// After a fault nothing is said of what was taken.
    pub(crate) fn take<'a>(&mut self, cursor: Cursor<'a>) -> Result<Cursor<'a>, TraceFault>
        requires taken { IsTaken self.old.header self.old.history self.old.certificate }
        requires at { cursor.at ≡ length (text_so_far self.old.header self.old.history self.old.certificate) }
        ensures ok { IfOk result (λ rest. Advances self.old self.new (shown cursor.entry) (shown rest)) }
        ensures err { IfErr result (λ fault. FailsAs fault (read_behind self.old.header self.old.history self.old.certificate (shown cursor.entry))) }
    {
        match self.take_header(cursor)? {
            Some((header, rest)) => {
                match take_counted(&mut self.history, &mut self.certificate, header, rest) {
                    Ok(rest) => Ok(rest),
                    Err(fault) => Err(fault),
                }
            }
            None => Ok(cursor),
        }
    }
}

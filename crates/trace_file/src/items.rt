// The items of a trace, read field by field.
ghost use Rattle.std.specs.Prelude.{◌≡◌, ◌<◌, ◌≤◌, ◌^◌, ℕ, length, IfOk, IfSome};
ghost use Rattle.std.specs.Option.{option_map};
ghost use Rattle.record_pages.specs.Bounded.{IsKey, IsValue};
ghost use Rattle.trace_file.specs.Calls.{IsCall, time_of, value_of};
ghost use Rattle.trace_file.specs.Given.{Gives, shown};
ghost use Rattle.trace_file.specs.Lent.{act_shown, call_shown};
ghost use Rattle.trace_file.specs.Reading.{kind_of_byte, kind_at, key_at, value_at, time_at, act_at, call_at, first_difference, version_at, count_at, header_at, position_at};
ghost use Rattle.trace_file.specs.Text.{magic};
ghost use Rattle.trace_file.specs.declared.version.Version.TheVariants.{Timed, Timeless};

use crate::act_ref::ActRef;
use crate::call_kind::CallKind;
use crate::call_ref::CallRef;
use crate::cursor::Cursor;
use crate::header::Header;
use crate::item_fault::ItemFault;
use crate::trace_fault::TraceFault;
use crate::version::Version;
use record_pages::{NEVER, Value};

/// The bytes that a timed trace begins with.
pub(crate) const TIMED_MAGIC: [u8; 8] = *b"KGTRACE2";

/// The bytes that a timeless trace begins with.
const TIMELESS_MAGIC: [u8; 8] = *b"KGTRACE1";

/// The most calls of a trace.
pub(crate) const MOST_CALLS: u32 = 268_435_456;

/// The kind that a byte stands for.
fn kind_of_byte(byte: u8) -> Option<CallKind>
    ensures { result ≡ kind_of_byte byte }
{
    match byte {
        1 => Some(CallKind::Put),
        2 => Some(CallKind::Remove),
        3 => Some(CallKind::Hit),
        4 => Some(CallKind::Miss),
        _ => None,
    }
}

#[tactic(auto, unfolding(crate::specs::Reading::kind_at))]
fn kind(cursor: Cursor<'_>) -> Result<(CallKind, Cursor<'_>), ItemFault>
    ensures { Gives (λ x. (x.0, shown x.1)) result (kind_at (shown cursor.entry)) }
{
    let (byte, behind) = cursor.byte()?;
    match kind_of_byte(byte) {
        Some(kind) => Ok((kind, behind)),
        None => Err(ItemFault::Fault(TraceFault::BadKind { at: cursor.at })),
    }
}

#[tactic(auto, unfolding(crate::specs::Reading::key_at))]
fn key(cursor: Cursor<'_>) -> Result<(&[u8], Cursor<'_>), ItemFault>
    ensures read { Gives (λ x. (x.0.now, shown x.1)) result (key_at (shown cursor.entry)) }
    ensures lawful { IfOk result (λ x. IsKey x.0.now) }
{
    let (len, behind) = cursor.byte()?;
    if len == 0 {
        return Err(ItemFault::Fault(TraceFault::BadKey { at: cursor.at }));
    }
    let (key, behind) = behind.bytes(len as usize)?;
    Ok((key, behind))
}

#[tactic(auto, unfolding(crate::specs::Reading::value_at))]
fn value(cursor: Cursor<'_>) -> Result<(&[u8], Cursor<'_>), ItemFault>
    ensures read { Gives (λ x. (x.0.now, shown x.1)) result (value_at (shown cursor.entry)) }
    ensures lawful { IfOk result (λ x. IsValue x.0.now) }
{
    let (len, behind) = cursor.number16()?;
    if len as usize > Value::MAX_LEN {
        return Err(ItemFault::Fault(TraceFault::BadValue { at: cursor.at }));
    }
    let (value, behind) = behind.bytes(len as usize)?;
    Ok((value, behind))
}

/// The time that stands here, or what its lack means if the trace says no times.
#[tactic(auto, unfolding(crate::specs::Reading::time_at))]
fn time(version: Version, meant: u64, cursor: Cursor<'_>) -> Result<(u64, Cursor<'_>), ItemFault>
    ensures { Gives (λ x. (x.0, shown x.1)) result (time_at version meant (shown cursor.entry)) }
{
    match version {
        Version::Timed => cursor.number64(),
        Version::Timeless => Ok((meant, cursor)),
    }
}

#[tactic(auto, unfolding(crate::specs::Reading::act_at))]
fn act(
    version: Version,
    kind: CallKind,
    cursor: Cursor<'_>,
) -> Result<(ActRef<'_>, Cursor<'_>), ItemFault>
    ensures read { Gives (λ x. (act_shown x.0, shown x.1)) result (act_at version kind (shown cursor.entry)) }
    ensures lawful { IfOk result (λ x. IsValue (value_of (act_shown x.0))) }
{
    match kind {
        CallKind::Put => {
            let (value, behind) = value(cursor)?;
            let (expires, behind) = time(version, NEVER, behind)?;
            Ok((ActRef::Put(value, expires), behind))
        }
        CallKind::Remove => Ok((ActRef::Remove, cursor)),
        CallKind::Hit => {
            let (value, behind) = value(cursor)?;
            let (moment, behind) = time(version, 0, behind)?;
            Ok((ActRef::Hit(value, moment), behind))
        }
        CallKind::Miss => Ok((ActRef::Miss, cursor)),
    }
}

/// The call that begins here.
#[tactic(auto, unfolding(crate::specs::Reading::call_at))]
pub(crate) fn call(
    version: Version,
    cursor: Cursor<'_>,
) -> Result<(CallRef<'_>, Cursor<'_>), ItemFault>
    ensures read { Gives (λ x. (call_shown x.0, shown x.1)) result (call_at version (shown cursor.entry)) }
    ensures lawful { IfOk result (λ x. IsCall (call_shown x.0)) }
{
    let (kind, behind) = kind(cursor)?;
    let (caller, behind) = behind.number16()?;
    let (start, behind) = behind.number64()?;
    let (end, behind) = behind.number64()?;
    let (key, behind) = key(behind)?;
    let (act, behind) = act(version, kind, behind)?;
    Ok((CallRef::new(caller, start, end, key, act), behind))
}

/// Where these bytes differ from those of a magic first.
fn first_difference(bytes: &[u8], others: &[u8; 8]) -> Option<usize>
    ensures place { result ≡ first_difference bytes.now others.now }
    ensures within { IfSome result (λ i. i < 8) }
{
    bytes
        .iter()
        .zip(others)
        .position(|(byte, right)| *byte != *right)
}

/// The form of a trace, by the eight bytes that it begins with.
#[tactic(auto, unfolding(crate::specs::Reading::version_at))]
fn version(cursor: Cursor<'_>) -> Result<(Version, Cursor<'_>), ItemFault>
    ensures { Gives (λ x. (x.0, shown x.1)) result (version_at (shown cursor.entry)) }
{
    let (bytes, behind) = cursor.bytes(8)?;
    let differs = first_difference(bytes, &TIMED_MAGIC);
    let differs_older = first_difference(bytes, &TIMELESS_MAGIC);
    match differs {
        None => Ok((Version::Timed, behind)),
        Some(i) => match differs_older {
            None => Ok((Version::Timeless, behind)),
            Some(_) => {
                let at = cursor.at + i as u64;
                Err(ItemFault::Fault(TraceFault::BadMagic { at }))
            }
        },
    }
}

#[tactic(auto, unfolding(crate::specs::Reading::count_at))]
fn count(cursor: Cursor<'_>) -> Result<(u32, Cursor<'_>), ItemFault>
    ensures { Gives (λ x. (x.0, shown x.1)) result (count_at (shown cursor.entry)) }
{
    let (count, behind) = cursor.number32()?;
    if count > MOST_CALLS {
        return Err(ItemFault::Fault(TraceFault::TooMany { at: cursor.at }));
    }
    Ok((count, behind))
}

/// What stands before the calls: the form of the trace, and how many calls there are.
#[tactic(auto, unfolding(crate::specs::Reading::header_at))]
pub(crate) fn header(cursor: Cursor<'_>) -> Result<(Header, Cursor<'_>), ItemFault>
    ensures { Gives (λ x. (x.0, shown x.1)) result (header_at (shown cursor.entry)) }
{
    let (version, behind) = version(cursor)?;
    let (count, behind) = count(behind)?;
    Ok((Header { version, count }, behind))
}

/// The position that stands here.
pub(crate) fn position(cursor: Cursor<'_>) -> Result<(u32, Cursor<'_>), ItemFault>
    ensures { Gives (λ x. (x.0, shown x.1)) result (position_at (shown cursor.entry)) }
{
    cursor.number32()
}

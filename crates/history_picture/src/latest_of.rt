// The latest write before a place of a certificate.
ghost use Rattle.std.specs.Prelude.{◌↔◌, IsTrue};
ghost use Rattle.trace_file.specs.Lent.{act_shown};
ghost use Rattle.certificate_checker.specs.Latest.{IsWrite};
ghost use Rattle.history_picture.specs.Places.{IsLatestOf, PutsValueOf, PutsWhat, WritesKeyOf};

use crate::call_at::call_at;
use crate::latest::Latest;
use trace_file::{ActRef, Certificate, History};

/// The latest write of a hit's key at the places before this one.
pub(crate) fn latest_of(
    history: &History,
    certificate: &Certificate,
    place: usize,
    hit: u32,
) -> Latest
    ensures { IsLatestOf history.now certificate.now place hit result }
{
    let mut rest = place.min(certificate.len());
    while rest > 0 {
        rest -= 1;
        let position = certificate.at(rest);
        if writes_key_of(history, hit, position) {
            if puts_value_of(history, hit, position) {
                return Latest::Expired(position);
            }
            return Latest::Other(position);
        }
    }
    Latest::Nothing
}

/// Whether the call at a position is a write of a hit's key.
fn writes_key_of(history: &History, hit: u32, position: u32) -> bool
    ensures { IsTrue result ↔ WritesKeyOf history.now hit position }
{
    let Some(hit) = call_at(history, hit) else {
        return false;
    };
    let Some(call) = call_at(history, position) else {
        return false;
    };
    is_write(&call.act) && call.key == hit.key
}

/// Whether an act is a put or a removal.
fn is_write(act: &ActRef<'_>) -> bool
    ensures { IsTrue result ↔ IsWrite (act_shown act.now) }
{
    match act {
        ActRef::Put(..) => true,
        ActRef::Remove => true,
        ActRef::Hit(..) => false,
        ActRef::Miss => false,
    }
}

/// Whether the call at a position puts a hit's value.
fn puts_value_of(history: &History, hit: u32, position: u32) -> bool
    ensures { IsTrue result ↔ PutsValueOf history.now hit position }
{
    let Some(hit) = call_at(history, hit) else {
        return false;
    };
    let Some(call) = call_at(history, position) else {
        return false;
    };
    puts_what(&call.act, &hit.act)
}

/// Whether an act puts what another hits.
fn puts_what(put: &ActRef<'_>, hit: &ActRef<'_>) -> bool
    ensures { IsTrue result ↔ PutsWhat (act_shown put.now) (act_shown hit.now) }
{
    let ActRef::Put(value, _) = put else {
        return false;
    };
    let ActRef::Hit(read, _) = hit else {
        return false;
    };
    *value == *read
}

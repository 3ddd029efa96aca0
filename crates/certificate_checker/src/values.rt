// The latest values of all keys, as a pass over the calls in their order knows them.
ghost use Rattle.std.specs.Prelude.{◌≡◌, ◌↔◌, IsTrue, Some, OnOk, List, ℕ};
ghost use Rattle.trace_file.specs.Lent.{call_shown};
ghost use Rattle.certificate_checker.specs.Deeds.{deed_of};
ghost use Rattle.certificate_checker.specs.Current.{after_deed};
ghost use Rattle.certificate_checker.specs.Values.{value_at, IsAllowed};

use crate::lent_value::LentValue;
use record_pages::is_live;
use std::alloc::AllocError;
use std::collections::HashMap;
use std::hash::BuildHasher;
use trace_file::{ActRef, CallRef, LentWord};

/// Notes in the map what a call writes.
pub(crate) fn note<'a, S: BuildHasher>(
    values: &mut HashMap<LentWord<'a>, LentValue<'a>, S>,
    call: CallRef<'a>,
) -> Result<(), AllocError>
    ensures { OnOk result ((key : List ℕ) → value_at values.new key
        ≡ after_deed key (value_at values.old key) (deed_of (call_shown call.entry))) }
{
    let key = LentWord { bytes: call.key };
    match call.act {
        ActRef::Put(bytes, expires) => {
            values.insert(key, LentValue { bytes, expires })?;
        }
        ActRef::Remove => {
            values.remove(&key);
        }
        ActRef::Hit(..) | ActRef::Miss => {}
    }
    Ok(())
}

/// Whether a call, if it is a hit, has the value that the map has for its key, live at the call's moment.
pub(crate) fn allows<'a, S: BuildHasher>(
    values: &HashMap<LentWord<'a>, LentValue<'a>, S>,
    call: CallRef<'a>,
) -> bool
    ensures { IsTrue result
        ↔ IsAllowed (value_at values.now call.entry.key.now) (call_shown call.entry).act }
{
    match call.act {
        ActRef::Hit(value, moment) => match values.get(&LentWord { bytes: call.key }) {
            Some(found) => is_live(found.expires, moment) && found.bytes == value,
            None => false,
        },
        ActRef::Put(..) | ActRef::Remove | ActRef::Miss => true,
    }
}

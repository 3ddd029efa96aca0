// Whether a listed call is the one that was recorded.
ghost use Rattle.std.specs.Prelude.{◌≡◌, ◌↔◌, IsTrue};
ghost use Rattle.trace_file.specs.declared.act.Act.{Act};
ghost use Rattle.trace_file.specs.Lent.{act_shown};
ghost use Rattle.recorded_lane.specs.Points.{noted_shown};

use recorded_lane::NotedRef;
use trace_file::ActRef;

/// Whether a call is the one that a lane recorded: caller, start, point, key, kind, value and time.
pub(crate) fn is_recorded_as(call: &NotedRef<'_>, recorded: &NotedRef<'_>) -> bool
    ensures { IsTrue result ↔ (noted_shown call.now ≡ noted_shown recorded.now) }
{
    call.caller == recorded.caller
        && call.start == recorded.start
        && call.point == recorded.point
        && call.key == recorded.key
        && is_act(call.act, recorded.act)
}

/// Whether two acts that are lent are the same.
fn is_act(act: ActRef<'_>, recorded: ActRef<'_>) -> bool
    ensures { IsTrue result ↔ (act_shown act.entry ≡ act_shown recorded.entry) }
{
    match act {
        ActRef::Put(value, expires) => is_put(value, expires, recorded),
        ActRef::Remove => matches!(recorded, ActRef::Remove),
        ActRef::Hit(value, moment) => is_hit(value, moment, recorded),
        ActRef::Miss => matches!(recorded, ActRef::Miss),
    }
}

/// Whether it is a put of this value, which expires then.
fn is_put(value: &[u8], expires: u64, lent: ActRef<'_>) -> bool
    ensures { IsTrue result ↔ (Act.Put value.now expires ≡ act_shown lent.entry) }
{
    match lent {
        ActRef::Put(other, time) => value == other && expires == time,
        ActRef::Remove => false,
        ActRef::Hit(..) => false,
        ActRef::Miss => false,
    }
}

/// Whether it is a hit of this value at this moment.
fn is_hit(value: &[u8], moment: u64, lent: ActRef<'_>) -> bool
    ensures { IsTrue result ↔ (Act.Hit value.now moment ≡ act_shown lent.entry) }
{
    match lent {
        ActRef::Hit(other, time) => value == other && moment == time,
        ActRef::Put(..) => false,
        ActRef::Remove => false,
        ActRef::Miss => false,
    }
}

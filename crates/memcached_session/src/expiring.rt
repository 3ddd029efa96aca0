// When an item expires.
ghost use Rattle.std.specs.Prelude.{◌≡◌, ◌<◌, ◌^◌};
ghost use Rattle.memcached_session.specs.Expiring.{clamped, expires_at};

use memcached_text::Exptime;

/// The most seconds of an expiry that counts from now on: 30 days. A greater one counts since 1970.
const MAX_RELATIVE: u32 = 2_592_000;

/// The first second at which an item is not live any more, by what a client says at a moment; `None` if it never expires.
pub(crate) fn expires_at(exptime: Exptime, moment: u64) -> Option<u32>
    ensures { result ≡ expires_at moment exptime }
{
    match exptime {
        Exptime::Never => None,
        Exptime::At(seconds) => {
            if seconds <= MAX_RELATIVE {
                Some(clamped(moment).saturating_add(seconds))
            } else {
                Some(seconds)
            }
        }
        Exptime::Past => Some(clamped(moment)),
    }
}

/// A number in 32 bits: a greater one is the last of them.
pub(crate) fn clamped(moment: u64) -> u32
    ensures { result ≡ clamped moment }
{
    if moment < u64::from(u32::MAX) {
        moment as u32
    } else {
        u32::MAX
    }
}

// What the flags of a meta command ask of the lane of its key.
ghost use Rattle.std.specs.Prelude.{◌≡◌};
ghost use Rattle.item_lane.specs.Cells.{kept_shown};
ghost use Rattle.memcached_session.specs.MetaReading.{has_flag, touch_in, change_by, new_expiry, vivify_by, recache_by, meta_get_in, first_by, mode_by, client_flags, meta_set_in, meta_kept, invalidation_by, meta_delete_in, change_in, initial_by, meta_delta_in};
ghost use Rattle.memcached_text.specs.Meta.{token_at};

use crate::expiring::expires_at;
use item_lane::{
    CacheItem, Change, ExpiryChange, Head, InitialNumber, Invalidation, MetaDelete, MetaDelta,
    MetaGet, MetaMode, MetaSet, Recache, Vivify,
};
use memcached_text::{Exptime, MetaRequest};

/// One more than the largest number that a client can keep with a value: 32 bits.
const FLAGS_END: u64 = 0x1_0000_0000;

/// Whether the line has a flag with a letter.
pub(crate) fn has_flag(request: &MetaRequest<'_>, letter: u8) -> bool
    ensures { result ≡ has_flag letter request.now.flags.now }
{
    request.flag(letter).is_some()
}

/// `T`: what becomes of an item's expiry.
pub(crate) fn touch_in(request: &MetaRequest<'_>, moment: u64) -> ExpiryChange
    ensures { result ≡ touch_in moment request.now.flags.now }
{
    match request.exptime(b'T') {
        Some(exptime) => ExpiryChange::Becomes(expires_at(exptime, moment)),
        None => ExpiryChange::Stays,
    }
}

/// `N`: when an item expires that a miss stores. `T` says it, if it stands in the line after `N`.
fn new_expiry(request: &MetaRequest<'_>, moment: u64, exptime: Exptime) -> Option<u32>
    ensures { result ≡ new_expiry moment request.now.flags.now exptime }
{
    if request.is_before(b'T', b'N') {
        return expires_at(exptime, moment);
    }
    match touch_in(request, moment) {
        ExpiryChange::Becomes(expires) => expires,
        ExpiryChange::Stays => expires_at(exptime, moment),
    }
}

/// What `mg` asks for. The item that a miss stores gets the cas unique.
pub(crate) fn meta_get_in(request: &MetaRequest<'_>, moment: u64, cas: u64) -> MetaGet
    ensures { result ≡ meta_get_in moment cas request.now.flags.now }
{
    MetaGet {
        touch: touch_in(request, moment),
        vivify: vivify_in(request, moment, cas),
        recache: recache_in(request, moment),
    }
}

// The empty item that a miss of `mg` stores.
fn vivify_in(request: &MetaRequest<'_>, moment: u64, cas: u64) -> Option<Vivify>
    ensures { result ≡ vivify_by moment cas request.now.flags.now (exptime_at 78 request.now.flags.now) }
{
    match request.exptime(b'N') {
        Some(exptime) => Some(Vivify {
            expires: new_expiry(request, moment, exptime),
            cas,
        }),
        None => None,
    }
}

ghost use Rattle.memcached_text.specs.Meta.{exptime_at, number_at};

// When an item is to be refreshed.
fn recache_in(request: &MetaRequest<'_>, moment: u64) -> Option<Recache>
    ensures { result ≡ recache_by moment request.now.flags.now (exptime_at 82 request.now.flags.now) }
{
    match request.exptime(b'R') {
        Some(Exptime::At(seconds)) => Some(Recache {
            before: expires_at(Exptime::At(seconds), moment).unwrap_or(0),
            is_after_touch: request.is_before(b'T', b'R'),
        }),
        Some(Exptime::Never) => None,
        Some(Exptime::Past) => None,
        None => None,
    }
}

// The first byte of the token of `M`, 0 if there is none.
fn mode_letter(request: &MetaRequest<'_>) -> u8
    ensures { result ≡ first_by (token_at 77 request.now.flags.now) }
{
    match request.flag(b'M') {
        Some(token) => first(token),
        None => 0,
    }
}

// The first byte, 0 if there is none.
fn first(token: &[u8]) -> u8
    ensures { result ≡ slice_index_or token.now 0 0 }
{
    if token.is_empty() { 0 } else { token[0] }
}

ghost use Rattle.std.specs.Prelude.{slice_index_or, unwrap_or};

// The mode of `ms` that a letter names.
fn mode_by(letter: u8) -> MetaMode
    ensures { result ≡ mode_by letter }
{
    if letter == b'E' {
        MetaMode::Add
    } else if letter == b'A' {
        MetaMode::Append
    } else if letter == b'P' {
        MetaMode::Prepend
    } else if letter == b'R' {
        MetaMode::Replace
    } else {
        MetaMode::Set
    }
}

/// How `ms` stores.
pub(crate) fn meta_set_in(request: &MetaRequest<'_>) -> MetaSet
    ensures { result ≡ meta_set_in request.now.flags.now }
{
    MetaSet {
        mode: mode_by(mode_letter(request)),
        compare: request.number(b'C'),
        invalidates: has_flag(request, b'I'),
    }
}

// The number that the client keeps with the value: the lower 32 bits of what it gives.
fn client_flags(number: Option<u64>) -> u32
    ensures { result ≡ client_flags number }
{
    match number {
        Some(number) => (number % FLAGS_END) as u32,
        None => 0,
    }
}

/// The item that the data block of `ms` is to be.
pub(crate) fn meta_item<'a>(
    request: &MetaRequest<'_>,
    block: &'a [u8],
    moment: u64,
    cas: u64,
) -> CacheItem<'a>
    ensures { kept_shown result ≡ meta_kept moment cas request.now.flags.now block.now }
{
    let expires = match touch_in(request, moment) {
        ExpiryChange::Becomes(expires) => expires,
        ExpiryChange::Stays => None,
    };
    let head = Head {
        flags: client_flags(request.number(b'F')),
        cas,
        expires,
        is_stale: false,
        is_won: false,
    };
    CacheItem { head, bytes: block }
}

/// What `md` does. An item that it marks as stale gets the cas unique.
pub(crate) fn meta_delete_in(request: &MetaRequest<'_>, moment: u64, cas: u64) -> MetaDelete
    ensures { result ≡ meta_delete_in moment cas request.now.flags.now }
{
    MetaDelete {
        compare: request.number(b'C'),
        invalidation: invalidation_in(request, moment, cas),
    }
}

// How `md` marks an item as stale, if it is to.
fn invalidation_in(request: &MetaRequest<'_>, moment: u64, cas: u64) -> Option<Invalidation>
    ensures { result ≡ invalidation_by moment cas request.now.flags.now (has_flag 73 request.now.flags.now) }
{
    if has_flag(request, b'I') {
        Some(Invalidation {
            cas,
            touch: touch_in(request, moment),
        })
    } else {
        None
    }
}

// How `ma` changes a number, by the letter of its mode.
fn change_in(letter: u8, amount: u64) -> Change
    ensures { result ≡ change_in letter amount }
{
    if letter == b'D' {
        Change::Decrement(amount)
    } else if letter == b'-' {
        Change::Decrement(amount)
    } else {
        Change::Increment(amount)
    }
}

// The number that a miss of `ma` stores.
fn initial_in(request: &MetaRequest<'_>, moment: u64) -> Option<InitialNumber>
    ensures { result ≡ initial_by moment request.now.flags.now (exptime_at 78 request.now.flags.now) }
{
    match request.exptime(b'N') {
        Some(exptime) => Some(InitialNumber {
            number: request.number(b'J').unwrap_or(0),
            expires: new_expiry(request, moment, exptime),
        }),
        None => None,
    }
}

/// What `ma` does. The item that it stores gets the cas unique.
pub(crate) fn meta_delta_in(request: &MetaRequest<'_>, moment: u64, cas: u64) -> MetaDelta
    ensures { result ≡ meta_delta_in moment cas request.now.flags.now }
{
    let amount = request.number(b'D').unwrap_or(1);
    MetaDelta {
        change: change_in(mode_letter(request), amount),
        cas,
        compare: request.number(b'C'),
        touch: touch_in(request, moment),
        initial: initial_in(request, moment),
    }
}

// What is answered to each meta command.
ghost use Rattle.std.specs.Prelude.{◌≡◌, ◌-◌, length};
ghost use Rattle.std.specs.Option.{option_map};
ghost use Rattle.item_lane.specs.Cells.{kept_shown};
ghost use Rattle.memcached_session.specs.Expiring.{clamped};
ghost use Rattle.memcached_session.specs.Fitting.{IsSaidWithin};
ghost use Rattle.memcached_session.specs.MetaSaying.{meta_reply_shown, fault_reply, ttl_of, went_shown, went_with, told_of, told_change, seen_by, told_seen, get_said, set_said, delete_said, counted_expiry, delta_said};

use crate::expiring::clamped;
use crate::meta_reading::has_flag;
use crate::meta_reply::{MetaReply, MetaShown, Returned, no_marks};
use item_lane::{
    CacheItem, CommandReply, ExpiryChange, Head, ItemMarks, ItemReply, MetaDelta, MetaGet, Vivify,
};
use itoa::Buffer;
use memcached_text::{FixedReply, MetaMarks, MetaRequest, MetaStatus, Ttl};
use record_pages::PutFault;

/// What is answered to `mg`.
pub(crate) fn to_get<'a>(
    request: &MetaRequest<'_>,
    asked: MetaGet,
    moment: u64,
    done: ItemReply<'a>,
) -> MetaReply<'a>
    ensures { meta_reply_shown result ≡ get_said moment request.now.flags.now asked
        (option_map kept_shown done.entry.item) done.entry.reply }
{
    match done.reply {
        Ok(CommandReply::Found(marks)) => to_seen(request, asked, moment, done.item, marks),
        Ok(_) => MetaReply::bare(MetaStatus::Miss).unless_q(request),
        Err(fault) => MetaReply::Line(fault_reply(fault)),
    }
}

// What is told of the item that a get found or stored.
fn to_seen<'a>(
    request: &MetaRequest<'_>,
    asked: MetaGet,
    moment: u64,
    item: Option<CacheItem<'a>>,
    marks: ItemMarks,
) -> MetaReply<'a>
    ensures { meta_reply_shown result ≡ told_seen moment request.now.flags.now marks
        (seen_by request.now.flags.now asked (option_map kept_shown item.entry)) }
{
    match item {
        Some(item) => {
            let change = told_change(request, asked.touch);
            to_item(request, moment, with_expiry(change, item), marks)
        }
        None => match asked.vivify {
            Some(vivify) => to_item(request, moment, vivified(vivify), marks),
            None => MetaReply::bare(MetaStatus::Miss),
        },
    }
}

ghost use Rattle.item_lane.specs.Meta.{expiry_after, vivified, with_expiry};

// What is told of a change of an item's expiry: nothing, if `t` stands in the line before `T`.
fn told_change(request: &MetaRequest<'_>, touch: ExpiryChange) -> ExpiryChange
    ensures { result ≡ told_change request.now.flags.now touch }
{
    if request.is_before(b't', b'T') {
        ExpiryChange::Stays
    } else {
        touch
    }
}

// An item with another expiry.
fn with_expiry(change: ExpiryChange, item: CacheItem<'_>) -> CacheItem<'_>
    ensures { kept_shown result ≡ with_expiry change (kept_shown item.entry) }
{
    let head = Head {
        expires: after(change, item.head.expires),
        ..item.head
    };
    CacheItem {
        head,
        bytes: item.bytes,
    }
}

// An expiry after a change.
fn after(change: ExpiryChange, expires: Option<u32>) -> Option<u32>
    ensures { result ≡ expiry_after change expires }
{
    match change {
        ExpiryChange::Stays => expires,
        ExpiryChange::Becomes(other) => other,
    }
}

// The empty item that a miss stores.
fn vivified<'a>(vivify: Vivify) -> CacheItem<'a>
    ensures { kept_shown result ≡ vivified vivify }
{
    let head = Head {
        flags: 0,
        cas: vivify.cas,
        expires: vivify.expires,
        is_stale: false,
        is_won: true,
    };
    CacheItem { head, bytes: &[] }
}

// What is told of an item.
fn to_item<'a>(
    request: &MetaRequest<'_>,
    moment: u64,
    item: CacheItem<'a>,
    marks: ItemMarks,
) -> MetaReply<'a>
    ensures { meta_reply_shown result
        ≡ told_of moment request.now.flags.now marks (kept_shown item.entry) }
{
    let returned = Returned {
        cas: Some(item.head.cas),
        flags: Some(item.head.flags),
        size: Some(clamped(item.bytes.len() as u64)),
        ttl: Some(ttl(moment, item.head.expires)),
    };
    MetaReply::Shown(MetaShown {
        status: status_with(request, item.bytes),
        returned,
        marks: MetaMarks {
            is_awaited: marks.is_awaited,
            is_stale: marks.is_stale,
            has_won: marks.has_won,
        },
    })
}

// How a command went, with the value if it is wanted.
fn status_with<'a>(request: &MetaRequest<'_>, block: &'a [u8]) -> MetaStatus<'a>
    ensures { went_shown result ≡ went_with request.now.flags.now block.now }
{
    if has_flag(request, b'v') {
        MetaStatus::Value(block)
    } else {
        MetaStatus::Header
    }
}

// How long an item lives after a moment.
fn ttl(moment: u64, expires: Option<u32>) -> Ttl
    ensures { result ≡ ttl_of moment expires }
{
    match expires {
        None => Ttl::Unlimited,
        Some(expires) => Ttl::Seconds(u64::from(expires).saturating_sub(moment) as u32),
    }
}

// The fixed line of a refusal.
fn fault_reply(fault: PutFault) -> FixedReply
    ensures { result ≡ fault_reply fault }
{
    match fault {
        PutFault::TooLarge => FixedReply::TooLarge,
        PutFault::OutOfMemory => FixedReply::OutOfMemory,
    }
}

/// What is answered to `ms`.
pub(crate) fn to_set<'a>(
    request: &MetaRequest<'_>,
    cas: u64,
    reply: Result<CommandReply, PutFault>,
) -> MetaReply<'a>
    ensures { meta_reply_shown result ≡ set_said cas request.now.flags.now reply }
{
    match reply {
        Ok(CommandReply::Stored) => with_cas(MetaStatus::Header, cas).unless_q(request),
        Ok(CommandReply::Exists) => with_cas(MetaStatus::Exists, 0),
        Ok(CommandReply::NotFound) => with_cas(MetaStatus::NotFound, 0),
        Ok(_) => with_cas(MetaStatus::NotStored, 0),
        Err(fault) => MetaReply::Line(fault_reply(fault)),
    }
}

ghost use Rattle.memcached_session.specs.MetaSaying.{Shown, returns_cas, no_marks};

// An answer that returns a cas unique.
fn with_cas<'a>(status: MetaStatus<'a>, cas: u64) -> MetaReply<'a>
    ensures { meta_reply_shown result ≡ Shown (record {
      went = went_shown status.entry;
      returned = returns_cas cas;
      marks = no_marks;
    }) }
{
    MetaReply::Shown(MetaShown {
        status,
        returned: Returned::only_cas(cas),
        marks: no_marks(),
    })
}

/// What is answered to `md`.
pub(crate) fn to_delete<'a>(
    request: &MetaRequest<'_>,
    reply: Result<CommandReply, PutFault>,
) -> MetaReply<'a>
    ensures { meta_reply_shown result ≡ delete_said request.now.flags.now reply }
{
    match reply {
        Ok(CommandReply::Deleted) => MetaReply::bare(MetaStatus::Header).unless_q(request),
        Ok(CommandReply::Invalidated) => MetaReply::bare(MetaStatus::Header).unless_q(request),
        Ok(CommandReply::Exists) => MetaReply::bare(MetaStatus::Exists),
        Ok(_) => MetaReply::bare(MetaStatus::NotFound),
        Err(fault) => MetaReply::Line(fault_reply(fault)),
    }
}

/// What is answered to `ma`; its number's digits are lent.
pub(crate) fn to_delta<'a>(
    request: &MetaRequest<'_>,
    asked: MetaDelta,
    moment: u64,
    done: ItemReply<'_>,
    digits: &'a mut Buffer,
) -> MetaReply<'a>
    ensures said { meta_reply_shown result ≡ delta_said moment request.now.flags.now asked
        (option_map kept_shown done.entry.item) done.entry.reply }
    ensures within { IsSaidWithin (meta_reply_shown result) }
{
    match done.reply {
        Ok(CommandReply::Number(number)) => {
            let status = status_with(request, digits.format(number).as_bytes());
            let returned = Returned {
                cas: Some(asked.cas),
                flags: None,
                size: None,
                ttl: Some(ttl(moment, counted_expiry(request, asked, done.item))),
            };
            let shown = MetaShown {
                status,
                returned,
                marks: no_marks(),
            };
            MetaReply::Shown(shown).unless_q(request)
        }
        Ok(CommandReply::NotNumber) => MetaReply::Line(FixedReply::NotNumber),
        Ok(CommandReply::Exists) => MetaReply::bare(MetaStatus::Exists),
        Ok(_) => MetaReply::bare(MetaStatus::NotFound),
        Err(fault) => MetaReply::Line(fault_reply(fault)),
    }
}

// The expiry that is told of the item that holds the number.
fn counted_expiry(
    request: &MetaRequest<'_>,
    asked: MetaDelta,
    item: Option<CacheItem<'_>>,
) -> Option<u32>
    ensures { result ≡ counted_expiry request.now.flags.now asked (option_map kept_shown item.entry) }
{
    match item {
        Some(item) => after(told_change(request, asked.touch), item.head.expires),
        None => match asked.initial {
            Some(initial) => initial.expires,
            None => None,
        },
    }
}

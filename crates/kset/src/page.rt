// What a set's page says.
ghost use Rattle.std.specs.Prelude.{◌≡◌, ◌≤◌, IfSome, length};
ghost use Rattle.std.specs.Bool.{OnFalse};
ghost use Rattle.record_pages.specs.Sizes.{max_set_records};
ghost use Rattle.record_pages.specs.Reading.{set_page_at};
ghost use Rattle.kset.specs.Locate.{is_hit};
ghost use Rattle.kset.specs.Telling.{page_if_of, SetPageTells};

use crate::located_in_set::LocatedInSet;
use record_pages::{SetPage, ValueBuffer, is_live};

/// The page that these bytes spell, if it is the page of this set.
pub(crate) fn page_of<const PAGE: usize>(bytes: &[u8; PAGE], set: u32) -> Option<SetPage<'_>>
    ensures page { result ≡ page_if_of set (set_page_at bytes.now) }
    ensures few { IfSome result (λ p. length p.records ≤ max_set_records) }
{
    let page = SetPage::read(bytes)?;
    if page.set() != set {
        return None;
    }
    Some(page)
}

/// What these bytes say of a key at a moment, as the page of this set. A live value of the key goes into the buffer.
pub(crate) fn tell<const PAGE: usize>(
    bytes: &[u8; PAGE],
    set: u32,
    key: &[u8],
    moment: u64,
    into: &mut ValueBuffer,
) -> LocatedInSet
    ensures tells { SetPageTells key.now moment into.new (page_if_of set (set_page_at bytes.now))
        result }
    ensures stays { OnFalse (is_hit result) (into.new ≡ into.old) }
{
    let Some(page) = page_of(bytes, set) else {
        return LocatedInSet::Damaged;
    };
    let Some(found) = page.records().find_key(key) else {
        return LocatedInSet::Absent;
    };
    if !is_live(found.lent.expires, moment) {
        return LocatedInSet::Expired;
    }
    into.set(found.lent.value);
    LocatedInSet::Hit {
        slot: found.slot,
        expires: found.lent.expires,
    }
}

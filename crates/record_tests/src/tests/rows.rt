//! What callers rely on, of every page and of every index: the contract of each function here denies what a wrong body
//! of the call would do.

ghost use Rattle.std.specs.Prelude.{◌≡◌, ◌≢◌, ◌+◌, ◌<◌, ◌≤◌, ℕ, Some, IfSome, length, take, codes, slice_get};
ghost use Rattle.record_pages.specs.Recs.{sizes};

use klog_index::{Entry, LogIndex, Place};
use record_pages::{LogPageWriter, Record, SetPage};

/// A page that is read has only zeros after its records.
pub fn read_with_zeros_at_the_end<const PAGE: usize>(page: &[u8; PAGE]) -> Option<SetPage<'_>>
    ensures { IfSome result (λ x. (at : ℕ) → 18 + sizes x.records ≤ at → at < PAGE →
        slice_get page.now at ≡ Some 0) }
{
    SetPage::read(page)
}

/// A set page of an older form has 64 records at most, if it is read.
pub fn read_an_older_page<const PAGE: usize>(page: &[u8; PAGE]) -> Option<SetPage<'_>>
    ensures { take 4 page.now ≢ codes "KSE2" → IfSome result (λ x. length x.records ≤ 64) }
{
    SetPage::read(page)
}

/// A log page with 64 records takes no more, however small one is.
pub fn push_on_a_full_page<const PAGE: usize>(writer: &mut LogPageWriter<PAGE>, added: &Record)
    ensures { length writer.old ≡ 64 → writer.new ≡ writer.old }
{
    if writer.fits(added.lent()) {
        writer.push(added.lent());
    }
}

/// After a drop no entry at its place is met on a walk along a set.
pub fn walk_of_a_set_after_a_drop(
    index: &mut LogIndex,
    place: Place,
    set: u32,
    skip: usize,
) -> Option<Entry>
    ensures { IfSome result (λ x. x.place ≢ place) }
{
    index.drop_at(place);
    index.of_set(set, skip)
}

/// Nor is one met on a walk along all entries, as the one is that finds the first of a segment.
pub fn walk_of_all_after_a_drop(index: &mut LogIndex, place: Place) -> Option<Entry>
    ensures { IfSome result (λ x. x.place ≢ place) }
{
    index.drop_at(place);
    index.first_of(place.segment, &[])
}

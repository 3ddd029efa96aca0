// A segment in the making.
ghost use Rattle.std.specs.Prelude.{◌≡◌, ◌<◌, ◌≤◌, ◌↔◌, [], length, take, IfOk, IfSome, IfNone, IsTrue, true, false};
ghost use Rattle.std.specs.Bool.{OnTrue};
ghost use Rattle.record_pages.specs.Sizes.{IsPageSize, room, max_log_records};
ghost use Rattle.record_pages.specs.Recs.{IsRecord, size};
ghost use Rattle.record_pages.specs.Lent.{record_shown};
ghost use Rattle.klog.specs.Buffer.{Buffer, empty_buffer, can_add, pages_with, page_for, slot_for, page_of, fits_here};

use record_pages::{LogPageWriter, RecordRef};
use std::alloc::{AllocError, Global};
use std::marker::Model;

/// The pages of a segment in the making. All memory is taken when it is made.
#[derive(Drop)]
pub(crate) struct SegmentBuffer<const PAGE: usize> {
    pages: Vec<LogPageWriter<PAGE>>,
    used: usize,
}

impl<const PAGE: usize> Model for SegmentBuffer<PAGE> {
    ghost Value = { Buffer };

    ghost view = { λ b. record { room = length b.pages.items; pages = take b.used b.pages.items } };

    ghost invariant = { λ b. (b.used ≤ length b.pages.items) × (length b.pages.items ≤ 64) };
}

/// Where a record lies in a segment.
#[derive(Clone, Copy)]
pub(crate) struct Spot {
    /// The page, from 0.
    pub(crate) page: usize,
    /// The slot on that page, from 0.
    pub(crate) slot: usize,
}

impl<const PAGE: usize> SegmentBuffer<PAGE> {
    /// A segment of this many pages, with no record.
    pub(crate) fn new(alloc: Global, pages: usize) -> Result<Self, AllocError>
        requires page_size { IsPageSize PAGE }
        requires pages { pages ≤ 64 }
        ensures { IfOk result (λ b. b ≡ empty_buffer pages) }
    {
        let mut all = Vec::with_capacity(alloc, pages)?;
        for _ in 0..pages {
            all.push(LogPageWriter::new())?;
        }
        Ok(SegmentBuffer {
            pages: all,
            used: 0,
        })
    }

    /// How many pages hold records.
    pub(crate) fn len(&self) -> usize
        ensures len { result ≡ length self.now.pages }
        ensures within { length self.now.pages ≤ self.now.room }
        ensures few { self.now.room ≤ 64 }
    {
        self.used
    }

    /// A page that holds records.
    pub(crate) fn page(&self, page: usize) -> Option<&LogPageWriter<PAGE>>
        ensures some { IfSome result (λ w. (page < length self.now.pages)
            × (w.now ≡ page_of self.now.pages page)) }
        ensures none { IfNone result (length self.now.pages ≤ page) }
    {
        if page < self.used {
            Some(&self.pages[page])
        } else {
            None
        }
    }

    /// Drops all records.
    pub(crate) fn clear(&mut self)
        ensures { self.new ≡ empty_buffer self.old.room }
    {
        self.used = 0;
    }

    /// Adds a record on the current page, or else on the next one. If neither has room nothing changes.
    pub(crate) fn push(&mut self, added: RecordRef<'_>) -> Option<Spot>
        requires page_size { IsPageSize PAGE }
        requires lawful { IsRecord (record_shown added) }
        requires small { size (record_shown added) ≤ room PAGE }
        ensures some { IfSome result (λ at. (can_add PAGE self.old (record_shown added.entry) ≡ true)
            × (self.new ≡ record {
              room = self.old.room;
              pages = pages_with PAGE self.old.pages (record_shown added.entry);
            })
            × (at.page ≡ page_for PAGE self.old.pages (record_shown added.entry))
            × (at.slot ≡ slot_for PAGE self.old.pages (record_shown added.entry))) }
        ensures within { IfSome result (λ at. (at.page < self.old.room) × (at.slot < max_log_records)) }
        ensures none { IfNone result
            ((can_add PAGE self.old (record_shown added.entry) ≡ false) × (self.new ≡ self.old)) }
    {
        if self.fits_here(added) {
            let at = self.used - 1;
            let page = &mut self.pages[at];
            let slot = page.len();
            page.push(added);
            return Some(Spot { page: at, slot });
        }
        if self.used == self.pages.len() {
            return None;
        }
        let at = self.used;
        let page = &mut self.pages[at];
        page.clear();
        page.push(added);
        self.used += 1;
        Some(Spot { page: at, slot: 0 })
    }

    // Whether a record fits on the current page.
    fn fits_here(&self, added: RecordRef<'_>) -> bool
        requires page_size { IsPageSize PAGE }
        requires lawful { IsRecord (record_shown added) }
        ensures fits { result ≡ fits_here PAGE self.now.pages (record_shown added.entry) }
        ensures some { OnTrue result (0 < length self.now.pages) }
    {
        self.used > 0 && self.pages[self.used - 1].fits(added)
    }
}

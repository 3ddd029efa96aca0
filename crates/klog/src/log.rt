// The log of a lane.
ghost use Rattle.std.specs.Prelude.{◌≡◌, ◌<◌, ◌≤◌, ◌+◌, ◌*◌, ◌^◌, ◌↔◌, ℕ, List, [], length, Option, IfOk, IsTrue, count_by};
ghost use Rattle.record_pages.specs.Sizes.{IsPageSize};
ghost use Rattle.std.specs.List.{list_any};
ghost use Rattle.klog_index.specs.Entries.{AreApart, is_of, has_tag};
ghost use Rattle.klog.specs.Log.{LogState, shape_of, opening_log};
ghost use Rattle.klog.specs.Names.{names, name_of, number_of, flushed_number, filled_number, device_page};
ghost use Rattle.klog.specs.Shown.{IsSpelledOn, live_on, ArePlaced};
ghost use Rattle.klog.specs.Keeps.{IsLog};
ghost use Rattle.klog.specs.Usage.{usage_of};

mod append;
mod fetch;
mod flush;
mod locate;
mod look;
mod moves;

pub use self::moves::MAX_TAKEN;
use crate::buffer::SegmentBuffer;
use crate::log_usage::LogUsage;
use klog_index::LogIndex;
use record_pages::Layout;
use set_hash::Placed;
use std::alloc::{AllocError, Global};
use std::marker::Model;

/// The log of a lane. Its segments are numbered from 0: the oldest lie on the device, after the pages of the sets; then
/// comes at most one that is being flushed; and then the one that is being filled.
///
/// The device is lent to each call that needs it. No page below the number of sets is written.
#[derive(Drop)]
pub struct KLog<const PAGE: usize> {
    layout: Layout,
    index: LogIndex,
    first: u64,
    stored: u32,
    is_flushing: bool,
    done: u32,
    flushing: SegmentBuffer<PAGE>,
    filling: SegmentBuffer<PAGE>,
}

impl<const PAGE: usize> Model for KLog<PAGE> {
    ghost use Rattle.std.specs.Prelude.{◌≡◌};
    ghost use Rattle.klog.specs.Log.{LogState, shape_of};
    ghost use Rattle.klog.specs.Keeps.{IsLog};

    ghost Value = { LogState };

    ghost view = { λ k. record { shape = shape_of k.layout; entries = k.index.entries; first = k.first; stored = k.stored; is_flushing = k.is_flushing; done = k.done; flushing = k.flushing.pages; filling = k.filling.pages } };

    ghost invariant = { λ k. IsLog (record { shape = shape_of k.layout; entries = k.index.entries; first = k.first; stored = k.stored; is_flushing = k.is_flushing; done = k.done; flushing = k.flushing.pages; filling = k.filling.pages }) × (k.index.sets ≡ k.layout.sets) × (k.index.limit ≡ k.layout.entries) × (k.flushing.room ≡ k.layout.segment_pages) × (k.filling.room ≡ k.layout.segment_pages) };
}

impl<const PAGE: usize> KLog<PAGE> {
    /// The log of a lane of this layout, with no record, or `AllocError` if memory was refused. All memory that the
    /// log needs is taken here.
    pub fn open(alloc: Global, layout: &Layout) -> Result<Self, AllocError>
        requires page_size { IsPageSize PAGE }
        ensures opening { IfOk result (λ k. k ≡ opening_log (shape_of layout.now)) }
        ensures spelled { IfOk result (λ k.
            (held : ℕ → Option (List ℕ)) → IsSpelledOn PAGE held k) }
    {
        let pages = layout.segment_pages as usize;
        Ok(KLog {
            layout: *layout,
            index: LogIndex::open(alloc, layout.sets, layout.entries)?,
            first: 0,
            stored: 0,
            is_flushing: false,
            done: 0,
            flushing: SegmentBuffer::new(alloc, pages)?,
            filling: SegmentBuffer::new(alloc, pages)?,
        })
    }

    /// How many live records there are.
    pub fn len(&self) -> usize
        ensures len { result ≡ length self.now.entries }
        // What is true of every log.
        ensures kept { IsLog self.now }
        ensures apart { AreApart self.now.entries }
        ensures placed { (size : ℕ) → (held : ℕ → Option (List ℕ)) → IsSpelledOn size held self.now →
            ArePlaced self.now.shape (live_on held self.now) }
    {
        self.index.len()
    }

    /// How many live records a set has.
    pub fn count(&self, set: u32) -> usize
        ensures { result ≡ count_by (is_of set) self.now.entries }
    {
        self.index.count(set)
    }

    /// Whether there is a live record of a set with a tag: that of the key which is placed there, or a neighbour's.
    pub fn may_have(&self, placed: &Placed) -> bool
        ensures { result ≡ list_any (has_tag placed.now.set placed.now.tag) self.now.entries }
    {
        self.index.find(placed.set, placed.tag, 0).is_some()
    }

    /// Whether there is no live record.
    pub fn is_empty(&self) -> bool
        ensures { IsTrue result ↔ (self.now.entries ≡ []) }
    {
        self.index.is_empty()
    }

    /// How full the log is.
    pub fn usage(&self) -> LogUsage
        ensures { result ≡ usage_of self.now }
    {
        LogUsage {
            segments: self.layout.segments,
            free_segments: self.layout.segments - self.stored,
            is_flushing: self.is_flushing,
            segment_pages: self.layout.segment_pages,
            filled_pages: self.filling.len() as u32,
            limit: self.layout.entries,
            live: self.index.len() as u32,
        }
    }

    // The number of the segment that is flushed, if there is one.
    fn flushed_number(&self) -> u64
        ensures number { result ≡ flushed_number self.now }
        ensures within { flushed_number self.now ≤ 2 ^ 62 + 1 }
    {
        self.first + u64::from(self.stored)
    }

    // The number of the segment that is filled.
    fn filled_number(&self) -> u64
        ensures number { result ≡ filled_number self.now }
        ensures within { filled_number self.now ≤ 2 ^ 62 + 1 }
    {
        let flushed = self.flushed_number();
        if self.is_flushing {
            flushed + 1
        } else {
            flushed
        }
    }

    // The name of a segment in places.
    fn name_of(&self, number: u64) -> u16
        ensures name { result ≡ name_of self.now number }
        ensures within { result < 258 }
    {
        (number % self.names()) as u16
    }

    // The number of a segment by its name.
    fn number_of(&self, name: u16) -> u64
        ensures { result ≡ number_of self.now name }
    {
        let names = self.names();
        self.first + (u64::from(name) + (names - self.first % names)) % names
    }

    // How many names there are.
    fn names(&self) -> u64
        ensures names { result ≡ names self.now }
        ensures within { (0 < result) × (result ≤ 258) }
    {
        u64::from(self.layout.segments) + 2
    }

    // The page of the device where a page of a segment lies.
    fn device_page(&self, segment: u64, page: u32) -> u32
        requires { page < self.now.shape.segment_pages }
        ensures at { result ≡ device_page self.now segment page }
        ensures within { result < self.now.shape.sets
            + self.now.shape.segments * self.now.shape.segment_pages }
    {
        let place = (segment % u64::from(self.layout.segments)) as u32;
        self.layout.sets + place * self.layout.segment_pages + page
    }
}

// A lane that serves callers with seats.
ghost use Rattle.std.specs.Prelude.{◌≡◌, ◌<◌, [], IsTrue, length};
ghost use Rattle.klog.specs.Usage.{usage_of};
ghost use Rattle.service_lane.specs.Words.{next_word};

use deed_book::{BookName, KeyLanes, Register, Seat};
use klog::LogUsage;
use page_device::PageDevice;
use rand_core::utils::NextWord;
use rand_pcg::Lcg64Xsh32;
use record_pages::Layout;
use service_lane::{Counts, ServiceLane};
use std::marker::Model;

mod get;
mod helping;
mod put;
mod tend;

/// A lane that serves, with the generator of its words of admission, and its register in a book: a list of all writes, which is there in
/// proofs alone.
///
/// Each key of the lane has, by the lane's deeds, no value, or what it has by the list. The device is honest if the type of the lanes
/// says so of the lane's number.
#[derive(Drop)]
pub struct SeatedLane<D: PageDevice<PAGE>, const PAGE: usize, L: KeyLanes, J: BookName> {
    lane: ServiceLane<D, PAGE>,
    register: Register<L, J>,
    words: Lcg64Xsh32,
}

impl<D: PageDevice<PAGE>, const PAGE: usize, L: KeyLanes, J: BookName> Model
    for SeatedLane<D, PAGE, L, J> {
    ghost use Rattle.std.specs.Coded.{codes};
    ghost use Rattle.kset.specs.Sets.{sets_code};
    ghost use Rattle.service_cache.specs.Seated.{Seated, IsAsSaid, IsSeated};

    ghost Value = { Seated D };

    ghost coded = { Prim.hlevel (codes, sets_code) };

    ghost view = { λ s. record { serving = s.lane; register = s.register; words = s.words } };

    ghost invariant = { λ s. IsSeated L.lane_of s.register s.lane.deeds
        × IsAsSaid L.is_honest D.honest s.register s.lane };
}

impl<D: PageDevice<PAGE>, const PAGE: usize, L: KeyLanes, J: BookName> SeatedLane<D, PAGE, L, J> {
    ghost use Rattle.service_cache.specs.Seated.{IsAsSaid, IsSeated, drawn};

    /// A lane that was just opened, with a register that has seen nothing, and the generator of its words of admission: `words_of` gives one.
    pub fn new(lane: ServiceLane<D, PAGE>, register: Register<L, J>, words: Lcg64Xsh32) -> Self
        requires opened { lane.deeds ≡ [] }
        requires honest { IsAsSaid L.is_honest D.honest register lane }
        ensures { result ≡ record { serving = lane; register = register; words = words } }
    {
        SeatedLane {
            lane,
            register,
            words,
        }
    }

    /// The number of the lane in the book.
    pub fn number(&self) -> usize
        ensures number { result ≡ self.now.register.number }
        ensures within { result < L.lanes }
        // What is true of every such lane.
        ensures seated { IsSeated L.lane_of self.now.register self.now.serving.deeds }
        ensures said { IsAsSaid L.is_honest D.honest self.now.register self.now.serving }
    {
        self.register.number()
    }

    /// A seat that has seen what the lane has.
    pub fn seat(&self) -> Seat<L, J>
        ensures { result ≡ self.now.register.deeds }
    {
        self.register.seat()
    }

    /// Counts of what the lane has done since it was opened.
    pub fn counts(&self) -> Counts
        ensures { result ≡ self.now.serving.counts }
    {
        self.lane.counts()
    }

    /// How full its log is.
    pub fn log_usage(&self) -> LogUsage
        ensures { result ≡ usage_of self.now.serving.store.log }
    {
        self.lane.log_usage()
    }

    /// How many objects are in memory.
    pub fn memory_len(&self) -> usize
        ensures { result ≡ length self.now.serving.store.memory.pairs }
    {
        self.lane.memory_len()
    }

    /// The device.
    pub fn device(&self) -> &D
        ensures { result.now ≡ self.now.serving.store.device }
    {
        self.lane.device()
    }

    /// The numbers that the lane was opened with.
    pub fn layout(&self) -> Layout
        ensures { result ≡ self.now.serving.store.layout }
    {
        self.lane.layout()
    }

    // The next word of admission.
    fn draw(&mut self) -> u32
        ensures word { result ≡ next_word self.old.words }
        ensures leaves { self.new ≡ drawn self.old }
    {
        self.words.next_word()
    }
}

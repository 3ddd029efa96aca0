// The parts of a new cache.
ghost use Rattle.std.specs.Prelude.{◌≡◌, ℕ, ◌<◌, ◌≤◌, All, IfOk, length, slice_index_or};
ghost use Rattle.record_pages.specs.Asked.{layout_pages};
ghost use Rattle.record_pages.specs.Sizes.{IsPageSize};
ghost use Rattle.shared_cache.specs.Stamps.{new_sight};
ghost use Rattle.shared_cache.specs.Passes.{Ticket, new_ticket};

use crate::books::{LaneBook, Pass};
use crate::clock::{Clock, ClockSeat};
use crossbeam_utils::CachePadded;
use page_device::PageDevice;
use record_pages::Layout;
use std::alloc::{AllocError, Global};
use std::collections::VecDeque;
use std::sync::Mutex;

/// A pass for each of this many callers, numbered from 0, each with one of the clock's new seats.
pub(crate) fn passes_of(
    alloc: Global,
    clock: &Clock,
    callers: u16,
    seats: Vec<ClockSeat>,
) -> Result<Vec<Pass>, AllocError>
    requires many { length seats.items ≡ callers }
    requires new { All (λ s. s ≡ new_sight clock.now) seats.items }
    ensures many { IfOk result (λ passes. length passes.items ≡ callers) }
    ensures new { IfOk result (λ passes. (caller : ℕ) (d : Ticket) → caller < callers →
        slice_index_or passes.items caller d ≡ new_ticket caller (new_sight clock.now)) }
{
    let mut seats = seats;
    let mut passes = Vec::with_capacity(alloc, usize::from(callers))?;
    while let Some(seat) = seats.pop() {
        let caller = passes.len() as u16;
        passes.push(Pass::new(alloc, caller, seat))?;
    }
    Ok(passes)
}

/// An empty book for each lane, each under its lock, on cache lines of its own.
pub(crate) fn books_of<D: PageDevice<PAGE>, const PAGE: usize>(
    alloc: Global,
    layout: &Layout,
    devices: Vec<D>,
) -> Result<Vec<Mutex<CachePadded<LaneBook<D, PAGE>>>>, AllocError>
    requires page_size { IsPageSize PAGE }
    requires one_each { length devices.items ≡ layout.now.lanes }
    requires room { All (λ d. layout_pages layout.now ≤ D.page_count d) devices.items }
    ensures { IfOk result (λ books. length books.items ≡ layout.now.lanes) }
{
    let mut books = Vec::with_capacity(alloc, layout.lanes as usize)?;
    let mut devices = VecDeque::from(devices);
    while let Some(device) = devices.pop_front() {
        let lane = books.len() as u32;
        let book = LaneBook::new(alloc, layout, lane, device)?;
        books.push(Mutex::new(CachePadded::new(book)))?;
    }
    Ok(books)
}

// A world of lanes and callers.
ghost use Rattle.std.specs.Prelude.{◌≡◌, ◌<◌, ◌≤◌, ◌↔◌, length, map, All, Any, IfOk, IfErr, OnOk, IsTrue};
ghost use Rattle.record_pages.specs.Asked.{HasNumbersOf, layout_pages};
ghost use Rattle.record_pages.specs.Sizes.{IsPageSize};
ghost use Rattle.mover.specs.Store.{IsTooSmall};

use crate::lane_played::know_recorded;
use crate::open_world_fault::OpenWorldFault;
use page_device::{Boxed, PageDevice};
use record_pages::{Config, Layout};
use recorded_lane::RecordedLane;
use std::alloc::{AllocError, Global};
use std::marker::Model;

/// The lanes of a cache, each over a device of its own, and a number of callers, to which nothing happened yet.
#[derive(Drop)]
pub struct World<D: PageDevice<PAGE>, const PAGE: usize> {
    pub(crate) layout: Layout,
    pub(crate) callers: u16,
    pub(crate) lanes: Vec<Box<RecordedLane<Boxed<D>, PAGE>>>,
}

impl<D: PageDevice<PAGE>, const PAGE: usize> Model for World<D, PAGE> {
    ghost use Rattle.history_recorder.specs.Game.{unboxed};
    ghost use Rattle.history_recorder.specs.Opened.{Opened, AreTheLanes, devices_of};

    ghost Value = { Opened D };

    ghost view = { λ w. record { layout = w.layout; devices = devices_of w.lanes.items; callers = w.callers } };

    ghost invariant = { λ w. AreTheLanes D.honest D.held w.layout (unboxed w.lanes.items) };
}

impl<D: PageDevice<PAGE>, const PAGE: usize> World<D, PAGE> {
    ghost use Rattle.history_recorder.specs.Game.{unboxed};
    ghost use Rattle.history_recorder.specs.Opened.{AreTheLanes, devices_of, CanOpen, RefusesWorld};

    /// A world of this configuration, with one device for each lane in the lanes' order, and this many callers,
    /// numbered from 0. Its refusals are tested in the order of `OpenWorldFault`, and the devices are dropped with
    /// each.
    pub fn open(
        alloc: Global,
        config: &Config,
        devices: Vec<D>,
        callers: u16,
    ) -> Result<Self, OpenWorldFault>
        ensures opening { IfOk result (λ w. HasNumbersOf w.layout config.now
            × (w ≡ record { layout = w.layout; devices = devices.items; callers = callers })) }
        ensures serves { OnOk result (CanOpen PAGE config.now (map D.page_count devices.items) callers) }
        ensures refused { IfErr result (RefusesWorld PAGE config.now (map D.page_count devices.items)
            callers) }
    {
        let layout = config.check()?;
        if callers == 0 {
            return Err(OpenWorldFault::NoCallers);
        }
        if devices.len() != layout.lanes as usize {
            return Err(OpenWorldFault::DeviceCount);
        }
        if PAGE < 256 || PAGE > 4096 {
            return Err(OpenWorldFault::WrongPage);
        }
        if is_one_below(devices.as_slice(), layout.pages()) {
            return Err(OpenWorldFault::DeviceTooSmall);
        }
        let lanes = open_lanes(alloc, &layout, devices)?;
        Ok(World {
            layout,
            callers,
            lanes,
        })
    }
}

ghost use Rattle.history_recorder.specs.Game.{unboxed};
ghost use Rattle.history_recorder.specs.Opened.{AreTheLanes, devices_of, opening_lane};
ghost use Rattle.recorded_lane.specs.Lane.{IsRecorded};
ghost use Rattle.std.specs.Box.{box_value};

/// Whether one of the devices has fewer pages than are needed.
fn is_one_below<D: PageDevice<PAGE>, const PAGE: usize>(devices: &[D], needed: u32) -> bool
    ensures one { IsTrue result ↔ Any (λ pages. pages < needed) (map D.page_count devices.now) }
    ensures none { (IsTrue result → ⊥) → All (λ d. needed ≤ D.page_count d) devices.now }
{
    for device in devices {
        if device.pages() < needed {
            return true;
        }
    }
    false
}

/// The lanes of these devices, in their order. Nothing is tested again.
fn open_lanes<D: PageDevice<PAGE>, const PAGE: usize>(
    alloc: Global,
    layout: &Layout,
    devices: Vec<D>,
) -> Result<Vec<Box<RecordedLane<Boxed<D>, PAGE>>>, AllocError>
    requires page_size { IsPageSize PAGE }
    requires one_each { length devices.items ≡ layout.now.lanes }
    requires room { All (λ d. layout_pages layout.now ≤ D.page_count d) devices.items }
    ensures devices { IfOk result (λ lanes. devices_of lanes.items ≡ devices.items) }
    ensures opened { IfOk result (λ lanes. AreTheLanes D.honest D.held layout.now
        (unboxed lanes.items)) }
{
    let mut lanes = Vec::new(alloc);
    let mut number = 0;
    for device in devices {
        let lane = boxed_lane(alloc, layout, number, device)?;
        lanes.push(lane)?;
        number += 1;
    }
    Ok(lanes)
}

/// The lane with this number over its device. Nothing is tested again.
fn boxed_lane<D: PageDevice<PAGE>, const PAGE: usize>(
    alloc: Global,
    layout: &Layout,
    number: u32,
    device: D,
) -> Result<Box<RecordedLane<Boxed<D>, PAGE>>, AllocError>
    requires page_size { IsPageSize PAGE }
    requires lane { number < layout.now.lanes }
    requires room { layout_pages layout.now ≤ D.page_count device }
    ensures lane { IfOk result (λ lane. box_value lane ≡ opening_lane layout.now number device) }
    ensures recorded { IfOk result (λ lane. IsRecorded D.honest D.held (box_value lane)) }
{
    let boxed = Boxed::new(alloc, device)?;
    let lane = RecordedLane::with_layout(alloc, layout, number, boxed)?;
    know_recorded(&lane);
    let placed = Box::new(alloc, lane)?;
    Ok(placed)
}

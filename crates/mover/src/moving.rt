// The records that a move is about.
ghost use Rattle.std.specs.Prelude.{◌≡◌, ◌++◌, map, OnOk};
ghost use Rattle.mover.specs.Job.{old_item, fresh_item};

use crate::mark::Mark;
use crate::marks::Marks;
use klog::TakenRecords;
use kset::SetRecords;
use policy_laws::{Item, Items, Job};
use record_pages::{PAGE_OVERHEAD, Record};
use std::alloc::{AllocError, Global};

/// The records that a move of a set is about: those of its page, in page order, then those of the log, newest first.
#[derive(Drop)]
pub(crate) struct Moving {
    pub(crate) number: u64,
    pub(crate) set: u32,
    pub(crate) visible: SetRecords,
    pub(crate) taken: TakenRecords,
}

impl Moving {
    ghost use Rattle.std.specs.Prelude.{◌≡◌, ◌<◌, ◌≤◌, ◌+◌, length, map, slice_get, Some, IfOk};
    ghost use Rattle.record_pages.specs.Sizes.{IsPageSize, max_set_records};
    ghost use Rattle.klog.specs.Log.{Shape};
    ghost use Rattle.klog.specs.Moves.{most_taken};
    ghost use Rattle.mover.specs.Flight.{records_of, fresh_mark};
    ghost use Rattle.mover.specs.Job.{job_of};

    /// How many records there are.
    pub(crate) fn len(&self) -> usize
        requires { length (records_of self.now) ≤ max_set_records + most_taken }
        ensures { result ≡ length (records_of self.now) }
    {
        self.visible.len() + self.taken.len()
    }

    /// The record with this number: those of the page come first.
    pub(crate) fn record(&self, number: usize) -> &Record
        requires { number < length (records_of self.now) }
        ensures { slice_get (records_of self.now) number ≡ Some result.now }
    {
        let old = self.visible.len();
        if number < old {
            &self.visible.at(number).stored
        } else {
            &self.taken.at(number - old).stored
        }
    }

    /// The job of the move, or `AllocError` if memory was refused.
    pub(crate) fn job<const PAGE: usize>(&self, alloc: Global) -> Result<Job, AllocError>
        requires { IsPageSize PAGE }
        ensures { IfOk result (λ job. job ≡ job_of PAGE self.now) }
    {
        let mut items = Items::new(alloc);
        add_old(&mut items, &self.visible)?;
        add_fresh(&mut items, &self.taken)?;
        Ok(Job {
            number: self.number,
            set: self.set,
            room: (PAGE - PAGE_OVERHEAD) as u32,
            items,
        })
    }

    /// A mark for each record, none of them struck, or `AllocError` if memory was refused.
    pub(crate) fn marks(&self, alloc: Global) -> Result<Marks, AllocError>
        requires { length (records_of self.now) ≤ max_set_records + most_taken }
        ensures { IfOk result (λ marks. (shape : Shape) →
            marks ≡ map (fresh_mark shape) (records_of self.now)) }
    {
        let mut marks = Marks::new(alloc);
        for number in 0..self.len() {
            marks.push(Mark::of(self.record(number)))?;
        }
        Ok(marks)
    }
}

// Adds what a policy knows of the visible records of a set.
fn add_old(items: &mut Items, visible: &SetRecords) -> Result<(), AllocError>
    ensures { OnOk result (items.new ≡ items.old ++ map old_item visible.now) }
{
    for number in 0..visible.len() {
        let record = visible.at(number);
        items.push(Item {
            size: record.stored.lent().size() as u32,
            prediction: record.stored.pred,
            hit: record.hit,
            fresh: false,
        })?;
    }
    Ok(())
}

// Adds what a policy knows of the records that were taken from the log.
fn add_fresh(items: &mut Items, taken: &TakenRecords) -> Result<(), AllocError>
    ensures { OnOk result (items.new ≡ items.old ++ map fresh_item taken.now) }
{
    for number in 0..taken.len() {
        let record = taken.at(number);
        items.push(Item {
            size: record.stored.lent().size() as u32,
            prediction: record.stored.pred,
            hit: false,
            fresh: true,
        })?;
    }
    Ok(())
}

// Whether a plan fits on a set page.
ghost use Rattle.std.specs.Prelude.{◌≤◌, ◌+◌, ◌↔◌, IsTrue, length};
ghost use Rattle.record_pages.specs.Sizes.{IsPageSize, max_set_records};
ghost use Rattle.klog.specs.Moves.{most_taken};
ghost use Rattle.mover.specs.Flight.{records_of};
ghost use Rattle.mover.specs.Job.{job_of};
ghost use Rattle.mover.specs.Commit.{IsFitting};

use crate::moving::Moving;
use klog::MAX_TAKEN;
use policy_laws::Plan;
use record_pages::{MAX_SET_RECORDS, PAGE_OVERHEAD};

/// The most records of a move: those of a set page, and those that are taken from the log.
const MAX_ITEMS: usize = MAX_SET_RECORDS + MAX_TAKEN;

/// Whether a plan names records of a move, none twice, that fit on a set page together.
pub(crate) fn is_fitting<const PAGE: usize>(moving: &Moving, plan: &Plan) -> bool
    requires page_size { IsPageSize PAGE }
    requires few { length (records_of moving.now) ≤ max_set_records + most_taken }
    ensures { IsTrue result ↔ IsFitting (job_of PAGE moving.now) plan.now }
{
    if plan.len() > MAX_SET_RECORDS {
        return false;
    }
    let mut named = [false; MAX_ITEMS];
    let mut size = 0;
    for number in 0..plan.len() {
        let item = plan.at(number).item;
        if item >= moving.len() || named[item] {
            return false;
        }
        named[item] = true;
        size += moving.record(item).lent().size();
        if size > PAGE - PAGE_OVERHEAD {
            return false;
        }
    }
    true
}

// What is asked, performed and recorded by its lane.
ghost use Rattle.std.specs.Prelude.{◌≡◌, ◌<◌, All, IfOk, IfErr, OnErr, length};
ghost use Rattle.recorded_lane.specs.Lane.{IsOfLane, RecordsCall, max_calls};
ghost use Rattle.history_recorder.specs.Operations.{key_of};
ghost use Rattle.shared_cache.specs.Acts.{ActGives, ActLeaves, IsFitting, request_shown, made};

use crate::act_fault::ActFault;
use crate::request::Request;
use crate::response::Response;
use history_recorder::Stamps;
use page_device::{Boxed, PageDevice};
use recorded_lane::RecordedLane;

/// Has a lane answer what is asked and record it. Only memory may be refused.
pub(crate) fn perform<D: PageDevice<PAGE>, const PAGE: usize>(
    lane: &mut RecordedLane<Boxed<D>, PAGE>,
    stamps: Stamps,
    asked: Request<'_>,
) -> Result<Response, ActFault>
    requires start { stamps.start < stamps.point }
    requires rises { All (λ n. n.point < stamps.point) lane.old.calls }
    requires own { IsOfLane lane.old.store.layout lane.old.lane (key_of (request_shown asked)) }
    requires fits { IsFitting PAGE (request_shown asked) }
    requires room { length lane.old.calls < max_calls }
    ensures recorded { IfOk result (λ outcome. RecordsCall lane.old (made stamps.caller
        stamps.start stamps.point (request_shown asked.entry) outcome) lane.new) }
    ensures gives { IfOk result (λ outcome. ActGives D.honest D.failures D.held PAGE
        (request_shown asked.entry) lane.old.store outcome lane.new.store) }
    ensures refused { IfErr result (λ fault. fault ≡ ActFault.OutOfMemory) }
    ensures unrecorded { OnErr result (lane.new ≡ record lane.old { store = lane.new.store }) }
    ensures leaves { OnErr result (ActLeaves D.honest D.failures D.held PAGE
        (request_shown asked.entry) lane.old.store lane.new.store) }
{
    let Stamps {
        caller,
        start,
        point,
    } = stamps;
    match asked {
        Request::Get(key, moment) => match lane.get(caller, start, point, key, moment) {
            Ok(answer) => Ok(Response::Got(answer)),
            Err(_) => Err(ActFault::OutOfMemory),
        },
        Request::Put(key, value, word, expires) => {
            match lane.put(caller, start, point, key, value, word, expires) {
                Ok(pushed) => Ok(Response::Stored(pushed)),
                Err(_) => Err(ActFault::OutOfMemory),
            }
        }
        Request::Remove(key) => match lane.remove(caller, start, point, key) {
            Ok(()) => Ok(Response::Removed),
            Err(_) => Err(ActFault::OutOfMemory),
        },
    }
}

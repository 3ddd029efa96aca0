// A recorded lane, as it is played.
ghost use Rattle.std.specs.Prelude.{◌≡◌, ◌<◌, All, IfOk};
ghost use Rattle.recorded_lane.specs.Lane.{IsOfLane, IsRecorded, noted_at};
ghost use Rattle.history_recorder.specs.Operations.{lane_of};
ghost use Rattle.history_recorder.specs.Books.{IsBackgroundEvent};
ghost use Rattle.history_recorder.specs.Game.{LaneActs, LaneSteps, layout_in, honest_in, state_in};

use crate::act_reply::ActReply;
use crate::event::Event;
use crate::operation::Operation;
use crate::played_lane::PlayedLane;
use crate::reply::Reply;
use crate::stamps::Stamps;
use page_device::PageDevice;
use policy_laws::Plan;
use record_pages::{Answer, Key, Value};
use recorded_lane::{Noted, RecordedLane};
use std::alloc::AllocError;
use trace_file::Act;

impl<D: PageDevice<PAGE>, const PAGE: usize> PlayedLane<PAGE> for RecordedLane<D, PAGE> {
    ghost layout = { layout_in };

    ghost lane = { λ lane. lane.lane };

    ghost honest = { honest_in D.honest };

    ghost state = { state_in D.held };

    ghost calls = { λ lane. lane.calls };

    fn act(&mut self, stamps: Stamps, operation: Operation) -> Result<ActReply, AllocError>
        requires start { stamps.start < stamps.point }
        requires rises { All (λ n. n.point < stamps.point) self.old.calls }
        requires its { lane_of self.old.store.layout operation ≡ self.old.lane }
        ensures { IfOk result (λ acted. LaneActs D.honest D.held PAGE stamps.caller stamps.start
            stamps.point operation self.old acted self.new) }
    {
        match operation {
            Operation::Get(key, moment) => match act_get(self, stamps, key, moment) {
                Ok(acted) => Ok(acted),
                Err(refused) => Err(refused),
            },
            Operation::Put(key, value, word, expires) => {
                let noted = noted_put(stamps, &key, &value, expires)?;
                Ok(act_put(self, noted, key, value, word, expires))
            }
            Operation::Remove(key) => Ok(act_remove(self, stamps, key)),
        }
    }

    fn background(&mut self, event: &Event) -> Reply
        requires { IsBackgroundEvent event.now }
        ensures { LaneSteps D.honest D.held PAGE event.now self.old result self.new }
    {
        match event {
            Event::Flush(lane) => play_flush(self, *lane),
            Event::MoveBegin(lane) => play_begin(self, *lane),
            Event::Commit(lane, plan, number) => play_commit(self, *lane, plan, *number),
            Event::Abort(lane, number) => play_abort(self, *lane, *number),
            Event::Begin(_, _) => Reply::Ignored,
            Event::Act(_) => Reply::Ignored,
            Event::End(_) => Reply::Ignored,
        }
    }
}

/// What is true of every lane. Its model hides that from whoever made or changed one, and its length tells it.
pub(crate) fn know_recorded<D: PageDevice<PAGE>, const PAGE: usize>(lane: &RecordedLane<D, PAGE>)
    ensures { IsRecorded D.honest D.held lane.now }
{
    let _count = lane.len();
}

/// A get, as it is played.
fn act_get<D: PageDevice<PAGE>, const PAGE: usize>(
    recorded: &mut RecordedLane<D, PAGE>,
    stamps: Stamps,
    key: Key,
    moment: u64,
) -> Result<ActReply, AllocError>
    requires start { stamps.start < stamps.point }
    requires rises { All (λ n. n.point < stamps.point) recorded.old.calls }
    requires own { IsOfLane recorded.old.store.layout recorded.old.lane key }
    ensures { IfOk result (λ acted. LaneActs D.honest D.held PAGE stamps.caller stamps.start
        stamps.point (Operation.Get key moment) recorded.old acted recorded.new) }
{
    match recorded.get(stamps.caller, stamps.start, stamps.point, &key, moment) {
        Ok(answer) => {
            know_recorded(recorded);
            let noted = Noted {
                caller: stamps.caller,
                start: stamps.start,
                point: stamps.point,
                key,
                act: act_from(&answer, moment)?,
            };
            Ok(ActReply {
                reply: Reply::Got(Ok(answer)),
                noted: Some(noted),
            })
        }
        Err(fault) => {
            know_recorded(recorded);
            Ok(ActReply {
                reply: Reply::Got(Err(fault)),
                noted: None,
            })
        }
    }
}

/// What is recorded of a put, in a copy.
fn noted_put(stamps: Stamps, key: &Key, value: &Value, expires: u64) -> Result<Noted, AllocError>
    ensures { IfOk result (λ noted. noted ≡ noted_at stamps.caller stamps.start stamps.point key.now
        (Act.Put value.now expires)) }
{
    let key = key.try_clone()?;
    let value = value.try_clone()?;
    Ok(Noted {
        caller: stamps.caller,
        start: stamps.start,
        point: stamps.point,
        key,
        act: Act::Put(value, expires),
    })
}

/// A put, as it is played, with what is to be recorded of it.
fn act_put<D: PageDevice<PAGE>, const PAGE: usize>(
    recorded: &mut RecordedLane<D, PAGE>,
    noted: Noted,
    key: Key,
    value: Value,
    word: u32,
    expires: u64,
) -> ActReply
    requires start { noted.start < noted.point }
    requires rises { All (λ n. n.point < noted.point) recorded.old.calls }
    requires own { IsOfLane recorded.old.store.layout recorded.old.lane key }
    requires put { noted ≡ record noted { key = key; act = Act.Put value expires } }
    ensures { LaneActs D.honest D.held PAGE noted.caller noted.start noted.point
        (Operation.Put key value word expires) recorded.old result recorded.new }
{
    match recorded.put(
        noted.caller,
        noted.start,
        noted.point,
        key,
        value,
        word,
        expires,
    ) {
        Ok(pushed) => {
            know_recorded(recorded);
            ActReply {
                reply: Reply::Stored(Ok(pushed)),
                noted: Some(noted),
            }
        }
        Err(fault) => {
            know_recorded(recorded);
            ActReply {
                reply: Reply::Stored(Err(fault)),
                noted: None,
            }
        }
    }
}

/// A removal, as it is played.
fn act_remove<D: PageDevice<PAGE>, const PAGE: usize>(
    recorded: &mut RecordedLane<D, PAGE>,
    stamps: Stamps,
    key: Key,
) -> ActReply
    requires start { stamps.start < stamps.point }
    requires rises { All (λ n. n.point < stamps.point) recorded.old.calls }
    requires own { IsOfLane recorded.old.store.layout recorded.old.lane key }
    ensures { LaneActs D.honest D.held PAGE stamps.caller stamps.start stamps.point
        (Operation.Remove key) recorded.old result recorded.new }
{
    match recorded.remove(stamps.caller, stamps.start, stamps.point, &key) {
        Ok(()) => {
            know_recorded(recorded);
            let noted = Noted {
                caller: stamps.caller,
                start: stamps.start,
                point: stamps.point,
                key,
                act: Act::Remove,
            };
            ActReply {
                reply: Reply::Removed(Ok(())),
                noted: Some(noted),
            }
        }
        Err(fault) => {
            know_recorded(recorded);
            ActReply {
                reply: Reply::Removed(Err(fault)),
                noted: None,
            }
        }
    }
}

/// A flush step, as it is played.
fn play_flush<D: PageDevice<PAGE>, const PAGE: usize>(
    recorded: &mut RecordedLane<D, PAGE>,
    lane: u32,
) -> Reply
    ensures { LaneSteps D.honest D.held PAGE (Event.Flush lane) recorded.old result recorded.new }
{
    let flushed = recorded.flush_step();
    know_recorded(recorded);
    Reply::Flushed(flushed)
}

/// The beginning of a move, as it is played.
fn play_begin<D: PageDevice<PAGE>, const PAGE: usize>(
    recorded: &mut RecordedLane<D, PAGE>,
    lane: u32,
) -> Reply
    ensures { LaneSteps D.honest D.held PAGE (Event.MoveBegin lane) recorded.old result recorded.new }
{
    let begun = recorded.move_begin();
    know_recorded(recorded);
    Reply::MoveBegun(begun)
}

/// The end of a move by a plan, as it is played.
fn play_commit<D: PageDevice<PAGE>, const PAGE: usize>(
    recorded: &mut RecordedLane<D, PAGE>,
    lane: u32,
    plan: &Plan,
    number: u64,
) -> Reply
    ensures { LaneSteps D.honest D.held PAGE (Event.Commit lane plan.now number) recorded.old result
        recorded.new }
{
    let committed = recorded.move_commit(plan, number);
    know_recorded(recorded);
    Reply::Committed(committed)
}

/// The giving up of a move, as it is played.
fn play_abort<D: PageDevice<PAGE>, const PAGE: usize>(
    recorded: &mut RecordedLane<D, PAGE>,
    lane: u32,
    number: u64,
) -> Reply
    ensures { LaneSteps D.honest D.held PAGE (Event.Abort lane number) recorded.old result recorded.new }
{
    let aborted = recorded.move_abort(number);
    know_recorded(recorded);
    Reply::Aborted(aborted)
}

ghost use Rattle.recorded_lane.specs.Lane.{act_of};

/// A copy of what is recorded of an answer to a get of a moment.
fn act_from(answer: &Answer, moment: u64) -> Result<Act, AllocError>
    ensures { IfOk result (λ act. act ≡ act_of moment answer.now) }
{
    match answer {
        Answer::Hit(value, _) => Ok(Act::Hit(value.try_clone()?, moment)),
        Answer::Miss(_) => Ok(Act::Miss),
    }
}

//! What users of a recorded lane rely on, of any lane and any device, and what follows of each world from the contract of
//! `play` alone.
ghost use Rattle.std.specs.Prelude.{◌≡◌, ◌<◌, ◌≤◌, ◌++◌, [], ◌∷◌, ℕ, List, All, Ok, IfOk};
ghost use Rattle.record_pages.specs.declared.answer.Answer.TheVariants.{Hit, Miss};
ghost use Rattle.record_pages.specs.declared.miss_cause.MissCause.{MissCause};
ghost use Rattle.record_pages.specs.declared.tier.Tier.{Tier};
ghost use Rattle.trace_file.specs.declared.act.Act.{Act};
ghost use Rattle.recorded_lane.specs.Lane.{IsOfLane};
ghost use Rattle.recorded_lane.specs.declared.noted.Noted.{Noted};
ghost use Rattle.history_recorder.specs.declared.event.Event.{Event};
ghost use Rattle.history_recorder.specs.declared.operation.Operation.{Operation};
ghost use Rattle.history_recorder.specs.declared.reply.Reply.{Reply};

use history_recorder::{Event, Played, World, play};
use page_device::PageDevice;
use record_pages::{Answer, Key};
use recorded_lane::{RecordFault, RecordedLane};
use std::alloc::{AllocError, Global};

/// A get is recorded, last, as it was answered: a hit with its value and the get's moment, and a miss as one. So no lane
/// notes a miss for a hit, or a hit that its caller was not told of.
pub fn a_get_is_recorded_as_it_is_answered<D: PageDevice<PAGE>, const PAGE: usize>(
    lane: &mut RecordedLane<D, PAGE>,
    caller: u16,
    start: u64,
    point: u64,
    key: &Key,
    moment: u64,
) -> Result<Answer, RecordFault>
    requires start { start < point }
    requires rises { All (λ n. n.point < point) lane.old.calls }
    requires own { IsOfLane lane.old.store.layout lane.old.lane key.now }
    ensures hit { (told : List ℕ) → (tier : Tier) → result ≡ Ok (Hit told tier) →
        (n : Noted) × (lane.new.calls ≡ lane.old.calls ++ n ∷ []) × (n.act ≡ Act.Hit told moment) }
    ensures miss { (cause : MissCause) → result ≡ Ok (Miss cause) →
        (n : Noted) × (lane.new.calls ≡ lane.old.calls ++ n ∷ []) × (n.act ≡ Act.Miss) }
{
    match lane.get(caller, start, point, key, moment) {
        Ok(answer) => Ok(answer),
        Err(fault) => Err(fault),
    }
}

/// The first caller of a world begins a call: its start is 1. So no world ignores all events.
pub fn play_a_beginning<D: PageDevice<PAGE>, const PAGE: usize>(
    alloc: Global,
    world: World<D, PAGE>,
    events: &[Event],
) -> Result<Played, AllocError>
    requires callers { 1 ≤ world.callers }
    requires begins { (operation : Operation) × (events.now ≡ Event.Begin 0 operation ∷ []) }
    ensures begun { IfOk result (λ played. played.replies ≡ Reply.Begun 1 ∷ []) }
{
    play(alloc, world, events)
}

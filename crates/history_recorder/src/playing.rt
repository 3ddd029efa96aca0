// Events that are played in a world.
ghost use Rattle.std.specs.Prelude.{◌≡◌, All, IsTrue, IfOk, OnOk};
ghost use Rattle.certificate_checker.specs.Acceptance.{IsAccepted};
ghost use Rattle.certificate_checker.specs.Lanes.{IsLaidOut};
ghost use Rattle.history_recorder.specs.Books.{AreReplied, books_after, dones};
ghost use Rattle.history_recorder.specs.World.{IsSoundRun};
ghost use Rattle.history_recorder.specs.Opened.{books_of, opening_world};

use crate::event::Event;
use crate::game::Game;
use crate::layout::lay_out;
use crate::ledger::Ledger;
use crate::played::Played;
use crate::world::World;
use page_device::PageDevice;
use std::alloc::{AllocError, Global};

/// Plays events in a world, one after the other, and gives a reply to each, and the history of the calls that the lanes
/// recorded with its certificate. Each start, point and end is the next number from 1 on; a call that was done and not
/// ended ends at the last number plus one.
///
/// On any devices the replies are such as the events may have, and history and certificate are those of the events and
/// the replies. If all devices are honest, events and replies are a run, in which each lane takes the exact step of
/// its store; after each event each lane is sound, so that all that it shows is what its keys have by its recorded
/// calls; and the history and certificate are accepted. `AllocError` comes if memory was refused.
pub fn play<D: PageDevice<PAGE>, const PAGE: usize>(
    alloc: Global,
    world: World<D, PAGE>,
    events: &[Event],
) -> Result<Played, AllocError>
    // On any devices.
    ensures replied { IfOk result (λ played. AreReplied PAGE world.layout (books_of world) events.now
        played.replies) }
    ensures laid_out { IfOk result (λ played. IsLaidOut
        (dones (books_after world.layout (books_of world) events.now played.replies))
        played.history played.certificate) }

    // If they are honest.
    ensures run { All (λ device. IsTrue (D.honest device)) world.devices → IfOk result (λ played.
        IsSoundRun PAGE world.layout (opening_world D.held world) events.now played.replies) }
    ensures accepted { All (λ device. IsTrue (D.honest device)) world.devices →
        IfOk result (λ played. IsAccepted played.history played.certificate) }
{
    let World {
        layout,
        callers,
        lanes,
    } = world;
    let ledger = Ledger::open(alloc, layout.lanes, callers)?;
    let mut game = Game::new(layout, ledger, lanes);
    let replies = game.run(alloc, events)?;
    let dones = game.into_books().into_dones(alloc)?;
    let (history, certificate) = lay_out(alloc, dones)?;
    Ok(Played {
        replies,
        history,
        certificate,
    })
}

// What a lane is to a world in which events are played.
ghost use Rattle.std.specs.Prelude.{◌≡◌, ◌<◌, ℕ, Bool, List, All, IfOk};
ghost use Rattle.record_pages.specs.declared.layout.Layout.{Layout};
ghost use Rattle.mover.specs.Lane.{LaneState};
ghost use Rattle.recorded_lane.specs.declared.noted.Noted.{Noted};
ghost use Rattle.history_recorder.specs.Operations.{lane_of};
ghost use Rattle.history_recorder.specs.Books.{IsBackgroundEvent};
ghost use Rattle.history_recorder.specs.Game.{ActsSo, StepsSo};

use crate::act_reply::ActReply;
use crate::event::Event;
use crate::operation::Operation;
use crate::reply::Reply;
use crate::stamps::Stamps;
use std::alloc::AllocError;

/// A lane of a world, as it does what events ask. What it holds is said only if its device is honest.
pub(crate) trait PlayedLane<const PAGE: usize>: Drop {
    /// The layout that it was opened with.
    ghost layout: { Self → Layout };

    /// Which of the lanes it is.
    ghost lane: { Self → ℕ };

    /// Whether its device is honest.
    ghost honest: { Self → Bool };

    /// What it holds.
    ghost state: { Self → LaneState };

    /// The calls that it recorded.
    ghost calls: { Self → List Noted };

    /// Does what a call asks, and records it. If memory is refused for the copy of a recorded call nothing is said of
    /// the lane.
    fn act(&mut self, stamps: Stamps, operation: Operation) -> Result<ActReply, AllocError>
        requires start { stamps.start < stamps.point }
        requires rises { All (λ n. n.point < stamps.point) (calls self.old) }
        requires its { lane_of (layout self.old) operation ≡ lane self.old }
        ensures { IfOk result (λ acted. ActsSo layout lane honest calls state PAGE stamps.caller
            stamps.start stamps.point operation self.old acted self.new) };

    /// Takes a background step.
    fn background(&mut self, event: &Event) -> Reply
        requires { IsBackgroundEvent event.now }
        ensures { StepsSo layout lane honest calls state PAGE event.now self.old result self.new };
}

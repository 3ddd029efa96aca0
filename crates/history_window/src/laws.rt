// Laws of windows.
ghost use Rattle.history_window.specs.Laws.{ForgettingGoesOn, LinesAreAcceptable, StandingChains, StandingGrows, UnsettledStand, WarmingFollows, WindowStands};
ghost use Rattle.history_window.specs.Streams.{AcceptedHavePast, PastsPass, PiecesExclude, PiecesStand};

use certificate_finder::{keys_are_warmed_once, sorted_spots_are_accepted};

/// A lawful line of all calls that agrees with time key by key makes a history acceptable.
pub fn lines_are_acceptable()
    ensures { LinesAreAcceptable }
{
    sorted_spots_are_accepted();
}

/// The calls in the window of an acceptable history stand for it.
pub fn window_stands()
    ensures { WindowStands }
{
    lines_are_acceptable();
}

/// The calls of an acceptable history that are no settled hits stand for it.
pub fn unsettled_stand()
    ensures { UnsettledStand }
{
    lines_are_acceptable();
}

/// What stands for a history stands for it when both have the same calls more, and to a later stamp.
pub fn standing_grows()
    ensures { StandingGrows }
{}

/// What stands for calls that stand for others stands for those.
pub fn standing_chains()
    ensures { StandingChains }
{}

/// What stands for all calls so far goes on to do so: it gets the next calls, and if it is acceptable with them, it forgets all but a
/// window and then the settled hits.
pub fn forgetting_goes_on()
    ensures { ForgettingGoesOn }
{
    window_stands();
    unsettled_stand();
}

/// The next calls may follow acceptable calls, if they start at the stamp or later, and so may the puts that warming adds to both.
pub fn warming_follows()
    ensures { WarmingFollows }
{}

/// At the end of the input, what is judged with the last piece of a stream is acceptable exactly if all calls that were read are, with
/// the puts that were added.
pub fn pieces_stand()
    ensures { PiecesStand }
{
    forgetting_goes_on();
    warming_follows();
}

/// If what is judged with the last piece is not acceptable, then all calls that were read are not, whatever comes later.
pub fn pieces_exclude()
    ensures { PiecesExclude }
{
    forgetting_goes_on();
    warming_follows();
}

/// If all calls are accepted after some deeds whose values none of their puts puts again, what is judged with the last piece is
/// acceptable, once it is warmed. So a rejection excludes each such past.
pub fn pasts_pass()
    ensures { PastsPass }
{
    forgetting_goes_on();
    warming_follows();
    keys_are_warmed_once();
}

/// What is acceptable at the end of the input, once it is warmed, is accepted after some deeds, one write of a key at most.
pub fn accepted_have_past()
    ensures { AcceptedHavePast }
{
    forgetting_goes_on();
    warming_follows();
    keys_are_warmed_once();
}

// Laws of a lane's steps, for those who record what a lane answers.
ghost use Rattle.mover.specs.Answers.{GetFindsLast};
ghost use Rattle.mover.specs.Laws.{GetShows, PutShows, PutBackShows, RemovalShows, FlushShows, BeginShows, CommitShows, AbortShows, WholeMoveShows, OpeningShowsNothing, StoresAreInOrder};

use klog::look_finds_newest;

/// A get shows nothing that was not shown, and a hit is the value of a visible pair of its key that is live at the
/// get's moment.
pub fn get_shows()
    ensures { GetShows }
{}

/// A get answers by memory, then by the last live record of its key on the log's list of segments, then by its set.
pub fn get_finds_last()
    ensures { GetFindsLast }
{
    look_finds_newest();
}

/// A put shows its pair, and nothing else that was not shown; it strikes its key.
pub fn put_shows()
    ensures { PutShows }
{}

/// A copy that is put back shows its pair, and nothing else that was not shown; it strikes no key.
pub fn put_back_shows()
    ensures { PutBackShows }
{}

/// A removal shows nothing that was not shown, and nothing of its key.
pub fn removal_shows()
    ensures { RemovalShows }
{}

/// A flush step shows nothing that was not shown, also when a page is lost.
pub fn flush_shows()
    ensures { FlushShows }
{}

/// A move that begins shows nothing that was not shown, also when a page is lost.
pub fn begin_shows()
    ensures { BeginShows }
{}

/// A commit shows nothing that was not shown, whatever its plan and number.
pub fn commit_shows()
    ensures { CommitShows }
{}

/// An abort shows nothing that was not shown.
pub fn abort_shows()
    ensures { AbortShows }
{}

/// A whole move shows nothing that was not shown, if the policy's plan is lawful.
pub fn whole_move_shows()
    ensures { WholeMoveShows }
{}

/// A lane that was just opened shows nothing, whatever its device holds.
pub fn opening_shows_nothing()
    ensures { OpeningShowsNothing }
{}

/// A lane whose records lie where they belong, and whose moves in flight are its own, is in order.
pub fn stores_are_in_order()
    ensures { StoresAreInOrder }
{}

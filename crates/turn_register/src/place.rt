// Where a turn stands, and what its caller does there.
ghost use Rattle.std.specs.Prelude.{◌≡◌};
ghost use Rattle.turn_register.specs.Places.{number_of_place, place_of};

/// Where a turn stands: which access its caller makes next.
#[derive(Clone, Copy)]
pub enum TurnPlace {
    /// None: the turn is whole.
    Whole,
    /// Draw the item's number: add 1 to `next`, and read what it was.
    Draw,
    /// Read `pending`, the moment of a flush that is to come, 0 if none is.
    SeePending,
    /// Read `flushed`, the number of the last flush.
    SeeFlushed,
    /// Take the lock of flushes.
    Lock,
    /// Read `pending` in the hold of that lock.
    SeeLocked,
    /// Write `flushed`: all items are hidden while a flush draws its number.
    Hide,
    /// Draw the flush's number, as an item's is drawn.
    DrawFlush,
    /// Write `flushed`: the flush's number.
    Show,
    /// Write `pending`: no flush is to come.
    Clear,
    /// Write `pending`: a flush is to come.
    SetLater,
    /// Give the lock of flushes back.
    Unlock,
}

impl TurnPlace {
    /// Its number, as `RegisterTurn` has it.
    pub fn number(self) -> u32
        ensures { result ≡ number_of_place self }
    {
        match self {
            TurnPlace::Whole => 0,
            TurnPlace::Draw => 1,
            TurnPlace::SeePending => 2,
            TurnPlace::SeeFlushed => 3,
            TurnPlace::Lock => 4,
            TurnPlace::SeeLocked => 5,
            TurnPlace::Hide => 6,
            TurnPlace::DrawFlush => 7,
            TurnPlace::Show => 8,
            TurnPlace::Clear => 9,
            TurnPlace::SetLater => 10,
            TurnPlace::Unlock => 11,
        }
    }

    /// The place of a number: at one that is no place's nothing is done.
    pub fn of(number: u32) -> TurnPlace
        ensures { result ≡ place_of number }
    {
        match number {
            1 => TurnPlace::Draw,
            2 => TurnPlace::SeePending,
            3 => TurnPlace::SeeFlushed,
            4 => TurnPlace::Lock,
            5 => TurnPlace::SeeLocked,
            6 => TurnPlace::Hide,
            7 => TurnPlace::DrawFlush,
            8 => TurnPlace::Show,
            9 => TurnPlace::Clear,
            10 => TurnPlace::SetLater,
            11 => TurnPlace::Unlock,
            _ => TurnPlace::Whole,
        }
    }
}

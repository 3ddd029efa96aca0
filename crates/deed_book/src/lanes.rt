// Which lane a key has, which lanes have an honest device, and which book it is: what types say of it.
use std::marker::Brand;

/// Which lane each key has, in a cache of this many, and of which lanes the device gives back what was written. Each
/// call of a program picks it.
pub trait KeyLanes {
    ghost use Rattle.std.specs.Prelude.{ℕ, List, Bool};

    ghost lanes: { ℕ };

    ghost lane_of: { List ℕ → ℕ };

    ghost is_honest: { ℕ → Bool };
}

impl KeyLanes for Brand {
    ghost use Rattle.std.specs.Prelude.{false};

    ghost lanes = { 0 };

    ghost lane_of = { λ key. 0 };

    ghost is_honest = { λ number. false };
}

/// One lane, of all keys, of whose device nothing is said.
pub struct OneLane;

impl KeyLanes for OneLane {
    ghost use Rattle.std.specs.Prelude.{false};

    ghost lanes = { 1 };

    ghost lane_of = { λ key. 0 };

    ghost is_honest = { λ number. false };
}

/// Which book it is. Each call of a program picks it.
pub trait BookName {
    ghost use Rattle.logbook.specs.Pages.{Book};

    ghost book: { Book };
}

impl BookName for Brand {
    ghost book = { record { number = 0; log_name = 0; cells_name = 0 } };
}

// The rule of the clock's word: what each seat knows of it, and what each kind of step does.
use atomic_table::{Play, Split, TableRule};

// What a seat knows of the word: the greatest number that it has seen there, what it loaded last, and the greatest
// number to which it raised it. No value of it is made.
pub(crate) struct View {
    pub(crate) seen: u64,
    pub(crate) loaded: u64,
    pub(crate) raised: u64,
}

// The word never falls, is what some seat raised it to, and is at least what each seat knows.
pub(crate) struct ClockRule;

impl TableRule<(), View, ()> for ClockRule {
    ghost use Rattle.shared_cache.specs.Word.{IsKept, view};

    ghost holds = { λ _ s. IsKept s };

    ghost first = { λ _. view 0 0 0 };
}

// A load of the word.
pub(crate) struct ClockLook;

impl Play<(), View> for ClockLook {
    ghost use Rattle.shared_cache.specs.Word.{Looked};

    ghost then = { Looked };
}

// A raising of the word.
pub(crate) struct Raise;

impl Play<(), View> for Raise {
    ghost use Rattle.shared_cache.specs.Word.{Raised};

    ghost then = { Raised };
}

// A new seat, which knows nothing.
pub(crate) struct Twin;

impl Split<View> for Twin {
    ghost use Rattle.shared_cache.specs.Word.{view};

    ghost left = { λ v. v };

    ghost right = { λ v. view 0 0 0 };
}

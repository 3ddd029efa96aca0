// The four kinds of act.
ghost use Rattle.std.specs.Prelude.{◌≡◌, ◌↔◌, IsTrue, List, ℕ};

/// What a call did, without its value and its time.
#[derive(Clone, Copy, PartialEq, Eq)]
pub enum CallKind {
    /// It put a value.
    Put,
    /// It removed the key.
    Remove,
    /// It read a value.
    Hit,
    /// It read nothing.
    Miss,
}

impl CallKind {
    ghost use Rattle.trace_file.specs.Kinds.{IsWriting};
    ghost use Rattle.trace_file.specs.Stored.{act_of};
    ghost use Rattle.trace_file.specs.Text.{kind_byte};

    /// The byte that stands for the kind in a trace.
    pub(crate) fn byte(self) -> u8
        ensures { (value : List ℕ) (time : ℕ) → result ≡ kind_byte (act_of self value time) }
    {
        match self {
            CallKind::Put => 1,
            CallKind::Remove => 2,
            CallKind::Hit => 3,
            CallKind::Miss => 4,
        }
    }

    /// Whether it writes its key.
    pub fn is_write(self) -> bool
        ensures { IsTrue result ↔ IsWriting self }
    {
        match self {
            CallKind::Put => true,
            CallKind::Remove => true,
            CallKind::Hit => false,
            CallKind::Miss => false,
        }
    }

    /// Whether it is a put.
    pub fn is_put(self) -> bool
        ensures { IsTrue result ↔ (self ≡ CallKind.Put) }
    {
        match self {
            CallKind::Put => true,
            CallKind::Remove => false,
            CallKind::Hit => false,
            CallKind::Miss => false,
        }
    }

    /// Whether it is a hit.
    pub fn is_hit(self) -> bool
        ensures { IsTrue result ↔ (self ≡ CallKind.Hit) }
    {
        match self {
            CallKind::Put => false,
            CallKind::Remove => false,
            CallKind::Hit => true,
            CallKind::Miss => false,
        }
    }

    /// Whether it is a miss.
    pub fn is_miss(self) -> bool
        ensures { IsTrue result ↔ (self ≡ CallKind.Miss) }
    {
        match self {
            CallKind::Put => false,
            CallKind::Remove => false,
            CallKind::Hit => false,
            CallKind::Miss => true,
        }
    }
}

// Which puts a hit can have read.
ghost use Rattle.std.specs.Prelude.{◌≡◌};

/// Which puts a hit can have read.
#[derive(Clone, Copy)]
pub(crate) enum Readable {
    /// No put.
    Nothing,
    /// This put alone.
    One(u32),
    /// Several puts.
    Several,
}

impl Readable {
    ghost use Rattle.certificate_finder.specs.Readings.{IsJoined};

    /// Which puts of two groups a hit can have read, by those of each group.
    pub(crate) fn join(self, other: Readable) -> Readable
        ensures { IsJoined self other result }
    {
        match self {
            Readable::Nothing => other,
            Readable::One(one) => match other {
                Readable::Nothing => self,
                Readable::One(more) => { if one == more { self } else { Readable::Several } }
                Readable::Several => Readable::Several,
            },
            Readable::Several => Readable::Several,
        }
    }
}

// What a put costs a hit by a rule.
ghost use Rattle.std.specs.Prelude.{◌↔◌, IsTrue};

/// A put that a hit can have read, and what it costs the hit by a rule.
#[derive(Clone, Copy)]
pub(crate) struct Offer {
    /// The put's position.
    pub(crate) put: u32,
    /// The stamp at which the put started.
    pub(crate) start: u64,
    /// What it costs.
    pub(crate) cost: u128,
}

impl Offer {
    ghost use Rattle.certificate_finder.specs.Choosing.{Wins};
    ghost use Rattle.certificate_finder.specs.Offering.{IsWinner};

    /// Whether the put is preferred to another: it costs less, or as much and started later, or then has the later
    /// position.
    fn wins(&self, other: &Offer) -> bool
        ensures { IsTrue result ↔ Wins self.now other.now }
    {
        if self.cost != other.cost {
            return self.cost < other.cost;
        }
        if self.start != other.start {
            return other.start < self.start;
        }
        other.put < self.put
    }

    /// Of this offer and the best one so far, if there is one, the better one.
    pub(crate) fn or_better(self, best: Option<Offer>) -> Offer
        ensures { IsWinner best self result }
    {
        match best {
            None => self,
            Some(known) => { if known.wins(&self) { known } else { self } }
        }
    }
}

// The sentence that says what is wrong.
ghost use Rattle.std.specs.Prelude.{◌≡◌, IfOk, None, Some, slice_get, string_bytes};
ghost use Rattle.std.specs.List.{flat_map};
ghost use Rattle.std.specs.Option.{option_copied};
ghost use Rattle.history_picture.specs.Reasons.{reason_of};
ghost use Rattle.history_picture.specs.Sentences.{also_words, crossed_words, excuse_words, expired_words, hit_kind, hit_words, interval_words, latest_words, lone_words, order_words, out_of_order_words, read_words, repeated_words, replaced_words, sentence_of, unread_words, wrong_hit_words};

use crate::latest::Latest;
use crate::marks::{first_eight, first_three};
use crate::reason::Reason;
use crate::scene::Scene;
use certificate_finder::{CrossedWrites, Excluded, Excuse, Side, UnreadHit, Witness};
use std::alloc::{AllocError, Global};

impl Scene<'_> {
    /// The sentence that says what is wrong, without a line feed: which calls, by what they did and where they were recorded,
    /// with the stamps that exclude an order.
    pub fn sentence(&self, alloc: Global, reason: &Reason) -> Result<String, AllocError>
        ensures { IfOk result (λ text.
            string_bytes text ≡ sentence_of self.now.history.now self.now.lines.now reason.now) }
    {
        match reason {
            Reason::Interval(position) => self.interval(alloc, *position),
            Reason::Hit(hit, puts) => self.hit(alloc, *hit, puts.as_slice()),
            Reason::Crossed(one, other) => self.crossed(alloc, one, other),
            Reason::Unread(unread) => self.unread(alloc, unread),
            Reason::OutOfOrder(place, call, earlier) => {
                self.out_of_order(alloc, *place, *call, *earlier)
            }
            Reason::WrongHit(place, hit, latest) => self.wrong_hit(alloc, *place, *hit, *latest),
            Reason::Repeated(place, position) => self.repeated(alloc, *place, *position),
            Reason::NotAPlace(place, position) => format!(in alloc;
                "place {place} of the certificate is {position}, which is no position of the history"
            ),
            Reason::WrongCount => String::from_str(
                alloc,
                "the certificate has another number of places than the history has calls",
            ),
        }
    }

    /// The same of a witness that a history has no order.
    pub fn witness_sentence(&self, alloc: Global, witness: &Witness) -> Result<String, AllocError>
        ensures { IfOk result (λ text. string_bytes text
            ≡ sentence_of self.now.history.now self.now.lines.now (reason_of witness.now)) }
    {
        match witness {
            Witness::Interval(position) => self.interval(alloc, *position),
            Witness::Hit(hit, puts) => self.hit(alloc, *hit, puts.as_slice()),
            Witness::Crossed(one, other) => self.crossed(alloc, one, other),
            Witness::Unread(unread) => self.unread(alloc, unread),
        }
    }

    /// A call that ends before it starts.
    #[tactic(auto, unfolding(crate::specs::Sentences::interval_words))]
    fn interval(&self, alloc: Global, position: u32) -> Result<String, AllocError>
        ensures { IfOk result (λ text. string_bytes text
            ≡ interval_words self.now.history.now self.now.lines.now position) }
    {
        let call = self.told(alloc, position)?;
        format!(in alloc;
            "{} ends at {}, before it starts at {}",
            call.name, call.end, call.start
        )
    }

    /// That one call ended before another started.
    #[tactic(auto, unfolding(crate::specs::Sentences::order_words))]
    fn order(&self, alloc: Global, first: u32, second: u32) -> Result<String, AllocError>
        ensures { IfOk result (λ text. string_bytes text
            ≡ order_words self.now.history.now self.now.lines.now first second) }
    {
        let first = self.told(alloc, first)?;
        let second = self.told(alloc, second)?;
        format!(in alloc;
            "{} ended at {}, before {} started at {}",
            first.name, first.end, second.name, second.start
        )
    }

    /// That a put was written over before a hit.
    #[tactic(auto, unfolding(crate::specs::Sentences::replaced_words))]
    fn replaced(&self, alloc: Global, hit: u32, put: u32, write: u32) -> Result<String, AllocError>
        ensures { IfOk result (λ text. string_bytes text
            ≡ replaced_words self.now.history.now self.now.lines.now hit put write) }
    {
        let order = self.order(alloc, put, write)?;
        let hit = self.told(alloc, hit)?;
        let write = self.told(alloc, write)?;
        format!(in alloc;
            "{order}, which ended at {}, before the hit started at {}",
            write.end, hit.start
        )
    }

    /// That a put had expired at a hit's moment.
    #[tactic(auto, unfolding(crate::specs::Sentences::expired_words))]
    fn expired(&self, alloc: Global, hit: u32, put: u32) -> Result<String, AllocError>
        ensures { IfOk result (λ text. string_bytes text
            ≡ expired_words self.now.history.now self.now.lines.now hit put) }
    {
        let hit = self.told(alloc, hit)?;
        let put = self.told(alloc, put)?;
        format!(in alloc;
            "{} expired at {}, and the hit was at moment {}",
            put.name, put.time, hit.time
        )
    }

    /// Why a hit can't have read a put.
    fn excuse(&self, alloc: Global, hit: u32, excluded: &Excluded) -> Result<String, AllocError>
        ensures { IfOk result (λ text. string_bytes text
            ≡ excuse_words self.now.history.now self.now.lines.now hit excluded.now.put excluded.now.why) }
    {
        match excluded.why {
            Excuse::Later => self.order(alloc, hit, excluded.put),
            Excuse::Expired => self.expired(alloc, hit, excluded.put),
            Excuse::Replaced(write) => self.replaced(alloc, hit, excluded.put, write),
        }
    }

    /// A hit that can have read none of these puts.
    #[tactic(auto, unfolding(crate::specs::Sentences::hit_words))]
    fn hit(&self, alloc: Global, hit: u32, puts: &[Excluded]) -> Result<String, AllocError>
        ensures { IfOk result (λ text. string_bytes text
            ≡ hit_words self.now.history.now self.now.lines.now hit puts.now) }
    {
        let many = puts.len();
        if many <= 1 {
            return self.lone(alloc, hit, puts);
        }
        let name = self.name(alloc, hit)?;
        let also = self.also(alloc, hit, first_eight(puts))?;
        format!(in alloc; "{name} can have read none of the {many} puts of its value{also}")
    }

    /// A hit whose key and value no call puts, or one put: the first of these.
    fn lone(&self, alloc: Global, hit: u32, puts: &[Excluded]) -> Result<String, AllocError>
        ensures { IfOk result (λ text. string_bytes text
            ≡ lone_words self.now.history.now self.now.lines.now hit (slice_get puts.now 0)) }
    {
        if puts.is_empty() {
            return self.unput(alloc, hit);
        }
        self.only(alloc, hit, &puts[0])
    }

    /// A hit whose key and value no call puts.
    fn unput(&self, alloc: Global, hit: u32) -> Result<String, AllocError>
        ensures { IfOk result (λ text. string_bytes text
            ≡ lone_words self.now.history.now self.now.lines.now hit None) }
    {
        let Ok(name) = self.name(alloc, hit) else {
            return Err(AllocError);
        };
        format!(in alloc; "{name} is of a value that no call puts at its key")
    }

    /// A hit whose key and value one call puts, and why it can't have read that put.
    fn only(&self, alloc: Global, hit: u32, put: &Excluded) -> Result<String, AllocError>
        ensures { IfOk result (λ text. string_bytes text
            ≡ lone_words self.now.history.now self.now.lines.now hit (Some put.now)) }
    {
        let Ok(name) = self.name(alloc, hit) else {
            return Err(AllocError);
        };
        let Ok(excuse) = self.excuse(alloc, hit, put) else {
            return Err(AllocError);
        };
        let kind = kind_of(put.why);
        format!(in alloc; "{name}{kind}{excuse}")
    }

    /// Why a hit can't have read each of several puts.
    fn also(&self, alloc: Global, hit: u32, puts: &[Excluded]) -> Result<String, AllocError>
        ensures { IfOk result (λ text. string_bytes text
            ≡ flat_map (also_words self.now.history.now self.now.lines.now hit) puts.now) }
    {
        let mut text = String::new(alloc);
        for put in puts {
            let one = self.also_one(alloc, hit, put)?;
            text.push_str(one.as_str())?;
        }
        Ok(text)
    }

    /// Why a hit can't have read one of several puts.
    #[tactic(auto, unfolding(crate::specs::Sentences::also_words))]
    fn also_one(&self, alloc: Global, hit: u32, put: &Excluded) -> Result<String, AllocError>
        ensures { IfOk result (λ text. string_bytes text
            ≡ also_words self.now.history.now self.now.lines.now hit put.now) }
    {
        let excuse = self.excuse(alloc, hit, put)?;
        format!(in alloc; "; {excuse}")
    }

    /// Two writes, each of which has to stand before the other.
    #[tactic(auto, unfolding(crate::specs::Sentences::crossed_words))]
    fn crossed(&self, alloc: Global, one: &Side, other: &Side) -> Result<String, AllocError>
        ensures { IfOk result (λ text. string_bytes text
            ≡ crossed_words self.now.history.now self.now.lines.now one.now other.now) }
    {
        let first = self.name(alloc, one.write)?;
        let second = self.name(alloc, other.write)?;
        let forth = self.order(alloc, one.early, other.late)?;
        let back = self.order(alloc, other.early, one.late)?;
        format!(in alloc;
            "{first} and {second} have no order: {forth}, so the first has to stand before the second; and {back}, so the second has to stand before the first"
        )
    }

    /// A hit that would cross two writes whichever of its puts it read.
    #[tactic(auto, unfolding(crate::specs::Sentences::unread_words))]
    fn unread(&self, alloc: Global, unread: &UnreadHit) -> Result<String, AllocError>
        ensures { IfOk result (λ text. string_bytes text
            ≡ unread_words self.now.history.now self.now.lines.now unread.now.hit unread.now.reads.items) }
    {
        let reads = unread.reads.as_slice();
        let many = reads.len();
        let name = self.name(alloc, unread.hit)?;
        let also = self.reads(alloc, first_three(reads))?;
        format!(in alloc;
            "{name} fits {many} puts, and whichever of them it read, two writes would have no order{also}"
        )
    }

    /// With which write each of several puts would have no order, if a hit read it.
    fn reads(&self, alloc: Global, reads: &[CrossedWrites]) -> Result<String, AllocError>
        ensures { IfOk result (λ text. string_bytes text
            ≡ flat_map (read_words self.now.history.now self.now.lines.now) reads.now) }
    {
        let mut text = String::new(alloc);
        for writes in reads {
            let one = self.read(alloc, writes)?;
            text.push_str(one.as_str())?;
        }
        Ok(text)
    }

    /// With which write a put would have no order, if a hit read it.
    #[tactic(auto, unfolding(crate::specs::Sentences::read_words))]
    fn read(&self, alloc: Global, writes: &CrossedWrites) -> Result<String, AllocError>
        ensures { IfOk result (λ text. string_bytes text
            ≡ read_words self.now.history.now self.now.lines.now writes.now) }
    {
        let put = self.name(alloc, writes.one.write)?;
        let other = self.name(alloc, writes.other.write)?;
        let forth = self.order(alloc, writes.one.early, writes.other.late)?;
        let back = self.order(alloc, writes.other.early, writes.one.late)?;
        format!(in alloc;
            "; if it read {put}, {forth}, so that put has to stand before {other}; and {back}, so {other} has to stand before that put"
        )
    }

    /// A call at a place of a certificate after one that it precedes.
    #[tactic(auto, unfolding(crate::specs::Sentences::out_of_order_words))]
    fn out_of_order(
        &self,
        alloc: Global,
        place: usize,
        call: u32,
        earlier: u32,
    ) -> Result<String, AllocError>
        ensures { IfOk result (λ text. string_bytes text
            ≡ out_of_order_words self.now.history.now self.now.lines.now place call earlier) }
    {
        let order = self.order(alloc, call, earlier)?;
        format!(in alloc;
            "place {place} of the certificate is out of order: {order}, and stands behind it"
        )
    }

    /// A hit at a place of a certificate that is not of its key's latest value.
    #[tactic(auto, unfolding(crate::specs::Sentences::wrong_hit_words))]
    fn wrong_hit(
        &self,
        alloc: Global,
        place: usize,
        hit: u32,
        latest: Latest,
    ) -> Result<String, AllocError>
        ensures { IfOk result (λ text. string_bytes text
            ≡ wrong_hit_words self.now.history.now self.now.lines.now place hit latest) }
    {
        let name = self.name(alloc, hit)?;
        let latest = self.latest(alloc, hit, latest)?;
        format!(in alloc; "{name} is wrong at place {place} of the certificate: {latest}")
    }

    /// Which write is the latest before a hit.
    fn latest(&self, alloc: Global, hit: u32, latest: Latest) -> Result<String, AllocError>
        ensures { IfOk result (λ text. string_bytes text
            ≡ latest_words self.now.history.now self.now.lines.now hit latest) }
    {
        match latest {
            Latest::Nothing => String::from_str(alloc, "no write of its key stands before it"),
            Latest::Other(write) => {
                let name = self.name(alloc, write)?;
                format!(in alloc; "the latest write of its key before it is {name}")
            }
            Latest::Expired(put) => self.expired(alloc, hit, put),
        }
    }

    /// A position that stands at two places of a certificate.
    #[tactic(auto, unfolding(crate::specs::Sentences::repeated_words))]
    fn repeated(&self, alloc: Global, place: usize, position: u32) -> Result<String, AllocError>
        ensures { IfOk result (λ text. string_bytes text
            ≡ repeated_words self.now.history.now self.now.lines.now place position) }
    {
        let name = self.name(alloc, position)?;
        format!(in alloc; "place {place} of the certificate repeats {name}")
    }
}

/// What a hit is that can't have read its only put.
fn kind_of(why: Excuse) -> &'static str
    ensures { result.now ≡ hit_kind why }
{
    match why {
        Excuse::Later => " came before its put: ",
        Excuse::Expired => " is of an expired value: ",
        Excuse::Replaced(_) => " is stale: ",
    }
}

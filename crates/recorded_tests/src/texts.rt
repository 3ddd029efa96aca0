//! What the texts of all parts have alike.
use klog::Flushed;
use record_pages::{Answer, MissCause, NEVER, Pushed, Tier};
use test_devices::TextStep;
use trace_file::ActRef;

/// Takes a number of 16 bits, as that of a caller.
pub fn caller_of(step: &mut TextStep<'_>) -> u16 {
    (step.small() % 65536) as u16
}

/// Tells what a get gave: the tier and the value of a hit, or why there is none.
pub fn tell_answer(answer: &Answer, step: &mut TextStep<'_>) {
    match answer {
        Answer::Hit(value, tier) => {
            step.tell(name_of_tier(*tier));
            step.tell(value.bytes());
        }
        Answer::Miss(cause) => step.tell(name_of_miss(*cause)),
    }
}

fn name_of_tier(tier: Tier) -> &'static [u8] {
    match tier {
        Tier::Memory => b"memory",
        Tier::Log => b"log",
        Tier::Set => b"set",
    }
}

fn name_of_miss(cause: MissCause) -> &'static [u8] {
    match cause {
        MissCause::Absent => b"absent",
        MissCause::Expired => b"expired",
        MissCause::Fault => b"fault",
        MissCause::Damaged => b"damaged",
    }
}

/// The name of what became of a pair that left memory.
pub fn name_of_pushed(pushed: Pushed) -> &'static [u8] {
    match pushed {
        Pushed::Nobody => b"nobody",
        Pushed::Declined => b"declined",
        Pushed::Logged => b"logged",
        Pushed::Full => b"full",
        Pushed::IndexFull => b"index full",
    }
}

/// The name of what a step of flushing did.
pub fn name_of_flush(flushed: Flushed) -> &'static [u8] {
    match flushed {
        Flushed::Nothing => b"nothing",
        Flushed::Wrote => b"wrote",
        Flushed::PageLost => b"page lost",
        Flushed::Sealed => b"sealed",
        Flushed::LogFull => b"log full",
    }
}

/// Tells what a call did: the value of a put, with its expiry if it has one, or the value and the moment of a hit.
pub fn tell_act(act: ActRef<'_>, step: &mut TextStep<'_>) {
    match act {
        ActRef::Put(value, expires) => {
            step.tell(b"put");
            step.tell(value);
            if expires != NEVER {
                step.tell_number(expires);
            }
        }
        ActRef::Hit(value, moment) => {
            step.tell(b"hit");
            step.tell(value);
            step.tell_number(moment);
        }
        ActRef::Remove => step.tell(b"remove"),
        ActRef::Miss => step.tell(b"miss"),
    }
}

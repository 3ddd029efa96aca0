//! Histories that the steps of a text make, and what is found for them.
ghost use Rattle.std.specs.Prelude.{◌≤◌, All, IfOk};
ghost use Rattle.trace_file.specs.Calls.{IsCall};
ghost use Rattle.trace_file.specs.Lent.{call_shown};

use certificate_checker::{Verdict, check};
use certificate_finder::{
    Excluded, Excuse, Faults, Found, UnreadHit, Witness, WrongHit, find, find_faults, warm,
};
use clock_skew::widened;
use history_window::{unsettled, window};
use record_pages::NEVER;
use std::alloc::{AllocError, Global};
use std::hash::{BuildHasherDefault, FoldHasher};
use std::mem::replace;
use std::test::Fail;
use test_devices::{Scripted, TextStep, is, run_text};
use trace_file::{Act, ActRef, Call, CallRef, Certificate, History};

/// The history that the steps so far have made.
#[derive(Drop)]
struct Made {
    history: History,
}

impl Scripted for Made {
    ghost use Rattle.std.specs.Prelude.{⊤};

    ghost can_act = { ⊤ };

    fn act(&mut self, alloc: Global, step: &mut TextStep<'_>) -> Result<(), Fail> {
        match step.number_if_any() {
            Some(caller) => {
                let caller = u16::try_from(caller).unwrap_or(u16::MAX);
                record(alloc, &mut self.history, caller, step)
            }
            None => {
                let word = step.word();
                self.change(alloc, word, step)
            }
        }
    }
}

impl Made {
    /// Begins another history, or changes the one at hand, or asks for what is found for it.
    fn change(&mut self, alloc: Global, word: &[u8], step: &mut TextStep<'_>) -> Result<(), Fail> {
        if is(word, b"new") {
            self.history = History::new(alloc);
        } else if is(word, b"widen") {
            self.history = widened(alloc, &self.history, step.number())?;
        } else if is(word, b"repeat") {
            self.history = repeated(alloc, &self.history, step.number(), step.number())?;
        } else if is(word, b"warm") {
            warm_all(alloc, &mut self.history, step)?;
        } else {
            ask(alloc, &self.history, word, step)?;
        }
        Ok(())
    }
}

/// Tells what is found for a history.
fn ask(
    alloc: Global,
    history: &History,
    word: &[u8],
    step: &mut TextStep<'_>,
) -> Result<(), AllocError> {
    if is(word, b"find") || is(word, b"find-at") {
        tell_found(alloc, history, is(word, b"find-at"), step)
    } else if is(word, b"list") || is(word, b"puts") {
        tell_faults(alloc, history, is(word, b"puts"), step)
    } else if is(word, b"forget") {
        tell_forgotten(alloc, history, step)
    } else {
        tell_of(history, word, step);
        Ok(())
    }
}

/// Takes the rest of a call: its stamps, what it did, its key, and its value with the expiry or the moment.
fn record(
    alloc: Global,
    history: &mut History,
    caller: u16,
    step: &mut TextStep<'_>,
) -> Result<(), Fail> {
    let start = step.number();
    let end = step.number();
    let word = step.word();
    let key = step.key(alloc)?;
    let act = act_of(alloc, word, step)?;
    history.push(Call {
        caller,
        start,
        end,
        key,
        act,
    })?;
    Ok(())
}

/// Takes the value of a call, with the expiry of a put, which else never comes, or the moment of a hit, which else is 0.
fn act_of(alloc: Global, word: &[u8], step: &mut TextStep<'_>) -> Result<Act, Fail> {
    if is(word, b"put") {
        let value = step.value(alloc)?;
        let expires = step.number_if_any().unwrap_or(NEVER);
        return Ok(Act::Put(value, expires));
    }
    if is(word, b"hit") {
        let value = step.value(alloc)?;
        let moment = step.number_if_any().unwrap_or(0);
        return Ok(Act::Hit(value, moment));
    }
    if is(word, b"remove") {
        return Ok(Act::Remove);
    }
    if !is(word, b"miss") {
        step.refuse();
    }
    Ok(Act::Miss)
}

/// A history with the calls of another one so many times, each time so many stamps later.
fn repeated(alloc: Global, round: &History, times: u64, later: u64) -> Result<History, AllocError> {
    let mut history = History::new(alloc);
    for time in 0..times {
        append(&mut history, round, time.wrapping_mul(later))?;
    }
    Ok(history)
}

/// Records the calls of another history once more, so many stamps later.
fn append(history: &mut History, round: &History, later: u64) -> Result<(), AllocError> {
    for position in 0..round.len() {
        let call = round.at(position);
        history.push_ref(&CallRef {
            caller: call.caller,
            start: call.start.saturating_add(later),
            end: call.end.saturating_add(later),
            key: call.key,
            act: call.act,
        })?;
    }
    Ok(())
}

/// Warms a history, and tells the hits whose values are taken as there from the start.
fn warm_all(
    alloc: Global,
    history: &mut History,
    step: &mut TextStep<'_>,
) -> Result<(), AllocError> {
    let cold = replace(history, History::new(alloc));
    let warmed = warm(alloc, cold)?;
    tell_numbers(warmed.hits.as_slice(), step);
    *history = warmed.history;
    Ok(())
}

/// Tells how many calls there are, or one of them.
fn tell_of(history: &History, word: &[u8], step: &mut TextStep<'_>) {
    if is(word, b"count") {
        step.tell_number(history.len() as u64);
        return;
    }
    let position = step.number() as usize;
    if is(word, b"show") && position < history.len() {
        tell_call(&history.at(position), step);
    } else {
        step.refuse();
    }
}

/// Tells a call that has a value.
fn tell_call(call: &CallRef<'_>, step: &mut TextStep<'_>) {
    step.tell_number(u64::from(call.caller));
    step.tell_number(call.start);
    step.tell_number(call.end);
    step.tell(kind_of(&call.act));
    step.tell(call.key);
    step.tell(call.act.value());
    step.tell_number(call.act.time());
}

/// The word of what a call did.
fn kind_of(act: &ActRef<'_>) -> &'static [u8] {
    match act {
        ActRef::Put(..) => b"put",
        ActRef::Remove => b"remove",
        ActRef::Hit(..) => b"hit",
        ActRef::Miss => b"miss",
    }
}

/// Tells numbers.
fn tell_numbers(numbers: &[u32], step: &mut TextStep<'_>) {
    for number in numbers {
        step.tell_number(u64::from(*number));
    }
}

/// Tells what is found for a history, and of which of its calls, if that is asked.
fn tell_found(
    alloc: Global,
    history: &History,
    at: bool,
    step: &mut TextStep<'_>,
) -> Result<(), AllocError> {
    match find(alloc, history)? {
        Found::Accepted(certificate) => tell_verdict(alloc, history, &certificate, step),
        Found::Rejected(witness) => {
            tell_witness(&witness, at, step);
            Ok(())
        }
        Found::Undecided(hits) => {
            tell_kind(b"undecided", hits.as_slice(), at, step);
            Ok(())
        }
    }
}

/// Tells whether the checker accepts a certificate.
fn tell_verdict(
    alloc: Global,
    history: &History,
    certificate: &Certificate,
    step: &mut TextStep<'_>,
) -> Result<(), AllocError> {
    match check(alloc, history, certificate)? {
        Verdict::Accepted => step.tell(b"accepted"),
        Verdict::Rejected(_) => step.tell(b"a wrong certificate"),
    }
    Ok(())
}

/// Tells the kind of a reason.
fn tell_witness(witness: &Witness, at: bool, step: &mut TextStep<'_>) {
    match witness {
        Witness::Interval(call) => tell_kind(b"interval", &[*call], at, step),
        Witness::Hit(hit, _) => tell_kind(b"hit", &[*hit], at, step),
        Witness::Crossed(one, other) => {
            tell_kind(b"crossed", &[one.write, other.write], at, step)
        }
        Witness::Unread(unread) => tell_unread(unread, at, step),
    }
}

/// Tells what was found, and of which calls, if that is asked.
fn tell_kind(kind: &[u8], calls: &[u32], at: bool, step: &mut TextStep<'_>) {
    step.tell(kind);
    if at {
        tell_numbers(calls, step);
    }
}

/// Tells that a hit is unread, and its position and for each put that it can have read that put with the write that it would be
/// crossed with, if that is asked.
fn tell_unread(unread: &UnreadHit, at: bool, step: &mut TextStep<'_>) {
    tell_kind(b"unread", &[unread.hit], at, step);
    if at {
        for writes in &unread.reads {
            tell_numbers(&[writes.one.write, writes.other.write], step);
        }
    }
}

/// Tells all that is wrong with a history, or its wrong hits, each with so many of its puts.
fn tell_faults(
    alloc: Global,
    history: &History,
    puts: bool,
    step: &mut TextStep<'_>,
) -> Result<(), AllocError> {
    let most = if puts {
        step.number() as usize
    } else {
        usize::MAX
    };
    let faults = find_faults(alloc, history, most)?;
    if puts {
        tell_hits(faults.hits.as_slice(), step);
    } else {
        tell_all(&faults, step);
    }
    Ok(())
}

/// Tells all that is wrong with a history, by positions.
fn tell_all(faults: &Faults, step: &mut TextStep<'_>) {
    step.tell(b"reversed");
    tell_numbers(faults.reversed.as_slice(), step);
    step.tell(b"hits");
    for wrong in &faults.hits {
        step.tell_number(u64::from(wrong.hit));
    }
    step.tell(b"crossed");
    for writes in &faults.crossed {
        tell_numbers(&[writes.one.write, writes.other.write], step);
    }
    step.tell(b"unread");
    for unread in &faults.unread {
        step.tell_number(u64::from(unread.hit));
    }
}

/// Tells wrong hits.
fn tell_hits(hits: &[WrongHit], step: &mut TextStep<'_>) {
    for wrong in hits {
        tell_hit(wrong, step);
    }
}

/// Tells a wrong hit, its puts, each with what excludes it, and how late it is, if that is known.
fn tell_hit(wrong: &WrongHit, step: &mut TextStep<'_>) {
    step.tell(b"hit");
    step.tell_number(u64::from(wrong.hit));
    for put in &wrong.puts {
        tell_put(put, step);
    }
    if let Some(late) = wrong.late {
        step.tell(b"late");
        step.tell_number(late);
    }
}

/// Tells a put, and what excludes it.
fn tell_put(excluded: &Excluded, step: &mut TextStep<'_>) {
    step.tell(b"put");
    step.tell_number(u64::from(excluded.put));
    match excluded.why {
        Excuse::Later => step.tell(b"later"),
        Excuse::Expired => step.tell(b"expired"),
        Excuse::Replaced(write) => {
            step.tell(b"over");
            step.tell_number(u64::from(write));
        }
    }
}

/// Tells which calls stay in the window at a stamp, and which of all are left without settled hits, each taken to end no earlier
/// than it starts.
fn tell_forgotten(
    alloc: Global,
    history: &History,
    step: &mut TextStep<'_>,
) -> Result<(), AllocError> {
    let known: BuildHasherDefault<FoldHasher> = BuildHasherDefault::new();
    let bound = step.number();
    let history = in_time(alloc, history)?;
    let kept = window(alloc, known, &history, bound)?;
    let left = unsettled(alloc, known, &history, bound)?;
    tell_numbers(kept.as_slice(), step);
    step.tell(b"left");
    tell_numbers(left.as_slice(), step);
    Ok(())
}

/// A history with the same calls, none of which ends before it starts.
fn in_time(alloc: Global, history: &History) -> Result<History, AllocError>
    ensures { IfOk result (λ history. All (λ call. call.start ≤ call.end) history) }
{
    let mut made = History::new(alloc);
    for position in 0..history.len() {
        let call = ended(&history.at(position));
        made.push_ref(&call)?;
    }
    Ok(made)
}

/// The call, which ends as it starts if it ended before.
fn ended<'a>(call: &CallRef<'a>) -> CallRef<'a>
    requires { IsCall (call_shown call.now) }
    ensures in_time { (call_shown result).start ≤ (call_shown result).end }
    ensures lawful { IsCall (call_shown result) }
{
    CallRef {
        caller: call.caller,
        start: call.start,
        end: call.end.max(call.start),
        key: call.key,
        act: call.act,
    }
}

/// Makes the histories of a text.
pub fn play(alloc: Global, text: &[u8]) -> Result<(), Fail> {
    play_on(alloc, History::new(alloc), text)
}

/// The same, of which the first begins with the calls of a history.
pub fn play_on(alloc: Global, history: History, text: &[u8]) -> Result<(), Fail> {
    run_text(alloc, &mut Made { history }, text)
}

/// The history of the calls of a text.
pub fn history_of(alloc: Global, text: &[u8]) -> Result<History, Fail> {
    let mut made = Made {
        history: History::new(alloc),
    };
    run_text(alloc, &mut made, text)?;
    Ok(made.history)
}

// The texts of a script's replies.
ghost use Rattle.std.specs.Prelude.{◌≡◌, ◌++◌, OnOk, codes, length};
ghost use Rattle.certificate_checker.specs.declared.verdict.Verdict.TheVariants.{Accepted};
ghost use Rattle.certificate_checker.specs.Acceptance.{IsAccepted};
ghost use Rattle.certificate_checker.specs.VerdictLine.{verdict_line};
ghost use Rattle.scripts.specs.Own.{seen_of};
ghost use Rattle.scripts.specs.Replies.{shown, answer_text, tier_text, cause_text, flush_text, move_text, reply_to};

use crate::recording::Recording;
use crate::script_lane::ScriptLane;
use certificate_checker::verdict_line_with_hasher;
use klog::Flushed;
use mover::MovedWhole;
use record_pages::{Answer, Key, MissCause, Tier, Value};
use recorded_lane::{RecordFault, RecordPutFault};
use script_words::Command;
use std::alloc::{AllocError, Global};
use std::hash::BuildHasher;

/// Appends bytes to a text.
pub(crate) fn append(text: &mut Vec<u8>, bytes: &[u8]) -> Result<(), AllocError>
    ensures { OnOk result (text.new.items ≡ text.old.items ++ bytes.now) }
{
    text.extend_from_slice(bytes)
}

/// How a reply names a tier.
fn tier_name(tier: Tier) -> &'static str
    ensures { result.now ≡ tier_text tier }
{
    match tier {
        Tier::Memory => "memory",
        Tier::Log => "log",
        Tier::Set => "set",
    }
}

/// How a reply names the cause of a miss.
fn cause_name(cause: MissCause) -> &'static str
    ensures { result.now ≡ cause_text cause }
{
    match cause {
        MissCause::Absent => "absent",
        MissCause::Expired => "expired",
        MissCause::Fault => "fault",
        MissCause::Damaged => "damaged",
    }
}

/// How a reply names what a flush step did.
fn flush_name(flushed: Flushed) -> &'static str
    ensures { result.now ≡ flush_text flushed }
{
    match flushed {
        Flushed::Nothing => "nothing",
        Flushed::Wrote => "wrote",
        Flushed::PageLost => "page lost",
        Flushed::Sealed => "sealed",
        Flushed::LogFull => "log full",
    }
}

/// How a reply names what a move did.
fn move_name(moved: MovedWhole) -> &'static str
    ensures { result.now ≡ move_text moved }
{
    match moved {
        MovedWhole::Nothing => "nothing",
        MovedWhole::Busy => "busy",
        MovedWhole::Readmitted => "readmitted",
        MovedWhole::Dropped => "dropped",
        MovedWhole::PageLost => "page lost",
        MovedWhole::Freed => "freed",
        MovedWhole::Written => "written",
        MovedWhole::Forgotten => "forgotten",
    }
}

/// Appends a value, which is `-` if it is empty.
fn append_value(text: &mut Vec<u8>, value: &Value) -> Result<(), AllocError>
    ensures { OnOk result (text.new.items ≡ text.old.items ++ shown value.now) }
{
    if value.bytes().is_empty() {
        append(text, b"-")
    } else {
        append(text, value.bytes())
    }
}

/// Appends the reply to a get.
fn append_answer(text: &mut Vec<u8>, answer: &Answer) -> Result<(), AllocError>
    ensures { OnOk result (text.new.items ≡ text.old.items ++ answer_text answer.now) }
{
    match answer {
        Answer::Hit(value, tier) => {
            append(text, b"hit ")?;
            append_value(text, value)?;
            append(text, b" ")?;
            append(text, tier_name(*tier).as_bytes())
        }
        Answer::Miss(cause) => {
            append(text, b"miss ")?;
            append(text, cause_name(*cause).as_bytes())
        }
    }
}

/// A get of a script.
fn get_reply<const PAGE: usize>(
    lane: &mut ScriptLane<PAGE>,
    key: &Key,
    moment: u64,
    text: &mut Vec<u8>,
) -> Result<(), AllocError>
    ensures text { OnOk result (text.new.items
        ≡ text.old.items ++ (reply_to PAGE (seen_of lane.old) (Command.Get key.now moment)).text) }
    ensures lane { OnOk result (seen_of lane.new
        ≡ (reply_to PAGE (seen_of lane.old) (Command.Get key.now moment)).opened) }
{
    match lane.get(key, moment) {
        Ok(answer) => {
            append_answer(text, &answer)?;
            append(text, b"\n")
        }
        Err(RecordFault::HistoryFull) => {
            append(text, b"history full\n")?;
            Ok(())
        }
        Err(RecordFault::OutOfMemory) => Err(AllocError),
    }
}

/// A put of a script.
fn put_reply<const PAGE: usize>(
    lane: &mut ScriptLane<PAGE>,
    key: Key,
    value: Value,
    word: u32,
    expires: u64,
    text: &mut Vec<u8>,
) -> Result<(), AllocError>
    ensures text { OnOk result (text.new.items
        ≡ text.old.items ++ (reply_to PAGE (seen_of lane.old) (Command.Put key value word expires)).text) }
    ensures lane { OnOk result (seen_of lane.new
        ≡ (reply_to PAGE (seen_of lane.old) (Command.Put key value word expires)).opened) }
{
    match lane.put(key, value, word, expires) {
        Ok(_pushed) => append(text, b"stored\n"),
        Err(RecordPutFault::TooLarge) => append(text, b"too large\n"),
        Err(RecordPutFault::HistoryFull) => append(text, b"history full\n"),
        Err(RecordPutFault::OutOfMemory) => Err(AllocError),
    }
}

/// A removal of a script.
fn remove_reply<const PAGE: usize>(
    lane: &mut ScriptLane<PAGE>,
    key: &Key,
    text: &mut Vec<u8>,
) -> Result<(), AllocError>
    ensures text { OnOk result (text.new.items
        ≡ text.old.items ++ (reply_to PAGE (seen_of lane.old) (Command.Remove key.now)).text) }
    ensures lane { OnOk result (seen_of lane.new
        ≡ (reply_to PAGE (seen_of lane.old) (Command.Remove key.now)).opened) }
{
    match lane.remove(key) {
        Ok(()) => append(text, b"removed\n"),
        Err(RecordFault::HistoryFull) => append(text, b"history full\n"),
        Err(RecordFault::OutOfMemory) => Err(AllocError),
    }
}

/// A forgetting of a script.
fn forget_reply<const PAGE: usize>(
    lane: &mut ScriptLane<PAGE>,
    key: &Key,
    text: &mut Vec<u8>,
) -> Result<(), AllocError>
    ensures text { OnOk result (text.new.items
        ≡ text.old.items ++ (reply_to PAGE (seen_of lane.old) (Command.Forget key.now)).text) }
    ensures lane { OnOk result (seen_of lane.new
        ≡ (reply_to PAGE (seen_of lane.old) (Command.Forget key.now)).opened) }
{
    lane.forget(key);
    append(text, b"forgotten\n")
}

/// A flush step of a script.
fn flush_reply<const PAGE: usize>(
    lane: &mut ScriptLane<PAGE>,
    text: &mut Vec<u8>,
) -> Result<(), AllocError>
    ensures text { OnOk result (text.new.items
        ≡ text.old.items ++ (reply_to PAGE (seen_of lane.old) Command.Flush).text) }
    ensures lane { OnOk result (seen_of lane.new
        ≡ (reply_to PAGE (seen_of lane.old) Command.Flush).opened) }
{
    let flushed = lane.flush_step();
    append(text, flush_name(flushed).as_bytes())?;
    append(text, b"\n")
}

/// A whole move of a script.
fn move_reply<const PAGE: usize>(
    lane: &mut ScriptLane<PAGE>,
    text: &mut Vec<u8>,
) -> Result<(), AllocError>
    ensures text { OnOk result (text.new.items
        ≡ text.old.items ++ (reply_to PAGE (seen_of lane.old) Command.Move).text) }
    ensures lane { OnOk result (seen_of lane.new
        ≡ (reply_to PAGE (seen_of lane.old) Command.Move).opened) }
{
    let moved = lane.move_whole()?;
    append(text, move_name(moved).as_bytes())?;
    append(text, b"\n")
}

/// Appends the verdict on calls that are accepted.
fn append_verdict<S: BuildHasher + Drop>(
    alloc: Global,
    hash_builder: S,
    recording: &Recording,
    text: &mut Vec<u8>,
) -> Result<(), AllocError>
    requires { IsAccepted recording.now.history recording.now.certificate }
    ensures { OnOk result (text.new.items ≡ text.old.items
        ++ verdict_line Accepted (length recording.now.history) ++ codes "\n") }
{
    let line = verdict_line_with_hasher(
        alloc,
        hash_builder,
        &recording.history,
        &recording.certificate,
    )?;
    append(text, line.as_bytes())?;
    append(text, b"\n")
}

/// The verdict on a script's calls so far.
fn verdict_reply<const PAGE: usize, S: BuildHasher + Drop>(
    alloc: Global,
    hash_builder: S,
    lane: &ScriptLane<PAGE>,
    text: &mut Vec<u8>,
) -> Result<(), AllocError>
    ensures { OnOk result (text.new.items
        ≡ text.old.items ++ (reply_to PAGE (seen_of lane.now) Command.Verdict).text) }
{
    let recording = lane.recording(alloc)?;
    append_verdict(alloc, hash_builder, &recording, text)
}

/// The trace of a script's calls so far, in hexadecimal.
fn trace_reply<const PAGE: usize>(
    alloc: Global,
    lane: &ScriptLane<PAGE>,
    text: &mut Vec<u8>,
) -> Result<(), AllocError>
    ensures { OnOk result (text.new.items
        ≡ text.old.items ++ (reply_to PAGE (seen_of lane.now) Command.Trace).text) }
{
    let trace = lane.trace(alloc)?;
    let line = hex::encode(alloc, trace.as_slice())?;
    append(text, line.as_bytes())?;
    append(text, b"\n")
}

/// Answers a command: it changes the lane, and appends the reply to the text.
pub(crate) fn answer_command<const PAGE: usize, S: BuildHasher + Drop>(
    alloc: Global,
    hash_builder: S,
    lane: &mut ScriptLane<PAGE>,
    command: Command,
    text: &mut Vec<u8>,
) -> Result<(), AllocError>
    ensures text { OnOk result (text.new.items
        ≡ text.old.items ++ (reply_to PAGE (seen_of lane.old) command).text) }
    ensures lane { OnOk result (seen_of lane.new ≡ (reply_to PAGE (seen_of lane.old) command).opened) }
{
    match command {
        Command::Put(key, value, word, expires) => {
            put_reply(lane, key, value, word, expires, text)
        }
        Command::Get(key, moment) => get_reply(lane, &key, moment, text),
        Command::Remove(key) => remove_reply(lane, &key, text),
        Command::Forget(key) => forget_reply(lane, &key, text),
        Command::Flush => flush_reply(lane, text),
        Command::Move => move_reply(lane, text),
        Command::Verdict => verdict_reply(alloc, hash_builder, lane, text),
        Command::Trace => trace_reply(alloc, lane, text),
    }
}

// What is answered to a command.
ghost use Rattle.std.specs.Prelude.{◌≡◌, ◌≤◌, ◌==◌, false, length, if◌then◌else◌, IfSome};
ghost use Rattle.std.specs.Option.{option_map};
ghost use Rattle.record_pages.specs.Bounded.{IsKey, IsValue};
ghost use Rattle.item_lane.specs.Cells.{kept_shown};
ghost use Rattle.memcached_text.specs.Answers.{answer_text};
ghost use Rattle.memcached_session.specs.Counting.{number_of_outcome};
ghost use Rattle.memcached_session.specs.Fitting.{IsLaneAnswer};
ghost use Rattle.memcached_session.specs.Saying.{said_shown, said_of_reply, said_of_item, text_of_reply, outcome_of_reply};

use crate::answered::Answered;
use crate::outcome::SessionOutcome;
use item_lane::{CacheItem, CommandReply};
use memcached_text::{FixedReply, TextAnswer, ValueFound};
use record_pages::PutFault;

/// What is answered to a command that replied this.
pub(crate) fn to_reply<'a>(noreply: bool, reply: Result<CommandReply, PutFault>) -> Answered<'a>
    ensures said { said_shown result ≡ said_of_reply noreply reply }
    ensures fits { IsLaneAnswer (said_shown result) }
{
    Answered::unless_quiet(noreply, answer(reply), outcome(reply))
}

/// What is answered to one key of a get that found this item, or none.
pub(crate) fn to_item<'a>(
    key: &'a [u8],
    with_cas: bool,
    item: Option<CacheItem<'a>>,
) -> Answered<'a>
    requires key { IsKey key.now }
    requires within { IfSome item (λ found. IsValue found.bytes.now) }
    ensures said { said_shown result
        ≡ said_of_item key.now with_cas (option_map kept_shown item.entry) }
    ensures fits { IsLaneAnswer (said_shown result) }
{
    match item {
        None => Answered::silent(SessionOutcome::Miss),
        Some(item) => {
            let found = ValueFound {
                key,
                flags: item.head.flags,
                cas: if_wanted(with_cas, item.head.cas),
                data: item.bytes,
            };
            Answered::loud(TextAnswer::Value(found), SessionOutcome::Hit)
        }
    }
}

// A cas unique, if it is wanted.
fn if_wanted(with_cas: bool, cas: u64) -> Option<u64>
    ensures { result ≡ (if with_cas then Some cas else None) }
{
    if with_cas { Some(cas) } else { None }
}

// The answer to a command that replied this.
fn answer<'a>(reply: Result<CommandReply, PutFault>) -> TextAnswer<'a>
    ensures text { answer_text result ≡ text_of_reply reply }
    ensures few { length (answer_text result) ≤ 2448 }
{
    match reply {
        Ok(CommandReply::Stored) => TextAnswer::Reply(FixedReply::Stored),
        Ok(CommandReply::NotStored) => TextAnswer::Reply(FixedReply::NotStored),
        Ok(CommandReply::Exists) => TextAnswer::Reply(FixedReply::Exists),
        Ok(CommandReply::NotFound) => TextAnswer::Reply(FixedReply::NotFound),
        Ok(CommandReply::Deleted) => TextAnswer::Reply(FixedReply::Deleted),
        Ok(CommandReply::Touched) => TextAnswer::Reply(FixedReply::Touched),
        Ok(CommandReply::Number(number)) => TextAnswer::Number(number),
        Ok(CommandReply::Invalidated) => TextAnswer::Reply(FixedReply::Deleted),
        Ok(CommandReply::Found(_)) => TextAnswer::Reply(FixedReply::Ok),
        Ok(CommandReply::NotNumber) => TextAnswer::Reply(FixedReply::NotNumber),
        Err(PutFault::TooLarge) => TextAnswer::Reply(FixedReply::TooLarge),
        Err(PutFault::OutOfMemory) => TextAnswer::Reply(FixedReply::OutOfMemory),
    }
}

/// How a command went that replied this.
pub(crate) fn outcome(reply: Result<CommandReply, PutFault>) -> SessionOutcome
    ensures value { result ≡ outcome_of_reply reply }
    ensures kept { (number_of_outcome result == 13) ≡ false }
{
    match reply {
        Ok(CommandReply::Stored) => SessionOutcome::Stored,
        Ok(CommandReply::NotStored) => SessionOutcome::NotStored,
        Ok(CommandReply::Exists) => SessionOutcome::Exists,
        Ok(CommandReply::NotFound) => SessionOutcome::Miss,
        Ok(CommandReply::Deleted) => SessionOutcome::Deleted,
        Ok(CommandReply::Touched) => SessionOutcome::Touched,
        Ok(CommandReply::Number(_)) => SessionOutcome::Counted,
        Ok(CommandReply::Invalidated) => SessionOutcome::Deleted,
        Ok(CommandReply::Found(_)) => SessionOutcome::Hit,
        Ok(CommandReply::NotNumber) => SessionOutcome::NotNumber,
        Err(PutFault::TooLarge) => SessionOutcome::TooLarge,
        Err(PutFault::OutOfMemory) => SessionOutcome::NoMemory,
    }
}

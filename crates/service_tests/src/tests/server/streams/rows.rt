//! What users of a reader of requests rely on, of any bytes: the contract of each function here denies what a wrong body would
//! do.
ghost use Rattle.std.specs.Prelude.{◌≡◌, ◌≢◌, ◌≤◌, ℕ, length, take, position, slice_index_or, IfSome, Some, Ok};
ghost use Rattle.memcached_text.specs.Asked.{AskDelta, Changing};
ghost use Rattle.memcached_text.specs.Requests.{request_of};
ghost use Rattle.memcached_text.specs.Steps.{TellRequest, event_shown, is_feed, without_return};
ghost use Rattle.memcached_text.specs.declared.reader_state.ReaderState.{ReaderState};

use memcached_text::{ReaderState, RequestReader, StreamEvent, StreamStep};

/// A key that is given among those of a request has 1 to 250 bytes.
pub fn a_given_key_has_at_most_250_bytes<'a>(
    reader: &mut RequestReader,
    bytes: &'a [u8],
) -> Option<&'a [u8]>
    ensures least { IfSome result (λ key. 1 ≤ length key.now) }
    ensures most { IfSome result (λ key. length key.now ≤ 250) }
{
    let ReaderState::Keys { .. } = reader.state else {
        return None;
    };
    let StreamEvent::Key { key, .. } = reader.take(bytes).event else {
        return None;
    };
    Some(key)
}

/// A line is taken up to its end, whatever comes after it: `incr` adds the number that stands last in it, and none of fewer
/// digits.
pub fn a_line_is_taken_to_its_end<'a>(reader: &mut RequestReader, bytes: &'a [u8]) -> StreamStep<'a>
    requires start { reader.old.state ≡ ReaderState.Line }
    requires text { slice_index_or bytes.now 0 0 ≢ 128 }
    ensures { (at : ℕ) → position is_feed (take 2049 bytes.now) ≡ Some at → (delta : Changing) →
        request_of (without_return (take at bytes.now)) ≡ Ok (AskDelta delta) →
        event_shown result.event ≡ TellRequest (AskDelta delta) }
{
    reader.take(bytes)
}

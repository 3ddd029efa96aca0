// A recorded call, and its end.
ghost use Rattle.std.specs.Prelude.{◌≡◌};
ghost use Rattle.history_recorder.specs.Books.{closed};

use certificate_checker::Done;
use recorded_lane::Noted;
use trace_file::Call;

/// A recorded call, and its end, once it has one.
#[derive(Drop)]
pub(crate) struct RecordedCall {
    /// The call, as its lane recorded it.
    pub(crate) noted: Noted,
    /// The stamp at which it ended.
    pub(crate) end: Option<u64>,
}

impl RecordedCall {
    /// The done call. One that was not ended ends at this stamp.
    pub(crate) fn closed(self, last: u64) -> Done
        ensures { result ≡ closed last self }
    {
        let RecordedCall { noted, end } = self;
        let Noted {
            caller,
            start,
            point,
            key,
            act,
        } = noted;
        let end = end.unwrap_or(last);
        Done {
            call: Call {
                caller,
                start,
                end,
                key,
                act,
            },
            point,
        }
    }
}

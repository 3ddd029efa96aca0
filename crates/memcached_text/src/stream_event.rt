// What a reader of requests gives.

use crate::exptime::Exptime;
use crate::line_refusal::LineRefusal;
use crate::text_request::TextRequest;

/// What a reader of requests gives. Requests, keys and data are lent by the bytes that were fed.
#[derive(Clone, Copy, Debug)]
pub enum StreamEvent<'a> {
    /// Nothing is whole: more bytes are needed.
    More,
    /// A request with no data block. After `Get` and `GetAndTouch` come their keys.
    Request(TextRequest<'a>),
    /// `Store`, or `ms`, with its data block.
    Data {
        request: TextRequest<'a>,
        data: &'a [u8],
    },
    /// The same, but its data block is longer than the reader takes. It is passed over.
    TooLarge(TextRequest<'a>),
    /// One key of `Get`, or of `GetAndTouch` if there is an expiry.
    Key {
        key: &'a [u8],
        exptime: Option<Exptime>,
        with_cas: bool,
    },
    /// The keys are at their end, and `END` is to be answered.
    KeysEnd,
    /// A line is refused. After `LineTooLong`, and if its data block is `Unreadable`, the connection is to be closed.
    Refused(LineRefusal),
    /// The first byte is that of memcached's binary protocol, or a line is HTTP's. Nothing is answered, and the connection is to be closed.
    Foreign,
}

/// What a reader of requests gives, and how many of the bytes that were fed it took.
#[derive(Clone, Copy)]
pub struct StreamStep<'a> {
    /// How many bytes were taken: the rest is to be fed again, with what comes after it.
    pub taken: usize,
    /// What they give.
    pub event: StreamEvent<'a>,
}

//! memcached's text protocol, classic and meta: what the lines of a client ask for, and the bytes of the answers.
//!
//! The grammar is that of `doc/protocol.txt` of memcached 1.6. There is no socket and no cache here: bytes
//! become requests, and answers become bytes.
#![tactic(auto)]

mod classic;
mod exptime;
mod fixed_reply;
mod laws;
mod line_error;
mod line_refusal;
mod meta;
mod meta_answer;
mod numbers;
mod parsing;
mod reader_state;
mod request_reader;
mod store_command;
mod stream_event;
mod text_answer;
mod text_request;
mod verb;
mod words;
mod writing;

pub use exptime::Exptime;
pub use fixed_reply::FixedReply;
pub use laws::{no_block_is_read, requests_read_back};
pub use line_error::LineError;
pub use line_refusal::{LineRefusal, RefusedBlock};
pub use meta_answer::{MetaAnswer, MetaFields, MetaMarks, MetaStatus, Ttl};
pub use parsing::parse;
pub use reader_state::ReaderState;
pub use request_reader::{MAX_LINE_LEN, RequestReader};
pub use store_command::StoreCommand;
pub use stream_event::{StreamEvent, StreamStep};
pub use text_answer::{TextAnswer, ValueFound};
pub use text_request::{DeltaRequest, MetaRequest, StoreRequest, TextRequest};
pub use verb::{Direction, MetaCommand};
pub use words::MAX_KEY_LEN;
pub use writing::{AnswerBytes, MAX_ANSWER_LEN, append_answer};

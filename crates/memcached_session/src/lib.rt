//! Sessions of memcached's text protocol over lanes of a cache: bytes in, one step at a time, and bytes out.
//!
//! A session is one client's stream of requests. A step takes what one step of `memcached_text`'s reader takes, does what
//! that asks for to the lane of its key by one call of `item_lane`, and answers that very request. What is kept between two
//! steps is plain data of a fixed size. Sockets, locks and clocks are not here.
#![tactic(auto)]

mod alone;
mod answered;
mod command;
mod done;
mod expiring;
mod keyed;
mod lane_stepping;
mod lane_turn;
mod meta_performing;
mod meta_reading;
mod meta_reply;
mod meta_replying;
mod outcome;
mod performing;
mod replying;
mod session;
mod settling;
mod stats_kind;
mod stepping;
mod turn;
mod unserved;
mod want;

pub use command::SessionCommand;
pub use done::SessionDone;
pub use lane_stepping::lane_step;
pub use lane_turn::LaneTurn;
pub use outcome::SessionOutcome;
pub use session::{MAX_BLOCK_LEN, Session};
pub use stats_kind::StatsKind;
pub use stepping::step;
pub use turn::SessionTurn;
pub use want::{Need, Want, what_is_wanted};

//! One lane of a cache for callers in C: keys and values are bytes, and each call answers a status. A lane is given to one call
//! at a time; its caller has the locks, the threads and the memory that the lane's pages lie in.
#![tactic(auto)]

mod copying;
mod counters;
mod hit;
mod home;
mod judging;
mod key_place;
mod lane;
mod lane_shape;
mod object;
mod seed;
mod session_want;
mod shape_field;
mod sizes;
mod status;
mod step;
mod wanted;

pub use counters::{Counters, LANE_COUNTERS};
pub use hit::Hit;
pub use home::LaneHome;
pub use judging::judge_trace;
pub use key_place::{KeyPlace, place_of};
pub use lane::CLane;
pub use lane_shape::LaneShape;
pub use seed::Seed;
pub use session_want::{SessionWanted, session_wanted};
pub use shape_field::ShapeField;
pub use sizes::{Sizes, number_of_fault};
pub use status::Status;
pub use step::Step;
pub use wanted::WantedSizes;

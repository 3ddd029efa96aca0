//! A cache that serves: lanes of which nothing is recorded, each under a lock of its own. Each call of it brings a seat, which says what
//! its caller has seen of one list of all writes of the cache; the list exists only in proofs. `SeatedLane` is one such
//! lane alone, without the lock.
#![tactic(auto)]

mod cache;
mod lane;
mod looked_up;
mod open_service_fault;
mod opening;
mod seat_fault;
mod service_options;

pub use cache::ServiceCache;
pub use cache_sizes::MAX_SHARDS;
pub use lane::SeatedLane;
pub use looked_up::LookedUp;
pub use open_service_fault::OpenServiceFault;
pub use seat_fault::{SeatFault, SeatPutFault};
pub use service_options::ServiceOptions;

//! The register of a server's numbers and turns: which number an item gets, what a flush hides, and at which moment a command is made.
//!
//! A turn is made access by access: the register says which of the shared words comes next, its caller reads or writes that one, atomically,
//! and hands back what it read. So the order of the accesses is here, and the words, and the lock of flushes, are the caller's.
#![tactic(auto)]

mod delays;
mod last_turn;
mod laws;
mod place;
mod turn;

pub use delays::first_number;
pub use last_turn::LastTurn;
pub use laws::{flush_is_seen, flush_to_come_is_seen, numbers_differ};
pub use place::TurnPlace;
pub use turn::{ALL_HIDDEN, RegisterTurn};

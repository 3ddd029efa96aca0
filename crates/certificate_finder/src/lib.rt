//! Finds a certificate for a history that brings none, or says why there can be none.
#![tactic(auto)]

mod asked;
mod best;
mod by_ends;
mod call_span;
mod choosing;
mod crossed;
mod crossing;
mod crossings;
mod deciding;
mod ends;
mod excluded;
mod excuses;
mod faults;
mod finding;
mod finding_faults;
mod flags;
mod found;
mod groups;
mod hit_reads;
mod hits;
mod if_read;
mod in_turn;
mod items;
mod lateness;
mod laws;
mod leaved_puts;
mod leaves;
mod line;
mod linked_puts;
mod links;
mod mix;
mod mixing;
mod numbered_call;
mod numbering;
mod offer;
mod owner;
mod owners;
mod owning;
mod put;
mod put_range;
mod puts;
mod ranked;
mod readable;
mod readings;
mod reversed;
mod rule;
mod stamp;
mod tree;
mod tree_shape;
mod unput;
mod unread;
mod unread_hit;
mod warm_hits;
mod warmed;
mod warming;
mod witness;
mod write;
mod writes;
mod wrong_hits;
mod zone;
mod zoning;

pub use excluded::{Excluded, Excuse};
pub use faults::{CrossedWrites, Faults, WrongHit};
pub use finding::{MAX_CALLS, find, find_with_hasher};
pub use finding_faults::{find_faults, find_faults_with_hasher};
pub use found::Found;
pub use laws::{
    accepted_stays_cold, keys_are_warmed_once, lawful_by_keys, past_stays_accepted,
    sorted_spots_are_accepted, stale_stays_wrong, witness_excludes,
};
pub use unread_hit::UnreadHit;
pub use warmed::Warmed;
pub use warming::{WARM_CALLER, warm, warm_with_hasher};
pub use witness::{Side, Witness};

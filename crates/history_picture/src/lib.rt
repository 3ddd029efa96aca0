//! Says why a history is rejected: in a sentence, with the calls around the place as lines of text or as a picture.
#![tactic(auto)]

mod arrows;
mod axis;
mod bars;
mod blanks;
mod call_at;
mod call_words;
mod callers;
mod coded;
mod columns;
mod drawing;
mod escaped;
mod explain_fault;
mod explaining;
mod fault_reason;
mod labels;
mod latest;
mod latest_of;
mod marks;
mod near;
mod picturing;
mod reason;
mod rows;
mod scene;
mod sentence;
mod sheet;
mod shown;
mod strokes;
mod wrapping;

pub use explain_fault::ExplainFault;
pub use explaining::explanation;
pub use latest::Latest;
pub use picturing::{draw, picture};
pub use reason::Reason;
pub use scene::Scene;

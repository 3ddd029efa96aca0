// The threshold of a move.
ghost use Rattle.std.specs.Prelude.{◌≡◌};
ghost use Rattle.admission.specs.Threshold.{judgement_of};

use crate::judgement::Judgement;
use record_pages::Prediction;

/// The least number of objects of a set that move from the log together.
#[derive(Clone, Copy, PartialEq, Eq)]
pub struct Threshold {
    pub least: u32,
}

impl Threshold {
    /// What becomes of an object with this prediction, if the log holds this many objects of its set. With a lower
    /// prediction than `Prediction::ENTERING` it was hit there.
    pub fn judge(&self, count: usize, prediction: Prediction) -> Judgement
        ensures { result ≡ judgement_of self.now.least count prediction }
    {
        if count >= self.least as usize {
            return Judgement::Move;
        }
        if prediction.get() < Prediction::ENTERING {
            return Judgement::Readmit;
        }
        Judgement::Drop
    }
}

// How predictions change when a set is rewritten.
ghost use Rattle.std.specs.Prelude.{◌≡◌, ◌<◌, ◌≤◌, All, IfSome, length, slice_get};
ghost use Rattle.std.specs.Bool.{OnTrue};
ghost use Rattle.rriparoo.specs.Ageing.{IsWithin, aged, farther, farthest};

use policy_laws::{Item, Job};
use record_pages::Prediction;

/// The prediction that an item of a job is written with.
///
/// An old item with a hit is promoted: it is predicted soonest. The other old items age, all by as much as makes
/// the farthest of them as far as can be. A fresh item keeps its prediction.
pub fn age(job: &Job, item: usize) -> Prediction
    requires { item < length job.now.items }
    ensures { IfSome (slice_get job.now.items item)
        (λ item. result ≡ aged (farthest job.now.items) item) }
{
    let items = job.items.as_slice();
    let far = farthest_of(items);
    aged_by(far, &items[item])
}

/// The farthest prediction of the old items without a hit, or 0 if there are none.
pub(crate) fn farthest_of(items: &[Item]) -> u8
    ensures value { result ≡ farthest items.now }
    ensures range { result ≤ 7 }
    ensures bound { All (IsWithin result) items.now }
{
    let mut far = 0;
    for item in items {
        far = farther_of(far, item);
    }
    far
}

// The farthest of one item more, if that of the others is this.
fn farther_of(far: u8, item: &Item) -> u8
    requires { far ≤ 7 }
    ensures value { result ≡ farther far item.now }
    ensures range { result ≤ 7 }
    ensures bound { (far ≤ result) × IsWithin result item.now }
{
    if item.fresh || item.hit {
        return far;
    }
    far.max(item.prediction.get())
}

/// The new prediction of an item, if the farthest old item without a hit has this one.
pub(crate) fn aged_by(far: u8, item: &Item) -> Prediction
    requires range { far ≤ 7 }
    requires bound { IsWithin far item.now }
    ensures { result ≡ aged far item.now }
{
    if item.fresh {
        return item.prediction;
    }
    let number = if item.hit {
        0
    } else {
        item.prediction.get() + (Prediction::MAX - far)
    };
    match Prediction::new(number) {
        Some(prediction) => prediction,
        None => unreachable!(),
    }
}

// The rules by which a hit that can have read several puts gets one of them.
ghost use Rattle.std.specs.Prelude.{◌≡◌, ◌<◌, Some, slice_get};
ghost use Rattle.certificate_finder.specs.Choosing.{all_rules, last_or_first as last_or_first_of};

use crate::call_span::CallSpan;

/// How many rules there are.
pub(crate) const RULES: usize = 5;

/// 2 to the power of 64: more than each stamp.
const OVER: u128 = 18446744073709551616;

/// A rule by which a hit that can have read several puts gets one of them.
#[derive(Clone, Copy)]
pub(crate) enum Rule {
    /// The put whose zone grows least by the hit.
    LeastGrowth,
    /// The put that started last.
    LatestStart,
    /// The put that started first.
    EarliestStart,
    /// Of the puts that started no later than the hit the last one; if there is none, the put that started first.
    LatestBegun,
    /// Of the puts that ended before the hit started the one that started last; if there is none, the put that started
    /// first.
    LatestEnded,
}

impl Rule {
    ghost use Rattle.certificate_finder.specs.Choosing.{cost_of};

    /// What a put costs a hit, if the calls that go with the put have this zone. The hit gets the put that costs least.
    pub(crate) fn cost(self, hit: CallSpan, put: CallSpan, zone: CallSpan) -> u128
        ensures { result ≡ cost_of self hit put zone }
    {
        match self {
            Rule::LeastGrowth => {
                hit.start.saturating_sub(zone.start) as u128
                    + zone.end.saturating_sub(hit.end) as u128
            }
            Rule::LatestStart => OVER - put.start as u128,
            Rule::EarliestStart => put.start as u128,
            Rule::LatestBegun => last_or_first(put.start <= hit.start, put.start),
            Rule::LatestEnded => last_or_first(put.end < hit.start, put.start),
        }
    }
}

/// The cost of a put by its start: of those that are preferred the last one costs least, of the others the first one.
fn last_or_first(preferred: bool, start: u64) -> u128
    ensures { result ≡ last_or_first_of preferred start }
{
    if preferred {
        OVER - start as u128
    } else {
        2 * OVER + start as u128
    }
}

/// The rule at an index, in the order in which they are tried.
pub(crate) fn rule_at(index: usize) -> Rule
    requires { index < 5 }
    ensures { slice_get all_rules index ≡ Some result }
{
    match index {
        0 => Rule::LeastGrowth,
        1 => Rule::LatestStart,
        2 => Rule::EarliestStart,
        3 => Rule::LatestBegun,
        _ => Rule::LatestEnded,
    }
}

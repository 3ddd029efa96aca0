// How late hits are that can have read no put.
ghost use Rattle.std.specs.Prelude.{◌≡◌, ◌<◌, ◌^◌, IfOk, Some, length, slice_get};
ghost use Rattle.certificate_finder.specs.Excluding.{AreLasts, AreLike, IsLateFrom};
ghost use Rattle.certificate_finder.specs.Putting.{AreInOrder};
ghost use Rattle.certificate_finder.specs.Steps.{IsFit};

use crate::items::item_at;
use crate::numbered_call::NumberedCall;
use crate::put::{Put, value_rank};
use crate::put_range::PutRange;
use crate::puts::puts_upto;
use std::alloc::{AllocError, Global};

/// For each put the greatest rank of a last stamp at which it, or one before it, can be read.
pub(crate) fn lasts_of(alloc: Global, puts: &[Put]) -> Result<Vec<u128>, AllocError>
    ensures { IfOk result (λ lasts. AreLasts puts.now (length puts.now) lasts.items) }
{
    let mut lasts = Vec::new(alloc);
    let mut last = 0;
    for index in 0..puts.len() {
        let put = item_at(puts, index);
        last = put.last().max(last);
        lasts.push(last)?;
    }
    Ok(lasts)
}

/// How late a hit is, by the puts of its key and value that had started when it ended: by the last stamp at which one of them can be
/// read, which the ranks tell. It is not known if one of them can be read when the hit starts, or if none had started.
pub(crate) fn late_by(
    puts: &[Put],
    lasts: &[u128],
    like: PutRange,
    hit: &NumberedCall,
) -> Option<u64>
    requires puts { AreInOrder puts.now }
    requires lasts { AreLasts puts.now (length puts.now) lasts.now }
    requires fit { IsFit hit.now }
    requires like { AreLike puts.now hit.now like.from like.upto }
    ensures { IsLateFrom puts.now hit.now like.from result }
{
    let begun = puts_upto(puts, value_rank(hit.key, hit.value, hit.end));
    if begun <= like.from {
        return None;
    }
    let last = item_at(lasts, begun - 1);
    let asked = value_rank(hit.key, hit.value, hit.start);
    if last < asked {
        Some((asked - last) as u64)
    } else {
        None
    }
}

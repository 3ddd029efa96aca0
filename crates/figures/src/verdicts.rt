// The figures of a verdict.
ghost use Rattle.std.specs.Prelude.{◌≡◌, OnOk, string_bytes};
ghost use Rattle.figures.specs.Figures.{with_rows};
ghost use Rattle.figures.specs.Verdicts.{fault_rows, verdict_rows};

use crate::figure::Figure;
use crate::form::Form;
use certificate_checker::{Fault, Verdict};
use std::alloc::{AllocError, Global};

/// Tells a verdict: `verdict`, which is `accepted` or `rejected`, and after the second `fault`, the kind of the fault,
/// with its `position` among the calls or its `place` in the certificate, if it has one. If memory is refused the text
/// is a front of the whole.
pub fn tell_verdict(
    alloc: Global,
    form: Form,
    text: &mut String,
    verdict: Verdict,
) -> Result<(), AllocError>
    ensures { OnOk result (string_bytes text.new
        ≡ with_rows form (string_bytes text.old) (verdict_rows verdict)) }
{
    match verdict {
        Verdict::Accepted => form.tell(alloc, text, "verdict", Figure::Word("accepted")),
        Verdict::Rejected(fault) => {
            form.tell(alloc, text, "verdict", Figure::Word("rejected"))?;
            tell_fault(alloc, form, text, fault)
        }
    }
}

/// Tells a fault.
fn tell_fault(alloc: Global, form: Form, text: &mut String, fault: Fault) -> Result<(), AllocError>
    ensures { OnOk result (string_bytes text.new
        ≡ with_rows form (string_bytes text.old) (fault_rows fault)) }
{
    form.tell(alloc, text, "fault", Figure::Word(kind_of(fault)))?;
    match tell_place(alloc, form, text, fault) {
        Ok(()) => Ok(()),
        Err(refused) => Err(refused),
    }
}

ghost use Rattle.figures.specs.Verdicts.{kind_of, place_rows};

/// The kind of a fault.
fn kind_of(fault: Fault) -> &'static str
    ensures { result.now ≡ kind_of fault }
{
    match fault {
        Fault::BadInterval { .. } => "BadInterval",
        Fault::WrongCount => "WrongCount",
        Fault::NotAPlace { .. } => "NotAPlace",
        Fault::Repeated { .. } => "Repeated",
        Fault::OutOfOrder { .. } => "OutOfOrder",
        Fault::WrongHit { .. } => "WrongHit",
    }
}

/// Tells where a fault is, if it is at one place.
fn tell_place(alloc: Global, form: Form, text: &mut String, fault: Fault) -> Result<(), AllocError>
    ensures { OnOk result (string_bytes text.new
        ≡ with_rows form (string_bytes text.old) (place_rows fault)) }
{
    let place = match fault {
        Fault::BadInterval { position } => {
            return form.tell(alloc, text, "position", Figure::Count(position as u64));
        }
        Fault::WrongCount => return Ok(()),
        Fault::NotAPlace { place } => place,
        Fault::Repeated { place } => place,
        Fault::OutOfOrder { place } => place,
        Fault::WrongHit { place } => place,
    };
    form.tell(alloc, text, "place", Figure::Count(place as u64))
}

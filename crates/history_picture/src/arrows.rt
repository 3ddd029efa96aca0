// Which call precedes which, if that matters.
ghost use Rattle.std.specs.Prelude.{◌≡◌, ◌++◌, ◌∷◌, [], IfOk, OnOk, take};
ghost use Rattle.std.specs.List.{flat_map};
ghost use Rattle.history_picture.specs.Arrows.{arrows_of, crossed_arrows, excluded_arrows, read_arrows};

use crate::marks::{first_eight, first_three};
use crate::reason::Reason;
use certificate_finder::{CrossedWrites, Excluded, Excuse, Side};
use std::alloc::{AllocError, Global};

/// That the call at a position precedes the call at another.
#[derive(Clone, Copy)]
pub(crate) struct Arrow {
    /// The call that ended.
    pub from: u32,
    /// The call that started after its end.
    pub to: u32,
}

/// What precedes what, if that matters for a reason.
pub(crate) fn arrows(alloc: Global, reason: &Reason) -> Result<Vec<Arrow>, AllocError>
    ensures { IfOk result (λ arrows. arrows.items ≡ arrows_of reason.now) }
{
    let mut arrows = Vec::new(alloc);
    let Ok(()) = push_arrows(&mut arrows, reason) else {
        return Err(AllocError);
    };
    Ok(arrows)
}

/// Appends the same.
fn push_arrows(arrows: &mut Vec<Arrow>, reason: &Reason) -> Result<(), AllocError>
    ensures { OnOk result (arrows.new.items ≡ arrows.old.items ++ arrows_of reason.now) }
{
    match reason {
        Reason::Hit(hit, puts) => push_hit(arrows, *hit, puts.as_slice()),
        Reason::Crossed(one, other) => push_crossed(arrows, one, other),
        Reason::Unread(unread) => push_unread(arrows, unread.reads.as_slice()),
        Reason::OutOfOrder(_, call, earlier) => {
            let arrow = Arrow {
                from: *call,
                to: *earlier,
            };
            push(arrows, arrow)
        }
        Reason::Interval(_) => Ok(()),
        Reason::WrongHit(..) => Ok(()),
        Reason::Repeated(..) => Ok(()),
        Reason::NotAPlace(..) => Ok(()),
        Reason::WrongCount => Ok(()),
    }
}

/// Appends an arrow.
fn push(arrows: &mut Vec<Arrow>, arrow: Arrow) -> Result<(), AllocError>
    ensures { OnOk result (arrows.new.items ≡ arrows.old.items ++ arrow ∷ []) }
{
    arrows.push(arrow)?;
    Ok(())
}

/// Appends two arrows.
fn push_both(arrows: &mut Vec<Arrow>, first: Arrow, second: Arrow) -> Result<(), AllocError>
    ensures { OnOk result (arrows.new.items ≡ arrows.old.items ++ first ∷ second ∷ []) }
{
    let Ok(()) = push(arrows, first) else {
        return Err(AllocError);
    };
    push(arrows, second)
}

/// Appends what precedes what, for a hit that can't have read its puts.
fn push_hit(arrows: &mut Vec<Arrow>, hit: u32, puts: &[Excluded]) -> Result<(), AllocError>
    ensures { OnOk result (
        arrows.new.items ≡ arrows.old.items ++ flat_map (excluded_arrows hit) (take 8 puts.now)) }
{
    let few = first_eight(puts);
    for put in few {
        let Ok(()) = push_excluded(arrows, hit, put) else {
            return Err(AllocError);
        };
    }
    Ok(())
}

/// Appends what precedes what, for a put that a hit can't have read.
fn push_excluded(arrows: &mut Vec<Arrow>, hit: u32, excluded: &Excluded) -> Result<(), AllocError>
    ensures { OnOk result (
        arrows.new.items ≡ arrows.old.items ++ excluded_arrows hit excluded.now) }
{
    let put = excluded.put;
    match excluded.why {
        Excuse::Later => push(arrows, Arrow { from: hit, to: put }),
        Excuse::Expired => Ok(()),
        Excuse::Replaced(write) => {
            let before = Arrow {
                from: put,
                to: write,
            };
            let after = Arrow {
                from: write,
                to: hit,
            };
            push_both(arrows, before, after)
        }
    }
}

/// Appends what precedes what, for two crossed sides.
fn push_crossed(arrows: &mut Vec<Arrow>, one: &Side, other: &Side) -> Result<(), AllocError>
    ensures { OnOk result (
        arrows.new.items ≡ arrows.old.items ++ crossed_arrows one.now other.now) }
{
    let forth = Arrow {
        from: one.early,
        to: other.late,
    };
    let back = Arrow {
        from: other.early,
        to: one.late,
    };
    push_both(arrows, forth, back)
}

/// Appends what precedes what, for a hit that would cross two writes whichever of these puts it read.
fn push_unread(arrows: &mut Vec<Arrow>, reads: &[CrossedWrites]) -> Result<(), AllocError>
    ensures { OnOk result (
        arrows.new.items ≡ arrows.old.items ++ flat_map read_arrows (take 3 reads.now)) }
{
    let few = first_three(reads);
    for writes in few {
        let Ok(()) = push_crossed(arrows, &writes.one, &writes.other) else {
            return Err(AllocError);
        };
    }
    Ok(())
}

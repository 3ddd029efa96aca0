// Telling how what is judged differs from what a text spells.
ghost use Rattle.std.specs.Prelude.{◌≡◌, ◌<◌, ◌^◌, IfOk, OnOk, option_map, string_bytes};
ghost use Rattle.figures.specs.Figures.{with_rows};
ghost use Rattle.judge_run.specs.Extents.{count_row, count_text, added_before, extent_rows, extent_text, from_start_of, forgotten_if, forgotten_of, own_of, recorded_of, with_forgotten};

use crate::extent::Extent;
use crate::forgotten::Forgotten;
use figures::{Figure, Form};
use std::alloc::{AllocError, Global};

/// How many of so many calls are the text's own: all but the puts that were added.
pub(crate) fn own_of(extent: &Extent, calls: usize) -> usize
    ensures { result ≡ own_of extent.now calls }
{
    match extent.from_start {
        Some(values) => calls.saturating_sub(values),
        None => calls,
    }
}

/// How many calls were judged and forgotten.
fn forgotten_of(forgotten: Option<Forgotten>) -> usize
    ensures { result ≡ forgotten_of forgotten }
{
    match forgotten {
        Some(gone) => (gone.puts as usize)
            .saturating_add(gone.removals as usize)
            .saturating_add(gone.hits as usize)
            .saturating_add(gone.misses as usize),
        None => 0,
    }
}

/// So many calls, and those that were forgotten.
pub(crate) fn with_forgotten(own: usize, gone: usize) -> usize
    ensures { result ≡ with_forgotten own gone }
{
    own.saturating_add(gone)
}

/// How many calls of a text were judged, of which so many are held with the puts that were added.
pub(crate) fn recorded_of(extent: &Extent, calls: usize) -> usize
    ensures { result ≡ recorded_of extent.now calls }
{
    let all = with_forgotten(own_of(extent, calls), forgotten_of(extent.forgotten));
    all.saturating_sub(added_before(extent.forgotten))
}

/// How many puts were added with earlier pieces.
pub(crate) fn added_before(forgotten: Option<Forgotten>) -> usize
    ensures { result ≡ added_before forgotten }
{
    match forgotten {
        Some(gone) => gone.added as usize,
        None => 0,
    }
}

/// How many calls were forgotten, if some could be.
fn forgotten_if(extent: &Extent) -> Option<u64>
    ensures { result ≡ forgotten_if extent.now.forgotten }
{
    match extent.forgotten {
        Some(gone) => Some(forgotten_of(Some(gone)) as u64),
        None => None,
    }
}

/// How many values were taken as there from the start, if that was asked for.
fn from_start_of(extent: &Extent) -> Option<u64>
    ensures { result ≡ from_start_of extent.now }
{
    match extent.from_start {
        Some(values) => Some(with_forgotten(values, added_before(extent.forgotten)) as u64),
        None => None,
    }
}

/// A number as a line of its own, if it is asked for.
fn count_text(alloc: Global, says: &str, count: Option<u64>) -> Result<String, AllocError>
    ensures { IfOk result (λ text. string_bytes text ≡ count_text says.now count) }
{
    match count {
        Some(count) => format!(in alloc; "{count}{says}"),
        None => Ok(String::new(alloc)),
    }
}

/// The lines that tell how what is judged differs from what the text spells.
pub(crate) fn extent_text(alloc: Global, extent: &Extent) -> Result<String, AllocError>
    ensures { IfOk result (λ text. string_bytes text ≡ extent_text extent.now) }
{
    let start = count_text(
        alloc,
        " values were taken as there from the start\n",
        from_start_of(extent),
    )?;
    let skipped = count_text(alloc, " bad lines were passed over\n", extent.skipped)?;
    let forgotten = count_text(
        alloc,
        " calls were judged and forgotten\n",
        forgotten_if(extent),
    )?;
    format!(in alloc; "{start}{skipped}{forgotten}")
}

/// Tells a number by a row, if it is asked for.
fn tell_count(
    alloc: Global,
    form: Form,
    text: &mut String,
    name: &str,
    count: Option<u64>,
) -> Result<(), AllocError>
    ensures { OnOk result (string_bytes text.new
        ≡ with_rows form (string_bytes text.old) (count_row name.now count)) }
{
    match count {
        Some(count) => form.tell(alloc, text, name, Figure::Count(count)),
        None => Ok(()),
    }
}

/// Tells the same by rows.
pub(crate) fn tell_extent(
    alloc: Global,
    form: Form,
    text: &mut String,
    extent: &Extent,
) -> Result<(), AllocError>
    ensures { OnOk result (string_bytes text.new
        ≡ with_rows form (string_bytes text.old) (extent_rows extent.now)) }
{
    tell_count(
        alloc,
        form,
        text,
        "values-from-start",
        from_start_of(extent),
    )?;
    tell_count(alloc, form, text, "bad-lines", extent.skipped)?;
    match tell_count(alloc, form, text, "calls-forgotten", forgotten_if(extent)) {
        Ok(()) => Ok(()),
        Err(refused) => Err(refused),
    }
}

// The rows of a report that tell what lanes count.
ghost use Rattle.std.specs.Prelude.{◌≡◌, OnOk, map, string_bytes};
ghost use Rattle.figures.specs.Figures.{with_rows};
ghost use Rattle.serve_load.specs.Rows.{count_rows};

use figures::{Figure, Form};
use service_lane::{Counter, Counts};
use std::alloc::{AllocError, Global};

/// What a row tells of the lanes.
#[derive(Clone, Copy)]
pub(crate) enum Told {
    /// The number of a counter.
    Of(Counter),
    /// The numbers of two counters together, modulo 2^64.
    Both(Counter, Counter),
}

/// A row, by its name and what it tells.
#[derive(Clone, Copy)]
pub(crate) struct CountRow(&'static str, Told);

/// All of them, in their order.
const COUNT_ROWS: [CountRow; 33] = [
    CountRow("hits-memory", Told::Of(Counter::MemoryHits)),
    CountRow("hits-log", Told::Of(Counter::LogHits)),
    CountRow("hits-set", Told::Of(Counter::SetHits)),
    CountRow("misses-absent", Told::Of(Counter::Absent)),
    CountRow("misses-expired", Told::Of(Counter::Expired)),
    CountRow("misses-fault", Told::Of(Counter::Faults)),
    CountRow("misses-damaged", Told::Of(Counter::Damaged)),
    CountRow("puts-stored", Told::Of(Counter::PutsStored)),
    CountRow("puts-bytes", Told::Of(Counter::PutsBytes)),
    CountRow(
        "puts-refused",
        Told::Both(Counter::PutsOutOfMemory, Counter::PutsTooLarge),
    ),
    CountRow("leases", Told::Of(Counter::LeasesGiven)),
    CountRow("fills-stored", Told::Of(Counter::FillsStored)),
    CountRow("fills-bytes", Told::Of(Counter::FillsBytes)),
    CountRow(
        "fills-refused",
        Told::Both(Counter::FillsOutOfMemory, Counter::FillsTooLarge),
    ),
    CountRow("fills-stale", Told::Of(Counter::FillsStale)),
    CountRow("pushed-declined", Told::Of(Counter::Declined)),
    CountRow("pushed-logged", Told::Of(Counter::Logged)),
    CountRow("pushed-log-full", Told::Of(Counter::LogFull)),
    CountRow("pushed-index-full", Told::Of(Counter::IndexFull)),
    CountRow("copy-hits", Told::Of(Counter::CopyHits)),
    CountRow("brought-back", Told::Of(Counter::BroughtBack)),
    CountRow("pushed-copies", Told::Of(Counter::PushedCopies)),
    CountRow("pages-written", Told::Of(Counter::PagesWritten)),
    CountRow("pages-lost", Told::Of(Counter::PagesLost)),
    CountRow("sets-written", Told::Of(Counter::SetsWritten)),
    CountRow("sets-forgotten", Told::Of(Counter::SetsForgotten)),
    CountRow("segments-freed", Told::Of(Counter::SegmentsFreed)),
    CountRow("moves-readmitted", Told::Of(Counter::Readmitted)),
    CountRow("moves-dropped", Told::Of(Counter::Dropped)),
    CountRow("moves-refused", Told::Of(Counter::MovesOutOfMemory)),
    CountRow("upkeep-steps", Told::Of(Counter::UpkeepSteps)),
    CountRow("upkeep-in-help", Told::Of(Counter::StepsInHelp)),
    CountRow("removals", Told::Of(Counter::Removals)),
];

/// Tells what lanes counted.
pub(crate) fn tell_counts(
    alloc: Global,
    form: Form,
    text: &mut String,
    counts: &Counts,
) -> Result<(), AllocError>
    ensures { OnOk result (string_bytes text.new
        ≡ with_rows form (string_bytes text.old) (count_rows counts.now)) }
{
    tell_rows(alloc, form, text, counts, &COUNT_ROWS)
}

ghost use Rattle.serve_load.specs.Telling.{number_of, row_of};

/// Tells some rows.
fn tell_rows(
    alloc: Global,
    form: Form,
    text: &mut String,
    counts: &Counts,
    rows: &[CountRow],
) -> Result<(), AllocError>
    ensures { OnOk result (string_bytes text.new
        ≡ with_rows form (string_bytes text.old) (map (row_of counts.now) rows.now)) }
{
    for row in rows {
        form.tell(alloc, text, row.0, Figure::Count(number_of(counts, row.1)))?;
    }
    Ok(())
}

/// The number that a row tells.
fn number_of(counts: &Counts, told: Told) -> u64
    ensures { result ≡ number_of counts.now told }
{
    match told {
        Told::Of(counter) => counts.of(counter),
        Told::Both(one, other) => counts.of(one).wrapping_add(counts.of(other)),
    }
}

//! The report of a load.
use crate::tests::asked_loads::served_by;
use figures::Form;
use load::Quantiles;
use serve_load::{Report, Timed};
use service_lane::{Counter, Counts};
use std::alloc::Global;
use std::test::Fail;

/// The numbers of a report in which each row has another one.
static NUMBERS: [(Counter, u64); 36] = [
    (Counter::MemoryHits, 1),
    (Counter::LogHits, 2),
    (Counter::SetHits, 3),
    (Counter::Absent, 4),
    (Counter::Expired, 5),
    (Counter::Faults, 6),
    (Counter::Damaged, 7),
    (Counter::PutsStored, 8),
    (Counter::PutsBytes, 9),
    (Counter::PutsTooLarge, 4),
    (Counter::PutsOutOfMemory, 6),
    (Counter::LeasesGiven, 11),
    (Counter::FillsStored, 12),
    (Counter::FillsBytes, 13),
    (Counter::FillsTooLarge, 5),
    (Counter::FillsOutOfMemory, 9),
    (Counter::FillsStale, 15),
    (Counter::Declined, 16),
    (Counter::Logged, 17),
    (Counter::LogFull, 18),
    (Counter::IndexFull, 19),
    (Counter::CopyHits, 35),
    (Counter::BroughtBack, 36),
    (Counter::PushedCopies, 37),
    (Counter::Sealed, 20),
    (Counter::PagesWritten, 21),
    (Counter::PagesLost, 22),
    (Counter::SetsWritten, 23),
    (Counter::SetsForgotten, 24),
    (Counter::SegmentsFreed, 25),
    (Counter::Readmitted, 26),
    (Counter::Dropped, 27),
    (Counter::MovesOutOfMemory, 28),
    (Counter::UpkeepSteps, 29),
    (Counter::StepsInHelp, 30),
    (Counter::Removals, 33),
];

/// A report with these counts.
pub fn report_with(counts: Counts) -> Report {
    Report {
        operations: 4500,
        refused: 44,
        wrong_hits: 1,
        milliseconds: 2007,
        timed: Timed {
            gets: Quantiles {
                p50: 51,
                p99: 52,
                p999: 53,
                most: 54,
            },
            puts: Quantiles {
                p50: 61,
                p99: 62,
                p999: 63,
                most: 64,
            },
        },
        counts,
        memory_objects: 31,
        log_records: 32,
    }
}

/// A report with these numbers.
fn report() -> Report {
    let mut counts = Counts::none();
    for (counter, number) in &NUMBERS {
        counts.add(*counter, *number);
    }
    report_with(counts)
}

/// Its text: 4,500 operations in 2.007 seconds are 2,242 a second, and 6 hits of 28 gets are 0.2142 of them.
const TEXT: &str = "operations 4500
seconds 2.007
operations-a-second 2242
gets 28
hit-ratio 0.214
get-p50-ns 51
get-p99-ns 52
get-p999-ns 53
get-max-ns 54
put-p50-ns 61
put-p99-ns 62
put-p999-ns 63
put-max-ns 64
hits-memory 1
hits-log 2
hits-set 3
misses-absent 4
misses-expired 5
misses-fault 6
misses-damaged 7
puts-stored 8
puts-bytes 9
puts-refused 10
leases 11
fills-stored 12
fills-bytes 13
fills-refused 14
fills-stale 15
pushed-declined 16
pushed-logged 17
pushed-log-full 18
pushed-index-full 19
copy-hits 35
brought-back 36
pushed-copies 37
pages-written 21
pages-lost 22
sets-written 23
sets-forgotten 24
segments-freed 25
moves-readmitted 26
moves-dropped 27
moves-refused 28
upkeep-steps 29
upkeep-in-help 30
removals 33
memory-objects 31
log-records 32
refused 44
wrong-hits 1
no history was recorded, so nothing was judged beyond each caller's check of the hits of its own keys
";

/// The same as one JSON object.
const OBJECT: &str =
    "{\"operations\":4500,\"seconds\":2.007,\"operations-a-second\":2242,\"gets\":28,\"hit-ratio\":0.214,\"get-p50-ns\":51,\"get-p99-ns\":52,\"get-p999-ns\":53,\"get-max-ns\":54,\"put-p50-ns\":61,\"put-p99-ns\":62,\"put-p999-ns\":63,\"put-max-ns\":64,\"hits-memory\":1,\"hits-log\":2,\"hits-set\":3,\"misses-absent\":4,\"misses-expired\":5,\"misses-fault\":6,\"misses-damaged\":7,\"puts-stored\":8,\"puts-bytes\":9,\"puts-refused\":10,\"leases\":11,\"fills-stored\":12,\"fills-bytes\":13,\"fills-refused\":14,\"fills-stale\":15,\"pushed-declined\":16,\"pushed-logged\":17,\"pushed-log-full\":18,\"pushed-index-full\":19,\"copy-hits\":35,\"brought-back\":36,\"pushed-copies\":37,\"pages-written\":21,\"pages-lost\":22,\"sets-written\":23,\"sets-forgotten\":24,\"segments-freed\":25,\"moves-readmitted\":26,\"moves-dropped\":27,\"moves-refused\":28,\"upkeep-steps\":29,\"upkeep-in-help\":30,\"removals\":33,\"memory-objects\":31,\"log-records\":32,\"refused\":44,\"wrong-hits\":1}\n";

/// Whether a report is told by lines that have this text.
fn has_lines(alloc: Global, report: &Report, text: &str) -> Result<bool, Fail> {
    let load = served_by(alloc, "k serve-load")?;
    let lines = report.text(alloc, Form::Lines, &*load, &[])?;
    Ok(lines.as_str().contains(text))
}

#[test]
fn a_report_has_a_line_and_a_member_for_each_number(rt: HostRuntime) -> Result<(), Fail> {
    let load = served_by(rt.alloc(), "k serve-load")?;
    let lines = report().text(rt.alloc(), Form::Lines, &*load, &[])?;
    let object = report().text(rt.alloc(), Form::Json, &*load, &[])?;
    assert!(rt; lines.as_str() == TEXT && object.as_str() == OBJECT);
    Ok(())
}

/// A report of so many hits and misses.
fn with_ratio(hits: u64, misses: u64) -> Report {
    let mut counts = Counts::none();
    counts.add(Counter::LogHits, hits);
    counts.add(Counter::Absent, misses);
    report_with(counts)
}

/// Hits and misses, and the row of their ratio.
#[derive(Clone, Copy)]
struct Ratio {
    hits: u64,
    misses: u64,
    row: &'static str,
}

static RATIOS: [Ratio; 5] = [
    Ratio {
        hits: 0,
        misses: 0,
        row: "gets 0\nhit-ratio 0.000\n",
    },
    Ratio {
        hits: 7,
        misses: 0,
        row: "gets 7\nhit-ratio 1.000\n",
    },
    Ratio {
        hits: 2,
        misses: 1,
        row: "gets 3\nhit-ratio 0.666\n",
    },
    Ratio {
        hits: 1,
        misses: 1000,
        row: "gets 1001\nhit-ratio 0.000\n",
    },
    Ratio {
        hits: 18446744073709551615,
        misses: 18446744073709551615,
        row: "gets 18446744073709551614\nhit-ratio 0.500\n",
    },
];

#[test]
fn a_ratio_is_rounded_down_to_three_places(rt: HostRuntime) -> Result<(), Fail> {
    for ratio in &RATIOS {
        let report = with_ratio(ratio.hits, ratio.misses);
        assert!(rt; has_lines(rt.alloc(), &report, ratio.row)?);
    }
    Ok(())
}

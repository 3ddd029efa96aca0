// What is reported of a load.
ghost use Rattle.std.specs.Prelude.{◌≡◌, ◌≤◌, IfOk, OnOk, string_bytes};
ghost use Rattle.figures.specs.Figures.{with_rows};
ghost use Rattle.serve_load.specs.Rows.{get_latency_rows, put_latency_rows, rate_of, ratio_of, ratio_rows};

use crate::count_rows::tell_counts;
use crate::hit_rows::tell_hits;
use crate::told_hit::ToldHit;
use figures::{Figure, Form};
use load::{Quantiles, ServeLoad};
use service_lane::{Counter, Counts};
use std::alloc::{AllocError, Global};

/// How long calls took, of those that were timed.
#[derive(Clone, Copy, PartialEq, Eq)]
pub struct Timed {
    /// Gets, each with the fill after a miss.
    pub gets: Quantiles,
    /// Puts.
    pub puts: Quantiles,
}

/// What is reported of a load.
#[derive(Clone, Copy, PartialEq, Eq)]
pub struct Report {
    /// Operations that all callers made.
    pub operations: u64,
    /// Those of them that were refused memory.
    pub refused: u64,
    /// Hits that were not right.
    pub wrong_hits: u64,
    /// How long it took from the first caller's start to the last one's end, in milliseconds.
    pub milliseconds: u64,
    /// How long calls took.
    pub timed: Timed,
    /// The counters of all lanes.
    pub counts: Counts,
    /// Objects in memory at the end.
    pub memory_objects: u64,
    /// Live records in the logs at the end.
    pub log_records: u64,
    ghost operations_range: { operations ≤ 64000000000 },
}

/// The last line: what was judged, and what was not.
const LAST: &str =
    "no history was recorded, so nothing was judged beyond each caller's check of the hits of its own keys\n";

impl Report {
    ghost use Rattle.serve_load.specs.Reports.{call_rows, end_rows, last_rows, report_of, run_rows};

    /// Its text, with the wrong hits of the load: a line for each number and each hit, and a last one that says what was judged; or one
    /// JSON object with the same names, numbers and texts.
    pub fn text(
        &self,
        alloc: Global,
        form: Form,
        load: &ServeLoad,
        hits: &[ToldHit],
    ) -> Result<String, AllocError>
        ensures { IfOk result (λ text. string_bytes text ≡ report_of form self.now load.now hits.now) }
    {
        let mut text = String::new(alloc);
        self.tell_calls(alloc, form, &mut text)?;
        tell_counts(alloc, form, &mut text, &self.counts)?;
        self.tell_end(alloc, form, &mut text, load, hits)?;
        close(form, &mut text)?;
        Ok(text)
    }

    /// Operations a second: of a load that took no millisecond, as of one that took one.
    pub fn operations_a_second(&self) -> u64
        ensures { result ≡ rate_of self.now.operations self.now.milliseconds }
    {
        self.operations * 1000 / self.milliseconds.max(1)
    }

    /// Tells how many operations were made, in what time, how many gets were answered, and how long calls took.
    fn tell_calls(&self, alloc: Global, form: Form, text: &mut String) -> Result<(), AllocError>
        ensures { OnOk result (string_bytes text.new
            ≡ with_rows form (string_bytes text.old) (call_rows self.now)) }
    {
        self.tell_run(alloc, form, text)?;
        tell_ratio(alloc, form, text, &self.counts)?;
        tell_get_latency(alloc, form, text, &self.timed.gets)?;
        match tell_put_latency(alloc, form, text, &self.timed.puts) {
            Ok(()) => Ok(()),
            Err(refused) => Err(refused),
        }
    }

    /// Tells how many operations were made, and in what time.
    fn tell_run(&self, alloc: Global, form: Form, text: &mut String) -> Result<(), AllocError>
        ensures { OnOk result (string_bytes text.new
            ≡ with_rows form (string_bytes text.old) (run_rows self.now)) }
    {
        let rate = self.operations_a_second();
        form.tell(alloc, text, "operations", Figure::Count(self.operations))?;
        form.tell(
            alloc,
            text,
            "seconds",
            Figure::Thousandths(self.milliseconds),
        )?;
        form.tell(alloc, text, "operations-a-second", Figure::Count(rate))
    }

    /// Tells what is left at the end, what the callers found, and which hits were wrong.
    fn tell_end(
        &self,
        alloc: Global,
        form: Form,
        text: &mut String,
        load: &ServeLoad,
        hits: &[ToldHit],
    ) -> Result<(), AllocError>
        ensures { OnOk result (string_bytes text.new
            ≡ with_rows form (string_bytes text.old) (end_rows self.now load.now hits.now)) }
    {
        self.tell_last(alloc, form, text)?;
        match tell_hits(alloc, form, text, load, hits) {
            Ok(()) => Ok(()),
            Err(refused) => Err(refused),
        }
    }

    /// Tells what is left at the end, and what the callers found.
    fn tell_last(&self, alloc: Global, form: Form, text: &mut String) -> Result<(), AllocError>
        ensures { OnOk result (string_bytes text.new
            ≡ with_rows form (string_bytes text.old) (last_rows self.now)) }
    {
        form.tell(
            alloc,
            text,
            "memory-objects",
            Figure::Count(self.memory_objects),
        )?;
        form.tell(alloc, text, "log-records", Figure::Count(self.log_records))?;
        form.tell(alloc, text, "refused", Figure::Count(self.refused))?;
        form.tell(alloc, text, "wrong-hits", Figure::Count(self.wrong_hits))
    }
}

ghost use Rattle.serve_load.specs.Closing.{closed};

/// Ends a text: lines with a last one, and an object with its brace.
fn close(form: Form, text: &mut String) -> Result<(), AllocError>
    ensures { OnOk result (string_bytes text.new ≡ closed form (string_bytes text.old)) }
{
    match form {
        Form::Lines => text.push_str(LAST),
        Form::Json => form.end(text),
    }
}

/// Tells how many gets were answered, and the share of hits among them.
fn tell_ratio(
    alloc: Global,
    form: Form,
    text: &mut String,
    counts: &Counts,
) -> Result<(), AllocError>
    ensures { OnOk result (string_bytes text.new
        ≡ with_rows form (string_bytes text.old) (ratio_rows counts.now)) }
{
    let answered = answered(counts);
    let ratio = hit_ratio(counts);
    form.tell(alloc, text, "gets", Figure::Count(answered))?;
    form.tell(alloc, text, "hit-ratio", Figure::Thousandths(ratio))
}

ghost use Rattle.serve_load.specs.Rows.{answered_of};

/// Gets that were answered, modulo 2^64.
fn answered(counts: &Counts) -> u64
    ensures { result ≡ answered_of counts.now }
{
    let hits = counts
        .of(Counter::MemoryHits)
        .wrapping_add(counts.of(Counter::LogHits))
        .wrapping_add(counts.of(Counter::SetHits));
    let kept = counts
        .of(Counter::Absent)
        .wrapping_add(counts.of(Counter::Expired));
    let failed = counts
        .of(Counter::Faults)
        .wrapping_add(counts.of(Counter::Damaged));
    hits.wrapping_add(kept).wrapping_add(failed)
}

/// The share of hits among the gets that were answered, in thousandths, rounded down; 0 of no gets.
fn hit_ratio(counts: &Counts) -> u64
    ensures value { result ≡ ratio_of counts.now }
    ensures most { result ≤ 1000 }
{
    let hits = u128::from(counts.of(Counter::MemoryHits))
        + u128::from(counts.of(Counter::LogHits))
        + u128::from(counts.of(Counter::SetHits));
    let kept = u128::from(counts.of(Counter::Absent)) + u128::from(counts.of(Counter::Expired));
    let failed = u128::from(counts.of(Counter::Faults)) + u128::from(counts.of(Counter::Damaged));
    let all = hits + kept + failed;
    (hits * 1000 / all.max(1)) as u64
}

/// Tells how long gets took.
fn tell_get_latency(
    alloc: Global,
    form: Form,
    text: &mut String,
    times: &Quantiles,
) -> Result<(), AllocError>
    ensures { OnOk result (string_bytes text.new
        ≡ with_rows form (string_bytes text.old) (get_latency_rows times.now)) }
{
    form.tell(alloc, text, "get-p50-ns", Figure::Count(times.p50))?;
    form.tell(alloc, text, "get-p99-ns", Figure::Count(times.p99))?;
    form.tell(alloc, text, "get-p999-ns", Figure::Count(times.p999))?;
    form.tell(alloc, text, "get-max-ns", Figure::Count(times.most))
}

/// Tells how long puts took.
fn tell_put_latency(
    alloc: Global,
    form: Form,
    text: &mut String,
    times: &Quantiles,
) -> Result<(), AllocError>
    ensures { OnOk result (string_bytes text.new
        ≡ with_rows form (string_bytes text.old) (put_latency_rows times.now)) }
{
    form.tell(alloc, text, "put-p50-ns", Figure::Count(times.p50))?;
    form.tell(alloc, text, "put-p99-ns", Figure::Count(times.p99))?;
    form.tell(alloc, text, "put-p999-ns", Figure::Count(times.p999))?;
    form.tell(alloc, text, "put-max-ns", Figure::Count(times.most))
}

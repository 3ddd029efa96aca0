// A run, from its load to its status.
ghost use Rattle.std.specs.Prelude.{◌≡◌, ◌≢◌, ◌↔◌, ◌⊎◌, ◌<◌, ◌+◌, All, IfOk, IfErr, IsTrue, None, length};
ghost use Rattle.certificate_checker.specs.Acceptance.{IsAccepted};
ghost use Rattle.figures.specs.Figures.{form_of};
ghost use Rattle.load_run.specs.Devices.{AreDevicesFor};
ghost use Rattle.load_run.specs.Ends.{status_of};
ghost use Rattle.load_run.specs.Runs.{IsRunOf, IsSaid, IsSummaryOf, WroteSummary};
ghost use Rattle.load_run.specs.Wholes.{IsWhole};

use crate::hits::hits_of;
use crate::in_files::in_files;
use crate::load_result::{LoadResult, make_history};
use crate::run_cause::RunCause;
use crate::run_end::RunEnd;
use crate::run_outcome::RunOutcome;
use crate::shared::{PAGE, open};
use crate::summary::Summary;
use crate::telling::{tell_end, tell_step};
use certificate_checker::check_with_hasher;
use figures::Form;
use file_device::{lanes_in_memory, taken_places};
use key_hash::RandomSeed;
use load::{FileName, Load, SystemFault};
use page_device::PageDevice;
use shared_cache::FinishFault;
use std::alloc::{AllocError, Global};
use std::fs::{File, OpenOptions};
use std::io::{BufWriter, IsTerminal, Write};
use std::random::RandomSource;
use std::rt::Files;
use std::sync::Wait;
use std::thread::Threads;
use std::time::Clock;
use std::{fs, io};
use trace_file::{Certificate, History, write_trace};

/// Runs a load, and answers the status that the program ends with.
///
/// The file of the trace is opened first, and emptied only when there is a trace to write: a file that can't be opened costs
/// no run, and a run that fails before it has a trace loses no older one. Then each lane has a device: in memory, or in a file
/// of the load's folder, `lane-0.dev` and so on, which is made if it is absent and stays when the run is over. A page of a
/// file that can't be read or written is a page of the cache that failed, and ends nothing.
///
/// Each caller has a thread, its pass and a generator of its own, and stops at its first refusal; the workers flush and move
/// beside them. Then the history is judged, by a table with a seed that is drawn for it, the trace is written to its file, and
/// four lines are written to `out`, or a JSON object if the load wants that. What else went wrong goes to `err`, in a
/// line, and after it in further lines what failed, with the file and the system's cause, and what to do. If `err` is a
/// terminal, it also shows how many calls were made, at most twice a second while they are, and of a long run what is
/// done after that.
pub fn run_load<
    R: Threads + Wait + Sync + AllocGlobal + Files<File = File> + Clock + RandomSource,
    O: Write,
    E: Write + IsTerminal,
>(rt: &R, load: &Load, out: &mut O, err: &mut E) -> u8
    ensures { IsRunOf load.now (O.contents out.old) (O.contents out.new) result }
{
    let _places = taken_places(rt);
    let ended = run_to_end(rt, load, out, err);
    tell_end(err, load, &ended);
    ended.end.status()
}

/// Runs a load, and answers how it ended.
fn run_to_end<
    R: Threads + Wait + Sync + AllocGlobal + Files<File = File> + Clock + RandomSource,
    O: Write,
    E: Write + IsTerminal,
>(rt: &R, load: &Load, out: &mut O, err: &mut E) -> RunOutcome
    ensures shares { (result.end ≡ RunEnd.SharesExceed) ↔ (100 < load.now.gets + load.now.removes) }
    ensures wrote { WroteSummary load.now (O.contents out.old) (O.contents out.new) result.end }
    ensures accepted { load.now.device ≡ None → result.end ≢ RunEnd.Rejected }
{
    if load.gets + load.removes > 100 {
        return RunOutcome::plain(RunEnd::SharesExceed);
    }
    let _opened = match open_trace(rt, &load.trace) {
        Ok(file) => file,
        Err(error) => return RunOutcome::failed(RunCause::Opening(error)),
    };
    match &load.device {
        Some(folder) => match in_files(rt, rt.alloc(), &load.layout, folder) {
            Ok(devices) => run_over(rt, load, devices, out, err),
            Err(ended) => ended,
        },
        None => match lanes_in_memory(rt.alloc(), load.layout.lanes, load.layout.pages()) {
            Ok(devices) => run_over(rt, load, devices, out, err),
            Err(_) => RunOutcome::plain(RunEnd::OutOfMemory),
        },
    }
}

/// Runs a load over its devices, and answers how it ended.
fn run_over<
    D: PageDevice<PAGE> + Send,
    R: Threads + Wait + Sync + AllocGlobal + Files + Clock + RandomSource,
    O: Write,
    E: Write + IsTerminal,
>(rt: &R, load: &Load, devices: Vec<D>, out: &mut O, err: &mut E) -> RunOutcome
    requires { AreDevicesFor D.page_count load.now.layout devices.items }
    ensures shares { result.end ≢ RunEnd.SharesExceed }
    ensures wrote { WroteSummary load.now (O.contents out.old) (O.contents out.new) result.end }
    ensures accepted { ((d : D) → IsTrue (D.honest d)) → result.end ≢ RunEnd.Rejected }
{
    let seed = match RandomSeed::draw(rt) {
        Ok(seed) => seed,
        Err(error) => return RunOutcome::system(SystemFault::Random(error)),
    };
    let made = match run_cache(rt, rt.alloc(), load, devices, err) {
        Ok(made) => made,
        Err(fault) => return RunOutcome::unfinished(fault),
    };
    tell_step(err, load, "judging");
    let Ok(summary) = summary_of(rt.alloc(), seed, &made) else {
        return RunOutcome::plain(RunEnd::OutOfMemory);
    };
    tell_step(err, load, "writing the trace");
    if let Err(ended) = save(
        rt,
        &load.trace,
        &made.finished.history,
        &made.finished.certificate,
    ) {
        return ended;
    }
    write_summary(rt.alloc(), Form::of(load.json), &summary, out)
}

/// Runs the threads of a load over a new cache.
fn run_cache<D: PageDevice<PAGE> + Send, R: Threads + Wait + Sync + Clock, E: Write + IsTerminal>(
    rt: &R,
    alloc: Global,
    load: &Load,
    devices: Vec<D>,
    err: &mut E,
) -> Result<LoadResult<D>, FinishFault>
    requires { AreDevicesFor D.page_count load.now.layout devices.items }
    ensures accepted { IfOk result (λ made.
        All (λ d. IsTrue (D.honest d)) made.finished.devices.items
        → IsAccepted made.finished.history made.finished.certificate) }
    ensures whole { IfOk result (λ made.
        IsWhole load.now (length made.finished.history) made.stopped) }
{
    let Ok((cache, passes)) = open(alloc, load, devices) else {
        return Err(FinishFault::OutOfMemory);
    };
    match make_history(rt, alloc, load, cache, passes, err) {
        Ok(made) => Ok(made),
        Err(fault) => Err(fault),
    }
}

/// Opens the file of the trace, which is made if it is absent, and leaves in it what it holds.
fn open_trace<R: Files>(rt: &R, name: &FileName) -> io::Result<R::File> {
    OpenOptions::new()
        .write(true)
        .create(true)
        .open(rt, name.as_str())
}

/// What is reported of a history that was made.
fn summary_of<D>(
    alloc: Global,
    seed: RandomSeed,
    made: &LoadResult<D>,
) -> Result<Summary, AllocError>
    ensures is { IfOk result (λ summary. IsSummaryOf summary made.now.finished.history made.now.finished.certificate) }
    ensures stopped { IfOk result (λ summary. summary.stopped ≡ made.now.stopped) }
{
    let history = &made.finished.history;
    Ok(Summary {
        calls: history.len(),
        hits: hits_of(history),
        stopped: made.stopped,
        verdict: check_with_hasher(alloc, seed, history, &made.finished.certificate)?,
    })
}

/// Empties the file of the trace, and writes the trace to it through a buffer.
fn save<R: AllocGlobal + Files>(
    rt: &R,
    name: &FileName,
    history: &History,
    certificate: &Certificate,
) -> Result<(), RunOutcome>
    ensures { IfErr result (λ ended. (ended.end ≡ RunEnd.OutOfMemory) ⊎ (ended.end ≡ RunEnd.FileFault)) }
{
    let file = match fs::create(rt, name.as_str()) {
        Ok(file) => file,
        Err(error) => return Err(RunOutcome::failed(RunCause::Opening(error))),
    };
    let Ok(mut writer) = BufWriter::new(rt.alloc(), file) else {
        return Err(RunOutcome::plain(RunEnd::OutOfMemory));
    };
    if write_trace(history, certificate, &mut writer).is_err() {
        return Err(RunOutcome::failed(RunCause::Writing));
    }
    if writer.flush().is_err() {
        return Err(RunOutcome::failed(RunCause::Writing));
    }
    Ok(())
}

/// Writes what is reported of a run that was judged, and answers how the run ended.
fn write_summary<O: Write>(alloc: Global, form: Form, summary: &Summary, out: &mut O) -> RunOutcome
    ensures { IsSaid form summary.now (O.contents out.old) (O.contents out.new) result.end }
{
    let Ok(text) = summary.text(alloc, form) else {
        return RunOutcome::plain(RunEnd::OutOfMemory);
    };
    if out.write_all(text.as_bytes()).is_err() {
        return RunOutcome::system(SystemFault::Output);
    }
    if out.flush().is_err() {
        return RunOutcome::system(SystemFault::Output);
    }
    RunOutcome::judged(summary)
}

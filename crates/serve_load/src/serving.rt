// A load, from what it is asked for to its status.
ghost use Rattle.std.specs.Prelude.{◌≡◌, ◌≢◌, ◌↔◌, ◌⊎◌, ◌<◌, ◌+◌, IfErr, IfOk, length};
ghost use Rattle.service_cache.specs.Serving.{lanes_of};
ghost use Rattle.service_cache.specs.Sorted.{AreAsSaid, SortsBy};
ghost use Rattle.serve_load.specs.declared.caller_tally.CallerTally.{CallerTally};
ghost use Rattle.serve_load.specs.Calls.{IsTally};
ghost use Rattle.serve_load.specs.Reports.{IsMade};
ghost use Rattle.serve_load.specs.Ends.{IsFailure, status_of};
ghost use Rattle.serve_load.specs.Serving.{IsServed, IsServedOver, IsSaid, IsRefusedFirst, TellsHits, WroteReport};

use crate::cache_shape::CacheShape;
use crate::hit_rows::hit_lines;
use crate::made::{Reported, make};
use crate::serve_cause::ServeCause;
use crate::serve_end::ServeEnd;
use crate::serve_outcome::ServeOutcome;
use crate::tally::Tallying;
use deed_book::{BookName, KeyLanes, NamedBook, UnnamedBook};
use figures::Form;
use file_device::{FileDevice, LaneFileFault, lanes_in_files, lanes_in_memory, taken_places};
use key_hash::RandomSeed;
use load::{FileName, ServeLoad, SystemFault};
use page_device::PageDevice;
use rriparoo::Rriparoo;
use service_cache::{OpenServiceFault, ServiceCache, ServiceOptions};
use std::alloc::Global;
use std::fs::File;
use std::io::{IsTerminal, Write};
use std::marker::Brand;
use std::random::RandomSource;
use std::rt::Files;
use std::sync::Wait;
use std::thread::Threads;
use std::time::Clock;

/// The page size of a load, in bytes.
const PAGE: usize = 4096;

/// The cache of a load over such devices.
type LoadCache<D, L, J> = ServiceCache<D, Rriparoo, PAGE, L, J>;

/// Runs a load of a cache that serves, and answers the status that the program ends with.
///
/// Each lane has a device: in memory, or in a file of the load's folder, `lane-0.dev` and so on over all shards, which is made
/// if it is absent and stays when the load is over. A page of a file that can't be read or written is a page of the cache that
/// failed, and ends nothing.
///
/// Each caller has a thread, a generator and keys of its own, and knows what each of its keys has; a hit of anything else is
/// wrong, and ends it and the load. The workers do the upkeep beside them. Then the report is written to `out`. What went wrong
/// is reported to `err`, in a line, and if the system failed, in a second one, with its cause. Each wrong hit is told in a line more,
/// and in the report, with its key, its operation, and the bytes that were expected and found. If `err` is a terminal,
/// it also shows how many operations were made, at most twice a second while they are. No history is recorded, so
/// memory does not grow by the operations.
pub fn serve_load<
    R: Threads + Wait + Sync + AllocGlobal + Files<File = File> + Clock + RandomSource,
    O: Write,
    E: Write + IsTerminal,
>(rt: &R, load: &ServeLoad, out: &mut O, err: &mut E) -> u8
    ensures { IsServed load.now (O.contents out.old) (O.contents out.new) result }
{
    let _places = taken_places(rt);
    let ended = serve_to_end(rt, load, out, err);
    ended.tell(load, err);
    ended.end.status()
}

/// Runs a load over devices that the caller has, one for each lane of a shape, and answers the status that the program ends with.
/// Which of the load's numbers the shape has is the caller's affair; gets and removes may exceed 100 per cent, and count up to that.
pub fn serve_over<
    D: PageDevice<PAGE> + Send,
    R: Threads + Wait + Sync + AllocGlobal + Clock + RandomSource,
    O: Write,
    E: Write + IsTerminal,
>(rt: &R, load: &ServeLoad, shape: &CacheShape, devices: Vec<D>, out: &mut O, err: &mut E) -> u8
    ensures { IsServedOver load.now (O.contents out.old) (O.contents out.new) result }
{
    let ended = over(rt, load, shape, devices, out, err);
    ended.tell(load, err);
    ended.end.status()
}

/// Runs a load, and answers how it ended.
fn serve_to_end<
    R: Threads + Wait + Sync + AllocGlobal + Files<File = File> + Clock + RandomSource,
    O: Write,
    E: Write + IsTerminal,
>(rt: &R, load: &ServeLoad, out: &mut O, err: &mut E) -> ServeOutcome
    ensures first { IsRefusedFirst load.now result.end }
    ensures wrote { WroteReport load.now (O.contents out.old) (O.contents out.new) result.end }
{
    if load.gets + load.removes > 100 {
        return ServeOutcome::plain(ServeEnd::SharesExceed);
    }
    if load.size.is_none() && load.memory_bytes.is_some() {
        return ServeOutcome::plain(ServeEnd::NoSize);
    }
    let shape = match CacheShape::of(load) {
        Ok(shape) => shape,
        Err(fault) => return ServeOutcome::plain(ServeEnd::Size(fault)),
    };
    match &load.device {
        Some(folder) => match in_files(rt, rt.alloc(), &shape, folder) {
            Ok(devices) => over(rt, load, &shape, devices, out, err),
            Err(ended) => ended,
        },
        None => match lanes_in_memory(rt.alloc(), shape.lanes(), shape.pages()) {
            Ok(devices) => over(rt, load, &shape, devices, out, err),
            Err(_) => ServeOutcome::plain(ServeEnd::OutOfMemory),
        },
    }
}

/// A device in a file of this folder for each lane of a shape.
fn in_files<R: Files<File = File>>(
    rt: &R,
    alloc: Global,
    shape: &CacheShape,
    folder: &FileName,
) -> Result<Vec<FileDevice<PAGE>>, ServeOutcome>
    ensures { IfErr result (λ ended. IsFailure ended.end) }
{
    match lanes_in_files(rt, alloc, folder.as_str(), shape.lanes(), shape.pages()) {
        Ok(devices) => Ok(devices),
        Err(LaneFileFault::OutOfMemory) => Err(ServeOutcome::plain(ServeEnd::OutOfMemory)),
        Err(LaneFileFault::Unopened(path, fault)) => Err(ServeOutcome::system(SystemFault::Device(
            path, fault,
        ))),
    }
}

/// Runs a load over its devices, and answers how it ended.
fn over<
    D: PageDevice<PAGE> + Send,
    R: Threads + Wait + Sync + AllocGlobal + Clock + RandomSource,
    O: Write,
    E: Write + IsTerminal,
>(
    rt: &R,
    load: &ServeLoad,
    shape: &CacheShape,
    devices: Vec<D>,
    out: &mut O,
    err: &mut E,
) -> ServeOutcome
    ensures late { IsLate result.end }
    ensures wrote { WroteReport load.now (O.contents out.old) (O.contents out.new) result.end }
{
    let seed = match RandomSeed::draw(rt) {
        Ok(seed) => seed,
        Err(error) => return ServeOutcome::system(SystemFault::Random(error)),
    };
    match sorted::<Brand, D, R, E>(rt, load, shape, devices, seed, err) {
        Ok(made) => write_report(rt.alloc(), load, &made, out),
        Err(ended) => ended,
    }
}

/// Opens a book for the lanes of these devices, among which the seed sorts the keys, and runs a load over them.
fn sorted<
    L: KeyLanes + Send + Sync,
    D: PageDevice<PAGE> + Send,
    R: Threads + Wait + Sync + AllocGlobal + Clock,
    E: Write + IsTerminal,
>(
    rt: &R,
    load: &ServeLoad,
    shape: &CacheShape,
    devices: Vec<D>,
    seed: RandomSeed,
    err: &mut E,
) -> Result<Reported, ServeOutcome>
    requires sorted { SortsBy L.lanes L.lane_of seed (length devices.items) }
    requires honest { AreAsSaid L.is_honest D.honest devices.items }
    ensures made { IfOk result (λ made. IsMade load.now made.report made.hits.items) }
    ensures refused { IfErr result (λ ended. IsFailure ended.end) }
{
    let book = UnnamedBook::<L>::open(devices.len());
    match booked::<L, Brand, Brand, D, R, E>(rt, load, shape, devices, seed, book, err) {
        Ok(made) => Ok(made),
        Err(ended) => Err(ended),
    }
}

/// Runs a load over devices, with a book for their lanes, and a type that says what its callers may count.
fn booked<
    L: KeyLanes + Send + Sync,
    J: BookName + Send + Sync,
    M: Tallying + Send + Sync,
    D: PageDevice<PAGE> + Send,
    R: Threads + Wait + Sync + AllocGlobal + Clock,
    E: Write + IsTerminal,
>(
    rt: &R,
    load: &ServeLoad,
    shape: &CacheShape,
    devices: Vec<D>,
    seed: RandomSeed,
    book: UnnamedBook<L>,
    err: &mut E,
) -> Result<Reported, ServeOutcome>
    requires sorted { SortsBy L.lanes L.lane_of seed (length devices.items) }
    requires honest { AreAsSaid L.is_honest D.honest devices.items }
    requires book { book ≡ J.book }
    requires most { M.most ≡ load.now.operations }
    requires seconds { M.seconds ≡ load.now.seconds }
    requires tallies { (counted : CallerTally) → IsTally load.now counted → M.is_tally counted }
    requires only { (counted : CallerTally) → M.is_tally counted → IsTally load.now counted }
    ensures made { IfOk result (λ made. IsMade load.now made.report made.hits.items) }
    ensures refused { IfErr result (λ ended. IsFailure ended.end) }
{
    let cache = open(rt.alloc(), shape, devices, seed, book.with_name::<J>())?;
    match make::<D, Rriparoo, PAGE, L, J, M, R, E>(rt, rt.alloc(), load, &cache, err) {
        Ok(made) => Ok(made),
        Err(ended) => Err(ended),
    }
}

ghost use Rattle.serve_load.specs.Serving.{IsLate};

/// A cache of a shape over its devices.
fn open<D: PageDevice<PAGE>, L: KeyLanes, J: BookName>(
    alloc: Global,
    shape: &CacheShape,
    devices: Vec<D>,
    seed: RandomSeed,
    book: NamedBook<L, J>,
) -> Result<LoadCache<D, L, J>, ServeOutcome>
    requires first { book ≡ 0 }
    requires sorted { SortsBy L.lanes L.lane_of seed (length devices.items) }
    requires honest { AreAsSaid L.is_honest D.honest devices.items }
    ensures lanes { IfOk result (λ cache. 0 < lanes_of cache) }
    ensures refused { IfErr result (λ ended. IsFailure ended.end) }
{
    let options = ServiceOptions {
        shards: shape.shards,
        lease_slots: shape.lease_slots,
        bring_back: shape.bring_back,
    };
    match LoadCache::<D, L, J>::with_layout(
        alloc,
        &shape.layout,
        &options,
        devices,
        Rriparoo,
        seed,
        book,
    ) {
        Ok(cache) => Ok(cache),
        Err(OpenServiceFault::OutOfMemory) => Err(ServeOutcome::plain(ServeEnd::OutOfMemory)),
        Err(fault) => Err(ServeOutcome::failed(ServeCause::Cache(fault))),
    }
}

/// Writes a report in the form that a load wants, and answers how the load ended.
fn write_report<O: Write>(
    alloc: Global,
    load: &ServeLoad,
    made: &Reported,
    out: &mut O,
) -> ServeOutcome
    ensures said { IsSaid load.now made.now.report made.now.hits.items
        (O.contents out.old) (O.contents out.new) result.end }
    ensures told { TellsHits load.now made.now.hits.items result.end result.cause }
{
    let form = Form::of(load.json);
    let Ok(text) = made.report.text(alloc, form, load, &made.hits) else {
        return ServeOutcome::plain(ServeEnd::OutOfMemory);
    };
    let Ok(lines) = hit_lines(alloc, load, &made.hits) else {
        return ServeOutcome::plain(ServeEnd::OutOfMemory);
    };
    if out.write_all(text.as_bytes()).is_err() {
        return ServeOutcome::system(SystemFault::Output);
    }
    if out.flush().is_err() {
        return ServeOutcome::system(SystemFault::Output);
    }
    match ServeEnd::of_wrong_hits(made.report.wrong_hits) {
        ServeEnd::WrongHit => ServeOutcome::wrong(lines),
        end => ServeOutcome::plain(end),
    }
}

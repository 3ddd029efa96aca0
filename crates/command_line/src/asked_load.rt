// What was found for the arguments of a subcommand that loads a cache.
ghost use Rattle.std.specs.Prelude.{◌≡◌, ◌≤◌, IfOk, IfErr, IfSome, OnErr, IsSome, false, is_some, Some, None, codes, option_map, map};
ghost use Rattle.clap.specs.Words.{first_of, found_of, rows_of};
ghost use Rattle.command_line.specs.CommandLine.{bytes_found, determines_given, has_numbers, has_sizes, load_wanted, number_found, served_wanted, shape_given, wanted_of, IsUsage};

use crate::asked_file::{file_found, given, is_on};
use crate::line::Line;
use crate::line_fault::LineFault;
use crate::telling::{Loading, no_bytes, no_number, not_with_size, usage};
use clap::ArgMatches;
use load::{
    SERVE_SETTINGS, SETTINGS, SHAPE_SETTINGS, Setting, SizeSetting, load_with, served_with,
};
use std::alloc::Global;
use trace_file::FileName;

/// The number of a setting, its default if nothing was found for it; none if what was found is no number in its range.
fn number_of<'a>(found: &ArgMatches<'a>, setting: Setting) -> Option<u32>
    ensures { result ≡ number_found (rows_of (found_of found.now)) setting }
{
    match found.get_str(setting.name()) {
        Some(text) => setting.number(text),
        None => setting.number(setting.default_word()),
    }
}

/// The number of each of these settings, or the first of them that has none.
fn numbers_of<'a, const N: usize>(
    found: &ArgMatches<'a>,
    settings: &[Setting; N],
) -> Result<[u32; N], Setting>
    requires { N ≤ 64 }
    ensures numbers { IfOk result (λ numbers.
        map (number_found (rows_of (found_of found.now))) settings.now ≡ map Some numbers) }
    ensures none { IfErr result (λ setting.
        number_found (rows_of (found_of found.now)) setting ≡ None) }
    ensures lacks { OnErr result (has_numbers settings.now (rows_of (found_of found.now)) ≡ false) }
{
    let mut numbers = [0; N];
    for place in 0..N {
        match number_of(found, settings[place]) {
            Some(number) => numbers[place] = number,
            None => return Err(settings[place]),
        }
    }
    Ok(numbers)
}

/// The bytes of a size, if they are given; an error if what was found for it is no number in its range.
fn bytes_of<'a>(found: &ArgMatches<'a>, size: SizeSetting) -> Result<Option<u64>, SizeSetting>
    ensures given { IfOk result (λ bytes. bytes_found (rows_of (found_of found.now)) size ≡ Some bytes) }
    ensures none { OnErr result (bytes_found (rows_of (found_of found.now)) size ≡ None) }
{
    match found.get_str(size.name()) {
        Some(text) => match size.bytes(text) {
            Some(bytes) => Ok(Some(bytes)),
            None => Err(size),
        },
        None => Ok(None),
    }
}

/// What `run` asks for.
pub fn run_line<'a>(alloc: Global, found: &ArgMatches<'a>) -> Result<Line, LineFault>
    ensures named { IfOk result (λ line. load_wanted (rows_of (found_of found.now)) ≡ Some (wanted_of line)) }
    ensures refused { IfErr result (λ fault. IsUsage fault) }
    ensures taken { IsSome (load_wanted (rows_of (found_of found.now)))
        → IfErr result (λ fault. fault ≡ LineFault.OutOfMemory) }
{
    let Some(trace) = found.get_str("trace") else {
        return Err(usage(
            alloc,
            "error: the file of the trace is missing: name it with --trace FILE\n\nFor more information, try 'kangaroo run --help'.\n",
        ));
    };
    match numbers_of(found, &SETTINGS) {
        Ok(numbers) => {
            let folder = file_found(alloc, found, "device")?;
            let file = FileName::new(alloc, trace)?;
            let json = is_on(found, "json");
            Ok(Line::Run(load_with(&numbers, json, folder, file)))
        }
        Err(setting) => Err(no_number(alloc, Loading::Run, setting, given(found, setting.name()))),
    }
}

/// The sizes that were found.
#[derive(Clone, Copy)]
struct AskedSizes {
    size: Option<u64>,
    memory_bytes: Option<u64>,
}

/// The sizes that were found, or the first of them that has no number in its range.
fn sizes_of<'a>(found: &ArgMatches<'a>) -> Result<AskedSizes, SizeSetting>
    ensures size { IfOk result (λ sizes.
        bytes_found (rows_of (found_of found.now)) SizeSetting.Size ≡ Some sizes.size) }
    ensures memory { IfOk result (λ sizes.
        bytes_found (rows_of (found_of found.now)) SizeSetting.MemoryBytes ≡ Some sizes.memory_bytes) }
    ensures lacks { OnErr result (has_sizes (rows_of (found_of found.now)) ≡ false) }
{
    let size = bytes_of(found, SizeSetting::Size)?;
    let memory_bytes = bytes_of(found, SizeSetting::MemoryBytes)?;
    Ok(AskedSizes { size, memory_bytes })
}

/// The first setting that is given of those that a size determines; none if none is.
fn shape_given<'a>(found: &ArgMatches<'a>) -> Option<Setting>
    ensures { result ≡ shape_given (rows_of (found_of found.now)) }
{
    for setting in &SHAPE_SETTINGS {
        if found.get_str(setting.name()).is_some() {
            return Some(*setting);
        }
    }
    None
}

/// The first setting that is given though a size determines it; none if no size is given, or no such setting.
fn determined<'a>(found: &ArgMatches<'a>, sizes: &AskedSizes) -> Option<Setting>
    requires { bytes_found (rows_of (found_of found.now)) SizeSetting.Size ≡ Some sizes.now.size }
    ensures first { IfSome result (λ setting.
        shape_given (rows_of (found_of found.now)) ≡ Some setting) }
    ensures given { is_some result ≡ determines_given (rows_of (found_of found.now)) }
{
    match sizes.size {
        Some(_) => shape_given(found),
        None => None,
    }
}

/// What `serve-load` asks for. First each number is tested, then each size, and then whether a setting is given that a given size
/// determines.
pub fn serve_line<'a>(alloc: Global, found: &ArgMatches<'a>) -> Result<Line, LineFault>
    ensures named { IfOk result (λ line. served_wanted (rows_of (found_of found.now)) ≡ Some (wanted_of line)) }
    ensures refused { IfErr result (λ fault. IsUsage fault) }
    ensures taken { IsSome (served_wanted (rows_of (found_of found.now)))
        → IfErr result (λ fault. fault ≡ LineFault.OutOfMemory) }
{
    let numbers = match numbers_of(found, &SERVE_SETTINGS) {
        Ok(numbers) => numbers,
        Err(setting) => {
            let given = given(found, setting.name());
            return Err(no_number(alloc, Loading::Serve, setting, given));
        }
    };
    let sizes = match sizes_of(found) {
        Ok(sizes) => sizes,
        Err(size) => return Err(no_bytes(alloc, size, given(found, size.name()))),
    };
    match determined(found, &sizes) {
        None => {
            let folder = file_found(alloc, found, "device")?;
            let zipf = is_on(found, "zipf");
            let json = is_on(found, "json");
            Ok(Line::Serve(served_with(
                &numbers,
                sizes.size,
                sizes.memory_bytes,
                zipf,
                json,
                folder,
            )))
        }
        Some(setting) => Err(not_with_size(alloc, setting)),
    }
}

// The load with a number for each setting.
ghost use Rattle.std.specs.Prelude.{◌≡◌, ◌≤◌, length};
ghost use Rattle.load.specs.Settings.{AreAdmitted, served_settings, settings};
ghost use Rattle.load.specs.Asked.{IsLayoutOf, numbers_of, served_numbers_of};

use crate::load::Load;
use crate::serve_load::ServeLoad;
use record_pages::{Config, Layout};
use trace_file::FileName;

/// The cache with the first eight of these numbers, in the order of the settings.
fn layout_with(numbers: &[u32]) -> Layout
    requires enough { 8 ≤ length numbers.now }
    requires admitted { AreAdmitted layout_settings numbers.now }
    ensures { IsLayoutOf result numbers.now }
{
    let config = Config {
        lanes: numbers[0],
        sets: numbers[1],
        memory: numbers[2],
        segments: numbers[3],
        segment_pages: numbers[4],
        entries: numbers[5],
        threshold: numbers[6],
        admit: numbers[7],
    };
    config.check().unwrap()
}

ghost use Rattle.load.specs.Settings.{layout_settings};

/// The load with these numbers, one for each of `SETTINGS` in their order, whose devices are files of this
/// folder, or in memory if there is none, and which writes its trace to this file.
pub fn load_with(numbers: &[u32; 17], json: bool, device: Option<FileName>, trace: FileName) -> Load
    requires { AreAdmitted settings numbers.now }
    ensures numbers { numbers_of result ≡ numbers.now }
    ensures json { result.json ≡ json }
    ensures device { result.device ≡ device }
    ensures trace { result.trace ≡ trace }
{
    Load {
        layout: layout_with(numbers),
        callers: numbers[8],
        operations: numbers[9],
        keys: numbers[10],
        value_bytes: numbers[11],
        gets: numbers[12],
        removes: numbers[13],
        workers: numbers[14],
        seed: numbers[15],
        ttl: numbers[16],
        json,
        device,
        trace,
    }
}

/// The load of a cache that serves with these numbers, one for each of `SERVE_SETTINGS` in their order, made for so many bytes
/// of flash and of memory if they are given, whose keys are drawn by Zipf's law or alike, and whose devices are files of this folder,
/// or in memory if there is none.
pub fn served_with(
    numbers: &[u32; 21],
    size: Option<u64>,
    memory_bytes: Option<u64>,
    zipf: bool,
    json: bool,
    device: Option<FileName>,
) -> ServeLoad
    requires { AreAdmitted served_settings numbers.now }
    ensures numbers { served_numbers_of result ≡ numbers.now }
    ensures size { result.size ≡ size }
    ensures memory { result.memory_bytes ≡ memory_bytes }
    ensures zipf { result.zipf ≡ zipf }
    ensures json { result.json ≡ json }
    ensures device { result.device ≡ device }
{
    ServeLoad {
        layout: layout_with(numbers),
        callers: numbers[8],
        operations: numbers[9],
        keys: numbers[10],
        value_bytes: numbers[11],
        gets: numbers[12],
        removes: numbers[13],
        workers: numbers[14],
        seed: numbers[15],
        ttl: numbers[16],
        shards: numbers[17],
        leases: numbers[18],
        bring_back: numbers[19],
        seconds: numbers[20],
        size,
        memory_bytes,
        zipf,
        json,
        device,
    }
}

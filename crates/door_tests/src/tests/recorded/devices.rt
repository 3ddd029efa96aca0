//! Runs over files: what they leave, and what they refuse.
use crate::tests::loads::load;
use file_device::FileDevice;
use std::test::Fail;

/// Two small lanes: 17 pages each, so 69,632 bytes. The second run is over the files that the first one left.
static FRESH: &[u8] = b"
folder fresh.devices
k run --device fresh.devices --lanes 2 --sets 9 --memory 2 --segments 4 --segment-pages 2 --keys 100 --operations 1000 --trace fresh.trace
status 0; err is
out begins calls 4000|; out ends |stopped 0|accepted 4000 calls|
judge fresh.trace accepted 4000 calls|; length fresh.devices/lane-0.dev 69632; length fresh.devices/lane-1.dev 69632
k run --device fresh.devices --lanes 2 --sets 9 --memory 2 --segments 4 --segment-pages 2 --keys 100 --operations 1000 --trace fresh.trace
status 0; err is
out begins calls 4000|; out ends |stopped 0|accepted 4000 calls|
judge fresh.trace accepted 4000 calls|; length fresh.devices/lane-0.dev 69632; length fresh.devices/lane-1.dev 69632
clear fresh.devices; remove fresh.trace
";

/// The second lane's file is a folder, and an older trace is kept.
static FOLDER: &[u8] = b"
folder folder.devices; folder folder.devices/lane-1.dev; older folder.trace
k run --device folder.devices --operations 100 --trace folder.trace
status 3; out is
err is file fault|folder.devices/lane-1.dev: it is no regular file|name a folder with --device that exists and that no other load uses|
read folder.trace an older trace; clear folder.devices; remove folder.trace
";

/// The first lane's file is in use.
static USED: &[u8] = b"
k run --device used.devices --operations 100 --trace used.trace
status 3; out is
err is file fault|used.devices/lane-0.dev: the file is in use|name a folder with --device that exists and that no other load uses|
length used.devices/lane-0.dev 12288
";

static ABSENT: &[u8] = b"
k run --device no~such~folder --operations 100 --trace nowhere.trace
status 3; out is
err is file fault|no such folder/lane-0.dev: the file can't be opened: No such file or directory (os error 2)|name a folder with --device that exists and that no other load uses|
remove nowhere.trace
# The shares exceed 100, and there is no folder for the trace or for the lanes.
k run --gets 96 --device no~such~folder --trace no~such~folder/t.trace
status 2; out is
err is gets and removes exceed 100|--gets 96 and --removes 5 are 101 per cent: give shares of at most 100 per cent together|
# There is no folder for the trace, and none for the lanes.
k run --device no~such~folder --trace no~such~folder/t.trace
status 3; out is
err is file fault|no such folder/t.trace: No such file or directory (os error 2)|name a file with --trace that can be written|
";

#[test]
fn a_run_over_files_is_accepted_and_leaves_them(rt: HostRuntime) -> Result<(), Fail> {
    load(&rt, FRESH)
}

#[test]
fn a_folder_in_place_of_a_file_costs_no_trace(rt: HostRuntime) -> Result<(), Fail> {
    load(&rt, FOLDER)
}

#[test]
fn a_file_in_use_is_refused_and_keeps_its_length(rt: HostRuntime) -> Result<(), Fail> {
    load(&rt, b"folder used.devices")?;
    let Ok(first) = FileDevice::<4096>::open(&rt, "used.devices/lane-0.dev", 3) else {
        return Err("a device".into());
    };
    let ended = load(&rt, USED);
    drop(first);
    ended?;
    load(&rt, b"clear used.devices; remove used.trace")
}

#[test]
fn of_several_faults_the_first_is_told(rt: HostRuntime) -> Result<(), Fail> {
    load(&rt, ABSENT)
}

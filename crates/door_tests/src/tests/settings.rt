//! The settings of a load, as the steps of a text tell them: those that are not what they are if none is given.
use super::asked::tell_if;
use load::{Load, SERVE_SETTINGS, SETTINGS, ServeLoad, Setting};
use record_pages::Layout;
use test_devices::TextStep;
use trace_file::FileName;

/// The default of each setting of a run, in their order.
static RUN_DEFAULTS: [u32; 17] = [
    4, 64, 64, 8, 4, 4096, 2, 65536, 4, 10000, 1000, 100, 70, 5, 2, 1, 0,
];

/// The default of each setting of a load of a cache that serves, in their order.
static SERVE_DEFAULTS: [u32; 21] = [
    4, 64, 64, 8, 4, 4096, 2, 65536, 4, 1000000, 1000, 100, 70, 5, 2, 1, 0, 1, 0, 0, 0,
];

/// Tells what the load of a run is.
pub fn tell_run(load: &Load, step: &mut TextStep<'_>) {
    step.tell(b"run");
    for place in 0..17usize {
        tell_setting(
            SETTINGS[place],
            run_number(load, SETTINGS[place]),
            RUN_DEFAULTS[place],
            step,
        );
    }
    tell_if(load.json, b"json", step);
    tell_folder(&load.device, step);
}

/// Tells what the load of a cache that serves is.
pub fn tell_serve(load: &ServeLoad, step: &mut TextStep<'_>) {
    step.tell(b"serve");
    for place in 0..21usize {
        tell_setting(
            SERVE_SETTINGS[place],
            serve_number(load, SERVE_SETTINGS[place]),
            SERVE_DEFAULTS[place],
            step,
        );
    }
    tell_if(load.zipf, b"zipf", step);
    tell_if(load.json, b"json", step);
    tell_size(b"size", load.size, step);
    tell_size(b"memory-bytes", load.memory_bytes, step);
    tell_folder(&load.device, step);
}

/// Tells a setting that is not what it is if none is given.
fn tell_setting(setting: Setting, number: u32, default: u32, step: &mut TextStep<'_>) {
    if number != default {
        step.tell(setting.name().as_bytes());
        step.tell_number(u64::from(number));
    }
}

fn tell_size(name: &[u8], size: Option<u64>, step: &mut TextStep<'_>) {
    if let Some(size) = size {
        step.tell(name);
        step.tell_number(size);
    }
}

fn tell_folder(folder: &Option<FileName>, step: &mut TextStep<'_>) {
    if let Some(folder) = folder {
        step.tell_pair(b"device", folder.as_str().as_bytes());
    }
}

/// The number that a load of a run has for a setting.
fn run_number(load: &Load, setting: Setting) -> u32 {
    match setting {
        Setting::Callers => load.callers,
        Setting::Operations => load.operations,
        Setting::Keys => load.keys,
        Setting::ValueBytes => load.value_bytes,
        Setting::Gets => load.gets,
        Setting::Removes => load.removes,
        Setting::Workers => load.workers,
        Setting::Seed => load.seed,
        Setting::Ttl => load.ttl,
        other => layout_number(&load.layout, other),
    }
}

/// The number that a load of a cache that serves has for a setting.
fn serve_number(load: &ServeLoad, setting: Setting) -> u32 {
    match setting {
        Setting::Callers => load.callers,
        Setting::ServedOperations => load.operations,
        Setting::ServedKeys => load.keys,
        Setting::ServedValueBytes => load.value_bytes,
        Setting::Gets => load.gets,
        Setting::Removes => load.removes,
        Setting::Workers => load.workers,
        Setting::Seed => load.seed,
        Setting::ServedTtl => load.ttl,
        Setting::Shards => load.shards,
        Setting::Leases => load.leases,
        Setting::BringBack => load.bring_back,
        Setting::Seconds => load.seconds,
        other => layout_number(&load.layout, other),
    }
}

/// The number that a layout has for a setting.
fn layout_number(layout: &Layout, setting: Setting) -> u32 {
    match setting {
        Setting::Lanes => layout.lanes,
        Setting::Sets => layout.sets,
        Setting::Memory => layout.memory,
        Setting::Segments => layout.segments,
        Setting::SegmentPages => layout.segment_pages,
        Setting::Entries => layout.entries,
        Setting::Threshold => layout.threshold,
        Setting::Admit => layout.admit,
        // Those of a load of the other kind.
        _ => 0,
    }
}

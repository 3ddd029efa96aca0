//! The numbers that a load tells.
use test_devices::TextStep;

// The number of a report's line with this name.
fn number_of(out: &[u8], name: &[u8]) -> Option<u64> {
    for line in str::from_utf8(out).unwrap_or("").lines() {
        if let Some((word, number)) = line.split_once(' ') {
            if word.as_bytes() == name {
                return number.parse::<u64>().ok();
            }
        }
    }
    None
}

/// Tells whether copies answered, if of so many hits on flash that were read there one had its object brought back.
pub fn tell_brought(out: &[u8], step: &mut TextStep<'_>) {
    match has_copies(out, step.number()) {
        Some(true) => step.tell(b"copies"),
        Some(false) => step.tell(b"no-copies"),
        None => step.refuse(),
    }
}

// Whether copies answered, if so many objects were brought back as had to be.
fn has_copies(out: &[u8], every: u64) -> Option<bool> {
    let set = number_of(out, b"hits-set")?;
    let copies = number_of(out, b"copy-hits")?;
    let read = number_of(out, b"hits-log")?
        .wrapping_add(set)
        .wrapping_sub(copies);
    if set < copies || number_of(out, b"brought-back")? != read.checked_div(every).unwrap_or(0) {
        return None;
    }
    Some(copies > 0)
}

/// Whether steps of upkeep were done that no put did.
pub fn are_tended(out: &[u8]) -> bool {
    match (
        number_of(out, b"upkeep-steps"),
        number_of(out, b"upkeep-in-help"),
    ) {
        (Some(steps), Some(in_help)) => in_help < steps,
        _ => false,
    }
}

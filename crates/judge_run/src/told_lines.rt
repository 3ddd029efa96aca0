// The lines of a text that a verdict names.
ghost use Rattle.std.specs.Prelude.{◌≡◌, ◌++◌, [], ◌∷◌, OnOk, IfOk, fold, string_bytes, take};
ghost use Rattle.std.specs.List.{flat_map};
ghost use Rattle.judge_run.specs.Telling.{put_in, ascending, crossed_positions, excluded_positions, lines_at, side_positions, spaced, witness_positions};

use certificate_finder::{CrossedWrites, Excluded, Excuse, Side, Witness};
use std::alloc::{AllocError, Global};

/// The most puts of a hit that are named.
pub(crate) const MOST_PUTS: usize = 8;

/// Appends a position.
fn add(positions: &mut Vec<u32>, position: u32) -> Result<(), AllocError>
    ensures { OnOk result (positions.new.items ≡ positions.old.items ++ position ∷ []) }
{
    match positions.push(position) {
        Ok(()) => Ok(()),
        Err(_) => Err(AllocError),
    }
}

/// Appends the positions of a put that was not read, and of what replaced it.
fn add_excluded(positions: &mut Vec<u32>, excluded: &Excluded) -> Result<(), AllocError>
    ensures { OnOk result (positions.new.items
        ≡ positions.old.items ++ excluded_positions excluded.now) }
{
    add(positions, excluded.put)?;
    match excluded.why {
        Excuse::Replaced(write) => add(positions, write),
        Excuse::Later | Excuse::Expired => Ok(()),
    }
}

/// Appends the positions of the first few puts that were not read.
fn add_puts(positions: &mut Vec<u32>, puts: &[Excluded]) -> Result<(), AllocError>
    ensures { OnOk result (positions.new.items
        ≡ positions.old.items ++ flat_map excluded_positions (take 8 puts.now)) }
{
    let few = &puts[..puts.len().min(MOST_PUTS)];
    for excluded in few {
        match add_excluded(positions, excluded) {
            Ok(()) => {}
            Err(refused) => return Err(refused),
        }
    }
    Ok(())
}

/// Appends the positions of a side.
fn add_side(positions: &mut Vec<u32>, side: &Side) -> Result<(), AllocError>
    ensures { OnOk result (positions.new.items
        ≡ positions.old.items ++ side_positions side.now) }
{
    add(positions, side.write)?;
    add(positions, side.early)?;
    add(positions, side.late)
}

/// Appends the positions of the first few puts that a hit would cross with another write, with the calls that show it.
fn add_reads(positions: &mut Vec<u32>, reads: &[CrossedWrites]) -> Result<(), AllocError>
    ensures { OnOk result (positions.new.items
        ≡ positions.old.items ++ flat_map crossed_positions (take 8 reads.now)) }
{
    let few = &reads[..reads.len().min(MOST_PUTS)];
    for writes in few {
        match add_crossed(positions, writes) {
            Ok(()) => {}
            Err(refused) => return Err(refused),
        }
    }
    Ok(())
}

/// Appends the positions of two writes that would be crossed, with the calls that show it.
fn add_crossed(positions: &mut Vec<u32>, writes: &CrossedWrites) -> Result<(), AllocError>
    ensures { OnOk result (positions.new.items
        ≡ positions.old.items ++ crossed_positions writes.now) }
{
    add_side(positions, &writes.one)?;
    add_side(positions, &writes.other)
}

/// The calls that a reason speaks of.
pub(crate) fn positions_of(alloc: Global, witness: &Witness) -> Result<Vec<u32>, AllocError>
    ensures { IfOk result (λ positions. positions.items ≡ witness_positions witness.now) }
{
    let mut positions = Vec::new(alloc);
    match witness {
        Witness::Interval(call) => add(&mut positions, *call)?,
        Witness::Hit(hit, puts) => {
            add(&mut positions, *hit)?;
            add_puts(&mut positions, puts)?;
        }
        Witness::Crossed(one, other) => {
            add_side(&mut positions, one)?;
            add_side(&mut positions, other)?;
        }
        Witness::Unread(unread) => {
            add(&mut positions, unread.hit)?;
            add_reads(&mut positions, unread.reads.as_slice())?;
        }
    }
    Ok(positions)
}

/// Puts a line at its place among ascending ones, unless it stands there.
fn put_in(lines: &mut Vec<u64>, line: u64) -> Result<(), AllocError>
    ensures { OnOk result (lines.new.items ≡ put_in lines.old.items line) }
{
    for place in 0..lines.len() {
        if lines[place] == line {
            return Ok(());
        }
        if line < lines[place] {
            return match lines.insert(place, line) {
                Ok(()) => Ok(()),
                Err(_) => Err(AllocError),
            };
        }
    }
    match lines.push(line) {
        Ok(()) => Ok(()),
        Err(_) => Err(AllocError),
    }
}

/// Puts the line of the call at a position at its place among others, if there is one.
fn put_line(lines: &mut Vec<u64>, all: &[u64], position: u32) -> Result<(), AllocError>
    ensures { OnOk result (lines.new.items
        ≡ fold put_in lines.old.items (lines_at all.now (position ∷ []))) }
{
    let place = position as usize;
    if place < all.len() {
        put_in(lines, all[place])
    } else {
        Ok(())
    }
}

/// The lines of the calls that a reason speaks of, ascending and each once.
pub(crate) fn lines_of(
    alloc: Global,
    lines: &[u64],
    witness: &Witness,
) -> Result<Vec<u64>, AllocError>
    ensures { IfOk result (λ told.
        told.items ≡ ascending (lines_at lines.now (witness_positions witness.now))) }
{
    let positions = positions_of(alloc, witness)?;
    match ascending_lines(alloc, lines, &positions) {
        Ok(told) => Ok(told),
        Err(refused) => Err(refused),
    }
}

/// The lines of the calls at these positions, ascending and each once.
pub(crate) fn ascending_lines(
    alloc: Global,
    lines: &[u64],
    positions: &[u32],
) -> Result<Vec<u64>, AllocError>
    ensures { IfOk result (λ told. told.items ≡ ascending (lines_at lines.now positions.now)) }
{
    let mut told = Vec::new(alloc);
    for position in positions {
        match put_line(&mut told, lines, *position) {
            Ok(()) => {}
            Err(refused) => return Err(refused),
        }
    }
    Ok(told)
}

/// The calls that a reason speaks of, in the order of the history and each once.
pub(crate) fn told_positions(alloc: Global, witness: &Witness) -> Result<Vec<u64>, AllocError>
    ensures { IfOk result (λ told. told.items ≡ ascending (witness_positions witness.now)) }
{
    let positions = positions_of(alloc, witness)?;
    let mut told = Vec::new(alloc);
    for position in &positions {
        match put_in(&mut told, u64::from(*position)) {
            Ok(()) => {}
            Err(refused) => return Err(refused),
        }
    }
    Ok(told)
}

/// Numbers, each after a space.
pub(crate) fn spaced(alloc: Global, numbers: &[u64]) -> Result<String, AllocError>
    ensures { IfOk result (λ text. string_bytes text ≡ spaced numbers.now) }
{
    let mut text = String::new(alloc);
    for number in numbers {
        let word = format!(in alloc; " {number}")?;
        text.push_str(word.as_str())?;
    }
    Ok(text)
}

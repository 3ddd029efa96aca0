// The rows that tell which hits were wrong.
ghost use Rattle.std.specs.Prelude.{◌≡◌, IfOk, OnOk, Option, option_map, string_bytes};
ghost use Rattle.figures.specs.Figures.{with_row, with_rows};
ghost use Rattle.serve_load.specs.Reports.{hit_lines};
ghost use Rattle.serve_load.specs.WrongHits.{expected_of, expected_text, hit_row, hit_rows, hit_text};

use crate::objects::{expires_of, key_bytes, moment_of};
use crate::room::Room;
use crate::told_hit::ToldHit;
use figures::{Figure, Form};
use load::ServeLoad;
use record_pages::Value;
use std::alloc::{AllocError, Global};

/// A line for each wrong hit of a load.
pub(crate) fn hit_lines(
    alloc: Global,
    load: &ServeLoad,
    hits: &[ToldHit],
) -> Result<String, AllocError>
    ensures { IfOk result (λ lines. string_bytes lines ≡ hit_lines load.now hits.now) }
{
    let mut lines = String::new(alloc);
    tell_hits(alloc, Form::Lines, &mut lines, load, hits)?;
    Ok(lines)
}

/// Tells wrong hits of a load.
pub(crate) fn tell_hits(
    alloc: Global,
    form: Form,
    text: &mut String,
    load: &ServeLoad,
    hits: &[ToldHit],
) -> Result<(), AllocError>
    ensures { OnOk result (string_bytes text.new
        ≡ with_rows form (string_bytes text.old) (hit_rows load.now hits.now)) }
{
    for hit in hits {
        tell_hit(alloc, form, text, load, hit)?;
    }
    Ok(())
}

/// Tells a wrong hit of a load.
fn tell_hit(
    alloc: Global,
    form: Form,
    text: &mut String,
    load: &ServeLoad,
    hit: &ToldHit,
) -> Result<(), AllocError>
    ensures { OnOk result (string_bytes text.new
        ≡ with_row form (string_bytes text.old) (hit_row load.now hit.now)) }
{
    let name = format!(in alloc; "wrong-hit-of-caller-{}", hit.caller)?;
    let told = hit_text(alloc, load, hit)?;
    form.tell(alloc, text, name.as_str(), Figure::Word(told.as_str()))
}

/// What is told of a wrong hit of a load: the key, the number of the operation, and the bytes that were expected and found.
fn hit_text(alloc: Global, load: &ServeLoad, hit: &ToldHit) -> Result<String, AllocError>
    ensures { IfOk result (λ text. string_bytes text ≡ hit_text load.now hit.now) }
{
    let key = hex::encode(alloc, key_bytes(hit.caller, hit.known.key))?;
    let expected = expected_text(alloc, load, hit)?;
    let found = hex::encode(alloc, hit.found.bytes())?;
    format!(in alloc;
        "key {key} operation {} expected {expected} found {found}",
        hit.operation
    )
}

/// The bytes that were expected, as text.
fn expected_text(alloc: Global, load: &ServeLoad, hit: &ToldHit) -> Result<String, AllocError>
    ensures { IfOk result (λ text. string_bytes text ≡ expected_text (expected_of load.now hit.now)) }
{
    match expected_of(alloc, load, hit)? {
        Some(value) => hex::encode(alloc, value.bytes()),
        None => String::from_str(alloc, "none"),
    }
}

/// The value that the caller would have had to hit; none if the key has no value, or if its value is expired.
fn expected_of(alloc: Global, load: &ServeLoad, hit: &ToldHit) -> Result<Option<Value>, AllocError>
    ensures { IfOk result (λ value. value ≡ expected_of load.now hit.now) }
{
    if hit.known.word == 0 {
        return Ok(None);
    }
    let number = hit.known.word - 1;
    if moment_of(load, hit.operation) >= expires_of(load, number) {
        return Ok(None);
    }
    let value = Room::empty(alloc).value(alloc, load, hit.known.key, number)?;
    Ok(Some(value))
}

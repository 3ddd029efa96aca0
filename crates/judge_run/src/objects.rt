// Lists of objects in a JSON object.
ghost use Rattle.std.specs.Prelude.{◌≡◌, ◌++◌, OnOk, map, string_bytes};
ghost use Rattle.judge_run.specs.Objects.{after_commas, objects_of, with_objects};

use std::alloc::AllocError;

/// Appends objects, each after a comma.
fn push_rest(text: &mut String, objects: &[String]) -> Result<(), AllocError>
    ensures { OnOk result (string_bytes text.new
        ≡ string_bytes text.old ++ after_commas (map string_bytes objects.now)) }
{
    for object in objects {
        text.push_str(",")?;
        text.push_str(object.as_str())?;
    }
    Ok(())
}

/// Appends objects, with a comma between them.
fn push_objects(text: &mut String, objects: &[String]) -> Result<(), AllocError>
    ensures { OnOk result (string_bytes text.new
        ≡ string_bytes text.old ++ objects_of (map string_bytes objects.now)) }
{
    let Some((first, rest)) = objects.split_first() else {
        return Ok(());
    };
    text.push_str(first.as_str())?;
    push_rest(text, rest)
}

/// Appends a member of this name, which lists objects, to an object that was begun.
pub(crate) fn tell_objects(
    text: &mut String,
    name: &str,
    objects: &[String],
) -> Result<(), AllocError>
    ensures { OnOk result (string_bytes text.new
        ≡ with_objects (string_bytes text.old) name.now (map string_bytes objects.now)) }
{
    let mark = if text.is_empty() { "{\"" } else { ",\"" };
    text.push_str(mark)?;
    text.push_str(name)?;
    text.push_str("\":[")?;
    push_objects(text, objects)?;
    text.push_str("]")
}

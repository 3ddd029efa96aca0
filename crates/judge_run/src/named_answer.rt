// The object of an answer, with the name of its file.
ghost use Rattle.std.specs.Prelude.{◌≡◌, ◌++◌, IfOk, drop, string_bytes};
ghost use Rattle.judge_run.specs.Answers.{named_object};

use figures::{Figure, Form};
use std::alloc::{AllocError, Global};

/// The object of an answer, with a member more before its others: the name of the file that it is about.
pub(crate) fn named_object(alloc: Global, file: &str, object: &[u8]) -> Result<Vec<u8>, AllocError>
    ensures { IfOk result (λ named. named.items ≡ named_object file.now object.now) }
{
    let mut head = String::new(alloc);
    Form::Json.tell(alloc, &mut head, "file", Figure::Word(file))?;
    head.push_str(",")?;
    let mut named = Vec::new(alloc);
    named.extend_from_slice(head.as_bytes())?;
    named.extend_from_slice(without_first(object))?;
    Ok(named)
}

/// All bytes but the first one.
fn without_first(bytes: &[u8]) -> &[u8]
    ensures { result.now ≡ drop 1 bytes.now }
{
    match bytes.split_first() {
        Some((_, rest)) => rest,
        None => bytes,
    }
}

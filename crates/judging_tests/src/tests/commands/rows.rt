// What callers rely on, of any input: the contract of each function here denies what a wrong body would do.
ghost use Rattle.std.specs.Prelude.{◌≡◌, ◌++◌, Err, IfOk};
ghost use Rattle.judge_run.specs.declared.acceptance.Acceptance.{Acceptance};
ghost use Rattle.judge_run.specs.declared.rejection.Rejection.{Rejection};
ghost use Rattle.judging_tests.specs.Objects.{IsFaultTold, IsReasonTold, accepted_object};

use figures::Form;
use judge_run::{Detail, Outcome, Question, Scope, TellFault, answer_check, answer_judge};
use std::alloc::Global;
use std::hash::BuildHasher;
use std::io::Read;

/// The object of a text that is accepted has the number of its own calls, of those of each kind, and nothing but that and the verdict.
pub fn an_accepted_text_has_its_own_calls<S: BuildHasher + Copy + Drop, R: Read>(
    alloc: Global,
    hash_builder: S,
    detail: Detail,
    reader: &mut R,
    out: &mut Vec<u8>,
) -> Result<Outcome, TellFault>
    ensures { IfOk result (λ outcome. (acceptance : Acceptance) → outcome ≡ Outcome.Accepted acceptance
        → out.new.items ≡ out.old.items ++ accepted_object acceptance) }
{
    let asked = Question {
        form: Form::Json,
        scope: Scope::WHOLE,
        detail,
        file: None,
    };
    match answer_judge(alloc, hash_builder, asked, reader, out) {
        Ok(outcome) => Ok(outcome),
        Err(fault) => Err(fault),
    }
}

/// The object of a text that is rejected has the number of its own calls, and the kind, the key and the lines of its reason.
/// Unasked, it has no explanation.
pub fn a_rejected_text_has_the_lines_of_its_reason<S: BuildHasher + Copy + Drop, R: Read>(
    alloc: Global,
    hash_builder: S,
    reader: &mut R,
    out: &mut Vec<u8>,
) -> Result<Outcome, TellFault>
    ensures { IfOk result (λ outcome. (rejection : Rejection) → outcome ≡ Outcome.Rejected rejection
        → IsReasonTold rejection out.old.items out.new.items) }
{
    let asked = Question {
        form: Form::Json,
        scope: Scope::WHOLE,
        detail: Detail::NONE,
        file: None,
    };
    match answer_judge(alloc, hash_builder, asked, reader, out) {
        Ok(outcome) => Ok(outcome),
        Err(fault) => Err(fault),
    }
}

/// The object of a trace that is rejected has the number of its own calls and its fault. Unasked, it has no explanation.
pub fn a_rejected_trace_is_not_explained_unasked<S: BuildHasher + Drop, R: Read>(
    alloc: Global,
    hash_builder: S,
    reader: &mut R,
    out: &mut Vec<u8>,
) -> Result<Outcome, TellFault>
    ensures { IfOk result (λ outcome. (rejection : Rejection) → outcome ≡ Outcome.Rejected rejection
        → IsFaultTold rejection out.old.items out.new.items) }
{
    match answer_check(alloc, hash_builder, Form::Json, false, reader, out) {
        Ok(outcome) => Ok(outcome),
        Err(fault) => Err(fault),
    }
}

/// If memory is refused, the output stays as it was, in each form.
pub fn want_of_memory_leaves_the_output<S: BuildHasher + Copy + Drop, R: Read>(
    alloc: Global,
    hash_builder: S,
    form: Form,
    detail: Detail,
    reader: &mut R,
    out: &mut Vec<u8>,
) -> Result<Outcome, TellFault>
    ensures { result ≡ Err TellFault.OutOfMemory → out.new.items ≡ out.old.items }
{
    let asked = Question {
        form,
        scope: Scope::WHOLE,
        detail,
        file: None,
    };
    match answer_judge(alloc, hash_builder, asked, reader, out) {
        Ok(outcome) => Ok(outcome),
        Err(fault) => Err(fault),
    }
}

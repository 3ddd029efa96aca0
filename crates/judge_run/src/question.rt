// What is asked of a text.
use crate::detail::Detail;
use crate::scope::Scope;
use figures::Form;

/// What is asked of a text: what of it is judged, and how its verdict is told.
#[derive(Clone, Copy)]
pub struct Question<'a> {
    /// The form of the answer.
    pub form: Form,
    /// What of the calls is judged.
    pub scope: Scope,
    /// What is reported beside the verdict.
    pub detail: Detail,
    /// The name of the file, if the answer is an object whose first member it is.
    pub file: Option<&'a str>,
}

// The forms of pages.
use crate::object::{MAX_FORMER_RECORDS, MAX_LOG_RECORDS, MAX_SET_RECORDS};

// What a record says of expiry. A log page has one of these forms, in all its records.
#[derive(Clone, Copy)]
pub(crate) enum RecordForm {
    // It has its expiry: what is written.
    Timed,
    // It has none, and never expires: what was written before there was expiry. Such records are still read.
    Lasting,
}

// The forms of a set page.
#[derive(Clone, Copy)]
pub(crate) enum SetForm {
    // Up to `MAX_SET_RECORDS` records with their expiry: what is written.
    Large,
    // Up to `MAX_FORMER_RECORDS` records with their expiry: what was written before. Such pages are still read.
    Timed,
    // As many, which never expire: what was written before there was expiry. Such pages are still read.
    Lasting,
}

// The form of a page of either kind.
#[derive(Clone, Copy)]
pub(crate) enum PageForm {
    // A set page of this form.
    Set(SetForm),
    // A log page of this form.
    Log(RecordForm),
}

impl PageForm {
    ghost use Rattle.std.specs.Prelude.{◌≡◌};
    ghost use Rattle.record_pages.specs.Reading.{form_within, limit_of};

    // What the records of a page say of expiry.
    pub(crate) fn within(self) -> RecordForm
        ensures { result ≡ form_within self }
    {
        match self {
            PageForm::Set(SetForm::Large) => RecordForm::Timed,
            PageForm::Set(SetForm::Timed) => RecordForm::Timed,
            PageForm::Set(SetForm::Lasting) => RecordForm::Lasting,
            PageForm::Log(form) => form,
        }
    }

    // How many records a page may have.
    pub(crate) fn limit(self) -> usize
        ensures { result ≡ limit_of self }
    {
        match self {
            PageForm::Set(SetForm::Large) => MAX_SET_RECORDS,
            PageForm::Set(SetForm::Timed) => MAX_FORMER_RECORDS,
            PageForm::Set(SetForm::Lasting) => MAX_FORMER_RECORDS,
            PageForm::Log(_) => MAX_LOG_RECORDS,
        }
    }
}

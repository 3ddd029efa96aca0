// A write, as an entry of a book.
use record_pages::Key;
use std::marker::Model;
use trace_file::Act;

/// A write of a key. A book's entries are of this type; there they have no bytes, so that none is ever made.
#[derive(Drop)]
pub struct Written {
    key: Key,
    act: Act,
}

impl Model for Written {
    ghost use Rattle.certificate_checker.specs.Deeds.{Deed};

    ghost Value = { Deed };

    ghost view = { λ w. record { key = w.key; act = w.act } };
}

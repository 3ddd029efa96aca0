// A write that is to be entered.
use crate::lanes::KeyLanes;
use crate::rule::{Law, Nothing};
use crate::written::Written;
use logbook::{Offer, Plain};
use record_pages::{Key, Value};
use std::marker::Model;

/// A write that is to be entered in a book. It has no bytes.
#[derive(Drop)]
pub struct OfferedWrite<L: KeyLanes> {
    pub(crate) offer: Offer<Written, u64, Law<L>, Nothing>,
}

impl<L: KeyLanes> Model for OfferedWrite<L> {
    ghost use Rattle.std.specs.Prelude.{◌≡◌, [], None};
    ghost use Rattle.certificate_checker.specs.Deeds.{Deed};

    ghost Value = { Deed };

    ghost view = { λ e. e.offer.ask };

    ghost invariant = { λ e. (e.offer.names ≡ []) × (e.offer.state ≡ None) };
}

/// A put of a value, with its expiry.
#[derive(Drop)]
pub(crate) struct Putting<'a> {
    pub(crate) key: &'a Key,
    pub(crate) value: &'a Value,
    pub(crate) expires: u64,
}

/// A removal.
#[derive(Drop)]
pub(crate) struct Removing<'a> {
    pub(crate) key: &'a [u8],
}

/// What an entry asks for: that its write is entered.
pub(crate) struct Asks;

impl<'a> Plain<Putting<'a>, Written, u64> for Asks {
    ghost use Rattle.std.specs.Prelude.{None};
    ghost use Rattle.trace_file.specs.declared.act.Act.TheVariants.{Put};

    ghost ask = { λ p. record { key = p.key.now; act = Put p.value.now p.expires } };

    ghost state = { λ p. None };
}

impl<'a> Plain<Removing<'a>, Written, u64> for Asks {
    ghost use Rattle.std.specs.Prelude.{None};
    ghost use Rattle.trace_file.specs.declared.act.Act.TheVariants.{Remove};

    ghost ask = { λ r. record { key = r.key.now; act = Remove } };

    ghost state = { λ r. None };
}

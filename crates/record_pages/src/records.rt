// A walk over the records of a page.
ghost use Rattle.std.specs.Prelude.{◌≡◌, ◌↔◌, [], IsTrue, List, length, true, IfSome, Some, is_some, slice_get};
ghost use Rattle.std.specs.Option.{option_map};
ghost use Rattle.std.specs.Iterator.{item_count};
ghost use Rattle.record_pages.specs.Recs.{Rec, IsRecord};
ghost use Rattle.record_pages.specs.Lent.{record_shown};
ghost use Rattle.record_pages.specs.Reading.{expiry_at, record_at, records_at, records_of, body_at};
ghost use Rattle.record_pages.specs.Walking.{StepsOverRecord};
ghost use Rattle.record_pages.specs.Looking.{first_with, found_shown};

use crate::form::{PageForm, RecordForm};
use crate::front::{byte_at, is_zero, u16_at, u64_at};
use crate::key::Key;
use crate::prediction::Prediction;
use crate::record_ref::RecordRef;
use crate::slot_record::SlotRecord;
use crate::timed_value::NEVER;
use crate::value::Value;
use std::marker::Model;

/// A walk over the records of a page, in order, which lends their bytes.
#[derive(Drop)]
pub struct Records<'a> {
    form: RecordForm,
    left: u16,
    rest: &'a [u8],
}

impl<'a> Model for Records<'a> {
    ghost Value = { List Rec };

    ghost view = { λ s. records_of s.form s.left s.rest.now };

    ghost invariant = { λ s. is_some (records_at s.form s.left s.rest.now) ≡ true };
}

impl<'a> Records<'a> {
    /// How many records are left.
    pub fn len(&self) -> usize
        ensures { result ≡ length self.now }
    {
        self.left as usize
    }

    /// Whether no record is left.
    pub fn is_empty(&self) -> bool
        ensures { IsTrue result ↔ (self.now ≡ []) }
    {
        self.len() == 0
    }

    /// The record that lies this many places on, or nothing if there are fewer.
    pub fn at(mut self, slot: usize) -> Option<RecordRef<'a>>
        ensures value { option_map record_shown result ≡ slice_get self.entry slot }
        ensures lawful { IfSome result (λ r. IsRecord (record_shown r)) }
    {
        for _ in 0..slot {
            if self.next().is_none() {
                return None;
            }
        }
        self.next()
    }

    /// The first of the records that has this key, or nothing if none has it.
    pub fn find_key(mut self, key: &[u8]) -> Option<SlotRecord<'a>>
        ensures value { option_map found_shown result ≡ first_with key.now self.entry }
        ensures lawful { IfSome result (λ f. IsRecord (record_shown f.lent)) }
    {
        for slot in 0..self.len() {
            let lent = self.next()?;
            if lent.key == key {
                return Some(SlotRecord { slot, lent });
            }
        }
        None
    }

    // The same walk once more.
    pub(crate) fn again(&self) -> Records<'a>
        ensures { result ≡ self.now }
    {
        Records {
            form: self.form,
            left: self.left,
            rest: self.rest,
        }
    }
}

impl<'a> Iterator for Records<'a> {
    type Item = RecordRef<'a>;

    ghost next_gives = { StepsOverRecord };

    ghost remaining = { item_count (λ rest. rest) };

    #[tactic(auto, unfolding(crate::specs::Reading::records_at))]
    fn next(&mut self) -> Option<RecordRef<'a>> {
        if self.left == 0 {
            return None;
        }
        let (record, rest) = record_there(self.form, self.rest);
        self.left -= 1;
        self.rest = rest;
        Some(record)
    }
}

// The walk over this many records, which are there.
pub(crate) fn records_in(form: RecordForm, left: u16, rest: &[u8]) -> Records<'_>
    requires { is_some (records_at form left rest.now) ≡ true }
    ensures { result ≡ records_of form left rest.now }
{
    Records { form, left, rest }
}

// The records of a page whose head was read.
#[tactic(auto, unfolding(crate::specs::Reading::body_at))]
pub(crate) fn body_at(form: PageForm, bytes: &[u8]) -> Option<Records<'_>>
    ensures { result ≡ body_at form bytes.now }
{
    let (count, body) = u16_at(bytes)?;
    if count as usize > form.limit() {
        return None;
    }
    let form = form.within();
    let tail = after_records(form, count, body)?;
    if !is_zero(tail) {
        return None;
    }
    Some(records_in(form, count, body))
}

// The bytes after this many records.
#[tactic(auto, unfolding(crate::specs::Reading::records_at))]
fn after_records(form: RecordForm, count: u16, bytes: &[u8]) -> Option<&[u8]>
    ensures { option_map (λ x. x.now) result
        ≡ option_map (λ x. x.1) (records_at form count bytes.now) }
{
    let mut rest = bytes;
    for _ in 0..count {
        let Some((_, after)) = record_at(form, rest) else {
            return None;
        };
        rest = after;
    }
    Some(rest)
}

// The record at the front, and the bytes after it.
#[tactic(auto, unfolding(crate::specs::Reading::record_at))]
fn record_at(form: RecordForm, bytes: &[u8]) -> Option<(RecordRef<'_>, &[u8])>
    ensures value { option_map (λ x. (record_shown x.0, x.1.now)) result ≡ record_at form bytes.now }
    ensures lawful { IfSome result (λ x. IsRecord (record_shown x.0)) }
{
    let (key_len, rest) = byte_at(bytes)?;
    let (value_len, rest) = u16_at(rest)?;
    let (prediction, rest) = byte_at(rest)?;
    let (expires, rest) = expiry_at(form, rest)?;
    let key_len = key_len as usize;
    let value_len = value_len as usize;
    if key_len == 0 || value_len > Value::MAX_LEN || prediction > Prediction::MAX {
        return None;
    }
    if rest.len() < key_len + value_len {
        return None;
    }
    let (key, rest) = rest.split_at(key_len);
    let (value, rest) = rest.split_at(value_len);
    let record = RecordRef {
        key,
        value,
        expires,
        prediction,
    };
    Some((record, rest))
}

// When the record at the front expires, and the bytes after that.
fn expiry_at(form: RecordForm, bytes: &[u8]) -> Option<(u64, &[u8])>
    ensures { option_map (λ x. (x.0, x.1.now)) result ≡ expiry_at form bytes.now }
{
    match form {
        RecordForm::Timed => u64_at(bytes),
        RecordForm::Lasting => Some((NEVER, bytes)),
    }
}

// The record at the front, which is there, and the bytes after it. Nothing is tested again.
pub(crate) fn record_there(form: RecordForm, bytes: &[u8]) -> (RecordRef<'_>, &[u8])
    requires { is_some (record_at form bytes.now) ≡ true }
    ensures value { record_at form bytes.now ≡ Some (record_shown result.0, result.1.now) }
    ensures lawful { IsRecord (record_shown result.0) }
{
    let (front, rest) = bytes.split_at(4);
    let Some((expires, rest)) = expiry_at(form, rest) else {
        unreachable!();
    };
    let value_len = u16::from_be_bytes([front[1], front[2]]);
    let (key, rest) = rest.split_at(front[0] as usize);
    let (value, rest) = rest.split_at(value_len as usize);
    let record = RecordRef {
        key,
        value,
        expires,
        prediction: front[3],
    };
    (record, rest)
}

// Recorded calls in the order in which they were recorded.
ghost use Rattle.std.specs.Prelude.{◌≡◌, ◌+◌, ◌-◌, ◌^◌, ◌<◌, ◌≤◌, [], ◌∷◌, ◌++◌, ◌↔◌, All, IsTrue, List, ℕ, Some, length, OnOk, OnErr, option_map, slice_get, take, drop};
ghost use Rattle.std.specs.Vec.{vec_capacity};
ghost use Rattle.trace_file.specs.Stored.{each_ended, each_moved};

use crate::call::Call;
use crate::call_ref::CallRef;
use crate::stored_call::StoredCall;
use std::alloc::{AllocError, Global};
use std::marker::Model;

/// Recorded calls, in the order in which they were recorded.
///
/// The bytes of all keys and values lie in one store.
#[derive(Drop)]
pub struct History {
    entries: Vec<StoredCall>,
    store: Vec<u8>,
}

impl Model for History {
    ghost use Rattle.std.specs.Prelude.{List, length};
    ghost use Rattle.trace_file.specs.declared.call.Call.{Call};

    ghost Value = { List Call };

    ghost use Rattle.trace_file.specs.Stored.{calls_in, AreStored};

    ghost view = { λ h. calls_in h.store.items h.entries.items };

    ghost invariant = { λ h. AreStored (length h.store.items) h.entries.items };
}

impl History {
    ghost use Rattle.trace_file.specs.Calls.{IsCall};
    ghost use Rattle.trace_file.specs.Lent.{call_shown};
    ghost use Rattle.trace_file.specs.Ending.{each_ending};

    /// The history with no calls. It takes no memory.
    pub fn new(alloc: Global) -> History
        ensures { result ≡ [] }
    {
        History {
            entries: Vec::new(alloc),
            store: Vec::new(alloc),
        }
    }

    /// How many calls there are.
    pub fn len(&self) -> usize
        ensures count { result ≡ length self.now }
        ensures calls { All IsCall self.now }
    {
        self.entries.len()
    }

    /// Whether there are no calls.
    pub fn is_empty(&self) -> bool
        ensures { IsTrue result ↔ (self.now ≡ []) }
    {
        self.entries.is_empty()
    }

    /// Records a call after the others, or leaves the history as it was if memory is refused.
    pub fn push(&mut self, call: Call) -> Result<(), AllocError>
        ensures ok { OnOk result (self.new ≡ self.old ++ call ∷ []) }
        ensures err { OnErr result (self.new ≡ self.old) }
    {
        self.push_ref(&call.lent())
    }

    /// Records a lent call after the others, or leaves the history as it was if memory is refused.
    pub fn push_ref(&mut self, call: &CallRef<'_>) -> Result<(), AllocError>
        requires { IsCall (call_shown call.now) }
        ensures ok { OnOk result (self.new ≡ self.old ++ call_shown call.now ∷ []) }
        ensures err { OnErr result (self.new ≡ self.old) }
    {
        let entry = StoredCall::of(call, self.store.len());
        let value = call.act.value();
        put_behind(&mut self.entries, &mut self.store, entry, call.key, value)?;
        Ok(())
    }

    /// Records the calls of another history after the others, each with an end of its own in place of that which it has
    /// there, or leaves the history as it was if memory is refused. The bytes are copied at once.
    pub fn extend_ending(&mut self, calls: &History, ends: &[u64]) -> Result<(), AllocError>
        requires { length ends.now ≡ length calls.now }
        ensures ok { OnOk result (self.new ≡ self.old ++ each_ending calls.now ends.now) }
        ensures err { OnErr result (self.new ≡ self.old) }
    {
        let offset = self.store.len();
        self.entries.reserve(ends.len())?;
        self.store.reserve(calls.store.len())?;
        self.store
            .extend_from_slice(calls.store.as_slice())
            .unwrap();
        push_moved(&mut self.entries, calls.entries.as_slice(), ends, offset);
        Ok(())
    }

    /// The same calls, each with an end of its own in place of that which it has. It takes no memory.
    pub fn ending(self, ends: &[u64]) -> History
        requires { length ends.now ≡ length self }
        ensures { result ≡ each_ending self ends.now }
    {
        let History { mut entries, store } = self;
        set_ends(&mut entries, ends);
        History { entries, store }
    }

    /// Takes the last call off, if there is one, with its bytes.
    pub fn drop_last(&mut self)
        ensures { self.new ≡ take (length self.old - 1) self.old }
    {
        if let Some(entry) = self.entries.pop() {
            self.store.truncate(entry.offset);
        }
    }

    /// The call at a position, lent.
    pub fn at(&self, position: usize) -> CallRef<'_>
        requires { position < length self.now }
        ensures call { slice_get self.now position ≡ Some (call_shown result) }
        ensures lawful { IsCall (call_shown result) }
    {
        let entry = self.entries[position];
        entry.lent(self.store.as_slice())
    }

    /// The call at a position, lent, or `None` if there are not so many calls.
    #[tactic(auto, using(std::proofs::lemmas::Option::slice_get_past))]
    pub fn get(&self, position: usize) -> Option<CallRef<'_>>
        ensures { slice_get self.now position ≡ option_map call_shown result }
    {
        if position < self.len() {
            Some(self.at(position))
        } else {
            None
        }
    }
}

/// Puts an entry after the others and its bytes after the store's. If memory is refused both keep
/// just what they held, so that no bytes are left of a call that was not recorded.
fn put_behind(
    entries: &mut Vec<StoredCall>,
    store: &mut Vec<u8>,
    entry: StoredCall,
    key: &[u8],
    value: &[u8],
) -> Result<(), AllocError>
    requires { length key.now + length value.now < 2 ^ 64 }
    ensures entries { OnOk result (entries.new.items ≡ entries.old.items ++ entry ∷ []) }
    ensures store { OnOk result (store.new.items ≡ store.old.items ++ key.now ++ value.now) }
    ensures entries_kept { OnErr result (entries.new.items ≡ entries.old.items) }
    ensures store_kept { OnErr result (store.new.items ≡ store.old.items) }
{
    entries.reserve(1)?;
    store.reserve(key.len() + value.len())?;
    store.extend_from_slice(key).unwrap();
    store.extend_from_slice(value).unwrap();
    entries.push(entry).unwrap();
    Ok(())
}

/// Puts other entries, for which there is room, after the entries, each this many bytes farther and with an end of its
/// own.
fn push_moved(entries: &mut Vec<StoredCall>, others: &[StoredCall], ends: &[u64], bytes: usize)
    requires many { length ends.now ≡ length others.now }
    requires room { length entries.old.items + length others.now ≤ vec_capacity entries.old }
    requires low { All (λ e. e.offset + bytes < 2 ^ 64) others.now }
    ensures { entries.new.items ≡ entries.old.items ++ each_moved bytes others.now ends.now }
{
    for place in 0..others.len() {
        let entry = others[place].moved(bytes, ends[place]);
        entries.push_reserved(entry);
    }
}

/// Gives each entry an end of its own.
fn set_ends(entries: &mut Vec<StoredCall>, ends: &[u64])
    requires { length ends.now ≡ length entries.old.items }
    ensures { entries.new.items ≡ each_ended entries.old.items ends.now }
{
    for place in 0..entries.len() {
        let entry = &mut entries[place];
        entry.end = ends[place];
    }
}

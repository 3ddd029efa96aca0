// What a caller asks of a lane, with what is only read lent.
ghost use Rattle.std.specs.Prelude.{◌≡◌};
ghost use Rattle.history_recorder.specs.Operations.{key_of};
ghost use Rattle.shared_cache.specs.Acts.{request_shown};

use record_pages::{Key, Value};

/// An operation, as it is asked of the lane of its key: what the lane only reads is lent to it, and it keeps what it is given.
#[derive(Drop)]
pub enum Request<'a> {
    /// The value of a key, if it is live at this moment.
    Get(&'a Key, u64),
    /// To keep a value of a key, by the word of its admission, until this moment, or for ever if that is `NEVER`.
    Put(Key, Value, u32, u64),
    /// To keep no value of a key.
    Remove(&'a Key),
}

impl<'a> Request<'a> {
    /// The key that it is about.
    pub fn key(&self) -> &Key
        ensures { result.now ≡ key_of (request_shown self.now) }
    {
        match self {
            Request::Get(key, _) => key,
            Request::Put(key, _, _, _) => key,
            Request::Remove(key) => key,
        }
    }
}

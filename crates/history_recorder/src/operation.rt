// What a caller asks of a lane.
ghost use Rattle.std.specs.Prelude.{◌≡◌, IfOk};
ghost use Rattle.history_recorder.specs.Operations.{key_of};

use record_pages::{Key, Value};
use std::alloc::AllocError;

/// What a caller asks of the lane of a key.
#[derive(Drop)]
pub enum Operation {
    /// The value of a key, if it is live at this moment.
    Get(Key, u64),
    /// To keep a value of a key until a moment, or for ever if that is `NEVER`. A pair that memory pushes out for it
    /// is admitted to flash if the low 16 bits of the word are below the configuration's `admit`.
    Put(Key, Value, u32, u64),
    /// To keep no value of a key.
    Remove(Key),
}

impl Operation {
    /// A copy of the operation, or `AllocError` if memory was refused.
    pub fn try_clone(&self) -> Result<Operation, AllocError>
        ensures { IfOk result (λ copy. copy ≡ self.now) }
    {
        match self {
            Operation::Get(key, moment) => Ok(Operation::Get(key.try_clone()?, *moment)),
            Operation::Put(key, value, word, expires) => {
                let key = key.try_clone()?;
                Ok(Operation::Put(key, value.try_clone()?, *word, *expires))
            }
            Operation::Remove(key) => Ok(Operation::Remove(key.try_clone()?)),
        }
    }

    /// The key that it is about.
    pub fn key(&self) -> &Key
        ensures { result.now ≡ key_of self.now }
    {
        match self {
            Operation::Get(key, _) => key,
            Operation::Put(key, _, _, _) => key,
            Operation::Remove(key) => key,
        }
    }
}

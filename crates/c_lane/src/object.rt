// The key and the value of a put.
ghost use Rattle.std.specs.Prelude.{◌≡◌, MatchResult};
ghost use Rattle.c_lane.specs.Objects.{RefusesObject, IsObject};

use crate::status::Status;
use record_pages::{Key, KeyFault, Value, ValueFault};
use std::alloc::Global;

// A key and a value.
#[derive(Drop)]
pub(crate) struct Object {
    pub(crate) key: Key,
    pub(crate) value: Value,
}

impl Object {
    // Copies of these bytes. The key is tested first.
    pub(crate) fn new(alloc: Global, key: &[u8], value: &[u8]) -> Result<Object, Status>
        ensures { MatchResult result
            (λ object. IsObject key.now value.now × (object.key ≡ key.now) × (object.value ≡ value.now))
            (RefusesObject key.now value.now) }
    {
        if let Some(status) = refused(key, value) {
            return Err(status);
        }
        let Ok(key) = Key::new(alloc, key) else {
            return Err(Status::NoMemory);
        };
        let Ok(value) = Value::new(alloc, value) else {
            return Err(Status::NoMemory);
        };
        Ok(Object { key, value })
    }
}

ghost use Rattle.c_lane.specs.Objects.{first_refusal};

// Why these bytes are no key and value, if they are not.
fn refused(key: &[u8], value: &[u8]) -> Option<Status>
    ensures { result ≡ first_refusal key.now value.now }
{
    if key.is_empty() || key.len() > Key::MAX_LEN {
        Some(Status::WrongKey)
    } else if value.len() > Value::MAX_LEN {
        Some(Status::TooLarge)
    } else {
        None
    }
}

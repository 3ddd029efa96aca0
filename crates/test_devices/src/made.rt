// Keys and values of tests. What lacked memory is made once more, so that a test whose one allocation is refused goes on.
ghost use Rattle.std.specs.Prelude.{◌≡◌, IfOk};

use record_pages::{Key, Value};
use std::alloc::Global;
use std::test::Fail;

/// The key of these bytes. It fails if they are no key, or memory was refused twice.
pub fn key(alloc: Global, bytes: &[u8]) -> Result<Key, Fail>
    ensures { IfOk result (λ key. key ≡ bytes.now) }
{
    match Key::new(alloc, bytes) {
        Ok(key) => Ok(key),
        Err(_) => Ok(Key::new(alloc, bytes)?),
    }
}

/// The value of these bytes. It fails if there are too many, or memory was refused twice.
pub fn value(alloc: Global, bytes: &[u8]) -> Result<Value, Fail>
    ensures { IfOk result (λ value. value ≡ bytes.now) }
{
    match Value::new(alloc, bytes) {
        Ok(value) => Ok(value),
        Err(_) => Ok(Value::new(alloc, bytes)?),
    }
}

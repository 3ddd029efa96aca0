// The value of an object.
ghost use Rattle.std.specs.Prelude.{◌≡◌, ◌<◌, ◌≤◌, ◌+◌, ◌++◌, ◌↔◌, ℕ, List, length, IfOk, nat_eq};
ghost use Rattle.std.specs.Cmp.Lexicographic.{pointwise, nat_list_eq_equiv};
ghost use Rattle.std.specs.Cmp.{partial_equiv_from_equiv};
ghost use Rattle.record_pages.specs.Bounded.{IsValue};

use std::alloc::{AllocError, Global};
use std::marker::Model;
use thiserror::Error;

/// The value of an object: 0 to 2,048 bytes.
#[derive(Drop)]
pub struct Value {
    bytes: Vec<u8>,
}

impl Model for Value {
    ghost Value = { List ℕ };

    ghost view = { λ v. v.bytes.items };

    ghost invariant = { λ v. IsValue v.bytes.items };
}

/// Why no value was made.
#[derive(Clone, Copy, Debug, PartialEq, Eq, Error)]
pub enum ValueFault {
    /// There are more than `Value::MAX_LEN` bytes.
    #[error("the value is too long")]
    ValueTooLong,
    /// Memory was refused.
    #[error("out of memory")]
    OutOfMemory,
}

impl Value {
    /// The most bytes of a value.
    pub const MAX_LEN: usize = 2048;

    /// The value with a copy of these bytes.
    pub fn new(alloc: Global, bytes: &[u8]) -> Result<Value, ValueFault>
        ensures ok { IfOk result (λ value. (value ≡ bytes.now) × IsValue value) }
        ensures too_long { (result ≡ Err ValueFault.ValueTooLong) ↔ (2048 < length bytes.now) }
    {
        if bytes.len() > Self::MAX_LEN {
            return Err(ValueFault::ValueTooLong);
        }
        match Vec::from_slice(alloc, bytes) {
            Ok(bytes) => Ok(Value { bytes }),
            Err(_) => Err(ValueFault::OutOfMemory),
        }
    }

    /// The value with a copy of the bytes of three parts, one after the other.
    pub fn of_parts(
        alloc: Global,
        head: &[u8],
        front: &[u8],
        back: &[u8],
    ) -> Result<Value, ValueFault>
        ensures ok { IfOk result (λ value. (value ≡ head.now ++ (front.now ++ back.now)) × IsValue value) }
        ensures too_long { (result ≡ Err ValueFault.ValueTooLong)
            ↔ (2048 < length head.now + (length front.now + length back.now)) }
    {
        let data = front.len().saturating_add(back.len());
        if head.len().saturating_add(data) > Self::MAX_LEN {
            return Err(ValueFault::ValueTooLong);
        }
        match joined(alloc, head, front, back) {
            Ok(bytes) => Ok(Value { bytes }),
            Err(_) => Err(ValueFault::OutOfMemory),
        }
    }

    /// The bytes of the value, in order.
    pub fn bytes(&self) -> &[u8]
        ensures value { result.now ≡ self.now }
        ensures range { IsValue self.now }
    {
        self.bytes.as_slice()
    }

    /// A copy of the value, or `AllocError` if memory was refused.
    pub fn try_clone(&self) -> Result<Value, AllocError>
        ensures { IfOk result (λ value. value ≡ self.now) }
    {
        let bytes = self.bytes.clone()?;
        Ok(Value { bytes })
    }
}

// The bytes of three parts, which have room in one piece of memory.
fn joined(alloc: Global, head: &[u8], front: &[u8], back: &[u8]) -> Result<Vec<u8>, AllocError>
    requires { length head.now + (length front.now + length back.now) ≤ 2048 }
    ensures { IfOk result (λ bytes. bytes.items ≡ head.now ++ (front.now ++ back.now)) }
{
    let mut bytes = Vec::with_capacity(alloc, head.len() + front.len() + back.len())?;
    bytes.extend_from_slice(head)?;
    bytes.extend_from_slice(front)?;
    bytes.extend_from_slice(back)?;
    Ok(bytes)
}

impl PartialEq for Value {
    ghost eq = { pointwise nat_eq };

    ghost laws = { partial_equiv_from_equiv nat_list_eq_equiv };

    fn eq(&self, other: &Value) -> bool {
        self.bytes.as_slice() == other.bytes.as_slice()
    }
}

impl Eq for Value {
    ghost laws = { nat_list_eq_equiv };
}

//! The limits of keys, values and objects, and copies of them.
use super::rows::{ROW, record};
use record_pages::{
    Key, KeyFault, NEVER, Prediction, Record, TimedValue, Value, ValueFault, fits, is_live,
    is_too_large,
};
use std::alloc::Global;
use std::test::Fail;

/// Whether this is why these bytes are no key, or they are one.
fn has_key_fault(alloc: Global, bytes: &[u8], fault: Option<KeyFault>) -> bool {
    Key::new(alloc, bytes).err() == fault
}

/// Whether this is why these bytes are no value, or they are one.
fn has_value_fault(alloc: Global, bytes: &[u8], fault: Option<ValueFault>) -> bool {
    Value::new(alloc, bytes).err() == fault
}

/// Whether a value of three parts, of which the last has this many bytes, is refused with this fault, or made if it is none.
fn has_parts_fault(alloc: Global, back: &[u8], fault: Option<ValueFault>) -> bool {
    Value::of_parts(alloc, &[0x77; 17], &[0x78; 1000], back).err() == fault
}

#[test]
fn keys_and_values_have_their_limits(rt: HostRuntime) {
    let alloc = rt.alloc();
    assert!(rt;
        has_key_fault(alloc, &[], Some(KeyFault::KeyEmpty))
            && has_key_fault(alloc, &[0x61; 255], None)
            && has_key_fault(alloc, &[0x61; 256], Some(KeyFault::KeyTooLong))
            && has_value_fault(alloc, &[0x78; 2048], None)
            && has_value_fault(alloc, &[0x78; 2049], Some(ValueFault::ValueTooLong))
            && has_parts_fault(alloc, &[0x79; 1031], None)
            && has_parts_fault(alloc, &[0x79; 1032], Some(ValueFault::ValueTooLong))
            && Prediction::new(7).is_some()
            && Prediction::new(8).is_none()
    );
}

/// Whether the object of key `a` and a value of this many bytes is too large for a page of 256 bytes.
fn is_large(alloc: Global, value: &[u8]) -> Result<bool, Fail> {
    let key = Key::new(alloc, b"a")?;
    let value = Value::new(alloc, value)?;
    Ok(is_too_large::<256>(&key, &value))
}

#[test]
fn objects_have_their_limit(rt: HostRuntime) -> Result<(), Fail> {
    assert!(rt; !is_large(rt.alloc(), &[0x78; 225])? && is_large(rt.alloc(), &[0x78; 226])?);
    Ok(())
}

/// Whether a record of key `a` and a value of this many bytes fits alone on a page of 256 bytes.
fn fits_alone(alloc: Global, value: &[u8]) -> Result<bool, Fail> {
    let key = Key::new(alloc, b"a")?;
    let value = TimedValue::lasting(Value::new(alloc, value)?);
    let Some(pred) = Prediction::new(6) else {
        return Ok(false);
    };
    Ok(fits::<256>(&[Record { key, value, pred }]))
}

#[test]
fn a_record_may_fill_its_page(rt: HostRuntime) -> Result<(), Fail> {
    assert!(rt; fits_alone(rt.alloc(), &[0x78; 225])? && !fits_alone(rt.alloc(), &[0x78; 226])?);
    Ok(())
}

/// Whether copies of a record's key and value, and of the record that is lent, are as they are.
fn is_copied(alloc: Global) -> Result<bool, Fail> {
    let made = record(alloc, ROW)?;
    Ok(
        made.key.try_clone()? == made.key
            && made.value.try_clone()? == made.value
            && made.lent().to_record(alloc)? == made
            && made.size() == 15
            && made.lent().size() == 15,
    )
}

#[test]
fn copies_are_alike(rt: HostRuntime) -> Result<(), Fail> {
    assert!(rt; is_copied(rt.alloc())?);
    Ok(())
}

#[test]
fn a_value_lives_before_its_moment(rt: HostRuntime) {
    assert!(rt;
        is_live(10, 9)
            && !is_live(10, 10)
            && !is_live(10, 11)
            && !is_live(0, 0)
            && !is_live(NEVER - 1, NEVER - 1)
            && !is_live(NEVER - 1, NEVER)
            && is_live(NEVER, 0)
            && is_live(NEVER, NEVER)
    );
}

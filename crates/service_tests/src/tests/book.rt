//! Two threads enter writes of one lane, and both stand in one list.
ghost use Rattle.std.specs.Prelude.{◌≡◌, IfSome};
ghost use Rattle.trace_file.specs.declared.act.Act.{Act};
ghost use Rattle.service_tests.specs.Standing.{Stands};

use deed_book::{BookName, OneLane, Register, Seat, UnnamedBook};
use record_pages::{Key, Value};
use std::marker::Brand;
use std::sync::{Mutex, Wait};
use std::test::*;
use std::thread::{Threads, join};

#[test]
fn two_threads_enter(rt: HostRuntime) -> Result<(), Fail> {
    let alloc = rt.alloc();
    let here = Key::new(alloc, b"here")?;
    let new = Value::new(alloc, b"new")?;
    let did = entered_by_two::<Brand, _>(&rt, UnnamedBook::<OneLane>::open(1), &here, &new);
    assert!(rt; did);
    Ok(())
}

// Whether both threads entered their writes.
fn entered_by_two<J: BookName + Send + Sync, R: Threads + Wait + Sync>(
    rt: &R,
    book: UnnamedBook<OneLane>,
    here: &Key,
    new: &Value,
) -> bool
    requires { book ≡ J.book }
{
    enter_both::<J, R>(rt, book, here, new).is_some()
}

// Two threads enter a put, after a look, and a removal of one key. If both did, who has seen what both have seen has seen both.
fn enter_both<J: BookName + Send + Sync, R: Threads + Wait + Sync>(
    rt: &R,
    book: UnnamedBook<OneLane>,
    here: &Key,
    new: &Value,
) -> Option<Seat<OneLane, J>>
    requires { book ≡ J.book }
    ensures put { IfSome result (λ seat. Stands (record { key = here.now; act = Act.Put new.now 9 }) seat) }
    ensures removal { IfSome result (λ seat. Stands (record { key = here.now; act = Act.Remove }) seat) }
{
    let mut book = book.with_name::<J>();
    let seat = book.seat();
    let register = Mutex::new(book.register());
    let (put, removal) = join(
        rt,
        || -> Option<Seat<OneLane, J>>
            ensures { IfSome result (λ seat. Stands (record { key = here.entry.now; act = Act.Put new.entry.now 9 }) seat) }
        { put_in(rt, &register, seat.again(), here, new) },
        || -> Option<Seat<OneLane, J>>
            ensures { IfSome result (λ seat. Stands (record { key = here.entry.now; act = Act.Remove }) seat) }
        { remove_in(rt, &register, seat.again(), here) },
    );
    let mut seat = put?;
    seat.learn(&removal?);
    Some(seat)
}

// Enters a put, after a look.
fn put_in<J: BookName>(
    rt: &impl Wait,
    register: &Mutex<Register<OneLane, J>>,
    mut seat: Seat<OneLane, J>,
    key: &Key,
    value: &Value,
) -> Option<Seat<OneLane, J>>
    ensures { IfSome result (λ seat. Stands (record { key = key.now; act = Act.Put value.now 9 }) seat) }
{
    let mut held = register.lock(rt);
    if held.look(&mut seat).is_err() {
        return None;
    }
    let _number = held.number();
    let put = held.put(key, value, 9);
    match held.enter(&mut seat, put) {
        Ok(()) => Some(seat),
        Err(_) => None,
    }
}

// Enters a removal.
fn remove_in<J: BookName>(
    rt: &impl Wait,
    register: &Mutex<Register<OneLane, J>>,
    mut seat: Seat<OneLane, J>,
    key: &Key,
) -> Option<Seat<OneLane, J>>
    ensures { IfSome result (λ seat. Stands (record { key = key.now; act = Act.Remove }) seat) }
{
    let mut held = register.lock(rt);
    let _number = held.number();
    let removal = held.removal(key.bytes());
    match held.enter(&mut seat, removal) {
        Ok(()) => Some(seat),
        Err(_) => None,
    }
}

// The operations of loads by the words of PCG's reference generator, which its author's demonstration prints for the seed 42 and
// the stream 54: a15c02b7, 7b47f409, ba1d3330, 83d2f293, bfa4784b, cbed606e. Modulo 100 the first is 83 and the fourth 55.
ghost use Rattle.std.specs.Prelude.{◌≡◌};
ghost use Rattle.load.specs.Operations.{next_of};

use crate::tests::asked_loads::{run_by, run_of};
use crate::tests::words::words_of;
use history_recorder::Operation;
use load::{Load, next_operation};
use rand_core::utils::NextWord;
use rand_pcg::Lcg64Xsh32;
use std::alloc::Global;
use std::test::Fail;
use test_devices::{Scripted, TextStep, is, run_text};

/// The generator that operations are drawn by.
#[derive(Drop)]
struct Drawing {
    generator: Lcg64Xsh32,
}

impl Scripted for Drawing {
    ghost use Rattle.std.specs.Prelude.{⊤};

    ghost can_act = { ⊤ };

    fn act(&mut self, alloc: Global, step: &mut TextStep<'_>) -> Result<(), Fail> {
        let word = step.word();
        if is(word, b"words") {
            self.generator = Lcg64Xsh32::new(step.number(), step.number());
        } else if is(word, b"word") {
            step.tell_number(u64::from(self.generator.next_word()));
        } else if is(word, b"draw") {
            return draw(alloc, &mut self.generator, step);
        } else {
            step.refuse();
        }
        Ok(())
    }
}

/// Takes a caller, a number and the words of a load, and tells the operation that is drawn.
fn draw(alloc: Global, generator: &mut Lcg64Xsh32, step: &mut TextStep<'_>) -> Result<(), Fail> {
    let caller = u16::try_from(step.small())?;
    let number = step.small();
    let first = step.word();
    let words = words_of(alloc, first, step)?;
    let load = run_of(alloc, words.as_slice())?;
    let operation = next_operation(alloc, generator, &*load, caller, number)?;
    tell_operation(&operation, step);
    Ok(())
}

/// Tells an operation: a get with its moment, a put with its value, the word that admits it, and its expiry.
fn tell_operation(operation: &Operation, step: &mut TextStep<'_>) {
    match operation {
        Operation::Get(key, moment) => {
            step.tell(b"get");
            step.tell(key.bytes());
            step.tell_number(*moment);
        }
        Operation::Remove(key) => {
            step.tell(b"remove");
            step.tell(key.bytes());
        }
        Operation::Put(key, value, word, expires) => {
            step.tell(b"put");
            step.tell(key.bytes());
            tell_value(value.bytes(), step);
            step.tell_number(u64::from(*word));
            step.tell_number(*expires);
        }
    }
}

/// Tells a value, and of a long one how long it is and its last byte.
fn tell_value(value: &[u8], step: &mut TextStep<'_>) {
    match value {
        [.., last] if value.len() > 64 => {
            step.tell_number(value.len() as u64);
            step.tell_number(u64::from(*last));
        }
        _ => step.tell(value),
    }
}

/// The first operation of caller 54, of loads that differ in their keys, the bytes of a value, gets and removes.
static FIRST: &[u8] = b"
words 42 54; draw 54 0 k run --trace t --keys 1 --value-bytes 8 --gets 0 --removes 0 -> put k0 \06\0\0\0\0\06 3122475824 18446744073709551615
words 42 54; draw 54 0 k run --trace t --keys 1 --value-bytes 8 --gets 100 --removes 0 -> get k0 0
words 42 54; draw 54 0 k run --trace t --keys 1 --value-bytes 8 --gets 0 --removes 100 -> remove k0
words 42 54; draw 54 0 k run --trace t --keys 1000 --value-bytes 0 --gets 70 --removes 5 -> put k97 - 3122475824 18446744073709551615
words 42 54; draw 54 0 k run --trace t --keys 1000000 --value-bytes 1 --gets 83 --removes 0 -> put k313097 \0 3122475824 18446744073709551615
words 42 54; draw 54 0 k run --trace t --keys 1000 --value-bytes 8 --gets 84 --removes 0 -> get k97 0
words 42 54; draw 54 0 k run --trace t --keys 1000 --value-bytes 8 --gets 83 --removes 1 -> remove k97
words 42 54; draw 54 0 k run --trace t --keys 1000 --value-bytes 8 --gets 82 --removes 1 -> put k97 \06\0\0\0\0\06 3122475824 18446744073709551615
words 42 54; draw 54 0 k run --trace t --keys 1000 --value-bytes 8 --gets 100 --removes 100 -> get k97 0
";

/// A put took three words and a get takes two, so the sixth is left. With a time to live of 7 the put of number 0 expires at
/// 7, and the get of number 1 is made at 1.
static SECOND: &[u8] = b"
words 42 54
draw 54 0 k run --trace t --keys 1000 --value-bytes 0 --gets 70 --removes 5 --ttl 7 -> put k97 - 3122475824 7
draw 54 1 k run --trace t --keys 1000 --value-bytes 0 --gets 70 --removes 5 --ttl 7 -> get k955 1
word 3421331566
";

/// Values repeat the caller, which is 258, and the number, 50595078.
static VALUES: &[u8] = b"
words 1 258; draw 258 50595078 k run --trace t --keys 1 --gets 0 --removes 0 --value-bytes 13 -> put k0 \x01\x02\x03\x04\x05\x06\x01\x02\x03\x04\x05\x06\x01 2226962284 18446744073709551615
words 1 258; draw 258 50595078 k run --trace t --keys 1 --gets 0 --removes 0 --value-bytes 2048 -> put k0 2048 2 2226962284 18446744073709551615
";

#[test]
fn operations_are_those_of_the_words(rt: HostRuntime) -> Result<(), Fail> {
    for text in [FIRST, SECOND, VALUES] {
        let generator = Lcg64Xsh32::new(0, 0);
        run_text(rt.alloc(), &mut Drawing { generator }, text)?;
    }
    Ok(())
}

/// Draws the words of an operation, also if memory is refused for it: the operation after it has words of its own.
fn pass_over(alloc: Global, generator: &mut Lcg64Xsh32, load: &Load, caller: u16, number: u32)
    ensures { generator.new ≡ (next_of load.now caller number generator.old).generator }
{
    let _operation = next_operation(alloc, generator, load, caller, number);
}

#[test]
fn operations_go_on_after_the_words_that_were_drawn(rt: HostRuntime) -> Result<(), Fail> {
    let load = run_by(
        rt.alloc(),
        "k run --trace t --keys 1000 --value-bytes 0 --gets 70 --removes 5 --ttl 7",
    )?;
    let mut passed = Lcg64Xsh32::new(42, 54);
    pass_over(rt.alloc(), &mut passed, &*load, 54, 0);
    pass_over(rt.alloc(), &mut passed, &*load, 54, 1);
    assert!(rt; passed.next_word() == 0xcbed_606e);
    Ok(())
}

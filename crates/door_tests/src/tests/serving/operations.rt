// The operations of loads by the words of PCG's reference generator, which its author's demonstration prints for the seed 42 and
// the stream 54: a15c02b7, 7b47f409, ba1d3330, 83d2f293, bfa4784b, cbed606e. Modulo 100 the first is 83 and the second 97.
use crate::tests::asked_loads::served_by;
use load::{ServeOperation, ranks_of};
use rand_core::utils::NextWord;
use rand_pcg::Lcg64Xsh32;
use std::alloc::Global;
use std::test::Fail;

/// Whether this is the first operation of the load of these words, and the word after those that were drawn for it is the third.
fn is_first(alloc: Global, words: &str, first: ServeOperation) -> Result<bool, Fail> {
    let load = served_by(alloc, words)?;
    let ranks = ranks_of(alloc, &*load)?;
    let mut generator = Lcg64Xsh32::new(42, 54);
    let operation = ServeOperation::next(&mut generator, &*load, &ranks);
    Ok(operation == first && generator.next_word() == 0xba1d_3330)
}

/// Each load has 1,000 keys. In the last one they are drawn by Zipf's law: the weights of the ranks are 32,149,852,066, and the second
/// word leads to the 21st of them. It is at 20 steps of 4,294,967,291 from the seed on, modulo 1,000.
#[test]
fn operations_are_those_of_the_words(rt: HostRuntime) -> Result<(), Fail> {
    let alloc = rt.alloc();
    let put = is_first(
        alloc,
        "k serve-load --gets 82 --removes 1",
        ServeOperation::Put(97),
    )?;
    let removal = is_first(
        alloc,
        "k serve-load --gets 83 --removes 1",
        ServeOperation::Remove(97),
    )?;
    let get = is_first(
        alloc,
        "k serve-load --gets 84 --removes 0",
        ServeOperation::Get(97),
    )?;
    let drawn = "k serve-load --zipf --gets 100 --removes 0";
    assert!(rt; put && removal && get && is_first(alloc, drawn, ServeOperation::Get(821))?);
    Ok(())
}

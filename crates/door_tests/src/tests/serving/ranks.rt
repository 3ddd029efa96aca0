//! Ranks that are drawn by Zipf's law. Their numbers are from outside: from sums of weights of which the first is 2^32.
use load::Ranks;
use rand_core::utils::NextWord;
use rand_pcg::Lcg64Xsh32;
use std::alloc::{AllocError, Global};
use std::test::Fail;
use test_devices::{Scripted, TextStep, run_text};
use zipf::scattered;

/// Words at the ends of the ranks, and on both sides of where one rank ends: how many ranks there are, a word, and the rank that it
/// draws. With 3,000,000 ranks not each has a sum of its own.
static WORDS: &[u8] = b"
1 0 0
1 4294967295 0
2 0 0
2 2863311530 0
2 2863311531 1
2 4294967295 1
3 2342709434 0
3 2342709435 1
3 3514064151 1
3 3514064152 2
3 4294967295 2
10 2199563255 2
10 4294967295 9
3000000 0 0
3000000 2068313097 974
3000000 4026531840 1139065
3000000 4278190081 2823790
3000000 4294967295 2999999
";

/// Ranks of which each step draws one.
#[derive(Drop)]
struct Drawing;

impl Scripted for Drawing {
    ghost use Rattle.std.specs.Prelude.{⊤};

    ghost can_act = { ⊤ };

    fn act(&mut self, alloc: Global, step: &mut TextStep<'_>) -> Result<(), Fail> {
        let count = step.small();
        if count < 1 || count > 100000000 {
            step.refuse();
            return Ok(());
        }
        let ranks = Ranks::new(alloc, count)?;
        let word = step.small();
        step.tell_number(u64::from(ranks.rank(word)));
        Ok(())
    }
}

#[test]
fn a_word_draws_the_rank_in_whose_weight_it_leads(rt: HostRuntime) -> Result<(), Fail> {
    run_text(rt.alloc(), &mut Drawing, WORDS)
}

/// How often each of 1,000 ranks is drawn in 100,000 draws.
fn draws(alloc: Global) -> Result<Vec<u32>, AllocError> {
    let ranks = Ranks::new(alloc, 1000)?;
    let mut generator = Lcg64Xsh32::new(42, 54);
    let mut counts = vec![in alloc; 0u32; 1000]?;
    for _ in 0..100000 {
        let rank = ranks.rank(generator.next_word()) as usize;
        if let Some(count) = counts.get_mut(rank) {
            *count = count.wrapping_add(1);
        }
    }
    Ok(counts)
}

/// Whether a rank was drawn about so often.
fn is_near(counts: &[u32], rank: usize, wanted: u32) -> bool {
    match counts.get(rank) {
        Some(count) => count.abs_diff(wanted) <= 430,
        None => false,
    }
}

/// The first three ranks have 13,359, 6,680 and 4,453 of 100,000, of 1 divided by 7.4855, 2 and 3 times as much. The bound is four
/// standard deviations of the first.
#[test]
fn the_first_ranks_have_their_shares_of_draws(rt: HostRuntime) -> Result<(), Fail> {
    let counts = draws(rt.alloc())?;
    assert!(rt;
        is_near(&counts, 0, 13359) && is_near(&counts, 1, 6680) && is_near(&counts, 2, 4453)
    );
    Ok(())
}

/// How many numbers no rank of so many has, by a seed.
fn numbers_left(alloc: Global, ranks: u32, seed: u32) -> Result<usize, AllocError> {
    let mut is_left = vec![in alloc; true; ranks as usize]?;
    for rank in 0..ranks {
        is_left[scattered(ranks, seed, rank) as usize] = false;
    }
    Ok(is_left.iter().filter(|left| **left).count())
}

#[test]
fn each_number_has_a_rank(rt: HostRuntime) -> Result<(), Fail> {
    for ranks in [1, 2, 3, 5, 10, 997, 1000, 4096] {
        let left = numbers_left(rt.alloc(), ranks, 0)?;
        assert!(rt; left == 0 && numbers_left(rt.alloc(), ranks, 4294967295)? == 0);
    }
    Ok(())
}

#[test]
fn the_first_rank_has_the_number_of_the_seed(rt: HostRuntime) {
    assert!(rt;
        scattered(1000, 7, 0) == 7
            && scattered(1000, 4294967295, 0) == 295
            && scattered(1000, 7, 1) == 298
    );
}

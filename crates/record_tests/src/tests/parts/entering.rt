//! Words at the edges of a setting, and the three judgements.
use admission::{Chance, Judgement, Threshold};
use policy_laws::PreFlash;
use record_pages::Prediction;

fn admits<P: PreFlash>(policy: &P, word: u32) -> bool {
    policy.admit(word)
}

#[test]
fn the_low_bits_of_a_word_decide(rt: HostRuntime) {
    let half = Chance { of_65536: 32768 };
    assert!(rt;
        admits(&half, 32767)
            && admits(&half, 65536)
            && !admits(&half, 32768)
            && Chance { of_65536: 65536 }.admit(65535)
            && !Chance { of_65536: 0 }.admit(0)
    );
}

/// Whether as many objects for a set, the first with this prediction, are judged so.
fn is_judged(many: usize, number: u8, judgement: Judgement) -> bool {
    match Prediction::new(number) {
        Some(prediction) => Threshold { least: 2 }.judge(many, prediction) == judgement,
        None => false,
    }
}

#[test]
fn many_objects_move_and_hit_ones_stay(rt: HostRuntime) {
    assert!(rt;
        is_judged(2, 6, Judgement::Move)
            && is_judged(1, 5, Judgement::Readmit)
            && is_judged(1, 6, Judgement::Drop)
    );
}

// The fields of the two words of a node.
ghost use Rattle.std.specs.Prelude.{◌≡◌, ◌<◌, ◌^◌};
ghost use Rattle.entry_pool.specs.Words.{bits, Fits, item_of};

use crate::pool_item::PoolItem;
use record_pages::Prediction;

// The first word: tag, segment, page, slot, prediction and the next node, from the lowest bit on.
pub(crate) fn first_word(item: &PoolItem, next: u32) -> u64
    requires item { Fits item.now }
    requires next { next < 2 ^ 21 }
    ensures tag { bits 0 16 result ≡ item.now.tag }
    ensures segment { bits 16 9 result ≡ item.now.segment }
    ensures page { bits 25 6 result ≡ item.now.page }
    ensures slot { bits 31 6 result ≡ item.now.slot }
    ensures prediction { bits 37 3 result ≡ item.now.prediction }
    ensures next { bits 40 21 result ≡ next }
    ensures others { result < 2 ^ 61 }
{
    let number = item.prediction.get();
    let behind = u64::from(next) * 8 + u64::from(number);
    let place = (behind * 64 + u64::from(item.slot)) * 64 + u64::from(item.page);
    (place * 512 + u64::from(item.segment)) * 65536 + u64::from(item.tag)
}

// The second word: set, older and newer node, from the lowest bit on.
pub(crate) fn second_word(set: u32, older: u32, newer: u32) -> u64
    requires set { set < 2 ^ 16 }
    requires older { older < 2 ^ 21 }
    requires newer { newer < 2 ^ 21 }
    ensures set { bits 0 16 result ≡ set }
    ensures older { bits 16 21 result ≡ older }
    ensures newer { bits 37 21 result ≡ newer }
    ensures others { result < 2 ^ 58 }
{
    (u64::from(newer) * 2097152 + u64::from(older)) * 65536 + u64::from(set)
}

// The item that two words note.
pub(crate) fn item_of(first: u64, second: u64) -> PoolItem
    ensures { result ≡ item_of first second }
{
    let prediction = Prediction::new((first / (1 << 37) % 8) as u8).unwrap();
    PoolItem {
        set: (second % 65536) as u32,
        tag: (first % 65536) as u16,
        segment: (first / (1 << 16) % 512) as u16,
        page: (first / (1 << 25) % 64) as u8,
        slot: (first / (1 << 31) % 64) as u8,
        prediction,
    }
}

// The next node, in a first word.
pub(crate) fn next_of(first: u64) -> u32
    ensures { result ≡ bits 40 21 first }
{
    (first / (1 << 40) % (1 << 21)) as u32
}

// The older node, in a second word.
pub(crate) fn older_of(second: u64) -> u32
    ensures { result ≡ bits 16 21 second }
{
    (second / (1 << 16) % (1 << 21)) as u32
}

// The newer node, in a second word.
pub(crate) fn newer_of(second: u64) -> u32
    ensures { result ≡ bits 37 21 second }
{
    (second / (1 << 37) % (1 << 21)) as u32
}

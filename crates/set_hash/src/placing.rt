// The place of a key by its hash.
ghost use Rattle.std.specs.Prelude.{◌≡◌, ◌<◌, ◌^◌, All};
ghost use Rattle.set_hash.specs.Fnv.{fnv1a};
ghost use Rattle.set_hash.specs.Place.{placed_of, probes_of};

use crate::fnv::hash;
use crate::placed::Placed;
use record_pages::Layout;

/// Where a key belongs: a function of its bytes and of the layout's numbers of lanes and sets.
pub fn place(layout: &Layout, key: &[u8]) -> Placed
    ensures placed { result ≡ placed_of layout.now.lanes layout.now.sets (fnv1a key.now) }
    ensures lane { result.lane < layout.now.lanes }
    ensures set { result.set < layout.now.sets }
    ensures tag { result.tag < 2 ^ 16 }
    ensures probes { All (λ probe. probe < 256) result.probes }
{
    let hash = hash(key);
    let lanes = u64::from(layout.lanes);
    let number = hash % (lanes * u64::from(layout.sets));
    Placed {
        hash,
        lane: (number % lanes) as u32,
        set: (number / lanes) as u32,
        tag: (hash >> 48) as u16,
        probes: probes(hash),
    }
}

// The four bits of a filter that a hash asks for.
fn probes(hash: u64) -> [u8; 4]
    ensures { result ≡ probes_of hash }
{
    let low = hash & 0xffff_ffff;
    let high = (hash >> 32) | 1;
    [
        (low % 256) as u8,
        ((low + high) % 256) as u8,
        ((low + 2 * high) % 256) as u8,
        ((low + 3 * high) % 256) as u8,
    ]
}

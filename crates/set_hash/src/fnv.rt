// The hash of a key.
ghost use Rattle.std.specs.Prelude.{◌≡◌};
ghost use Rattle.set_hash.specs.Fnv.{fnv1a};

const OFFSET: u64 = 14695981039346656037;

const PRIME: u64 = 1099511628211;

/// The FNV-1a hash of these bytes with 64 bits (Fowler, Noll, Vo).
pub fn hash(bytes: &[u8]) -> u64
    ensures { result ≡ fnv1a bytes.now }
{
    bytes.iter().fold(OFFSET, |hash, byte| {
        (hash ^ u64::from(*byte)).wrapping_mul(PRIME)
    })
}

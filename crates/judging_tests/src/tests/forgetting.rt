//! What a judge forgets of the calls that it has read: examples by hand.
ghost use Rattle.std.specs.Prelude.{◌<◌};

use crate::tests::made::play;
use std::test::Fail;

/// After each history a stamp, what stays there, and what is left without settled hits.
static EXAMPLES: &[u8] = b"
    # Those of the README, in its order.
    new; 0 0 1 put k v1; 0 2 3 hit k v1; 0 4 5 put k v2
    forget 6 2 left 0 2
    new; 0 0 1 put k v1; 0 2 6 put k v2; 0 3 4 hit k v1; 0 3 5 hit k v2
    forget 7 1 3 left 0 1
    new; 0 0 2 put k v1; 0 1 3 put k v1; 0 4 5 hit k v1
    forget 6 0 1 2 left 0 1
    new; 0 0 1 put k v1
    forget 2 0 left 0
    # A write that ends at the stamp is no cut, and a hit of its key is not settled.
    new; 0 0 1 put k v1; 0 2 2 hit k v1; 0 4 5 remove k
    forget 5 0 1 2 left 0 1 2
    # A hit beside the second put that can have read the first one or the third one blocks it.
    new; 0 0 1 put k v1; 0 3 4 put k v2; 0 2 9 hit k v1; 0 6 7 put k v1
    forget 5 0 1 2 3 left 0 1 2 3
    # Two writes that start at one stamp, after a cut of their key and beside one of another key.
    new; 0 0 0 put k v3; 0 2 2 put k v1; 0 2 2 put k v1; 0 2 2 put j v1; 0 1 1 put j v1; 0 1 1 miss j
    forget 9 0 1 2 3 left 0 1 2 3 4 5
    # Last writes that differ by their expiries alone.
    new; 0 0 2 put k v1; 0 1 3 put k v1 5; 0 4 5 hit k v1
    forget 6 0 1 2 left 0 1 2
    new
    forget 3 left
";

#[test]
fn examples_by_hand_are_forgotten(rt: HostRuntime) -> Result<(), Fail> {
    play(rt.alloc(), EXAMPLES)
}

/// A number below a limit, from a seed.
pub(super) fn draw(seed: &mut u64, below: u64) -> u64
    requires { 0 < below }
    ensures { result < below }
{
    *seed = seed
        .wrapping_mul(6_364_136_223_846_793_005)
        .wrapping_add(1_442_695_040_888_963_407);
    (*seed >> 33) % below
}

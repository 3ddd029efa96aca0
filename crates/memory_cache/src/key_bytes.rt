// A key by its bytes alone.
ghost use Rattle.std.specs.Prelude.{nat_eq};
ghost use Rattle.std.specs.Cmp.Lexicographic.{pointwise, nat_list_eq_equiv};
ghost use Rattle.std.specs.Cmp.Rules.{hashing};
ghost use Rattle.std.proofs.Common.{rules};

use record_pages::Key;
use std::collections::hash_map::Equivalent;

/// The bytes of a key, which find it in a map if no `Key` is at hand.
#[derive(Clone, Copy, PartialEq, Eq, Hash)]
pub(crate) struct KeyBytes<'a>(pub(crate) &'a [u8]);

impl<'a> Equivalent<Key> for KeyBytes<'a> {
    ghost equivalent = { λ q k. pointwise nat_eq q.0.now k };

    ghost respects_hash = { Prim.search (hashing, rules) };

    ghost respects_eq = { λ q x y. nat_list_eq_equiv.congr q.0.now x y };

    fn equivalent(&self, key: &Key) -> bool {
        self.0 == key.bytes()
    }
}

// A key or a value of a history, as a map looks it up.
ghost use Rattle.std.specs.Prelude.{[], ◌∷◌};
ghost use Rattle.std.specs.Str.{bytes_eq};
ghost use Rattle.std.specs.Cmp.Lexicographic.{bytes_decides, nat_list_eq_equiv};
ghost use Rattle.std.specs.Cmp.{partial_equiv_from_equiv, on_per, on_equiv};
ghost use Rattle.std.proofs.Common.{ap};

use std::hash::{Hash, Hasher};

/// The bytes of a key or a value, lent by a history. They are hashed by one write, and not byte by byte.
#[derive(Clone, Copy)]
pub struct LentWord<'a> {
    /// The bytes of the word.
    pub bytes: &'a [u8],
}

impl PartialEq for LentWord<'_> {
    ghost eq = { λ a b. bytes_eq a.bytes.now b.bytes.now };

    ghost laws = { on_per (λ word. word.bytes.now) (partial_equiv_from_equiv nat_list_eq_equiv) };

    fn eq(&self, other: &Self) -> bool {
        self.bytes == other.bytes
    }
}

impl Eq for LentWord<'_> {
    ghost laws = { on_equiv (λ word. word.bytes.now) nat_list_eq_equiv };
}

impl Hash for LentWord<'_> {
    ghost hash_input = { λ word. word.bytes.now ∷ [] };

    ghost respects_eq = { λ a b same. ap (λ bytes. bytes ∷ []) ((bytes_decides a.bytes.now b.bytes.now).0 same) };

    fn hash<H: Hasher>(&self, state: &mut H) {
        state.write(self.bytes);
    }
}

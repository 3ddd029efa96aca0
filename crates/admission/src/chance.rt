// Admission by chance.
ghost use Rattle.std.specs.Prelude.{◌≡◌};
ghost use Rattle.admission.specs.Chance.{is_admitted};

use policy_laws::PreFlash;

/// Admits as many of 65,536 objects: those whose word, a uniform random number, has its low 16 bits below the
/// setting. 65536 and all above admit every object, 0 none.
#[derive(Clone, Copy, PartialEq, Eq)]
pub struct Chance {
    pub of_65536: u32,
}

impl PreFlash for Chance {
    ghost admits = { λ chance word. is_admitted chance.of_65536 word };

    fn admit(&self, word: u32) -> bool {
        word & 0xffff < self.of_65536
    }
}

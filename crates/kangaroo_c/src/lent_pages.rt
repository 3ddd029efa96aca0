// Pages that C lends.
ghost use Rattle.std.specs.Prelude.{◌≡◌, ℕ, List};
ghost use Rattle.std.specs.Borrow.{u8};
ghost use denote.Array.{Array};
ghost use Rattle.kangaroo_c.specs.Lent.{lent_values};

use crate::lent::Lent;
use std::marker::Model;

/// Pages of 4,096 bytes in memory that C lends. An export takes it by value, and C passes
/// `struct { uint8_t *at; uint32_t count; }`.
///
/// What C owes, and nothing checks: `at` is not null, even if there are no pages; `count` pages lie from there on,
/// with any bytes; and nobody else reads or writes them until what was made of them is dropped.
#[repr(C)]
#[derive(Drop)]
pub struct LentPages {
    at: *mut u8,
    count: u32,
    pub ghost pages: { List (List ℕ) },
}

impl Model for LentPages {
    ghost also_owns = { λ l. lent_values (Array u8 4096) l.at l.count l.pages };
}

impl LentPages {
    /// The pages as what a device is made of.
    pub fn into_lent(self) -> Lent<[u8; 4096]>
        ensures { result.values ≡ self.pages }
    {
        let LentPages { at, count } = self;
        let at = at as *mut [u8; 4096];
        Lent { at, count }
    }
}

// Memory that somebody lends.
ghost use Rattle.std.specs.Prelude.{◌≡◌, ◌<◌, ◌^◌, List, length};
ghost use Rattle.kangaroo_c.specs.Lent.{lent_values};

use std::marker::Model;
use std_alloc::vec::{Lodged, Vec as AnyVec, lodge};

/// Values side by side in memory that somebody made and lends. Its drop forgets them, and frees nothing.
#[derive(Drop)]
pub struct Lent<T> {
    pub(crate) at: *mut T,
    pub(crate) count: u32,
    pub ghost values: { List T },
}

impl<T> Model for Lent<T> {
    ghost also_owns = { λ l. lent_values T.row l.at l.count l.values };
}

impl<T> Lent<T> {
    /// The values as a vector that never grows and frees nothing.
    pub(crate) fn into_vec(self) -> AnyVec<T, Lodged>
        ensures { (result.items ≡ self.values) × (length result.items < 2 ^ 32) }
    {
        let Lent { at, count } = self;
        let count = count as usize;
        unsafe { lodge(at, count, count) }
    }
}

// A place in the bytes of a trace, and the fields that are read there.
ghost use Rattle.std.specs.Prelude.{◌≡◌, ◌+◌, ◌<◌, ◌^◌, All, IfOk, length};

use crate::item_fault::ItemFault;

/// A place in the bytes of a trace: its offset, and the bytes from it on.
#[derive(Clone, Copy)]
pub(crate) struct Cursor<'a> {
    pub(crate) at: u64,
    pub(crate) bytes: &'a [u8],
    ghost fits: { at + length bytes.now < 2 ^ 64 },
    ghost are_bytes: { All (λ byte. byte < 256) bytes.now },
}

impl<'a> Cursor<'a> {
    /// The place at this offset.
    pub(crate) fn new(at: u64, bytes: &'a [u8]) -> Cursor<'a>
        requires { at + length bytes.now < 2 ^ 64 }
        ensures { shown result ≡ place at bytes.now }
    {
        Cursor { at, bytes }
    }

    ghost use Rattle.std.specs.Int.{w16, w32, w64};
    ghost use Rattle.trace_file.specs.Given.{Gives, shown};
    ghost use Rattle.trace_file.specs.Reading.{place, bytes_at, byte_at, number_at};

    /// The next `count` bytes.
    pub(crate) fn bytes(self, count: usize) -> Result<(&'a [u8], Cursor<'a>), ItemFault>
        ensures read { Gives (λ x. (x.0.now, shown x.1)) result (bytes_at count (shown self.entry)) }
        ensures len { IfOk result (λ x. length x.0.now ≡ count) }
    {
        if self.bytes.len() < count {
            return Err(ItemFault::Short);
        }
        let (front, rest) = self.bytes.split_at(count);
        let behind = Cursor {
            at: self.at + count as u64,
            bytes: rest,
        };
        Ok((front, behind))
    }

    /// One byte.
    #[tactic(auto, unfolding(crate::specs::Reading::byte_at))]
    pub(crate) fn byte(self) -> Result<(u8, Cursor<'a>), ItemFault>
        ensures { Gives (λ x. (x.0, shown x.1)) result (byte_at (shown self.entry)) }
    {
        match self.bytes {
            [] => Err(ItemFault::Short),
            [first, rest @ ..] => {
                let behind = Cursor {
                    at: self.at + 1,
                    bytes: rest,
                };
                Ok((*first, behind))
            }
        }
    }

    /// A number of two bytes.
    #[tactic(auto, unfolding(crate::specs::Reading::number_at))]
    pub(crate) fn number16(self) -> Result<(u16, Cursor<'a>), ItemFault>
        ensures { Gives (λ x. (x.0, shown x.1)) result (number_at w16 (shown self.entry)) }
    {
        let (front, behind) = self.bytes(2)?;
        Ok((u16::from_be_bytes([front[0], front[1]]), behind))
    }

    /// A number of four bytes.
    #[tactic(auto, unfolding(crate::specs::Reading::number_at))]
    pub(crate) fn number32(self) -> Result<(u32, Cursor<'a>), ItemFault>
        ensures { Gives (λ x. (x.0, shown x.1)) result (number_at w32 (shown self.entry)) }
    {
        let (front, behind) = self.bytes(4)?;
        let number = u32::from_be_bytes([front[0], front[1], front[2], front[3]]);
        Ok((number, behind))
    }

    /// A number of eight bytes.
    #[tactic(auto, unfolding(crate::specs::Reading::number_at))]
    pub(crate) fn number64(self) -> Result<(u64, Cursor<'a>), ItemFault>
        ensures { Gives (λ x. (x.0, shown x.1)) result (number_at w64 (shown self.entry)) }
    {
        let (front, behind) = self.bytes(8)?;
        let number = u64::from_be_bytes([
            front[0], front[1], front[2], front[3], front[4], front[5], front[6], front[7],
        ]);
        Ok((number, behind))
    }
}

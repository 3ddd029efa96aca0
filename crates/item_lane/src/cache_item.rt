// An item whose data is lent.
ghost use Rattle.std.specs.Prelude.{◌≡◌, ◌≤◌, length, Some, IfSome};
ghost use Rattle.std.specs.Option.{option_map};
ghost use Rattle.item_lane.specs.Cells.{Kept, IsHead, kept_shown, cell_text, decoded, marked_at};

use crate::head::{EXPIRES, FLAGS, Head, STALE, WON};

/// An item whose data is lent, by a client's request or by a cell.
#[derive(Clone, Copy)]
pub struct CacheItem<'a> {
    /// What is kept of it beside the data.
    pub head: Head,
    /// Its data.
    pub bytes: &'a [u8],
}

impl<'a> CacheItem<'a> {
    /// The item that these bytes are the cell of, or `None` if they are no cell: if they end within the head, if a mark is set
    /// that has no meaning, or if flags of 0 follow. The bytes of `HeadText` and the data after them give the item.
    pub fn decode(bytes: &'a [u8]) -> Option<CacheItem<'a>>
        ensures decoded { option_map kept_shown result ≡ decoded bytes.now }
        ensures within { IfSome result (λ item. length item.bytes.now ≤ length bytes.now) }
        ensures again { (kept : Kept) → IsHead kept.head → bytes.now ≡ cell_text kept
            → option_map kept_shown result ≡ Some kept }
    {
        Self::read(bytes)
    }

    // The item that these bytes are the cell of.
    #[tactic(auto, unfolding(crate::specs::Cells::decoded))]
    fn read(bytes: &'a [u8]) -> Option<CacheItem<'a>>
        ensures decoded { option_map kept_shown result ≡ decoded bytes.now }
        ensures within { IfSome result (λ item. length item.bytes.now ≤ length bytes.now) }
    {
        let (marks, rest) = bytes.split_first()?;
        let (cas, rest) = u64_at(rest)?;
        let (flags, rest) = marked_at(*marks & FLAGS != 0, rest)?;
        let (expires, data) = marked_at(*marks & EXPIRES != 0, rest)?;
        let head = Head {
            flags: flags.unwrap_or(0),
            cas,
            expires,
            is_stale: *marks & STALE != 0,
            is_won: *marks & WON != 0,
        };
        if head.marks() != *marks {
            return None;
        }
        Some(CacheItem { head, bytes: data })
    }
}

ghost use Rattle.std.specs.Int.{w32, w64};
ghost use Rattle.record_pages.specs.Reading.{number_at};

// The number of 64 bits at the front, and the bytes after it.
fn u64_at(bytes: &[u8]) -> Option<(u64, &[u8])>
    ensures number { option_map (λ x. (x.0, x.1.now)) result ≡ number_at w64 bytes.now }
    ensures within { IfSome result (λ x. length x.1.now ≤ length bytes.now) }
{
    if bytes.len() < 8 {
        return None;
    }
    let (front, rest) = bytes.split_at(8);
    let number = u64::from_be_bytes([
        front[0], front[1], front[2], front[3], front[4], front[5], front[6], front[7],
    ]);
    Some((number, rest))
}

// The number of 32 bits at the front, and the bytes after it.
fn u32_at(bytes: &[u8]) -> Option<(u32, &[u8])>
    ensures number { option_map (λ x. (x.0, x.1.now)) result ≡ number_at w32 bytes.now }
    ensures within { IfSome result (λ x. length x.1.now ≤ length bytes.now) }
{
    if bytes.len() < 4 {
        return None;
    }
    let (front, rest) = bytes.split_at(4);
    let number = u32::from_be_bytes([front[0], front[1], front[2], front[3]]);
    Some((number, rest))
}

// The number of 32 bits at the front, if it is marked, and the bytes after it.
fn marked_at(is_marked: bool, bytes: &[u8]) -> Option<(Option<u32>, &[u8])>
    ensures number { option_map (λ x. (x.0, x.1.now)) result ≡ marked_at is_marked bytes.now }
    ensures within { IfSome result (λ x. length x.1.now ≤ length bytes.now) }
{
    if !is_marked {
        return Some((None, bytes));
    }
    match u32_at(bytes) {
        Some((number, rest)) => Some((Some(number), rest)),
        None => None,
    }
}

// The size of an object on a page, and which objects are too large.
ghost use Rattle.std.specs.Prelude.{◌<◌, ◌↔◌, IsTrue};
ghost use Rattle.record_pages.specs.Sizes.{object_size, room};

use crate::key::Key;
use crate::value::Value;

/// How many bytes a record takes beside its key and value.
pub const RECORD_OVERHEAD: usize = 12;

/// How many bytes of a page no record may take.
pub const PAGE_OVERHEAD: usize = 18;

/// The most records of a set page. The hits of a set are the bits of one word of 128, one for each place of its page.
/// So many records lie on a page of 4,096 bytes if each takes at most 31 bytes; the least takes 13.
pub const MAX_SET_RECORDS: usize = 128;

/// The most records of a log page. An entry of the log's index has room for 64 places on a page, and a page in the
/// making notes where each of 64 records begins.
pub const MAX_LOG_RECORDS: usize = 64;

// The most records of a set page that was written before there were `MAX_SET_RECORDS`. The hits of a set were the bits
// of one word of 64.
pub(crate) const MAX_FORMER_RECORDS: usize = 64;

/// Whether the object is too large for a page of `PAGE` bytes.
pub fn is_too_large<const PAGE: usize>(key: &Key, value: &Value) -> bool
    ensures { IsTrue result ↔ (room PAGE < object_size key.now value.now) }
{
    RECORD_OVERHEAD + key.bytes().len() + value.bytes().len() > PAGE.saturating_sub(PAGE_OVERHEAD)
}

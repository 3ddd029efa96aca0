// The sizes of a load of a cache that serves.
ghost use Rattle.std.specs.Prelude.{◌≡◌};
ghost use Rattle.load.specs.Settings.{bytes_in, unit_in, without_unit};
ghost use Rattle.load.specs.Sizes.{name_of};

/// A size of a load of a cache that serves, in bytes, which an option of its name gives. None is given if there is no such
/// option.
#[derive(Clone, Copy, PartialEq, Eq)]
pub enum SizeSetting {
    /// Bytes of flash, of all lanes together.
    Size,
    /// Bytes of memory, of all lanes together.
    MemoryBytes,
}

impl SizeSetting {
    /// The most bytes that a size may be.
    pub const MOST: u64 = 1125899906842624;

    /// The name of its option, without the two dashes.
    pub fn name(self) -> &'static str
        ensures { result.now ≡ name_of self }
    {
        match self {
            SizeSetting::Size => "size",
            SizeSetting::MemoryBytes => "memory-bytes",
        }
    }

    /// What it is, its range, and what it changes, for the help of its option, in lines that fit 100 columns there.
    pub fn meaning(self) -> &'static str {
        match self {
            SizeSetting::Size => {
                "Bytes of flash for all lanes together, 0 to 1125899906842624, or as\n512K, 100M or 64G. The program works out --shards, --lanes, --sets,\n--segments, --segment-pages, --entries and --memory from it: with it\nnone of them may be given."
            }
            SizeSetting::MemoryBytes => {
                "Bytes of memory for the cache, an estimate, 0 to 1125899906842624, or\nas 512K, 100M or 64G. Give it only with --size; without it, it is an\neighth of the size."
            }
        }
    }

    /// The bytes that a text gives it: digits, with or without a plus sign before them, and with a `K`, `M` or `G` after them if
    /// they count units of 2^10, 2^20 or 2^30 bytes. `None` if the text is no such number, or one that it may not be.
    pub fn bytes(self, text: &str) -> Option<u64>
        ensures { result ≡ bytes_in text.now }
    {
        let counted = split_unit(text);
        let Ok(count) = counted.digits.parse::<u64>() else {
            return None;
        };
        let Some(bytes) = count.checked_mul(counted.unit) else {
            return None;
        };
        if bytes <= SizeSetting::MOST {
            Some(bytes)
        } else {
            None
        }
    }
}

/// The bytes of a `K`, an `M` and a `G`.
const KIBI: u64 = 1024;

const MEBI: u64 = 1048576;

const GIBI: u64 = 1073741824;

/// A text that counts bytes: the number, and how many bytes each one of it is.
#[derive(Clone, Copy)]
struct Counted<'a> {
    digits: &'a str,
    unit: u64,
}

/// A text with its unit, a byte if it has none.
fn split_unit(text: &str) -> Counted<'_>
    ensures digits { result.digits.now ≡ without_unit text.now }
    ensures unit { result.unit ≡ unit_in text.now }
{
    if let Some(digits) = text.strip_suffix('K') {
        return Counted { digits, unit: KIBI };
    }
    if let Some(digits) = text.strip_suffix('M') {
        return Counted { digits, unit: MEBI };
    }
    if let Some(digits) = text.strip_suffix('G') {
        return Counted { digits, unit: GIBI };
    }
    Counted {
        digits: text,
        unit: 1,
    }
}

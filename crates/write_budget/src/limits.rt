// The numbers of a budget.

/// Milliseconds of a day. A page takes as much credit, since each millisecond gives as much as there are pages a day.
pub const MILLISECONDS_A_DAY: u64 = 86_400_000;

/// Milliseconds whose pages a budget has room for.
pub const MILLISECONDS_OF_ROOM: u64 = 60_000;

/// The most pages a day: 4 PiB of pages of 4 KiB.
pub const MAX_PAGES_A_DAY: u64 = 1_099_511_627_776;

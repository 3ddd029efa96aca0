// What the numbers of a load are, as the help tells it.

/// The meaning of `Setting::Lanes`.
pub(crate) const LANES: &str =
    "Lanes (parts of the cache, each with its own lock and device), 1 to\n16. More lanes let more calls run side by side. [default: 4]";

/// The meaning of `Setting::Sets`.
pub(crate) const SETS: &str =
    "Sets (flash pages of 4,096 bytes that hold objects) per lane, 1 to\n65536. More sets hold more objects on flash. [default: 64]";

/// The meaning of `Setting::Memory`.
pub(crate) const MEMORY: &str =
    "Objects kept in memory per lane, 1 to 1048576. A larger number takes\nmore memory and pushes fewer objects out to flash. [default: 64]";

/// The meaning of `Setting::Segments`.
pub(crate) const SEGMENTS: &str =
    "Log segments on flash per lane, 2 to 256. More segments keep objects\nin the log for longer before they move to sets. [default: 8]";

/// The meaning of `Setting::SegmentPages`.
pub(crate) const SEGMENT_PAGES: &str =
    "Flash pages of 4,096 bytes per log segment, 1 to 64. A larger number\nkeeps objects longer in the log and takes more memory. [default: 4]";

/// The meaning of `Setting::Entries`.
pub(crate) const ENTRIES: &str =
    "Entries of the log's index per lane, 1 to 1048576. More entries let\nmore objects be in the log and take more memory. [default: 4096]";

/// The meaning of `Setting::Threshold`.
pub(crate) const THRESHOLD: &str =
    "Minimum number of objects moved to a set at once, 1 to 32. A larger\nnumber writes less to flash and drops more objects. [default: 2]";

/// The meaning of `Setting::Admit`.
pub(crate) const ADMIT: &str =
    "Objects admitted to flash, of each 65536 pushed out of memory, 0 to\n65536. A larger number keeps more objects, and writes more to\nflash. [default: 65536]";

/// The meaning of `Setting::Callers`.
pub(crate) const CALLERS: &str =
    "Threads that call the cache, 1 to 64. More threads make more calls\nat once. [default: 4]";

/// The meaning of `Setting::Operations`.
pub(crate) const OPERATIONS: &str =
    "Operations per caller, 1 to 1000000. More operations take more time\nand more memory, and write a larger trace. [default: 10000]";

/// The meaning of `Setting::Keys`.
pub(crate) const KEYS: &str =
    "Keys that the callers share, 1 to 1000000. With fewer keys callers\nmeet more often on the same key. [default: 1000]";

/// The meaning of `Setting::ValueBytes`.
pub(crate) const VALUE_BYTES: &str =
    "Bytes of each value, 0 to 2048. With larger values fewer objects fit\non a flash page. [default: 100]";

/// The meaning of `Setting::Gets`.
pub(crate) const GETS: &str =
    "Share of gets, 0 to 100 per cent. What --gets and --removes leave is\nthe share of puts. [default: 70]";

/// The meaning of `Setting::Removes`.
pub(crate) const REMOVES: &str =
    "Share of removes, 0 to 100 per cent. With --gets it is 100 per cent\nat most. [default: 5]";

/// The meaning of `Setting::Workers`.
pub(crate) const WORKERS: &str =
    "Threads that write the log and move objects to sets, 1 to 16. More\nthreads keep up with more puts. [default: 2]";

/// The meaning of `Setting::Seed`.
pub(crate) const SEED: &str =
    "Seed of the random choices, 0 to 4294967295. With the same seed each\ncaller makes the same operations. How the threads interleave\ndiffers. [default: 1]";

/// The meaning of `Setting::Ttl`.
pub(crate) const TTL: &str =
    "Lifetime of a value, counted in its caller's operations, 0 to\n1000000; 0 means forever. [default: 0]";

/// The meaning of `Setting::Shards`.
pub(crate) const SHARDS: &str =
    "Shards (groups of --lanes lanes), 1 to 1024. More shards hold more\nobjects and let more calls run side by side. [default: 1]";

/// The meaning of `Setting::Leases`.
pub(crate) const LEASES: &str =
    "Lease slots per lane, 0 to 1048576; 0 turns leases off: gets that\nmiss do not fill. More slots make fewer fills stale. [default: 0]";

/// The meaning of `Setting::BringBack`.
pub(crate) const BRING_BACK: &str =
    "Of so many hits on flash one brings its object back into memory, 0\nto 1000000; 0 brings none back. A larger number brings fewer back.\nAbove 0, three of four objects in memory are copies. [default: 0]";

/// The meaning of `Setting::ServedOperations`.
pub(crate) const SERVED_OPERATIONS: &str =
    "Operations per caller, 1 to 1000000000. More operations take more\ntime, and no more memory. [default: 1000000]";

/// The meaning of `Setting::ServedKeys`.
pub(crate) const SERVED_KEYS: &str =
    "Keys of each caller, 1 to 100000000. No other caller uses them. Each\nkey takes 4 bytes of memory. [default: 1000]";

/// The meaning of `Setting::ServedValueBytes`.
pub(crate) const SERVED_VALUE_BYTES: &str =
    "Bytes of each value, 8 to 2048. With larger values fewer objects fit\non a flash page. [default: 100]";

/// The meaning of `Setting::ServedTtl`.
pub(crate) const SERVED_TTL: &str =
    "Lifetime of a value, counted in its caller's operations, 0 to\n1000000000; 0 means forever. [default: 0]";

/// The meaning of `Setting::Seconds`.
pub(crate) const SECONDS: &str =
    "Seconds after which no caller begins an operation, 0 to 2147483648;\n0 sets no limit. --operations may end it before. [default: 0]";

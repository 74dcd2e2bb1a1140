//! The server's limits: the greatest value of a word, and the most tenants, words, entries, slots, workers and bytes.
//!
//! Every layer uses them. CONTRIBUTING says under *A limit* what else must change with one, and which of them the
//! format of a file fixes.

/// The greatest value of a word, `2^48 - 1`.
pub const MAX_VALUE: u64 = 281_474_976_710_655;

/// The number at which a slot's sequence number or a worker's attempt number is worn, `2^48 - 1`. Numbers in
/// use are below it.
pub const WORN_NUMBER: u64 = 281_474_976_710_655;

/// The most pins of a gate, `2^15 - 1`.
pub const MAX_PINS: u16 = 32_767;

/// The most tenants that one server serves.
pub const MAX_TENANTS: usize = 16;

/// The most words that one tenant has. A tenant's addresses are below its own number of words.
pub const MAX_WORDS: u16 = 4096;

/// The most slots of the pool that all tenants share.
pub const MAX_POOL: u16 = 256;

/// The greatest quota. A tenant's quota is how many slots it may use at a time.
pub const MAX_QUOTA: u8 = 64;

/// The most record places of a tenant's file.
pub const MAX_PLACES: u16 = 64;

/// The most workers of one server.
pub const MAX_WORKERS: u8 = 64;

/// The most entries of one change.
pub const MAX_ENTRIES: usize = 16;

/// The most bytes of a line, without its LF.
pub const MAX_LINE: usize = 640;

/// The most bytes of a tenant's name.
pub const MAX_NAME: usize = 16;

/// The most bytes of a path in a tenants file.
pub const MAX_PATH: usize = 200;

/// The most bytes of a tenants file.
pub const MAX_TENANTS_FILE: usize = 8192;

/// The most connections that a server may be told to serve before it ends.
pub const MAX_CONNECTIONS: u32 = 1_000_000;

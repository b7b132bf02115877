// The limits of one motor, each named here alone. specs/Limits has the definitions' names, and proofs/LimitsTied what ties them.

// The last time that a call may give (7).
pub const LATEST: u64 = 1_000_000_000_000_000;

// The longest timeout or write wait that a call may give (9).
pub const LONGEST: u64 = 60_000;

// The longest window.
pub const LONGEST_WINDOW: u32 = LONGEST as u32;

// The readings that a motor holds (15), which is the last record's number too.
pub const READINGS: u16 = 96;

// The entries of a listing.
pub const ENTRIES: usize = READINGS as usize;

// The records: one for each reading, and the head in slot 0.
pub const RECORDS: usize = ENTRIES + 1;

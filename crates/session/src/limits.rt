// A line's limit.

// The longest line, in bytes.
pub const LONGEST: usize = 4096;

// The station's limit; one motor's are motor::limits.

// The motors that a station holds (4): its places.
pub const MOTORS: usize = 8;

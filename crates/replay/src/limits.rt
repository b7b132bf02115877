// What the buffers hold; proofs/LimitsTied ties them.

// A buffer's bytes; both buffers are main's.
pub const BUFFER: usize = 65536;

// Up to here an answer is put behind the others; past it they are written first.
pub const ROOM: usize = 57344;

// Of a line that fills the buffer so many bytes are kept: it is too long, whatever follows.
pub const KEPT: usize = 5000;

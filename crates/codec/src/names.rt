// Names, which are data: bytes in an array beside their number.
ghost use Rattle.std.specs.Prelude.{◌≡◌};
ghost use Rattle.codec.specs.Names.{name_in};

// A name of `length` bytes, and spaces after them.
// Kept as a row with its length: all 16 bytes cross to C (codec_parameter_name).
#[derive(Clone, Copy)]
pub struct Name {
    pub bytes: [u8; 16],
    pub length: usize,
}

// The name that stands in a row of 16 bytes, before the first space.
pub(crate) fn name_in(row: [u8; 16]) -> Name
    ensures { result ≡ name_in row }
{
    let length = row
        .iter()
        .position(|byte| *byte == b' ')
        .unwrap_or(row.len());
    Name { bytes: row, length }
}

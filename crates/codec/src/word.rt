// Values as their bits: a float's 32, a signed number's 8. A float that comes from outside or is held from outside is a Word: the
// language's floats have one NaN, and a Word keeps a NaN's sign and payload.
ghost use Rattle.std.specs.Prelude.{◌≡◌};
ghost use Rattle.std.specs.Int.{w8};
ghost use Rattle.std.proofs.Common.{of_z, to_z};
ghost use Rattle.codec.specs.Words.{value_of, word_of};

#[derive(Clone, Copy)]
pub struct Word {
    pub bits: u32,
}

// The float that a word stands for, at every pattern.
pub fn value(w: Word) -> f32
    ensures { result ≡ value_of w }
{
    let bits = w.bits;
    if (bits & 0x7FFF_FFFF) > 0x7F80_0000 {
        0.0 / 0.0
    } else {
        f32::from_bits(bits)
    }
}

// The word of a float; 7FC00000 for a NaN.
pub fn word_of(x: f32) -> Word
    ensures { result ≡ word_of x }
{
    if x != x {
        return Word { bits: 0x7FC0_0000 };
    }
    Word {
        bits: f32::to_bits(x),
    }
}

// The byte of a signed number, in two's complement.
pub fn byte_of(v: i8) -> u8
    ensures { result ≡ of_z w8 v }
{
    v.cast_unsigned()
}

// The signed number of a byte, in two's complement.
pub fn signed_of(b: u8) -> i8
    ensures { result ≡ to_z w8 b }
{
    b.cast_signed()
}

// Numbers put one after the other, each after a space, as a shape says: a letter for each number. 1, 2, 4 and 8 are so many
// hexadecimal digits, P is 16; any other letter is decimal.
ghost use Rattle.std.specs.Prelude.{◌≡◌};
ghost use Rattle.text.specs.Put.{Put, put};
ghost use Rattle.text.specs.Fields.{places_of, field_text, fields_text};

use crate::put::{Text, put_byte, put_decimal, put_hex};

// A number for each letter of the shape. No shape has more than eight letters.
pub fn put_fields(v: [u64; 8], shape: &[u8], out: &mut [u8], at: usize) -> usize
    ensures { Put out.old at (fields_text v shape.now) out.new result }
{
    let mut next = at;
    if shape.len() <= 8 {
        for (&n, &letter) in v.iter().zip(shape) {
            next = put_field(n, letter, out, next);
        }
    }
    next
}

// A space, and a number as its letter says.
fn put_field(n: u64, letter: u8, out: &mut [u8], at: usize) -> usize
    ensures { Put out.old at (field_text n letter) out.new result }
{
    let next = put_byte(out, at, b' ');
    match places(letter) {
        Some(k) => put_hex(out, next, n, k),
        None => put_decimal(out, next, n),
    }
}

#[tactic(auto, using(crate::proofs::Putting::put_whole))]
impl<const N: usize> Text<N> {
    // A number for each letter of the shape.
    pub fn put_fields(&mut self, v: [u64; 8], shape: &[u8])
        ensures { self.new ≡ put self.old (fields_text v shape.now) }
    {
        self.at = put_fields(v, shape, &mut self.bytes, self.at);
    }
}

// How many hexadecimal digits a letter asks for; none for a decimal number.
fn places(letter: u8) -> Option<usize>
    ensures { result ≡ places_of letter }
{
    match letter {
        b'1' => Some(1),
        b'2' => Some(2),
        b'4' => Some(4),
        b'8' => Some(8),
        b'P' => Some(16),
        _ => None,
    }
}

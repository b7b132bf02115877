// Numbers and values as text.
#![tactic(auto, using(text::proofs::Putting::puts_joined))]

ghost use Rattle.std.specs.Prelude.{◌≡◌};
ghost use Rattle.text.specs.Put.{put};
ghost use Rattle.answers.specs.Values as spec;

use codec::protocol::ParameterValue;
use codec::word::byte_of;
use text::Text;

// Up to two numbers, each after a space, as the shape says.
pub(crate) fn put_numbers<const N: usize>(a: u64, b: u64, shape: &[u8], out: &mut Text<N>)
    ensures { out.new ≡ put out.old (spec.numbers_text a b shape.now) }
{
    out.put_fields([a, b, 0, 0, 0, 0, 0, 0], shape);
}

// A word and a number after it, as the letter says.
pub(crate) fn put_named<const N: usize>(name: &[u8], n: u64, letter: &[u8], out: &mut Text<N>)
    ensures { out.new ≡ put out.old (spec.named_text name.now n letter.now) }
{
    out.put_bytes(name);
    put_numbers(n, 0, letter, out);
}

// The same as a line.
pub(crate) fn put_line<const N: usize>(name: &[u8], n: u64, letter: &[u8], out: &mut Text<N>)
    ensures { out.new ≡ put out.old (spec.line_text name.now n letter.now) }
{
    put_named(name, n, letter, out);
    out.put_byte(b'\n');
}

// KIND BITS
pub(crate) fn put_value<const N: usize>(value: ParameterValue, out: &mut Text<N>)
    ensures { out.new ≡ put out.old (spec.value_text value) }
{
    match value {
        ParameterValue::I8(v) => put_named(b"I8", u64::from(v.cast_unsigned()), b"2", out),
        ParameterValue::U8(v) => put_named(b"U8", u64::from(v), b"2", out),
        ParameterValue::U16(v) => put_named(b"U16", u64::from(v), b"4", out),
        ParameterValue::U32(v) => put_named(b"U32", u64::from(v), b"8", out),
        ParameterValue::F32(w) => put_named(b"F32", u64::from(w.bits), b"8", out),
    }
}

// A signed number in decimal.
pub(crate) fn put_signed<const N: usize>(v: i8, out: &mut Text<N>)
    ensures { out.new ≡ put out.old (spec.signed_text v) }
{
    if v < 0 {
        out.put_byte(b'-');
    }
    out.put_decimal(u64::from(v.unsigned_abs()));
}

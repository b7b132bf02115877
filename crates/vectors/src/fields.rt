// A reply: the refusal's number, or the answer's numbers and their text; and the parts of a request's numbers.
#![tactic(auto, using(text::proofs::Putting::puts_joined))]

ghost use Rattle.std.specs.Prelude.{◌≡◌, ◌%◌, ◌^◌};
ghost use Rattle.text.specs.Put.{put};
ghost use Rattle.vectors.specs.Text.{number_text, field_text, fields_text, refused_text, reply_text};
ghost use Rattle.vectors.specs.Numbers.{numbers, unless_refused};

use crate::requests::width;
use text::Text;

// The numbers that an answer shows, or the number of a refusal.
pub type Reply = Result<[u64; 7], u64>;

// The numbers of an answer that has up to three.
pub fn numbers(a: u64, b: u64, c: u64) -> [u64; 7]
    ensures { result ≡ numbers a b c }
{
    [a, b, c, 0, 0, 0, 0]
}

// A value beside which codec_abi, made for C, gives the number of a refusal, 0 for none.
pub fn unless_refused<T: Drop>(refusal: u64, value: T) -> Result<T, u64>
    ensures { result ≡ unless_refused refusal value }
{
    if refusal == 0 {
        return Ok(value);
    }
    Err(refusal)
}

// ---- text

// A reply: its refusal, or its numbers as the shape says.
pub fn put_reply<const N: usize>(reply: Reply, shape: &[u8], out: &mut Text<N>)
    ensures { out.new ≡ put out.old (reply_text reply shape.now) }
{
    match reply {
        Ok(v) => put_fields(v, shape, out),
        Err(n) => put_refused(n, out),
    }
}

// A refusal, by its number.
fn put_refused<const N: usize>(n: u64, out: &mut Text<N>)
    ensures { out.new ≡ put out.old (refused_text n) }
{
    out.put_bytes(b"refused ");
    out.put_decimal(n);
}

// A number for each letter of the shape, parted by spaces. No shape has more than seven letters.
#[tactic(auto, using(text::proofs::Putting::puts_joined), unfolding(crate::specs::Text::fields_upto))]
fn put_fields<const N: usize>(v: [u64; 7], shape: &[u8], out: &mut Text<N>)
    ensures { out.new ≡ put out.old (fields_text v shape.now) }
{
    if shape.len() > 7 {
        return;
    }
    for (i, &letter) in shape.iter().enumerate() {
        put_field(i, v[i], letter, out);
    }
}

// The number at place i of an answer, after a space but for the first.
fn put_field<const N: usize>(i: usize, n: u64, letter: u8, out: &mut Text<N>)
    ensures { out.new ≡ put out.old (field_text i n letter) }
{
    if i > 0 {
        out.put_byte(b' ');
    }
    put_number(n, letter, out);
}

// A number with as many digits as its letter says; for K the word `ok`.
fn put_number<const N: usize>(n: u64, letter: u8, out: &mut Text<N>)
    ensures { out.new ≡ put out.old (number_text n letter) }
{
    match letter {
        b'K' => out.put_bytes(b"ok"),
        _ => out.put_hex(n, width(letter)),
    }
}

// ---- numbers: `as` may lose nothing, so what is kept is taken first

pub fn low8(n: u64) -> u8
    ensures { result ≡ n % 2 ^ 8 }
{
    (n % 0x100) as u8
}

pub fn low16(n: u64) -> u16
    ensures { result ≡ n % 2 ^ 16 }
{
    (n % 0x1_0000) as u16
}

pub fn low32(n: u64) -> u32
    ensures { result ≡ n % 2 ^ 32 }
{
    (n % 0x1_0000_0000) as u32
}

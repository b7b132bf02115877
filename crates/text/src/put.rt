// Text put into a lent buffer at a place, or after what stands in a buffer already. No put asks for room: what doesn't fit
// is dropped. The whole buffer is promised, with room and without.
ghost use Rattle.std.specs.Prelude.{◌≡◌, [], ◌∷◌, ◌≤◌, ◌<◌};
ghost use Rattle.text.specs.Put.{Put, put, no_text, text_as_bytes, glyph_of, digits_text, decimal_in, decimal_text};

// ---- at a place of a buffer of any length; each function answers the next place

// One byte.
pub fn put_byte(out: &mut [u8], at: usize, b: u8) -> usize
    ensures { Put out.old at (b ∷ []) out.new result }
{
    if at < out.len() {
        out[at] = b;
        return at + 1;
    }
    at
}

// The bytes of s.
pub fn put_bytes(out: &mut [u8], at: usize, s: &[u8]) -> usize
    ensures { Put out.old at s.now out.new result }
{
    if at < out.len() {
        let k = s.len().min(out.len() - at);
        out[at..at + k].copy_from_slice(&s[..k]);
        return at + k;
    }
    at
}

// The last k hexadecimal digits of n, in capitals.
pub fn put_hex(out: &mut [u8], at: usize, n: u64, k: usize) -> usize
    ensures { Put out.old at (digits_text 16 k n) out.new result }
{
    put_digits::<16>(out, at, n, k)
}

// The last k decimal digits of n.
pub fn put_places(out: &mut [u8], at: usize, n: u64, k: usize) -> usize
    ensures { Put out.old at (digits_text 10 k n) out.new result }
{
    put_digits::<10>(out, at, n, k)
}

// n in decimal, with no zero in front.
pub fn put_decimal(out: &mut [u8], at: usize, n: u64) -> usize
    ensures { Put out.old at (decimal_text n) out.new result }
{
    put_decimal_in(out, at, n, 20)
}

// The last k digits of n in a base.
fn put_digits<const BASE: u64>(out: &mut [u8], at: usize, n: u64, k: usize) -> usize
    requires { (0 < BASE) × (BASE ≤ 16) }
    ensures { Put out.old at (digits_text BASE k n) out.new result }
{
    if k == 0 {
        return at;
    }
    let next = put_digits::<BASE>(out, at, n / BASE, k - 1);
    put_byte(out, next, glyph(n % BASE))
}

// n in decimal, with no zero in front, of at most k digits.
fn put_decimal_in(out: &mut [u8], at: usize, n: u64, k: usize) -> usize
    ensures { Put out.old at (decimal_in k n) out.new result }
{
    if k == 0 {
        return at;
    }
    if n < 10 {
        return put_byte(out, at, glyph(n));
    }
    let next = put_decimal_in(out, at, n / 10, k - 1);
    put_byte(out, next, glyph(n % 10))
}

// A digit as a byte: 0 to 9, A to F.
#[tactic(auto, unfolding(crate::specs::Put::glyph_of))]
fn glyph(d: u64) -> u8
    requires { d < 16 }
    ensures { result ≡ glyph_of d }
{
    if d < 10 {
        return b'0' + d as u8;
    }
    b'A' + (d - 10) as u8
}

// ---- after the text of a buffer whose length is known

// A buffer of N bytes, and the place of the next byte of its text. Past the end nothing is put.
#[derive(Drop)]
pub struct Text<const N: usize> {
    pub bytes: [u8; N],
    pub at: usize,
}

#[tactic(auto, using(crate::proofs::Putting::put_whole))]
impl<const N: usize> Text<N> {
    // A buffer with no text.
    pub fn new() -> Self
        ensures { result ≡ no_text N }
    {
        Text {
            bytes: [0; N],
            at: 0,
        }
    }

    // The text put so far.
    pub fn as_bytes(&self) -> &[u8]
        ensures { result.now ≡ text_as_bytes self.now }
    {
        &self.bytes[..self.at.min(N)]
    }

    // One byte.
    pub fn put_byte(&mut self, b: u8)
        ensures { self.new ≡ put self.old (b ∷ []) }
    {
        self.at = put_byte(&mut self.bytes, self.at, b);
    }

    // The bytes of s.
    pub fn put_bytes(&mut self, s: &[u8])
        ensures { self.new ≡ put self.old s.now }
    {
        self.at = put_bytes(&mut self.bytes, self.at, s);
    }

    // The last k hexadecimal digits of n, in capitals.
    pub fn put_hex(&mut self, n: u64, k: usize)
        ensures { self.new ≡ put self.old (digits_text 16 k n) }
    {
        self.at = put_hex(&mut self.bytes, self.at, n, k);
    }

    // The last k decimal digits of n.
    pub fn put_places(&mut self, n: u64, k: usize)
        ensures { self.new ≡ put self.old (digits_text 10 k n) }
    {
        self.at = put_places(&mut self.bytes, self.at, n, k);
    }

    // n in decimal, with no zero in front.
    pub fn put_decimal(&mut self, n: u64)
        ensures { self.new ≡ put self.old (decimal_text n) }
    {
        self.at = put_decimal(&mut self.bytes, self.at, n);
    }
}

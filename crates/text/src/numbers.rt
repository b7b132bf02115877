// The number that a word stands for. A word with no digit, with a byte that is no digit of its
// base, or of 2^64 or more, is no number.
ghost use Rattle.std.specs.Prelude.{◌≡◌};
ghost use Rattle.text.specs.Numbers.{digit_of, one_more, digits_in, number_in};

// A decimal number, or a hexadecimal one after 0x.
#[tactic(auto, unfolding(crate::specs::Numbers::number_in))]
pub fn number(w: &[u8]) -> Option<u64>
    ensures { result ≡ number_in w.now }
{
    match w {
        [b'0', b'x', _, ..] => hex_word(&w[2..]),
        _ => decimal_word(w),
    }
}

// A hexadecimal number, with no 0x; digits of either case.
pub fn hex_word(w: &[u8]) -> Option<u64>
    ensures { result ≡ digits_in 16 w.now }
{
    digits::<16>(w)
}

// A decimal number.
pub fn decimal_word(w: &[u8]) -> Option<u64>
    ensures { result ≡ digits_in 10 w.now }
{
    digits::<10>(w)
}

// The number that the digits of w are in a base.
fn digits<const BASE: u64>(w: &[u8]) -> Option<u64>
    ensures { result ≡ digits_in BASE w.now }
{
    if w.is_empty() {
        return None;
    }
    let mut n = 0;
    for &b in w {
        n = one_more::<BASE>(n, digit(b)?)?;
    }
    Some(n)
}

// n with the digit d after it, in a base of which d may be no digit.
fn one_more<const BASE: u64>(n: u64, d: u64) -> Option<u64>
    ensures { result ≡ one_more BASE n d }
{
    if d >= BASE {
        return None;
    }
    n.checked_mul(BASE)?.checked_add(d)
}

// What a digit stands for: 0 to 9, A to F, a to f.
#[tactic(auto, unfolding(crate::specs::Numbers::digit_of))]
fn digit(b: u8) -> Option<u64>
    ensures { result ≡ digit_of b }
{
    match b {
        b'0'..=b'9' => Some(u64::from(b - b'0')),
        b'A'..=b'F' => Some(u64::from(b - b'A') + 10),
        b'a'..=b'f' => Some(u64::from(b - b'a') + 10),
        _ => None,
    }
}

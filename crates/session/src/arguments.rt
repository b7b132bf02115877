// The arguments of an event, by its shape: a letter for each word after the first.
//
// T a number. I a motor's id or a host, P a protocol: handed in as the most that its type holds where it is above that. B a number
// up to 255, H up to 65,535, W up to 2^32 - 1, F up to 1. D a payload of 16 digits. C a mode, K a kind. X any word.
ghost use Rattle.std.specs.Prelude.{◌≡◌, ◌%◌, ◌^◌};
ghost use Rattle.session.specs.Arguments.{most_of, is_capped, bounded, number_for, named_in, payload_in, any_in, argument_of, arguments_of};

use crate::event::Reason;
use crate::table::{KINDS, MODES};

// The numbers of the words after the first, one for each letter of the shape: a name's is its place among the names. No shape
// has more than eight letters.
#[tactic(auto, using(crate::proofs::Reading::words_read), unfolding(crate::specs::Arguments::arguments_of, crate::specs::Arguments::numbers_of))]
pub(crate) fn arguments(line: &[u8], shape: &[u8]) -> Result<[u64; 8], Reason>
    ensures { result ≡ arguments_of line.now shape.now }
{
    if text::word_count(line) != shape.len() + 1 {
        return Err(Reason::WordCount(shape.len() + 1));
    }
    if shape.len() > 8 {
        return Err(Reason::BadWord(2, shape[0]));
    }
    let mut v = [0; 8];
    for (i, &letter) in shape.iter().enumerate() {
        v[i] = argument(text::word(line, i + 1), letter).ok_or(Reason::BadWord(i + 2, letter))?;
    }
    Ok(v)
}

// The number that a word is for a letter of a shape.
#[tactic(auto, unfolding(crate::specs::Arguments::argument_of))]
fn argument(w: &[u8], letter: u8) -> Option<u64>
    ensures { result ≡ argument_of w.now letter }
{
    match letter {
        b'C' => named(&MODES, w),
        b'K' => named(&KINDS, w),
        b'D' => payload(w),
        b'X' => any(w),
        _ => number_for(w, letter),
    }
}

// The place of a word among names.
fn named(names: &[u8], w: &[u8]) -> Option<u64>
    ensures { result ≡ named_in names.now w.now }
{
    text::which(names, text::word_count(names), w).map(|k| k as u64)
}

// Sixteen hexadecimal digits.
fn payload(w: &[u8]) -> Option<u64>
    ensures { result ≡ payload_in w.now }
{
    if w.len() != 16 {
        return None;
    }
    text::hex_word(w)
}

// A word, whatever it is.
fn any(w: &[u8]) -> Option<u64>
    ensures { result ≡ any_in w.now }
{
    (!w.is_empty()).then_some(0)
}

// A number within what its letter allows.
fn number_for(w: &[u8], letter: u8) -> Option<u64>
    ensures { result ≡ number_for w.now letter }
{
    bounded(text::number(w)?, letter)
}

#[tactic(auto, unfolding(crate::specs::Arguments::bounded))]
fn bounded(n: u64, letter: u8) -> Option<u64>
    ensures { result ≡ bounded n letter }
{
    let most = most_of(letter);
    if n <= most {
        return Some(n);
    }
    is_capped(letter).then_some(most)
}

// The most that a letter's number may be.
#[tactic(auto, unfolding(crate::specs::Arguments::most_of))]
fn most_of(letter: u8) -> u64
    ensures { result ≡ most_of letter }
{
    match letter {
        b'I' | b'H' => 0xFFFF,
        b'P' | b'B' => 0xFF,
        b'W' => 0xFFFF_FFFF,
        b'F' => 1,
        _ => u64::MAX,
    }
}

// Whether a number above that is handed in as that.
#[tactic(auto, unfolding(crate::specs::Arguments::is_capped))]
fn is_capped(letter: u8) -> bool
    ensures { result ≡ is_capped letter }
{
    matches!(letter, b'I' | b'P')
}

// The low bits of a number. Three of a kind: an `as` may lose none, and std has no truncating conversion.
pub(crate) fn low8(n: u64) -> u8
    ensures { result ≡ n % 2 ^ 8 }
{
    (n % 0x100) as u8
}

pub(crate) fn low16(n: u64) -> u16
    ensures { result ≡ n % 2 ^ 16 }
{
    (n % 0x1_0000) as u16
}

pub(crate) fn low32(n: u64) -> u32
    ensures { result ≡ n % 2 ^ 32 }
{
    (n % 0x1_0000_0000) as u32
}

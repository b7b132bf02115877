// The words of a line. Words are parted by single spaces, so a line has one word more than it has
// spaces, and two spaces together part an empty word.
ghost use Rattle.std.specs.Prelude.{◌≡◌, ◌+◌, drop};
ghost use Rattle.text.specs.Words.{word_count, part_at, word_at, past_word, which_in};

use crate::search::position_of;

// How many words s has.
#[tactic(auto, unfolding(crate::specs::Words::word_count))]
pub fn word_count(s: &[u8]) -> usize
    ensures { result ≡ word_count s.now }
{
    s.iter().filter(|&&x| x == b' ').count() + 1
}

// Word k of s, counted from 0; empty where s has no such word.
pub fn word(s: &[u8], k: usize) -> &[u8]
    ensures { result.now ≡ word_at s.now k }
{
    part(s, b' ', k)
}

// Part k of s, counted from 0, where the byte b stands between parts; empty where s has no such part.
pub fn part(s: &[u8], b: u8, k: usize) -> &[u8]
    ensures { result.now ≡ part_at b s.now k }
{
    s.split(|x| *x == b).nth(k).unwrap_or(&[])
}

// What follows place k of s; nothing where s ends before.
pub fn past(s: &[u8], k: usize) -> &[u8]
    ensures { result.now ≡ drop (k + 1) s.now }
{
    if k < s.len() {
        return &s[k + 1..];
    }
    &[]
}

// The first word of s, and what follows its space.
pub fn first_word(s: &[u8]) -> (&[u8], &[u8])
    ensures word { result.0.now ≡ word_at s.now 0 }
    ensures rest { result.1.now ≡ past_word s.now }
{
    match position_of(s, b' ') {
        Some(end) => (&s[..end], &s[end + 1..]),
        None => (s, &s[s.len()..]),
    }
}

// What follows the first space of s; nothing where there is none.
pub fn past_word(s: &[u8]) -> &[u8]
    ensures { result.now ≡ past_word s.now }
{
    first_word(s).1
}

// Which of the first n words of names w is, the first that it is, if there is one.
#[tactic(auto, using(crate::proofs::Reading::names_passed))]
pub fn which(names: &[u8], n: usize, w: &[u8]) -> Option<usize>
    ensures { result ≡ which_in names.now n w.now }
{
    let mut rest = names;
    for k in 0..n {
        let (name, behind) = first_word(rest);
        if w == name {
            return Some(k);
        }
        rest = behind;
    }
    None
}

// A byte looked for among others.
ghost use Rattle.std.specs.Prelude.{◌≡◌, ◌+◌, ◌≤◌, length};
ghost use Rattle.text.specs.Search.{index_of, position_of, slice};

// The place of the first b of s, if there is one.
pub fn position_of(s: &[u8], b: u8) -> Option<usize>
    ensures { result ≡ position_of b s.now }
{
    s.iter().position(|x| *x == b)
}

// The place of the first b of s at or after `from` and below `to`, or `to`.
pub fn find(s: &[u8], from: usize, to: usize, b: u8) -> usize
    requires order { from ≤ to }
    requires inside { to ≤ length s.now }
    ensures place { result ≡ from + index_of b (slice from to s.now) }
    ensures within { result ≤ to }
{
    match position_of(&s[from..to], b) {
        Some(k) => from + k,
        None => to,
    }
}

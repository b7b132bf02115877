// Payloads, names, refusals and flags as numbers.
ghost use Rattle.std.specs.Prelude.{◌≡◌, ◌≤◌};
ghost use Rattle.codec_abi.specs.Packing.{payload_of, packed, first_half, second_half, refusal_in, flag};

use codec::error::{Refusal, number};

// The eight bytes of a number, the lowest first.
pub(crate) fn payload_of(n: u64) -> [u8; 8]
    ensures { result ≡ payload_of n }
{
    n.to_le_bytes()
}

// The number of eight bytes, the lowest first.
pub(crate) fn packed(payload: [u8; 8]) -> u64
    ensures { result ≡ packed payload }
{
    u64::from_le_bytes(payload)
}

// The numbers of the first eight and the last eight of 16 bytes.
pub(crate) fn halves(b: [u8; 16]) -> (u64, u64)
    ensures { (result.0 ≡ first_half b) × (result.1 ≡ second_half b) }
{
    let first = packed([b[0], b[1], b[2], b[3], b[4], b[5], b[6], b[7]]);
    let second = packed([b[8], b[9], b[10], b[11], b[12], b[13], b[14], b[15]]);
    (first, second)
}

// The number of a refusal, and 0 where there is none.
pub(crate) fn refusal_in(said: Result<(), Refusal>) -> u8
    ensures { result ≡ refusal_in said }
{
    match said {
        Ok(()) => 0,
        Err(refusal) => number(refusal),
    }
}

// What a flag adds to a word of flags.
pub(crate) fn flag(set: bool, weight: u16) -> u16
    ensures { (result ≡ flag set weight) × (result ≤ weight) }
{
    u16::from(set) * weight
}

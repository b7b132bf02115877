// A frame heard: a line of a candump log.
ghost use Rattle.std.specs.Prelude.{◌≡◌};
ghost use Rattle.session.specs.Heard as spec;

use crate::arguments::{low8, low32};
use crate::event::{Line, Reason, hands};
use crate::frame::can_frame;
use codec::bus::CanFrame;

// (SECONDS.MICROS) IFACE ID#DATA, and perhaps R or T
#[tactic(auto, unfolding(crate::specs::Heard::heard_in))]
pub(crate) fn heard(line: &[u8]) -> Result<Line, Reason>
    ensures { result ≡ spec.heard_in line.now }
{
    let n = text::word_count(line);
    if n < 3 || 4 < n || text::word(line, 1).is_empty() {
        return Err(Reason::LogWords);
    }
    if !is_direction(n, text::word(line, 3)) {
        return Err(Reason::Direction);
    }
    let time = stamp(text::word(line, 0)).ok_or(Reason::Stamp)?;
    let frame = logged_frame(text::word(line, 2))?;
    Ok(hands(frame, time))
}

// Whether a fourth word, if there is one, is R or T.
fn is_direction(n: usize, w: &[u8]) -> bool
    ensures { result ≡ spec.is_direction n w.now }
{
    n < 4 || text::which(b"R T", 2, w).is_some()
}

// (SECONDS.MICROS), in whole milliseconds, where these are below 2^64.
#[tactic(auto, using(crate::proofs::Reading::stamp_parts), unfolding(crate::specs::Heard::milliseconds_of))]
fn stamp(w: &[u8]) -> Option<u64>
    ensures { result ≡ spec.stamp_of w.now }
{
    let n = w.len();
    if n < 10 || w[n - 1] != b')' || w[n - 8] != b'.' {
        return None;
    }
    let seconds = text::decimal_word(&w[1..n - 8])?;
    let micros = text::decimal_word(&w[n - 7..n - 1])?;
    seconds.checked_mul(1000)?.checked_add(micros / 1000)
}

// ID#DATA
#[tactic(auto, unfolding(crate::specs::Heard::logged_frame))]
fn logged_frame(w: &[u8]) -> Result<CanFrame, Reason>
    ensures { result ≡ spec.logged_frame w.now }
{
    let end = text::position_of(w, b'#').ok_or(Reason::FrameId)?;
    let id = id_of(&w[..end]).ok_or(Reason::FrameId)?;
    if 0x1FFF_FFFF < id {
        return Err(Reason::ErrorFrame);
    }
    data_frame(&w[end + 1..], low32(id), end == 8)
}

// Eight digits, or three.
fn id_of(w: &[u8]) -> Option<u64>
    ensures { result ≡ spec.id_of w.now }
{
    match w.len() {
        8 | 3 => text::hex_word(w),
        _ => None,
    }
}

// Up to eight bytes, two digits each. Where an R stands the frame is a remote one, and where a second # stands a CAN FD frame.
#[tactic(auto, unfolding(crate::specs::Heard::data_frame))]
fn data_frame(w: &[u8], id: u32, extended: bool) -> Result<CanFrame, Reason>
    ensures { result ≡ spec.data_frame w.now id extended }
{
    match w {
        [b'R', ..] => return Err(Reason::RemoteFrame),
        [b'#', ..] => return Err(Reason::FdFrame),
        _ => {}
    }
    let bytes = data_of(w).ok_or(Reason::FrameData)?;
    let dlc = low8(w.len() as u64 / 2);
    Ok(can_frame(id, bytes, extended, dlc, true))
}

// The digits with zeros after them to 16, as one number.
#[tactic(auto, unfolding(crate::specs::Heard::data_of))]
fn data_of(w: &[u8]) -> Option<u64>
    ensures { result ≡ spec.data_of w.now }
{
    let n = w.len();
    if n == 0 {
        return Some(0);
    }
    if 16 < n || n % 2 == 1 {
        return None;
    }
    shifted(text::hex_word(w)?, 16 - n)
}

// k zeros put after the digits of v.
#[tactic(auto, using(crate::proofs::Reading::zeros_put))]
fn shifted(v: u64, k: usize) -> Option<u64>
    ensures { result ≡ spec.shifted_by v k }
{
    let mut n = v;
    for _ in 0..k {
        n = n.checked_mul(16)?;
    }
    Some(n)
}

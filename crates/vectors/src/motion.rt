// Replies about motion and status values. A float is its 32-bit word.
ghost use Rattle.std.specs.Prelude.{◌≡◌, ◌%◌, ◌^◌};
ghost use Rattle.vectors.specs.Numbers.{float_of, bits_of};
ghost use Rattle.vectors.specs.Answers as answer;

use crate::fields::{Reply, low16, low32, numbers, unless_refused};
use codec_abi::values;

// A float's bits.
fn bits_of(x: f32) -> u64
    ensures { result ≡ bits_of x }
{
    u64::from(values::codec_word_of(x))
}

// The float of the low 32 bits.
fn value(n: u64) -> f32
    ensures { result ≡ float_of (n % 2 ^ 32) }
{
    values::codec_value(low32(n))
}

pub fn motion_raw(v: [u64; 6]) -> Reply
    ensures { result ≡ answer.motion_raw v }
{
    let raw = values::codec_motion_raw(value(v[0]), value(v[1]));
    Ok(numbers(u64::from(raw), 0, 0))
}

pub fn gain_raw(v: [u64; 6]) -> Reply
    ensures { result ≡ answer.gain_raw v }
{
    let raw = values::codec_gain_raw(value(v[0]), value(v[1]));
    Ok(numbers(u64::from(raw), 0, 0))
}

pub fn status_value(v: [u64; 6]) -> Reply
    ensures { result ≡ answer.status_value v }
{
    let x = values::codec_status_value(low16(v[0]), value(v[1]));
    Ok(numbers(bits_of(x), 0, 0))
}

pub fn temperature(v: [u64; 6]) -> Reply
    ensures { result ≡ answer.temperature v }
{
    let x = values::codec_temperature(low16(v[0]));
    Ok(numbers(bits_of(x), 0, 0))
}

// A model's limits, or the refusal of its name.
fn limits_named(name: &[u8]) -> Result<[f32; 5], u64>
    ensures { result ≡ answer.limits_named name.now }
{
    let mut limits = [0.0f32; 5];
    let n = values::codec_model_limits(name, &mut limits);
    unless_refused(u64::from(n), limits)
}

pub fn model_limits(name: &[u8]) -> Reply
    ensures { result ≡ answer.model_limits name.now }
{
    let m = limits_named(name)?;
    Ok([
        bits_of(m[0]),
        bits_of(m[1]),
        bits_of(m[2]),
        bits_of(m[3]),
        bits_of(m[4]),
        0,
        0,
    ])
}

// Position, velocity, kp, kd and torque.
fn targets(v: [u64; 6]) -> [f32; 5]
    ensures { result ≡ answer.targets v }
{
    [
        value(v[0]),
        value(v[1]),
        value(v[2]),
        value(v[3]),
        value(v[4]),
    ]
}

pub fn encode_mit_command(v: [u64; 6], name: &[u8]) -> Reply
    ensures { result ≡ answer.encode_mit_command v name.now }
{
    let m = limits_named(name)?;
    let x = targets(v);
    let mut bytes: u64 = 0;
    let extra = values::codec_encode_mit_command(
        x[0], x[1], x[2], x[3], x[4], m[0], m[1], m[2], m[3], m[4], &mut bytes,
    );
    Ok(numbers(u64::from(extra), bytes.swap_bytes(), 0))
}

// Mode, device and flags, then the four values.
pub fn decode_status_frame(v: [u64; 6], name: &[u8]) -> Reply
    ensures { result ≡ answer.decode_status_frame v name.now }
{
    let m = limits_named(name)?;
    let mut x = [0.0f32; 4];
    let bytes = v[1].swap_bytes();
    let said = values::codec_decode_status_frame(low16(v[0]), bytes, m[0], m[1], m[2], &mut x);
    let said = u64::from(said);
    Ok([
        said,
        said / 0x100,
        said / 0x1_0000,
        bits_of(x[0]),
        bits_of(x[1]),
        bits_of(x[2]),
        bits_of(x[3]),
    ])
}

// Motion values: a command's targets and gains as raw 16-bit numbers, in f32, each operation
// rounded once.
ghost use Rattle.std.specs.Prelude.{◌≡◌};
ghost use Rattle.std.specs.Float.Ieee.{to_unsigned};
ghost use Rattle.codec.specs.Motion.{clamp, motion_raw, gain_raw, raw_payload, encode_mit_command};

use crate::model::Limits;

// A motion command: the extra field and the payload of its frame.
#[derive(Clone, Copy)]
pub struct MitCommand {
    pub extra_data: u16,
    pub payload: [u8; 8],
}

// v held between lo and hi; a NaN stays.
#[tactic(auto, unfolding(crate::specs::Motion::clamp))]
fn clamp(v: f32, lo: f32, hi: f32) -> f32
    ensures { result ≡ clamp v lo hi }
{
    if v < lo {
        return lo;
    }
    if v > hi {
        return hi;
    }
    v
}

// What a NaN gives.
const RAW_OF_NAN: u16 = 0;

// The fraction cut off, worked out from the bits (sign, exponent, digits): 0 for a NaN and below 1,
// 65535 from 65536 on.
// Kept in place of std::num's cast: truncation is to be the program's own (docs/DECISIONS.md).
fn trunc_u16(x: f32) -> u16
    ensures { result ≡ to_unsigned 16 x }
{
    if x != x {
        return RAW_OF_NAN;
    }
    let bits: u32 = f32::to_bits(x);
    if bits < 0x3F80_0000 {
        return 0;
    }
    if bits < 0x4780_0000 {
        let digits: u32 = (bits & 0x7F_FFFF) | 0x80_0000;
        return (digits >> (150 - (bits >> 23))) as u16;
    }
    if bits < 0x8000_0000 {
        return 65535;
    }
    0
}

// The raw form of a position, a velocity or a torque v, of limit m.
pub fn motion_raw(v: f32, m: f32) -> u16
    ensures { result ≡ motion_raw v m }
{
    let unit = clamp(v, -m, m) / m;
    trunc_u16((unit + 1.0) * 32767.0)
}

// The raw form of a gain v, of limit m.
pub fn gain_raw(v: f32, m: f32) -> u16
    ensures { result ≡ gain_raw v m }
{
    let unit = clamp(v, 0.0, m) / m;
    trunc_u16(unit * 65535.0)
}

// The payload's four raw numbers, each high byte first.
fn raw_payload(position: u16, velocity: u16, kp: u16, kd: u16) -> [u8; 8]
    ensures { result ≡ raw_payload position velocity kp kd }
{
    let [p1, p0] = position.to_be_bytes();
    let [v1, v0] = velocity.to_be_bytes();
    let [kp1, kp0] = kp.to_be_bytes();
    let [kd1, kd0] = kd.to_be_bytes();
    [p1, p0, v1, v0, kp1, kp0, kd1, kd0]
}

// A motion command of these targets and gains: the torque goes into the extra field.
// The five stand one by one, as in the Rust's function and in codec_encode_mit_command.
pub fn encode_mit_command(
    position: f32,
    velocity: f32,
    kp: f32,
    kd: f32,
    torque: f32,
    limits: Limits,
) -> MitCommand
    ensures { result ≡ encode_mit_command position velocity kp kd torque limits }
{
    let payload = raw_payload(
        motion_raw(position, limits.position),
        motion_raw(velocity, limits.velocity),
        gain_raw(kp, limits.kp),
        gain_raw(kd, limits.kd),
    );
    MitCommand {
        extra_data: motion_raw(torque, limits.torque),
        payload,
    }
}

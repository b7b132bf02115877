// Floats, motion values and status values.
ghost use Rattle.std.specs.Prelude.{◌≡◌, ◌≤◌};
ghost use Rattle.codec.specs.Words.{value_of, word_of};
ghost use Rattle.codec.specs.Models.{model_limits};
ghost use Rattle.codec.specs.Motion.{motion_raw, gain_raw, encode_mit_command};
ghost use Rattle.codec.specs.Status.{status_value, temperature_of, decode_status_frame};
ghost use Rattle.codec_abi.specs.Packing.{payload_of, packed};
ghost use Rattle.codec_abi.specs.Numbers.{word_at, all_limits, motion_limits, limits_refusal, limits_list, status_bits, status_number, status_list};

use crate::packing::{flag, packed, payload_of};
use codec::error::number;
use codec::model::Limits;
use codec::status::StatusFlags;
use codec::word::Word;

// The float that a word stands for.
pub fn codec_value(word: u32) -> f32
    ensures { result ≡ value_of (word_at word) }
{
    codec::word::value(Word { bits: word })
}

// The word of a float; 7FC00000 for a NaN.
pub fn codec_word_of(x: f32) -> u32
    ensures { result ≡ (word_of x).bits }
{
    let w = codec::word::word_of(x);
    w.bits
}

// The raw form of a position, a velocity or a torque v, of limit m.
pub fn codec_motion_raw(v: f32, m: f32) -> u16
    ensures { result ≡ motion_raw v m }
{
    codec::motion::motion_raw(v, m)
}

// The raw form of a gain v, of limit m.
pub fn codec_gain_raw(v: f32, m: f32) -> u16
    ensures { result ≡ gain_raw v m }
{
    codec::motion::gain_raw(v, m)
}

// The position, velocity or torque that a raw number stands for, of limit m.
pub fn codec_status_value(raw: u16, m: f32) -> f32
    ensures { result ≡ status_value raw m }
{
    codec::status::status_value(raw, m)
}

// The temperature that a raw number stands for, in °C.
pub fn codec_temperature(raw: u16) -> f32
    ensures { result ≡ temperature_of raw }
{
    codec::status::temperature(raw)
}

// The limits of a model: position, velocity, torque, kp, kd. The refusal of an unknown name, for
// which they are 0.
pub fn codec_model_limits(name: &[u8], out: &mut [f32; 5]) -> u8
    ensures { (result ≡ limits_refusal (model_limits name.now)) × (out.new ≡ limits_list (model_limits name.now)) }
{
    match codec::model::model_limits(name) {
        Ok(limits) => {
            *out = [
                limits.position,
                limits.velocity,
                limits.torque,
                limits.kp,
                limits.kd,
            ];
            0
        }
        Err(refusal) => {
            *out = [0.0, 0.0, 0.0, 0.0, 0.0];
            number(refusal)
        }
    }
}

// A motion command: its extra field, and its payload.
pub fn codec_encode_mit_command(
    position: f32,
    velocity: f32,
    kp: f32,
    kd: f32,
    torque: f32,
    pmax: f32,
    vmax: f32,
    tmax: f32,
    kp_max: f32,
    kd_max: f32,
    payload: &mut u64,
) -> u16
    ensures { (result ≡ (encode_mit_command position velocity kp kd torque (all_limits pmax vmax tmax kp_max kd_max)).extra_data) × (payload.new ≡ packed (encode_mit_command position velocity kp kd torque (all_limits pmax vmax tmax kp_max kd_max)).payload) }
{
    let limits = Limits {
        position: pmax,
        velocity: vmax,
        torque: tmax,
        kp: kp_max,
        kd: kd_max,
    };
    let command = codec::motion::encode_mit_command(position, velocity, kp, kd, torque, limits);
    let bytes = command.payload;
    *payload = packed(bytes);
    command.extra_data
}

// The flags of a status frame, from bit 0 on.
fn status_bits(f: StatusFlags) -> u16
    ensures { (result ≡ status_bits f) × (result ≤ 63) }
{
    flag(f.uncalibrated, 0x1)
        + flag(f.stall, 0x2)
        + flag(f.magnetic_encoder_fault, 0x4)
        + flag(f.overtemperature, 0x8)
        + flag(f.overcurrent, 0x10)
        + flag(f.undervoltage, 0x20)
}

// A status frame: mode_state + device × 2^8 + flags × 2^16. Its values: position, velocity, torque
// and temperature.
pub fn codec_decode_status_frame(
    extra_data: u16,
    payload: u64,
    pmax: f32,
    vmax: f32,
    tmax: f32,
    values: &mut [f32; 4],
) -> u32
    ensures { (result ≡ status_number (decode_status_frame extra_data (payload_of payload) (motion_limits pmax vmax tmax)).flags) × (values.new ≡ status_list (decode_status_frame extra_data (payload_of payload) (motion_limits pmax vmax tmax))) }
{
    let limits = Limits {
        position: pmax,
        velocity: vmax,
        torque: tmax,
        kp: 0.0,
        kd: 0.0,
    };
    let frame = codec::status::decode_status_frame(extra_data, payload_of(payload), limits);
    *values = [
        frame.position,
        frame.velocity,
        frame.torque,
        frame.temperature_c,
    ];
    let flags = frame.flags;
    (flags.mode_state as u32)
        + (flags.device_id as u32) * 0x100
        + (status_bits(flags) as u32) * 0x1_0000
}

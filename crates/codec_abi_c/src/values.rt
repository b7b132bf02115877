// Floats, motion values and status values.
ghost use Rattle.std.specs.Prelude.{◌≡◌, ◌≤◌};
ghost use Rattle.codec.specs.Words.{value_of, word_of};
ghost use Rattle.codec.specs.Models.{model_limits};
ghost use Rattle.codec.specs.Motion.{motion_raw, gain_raw, encode_mit_command};
ghost use Rattle.codec.specs.Status.{status_value, temperature_of, decode_status_frame};
ghost use Rattle.codec_abi.specs.Packing.{payload_of, packed};
ghost use Rattle.codec_abi.specs.Numbers.{word_at, all_limits, motion_limits, limits_refusal, limits_list, status_bits, status_number, status_list};

// The float that a word stands for.
#[unsafe(no_mangle)]
pub extern "C" fn codec_value(word: u32) -> f32
    ensures { result ≡ value_of (word_at word) }
{
    codec_abi::values::codec_value(word)
}

// The word of a float; 7FC00000 for a NaN.
#[unsafe(no_mangle)]
pub extern "C" fn codec_word_of(x: f32) -> u32
    ensures { result ≡ (word_of x).bits }
{
    codec_abi::values::codec_word_of(x)
}

// The raw form of a position, a velocity or a torque v, of limit m.
#[unsafe(no_mangle)]
pub extern "C" fn codec_motion_raw(v: f32, m: f32) -> u16
    ensures { result ≡ motion_raw v m }
{
    codec_abi::values::codec_motion_raw(v, m)
}

// The raw form of a gain v, of limit m.
#[unsafe(no_mangle)]
pub extern "C" fn codec_gain_raw(v: f32, m: f32) -> u16
    ensures { result ≡ gain_raw v m }
{
    codec_abi::values::codec_gain_raw(v, m)
}

// The position, velocity or torque that a raw number stands for, of limit m.
#[unsafe(no_mangle)]
pub extern "C" fn codec_status_value(raw: u16, m: f32) -> f32
    ensures { result ≡ status_value raw m }
{
    codec_abi::values::codec_status_value(raw, m)
}

// The temperature that a raw number stands for, in °C.
#[unsafe(no_mangle)]
pub extern "C" fn codec_temperature(raw: u16) -> f32
    ensures { result ≡ temperature_of raw }
{
    codec_abi::values::codec_temperature(raw)
}

// The limits of a model: position, velocity, torque, kp, kd. The refusal of an unknown name, for
// which they are 0.
#[unsafe(no_mangle)]
pub extern "C" fn codec_model_limits(name: &[u8], out: &mut [f32; 5]) -> u8
    ensures { (result ≡ limits_refusal (model_limits name.now)) × (out.new ≡ limits_list (model_limits name.now)) }
{
    codec_abi::values::codec_model_limits(name, out)
}

// A motion command: its extra field, and its payload.
#[unsafe(no_mangle)]
pub extern "C" fn codec_encode_mit_command(
    position: f32,
    velocity: f32,
    kp: f32,
    kd: f32,
    torque: f32,
    pmax: f32,
    vmax: f32,
    tmax: f32,
    kp_max: f32,
    kd_max: f32,
    payload: &mut u64,
) -> u16
    ensures { (result ≡ (encode_mit_command position velocity kp kd torque (all_limits pmax vmax tmax kp_max kd_max)).extra_data) × (payload.new ≡ packed (encode_mit_command position velocity kp kd torque (all_limits pmax vmax tmax kp_max kd_max)).payload) }
{
    codec_abi::values::codec_encode_mit_command(
        position, velocity, kp, kd, torque, pmax, vmax, tmax, kp_max, kd_max, payload,
    )
}

// A status frame: mode_state + device × 2^8 + flags × 2^16. Its values: position, velocity, torque
// and temperature.
#[unsafe(no_mangle)]
pub extern "C" fn codec_decode_status_frame(
    extra_data: u16,
    payload: u64,
    pmax: f32,
    vmax: f32,
    tmax: f32,
    values: &mut [f32; 4],
) -> u32
    ensures { (result ≡ status_number (decode_status_frame extra_data (payload_of payload) (motion_limits pmax vmax tmax)).flags) × (values.new ≡ status_list (decode_status_frame extra_data (payload_of payload) (motion_limits pmax vmax tmax))) }
{
    codec_abi::values::codec_decode_status_frame(extra_data, payload, pmax, vmax, tmax, values)
}

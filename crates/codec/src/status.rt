// A status frame: its flags from the extra field, its four values from the payload, in f32, each
// operation rounded once.
ghost use Rattle.std.specs.Prelude.{◌≡◌};
ghost use Rattle.codec.specs.Status.{status_value, temperature_of, status_flags, decode_status_frame};

use crate::model::Limits;

#[derive(Clone, Copy)]
pub struct StatusFlags {
    pub mode_state: u8,
    pub uncalibrated: bool,
    pub stall: bool,
    pub magnetic_encoder_fault: bool,
    pub overtemperature: bool,
    pub overcurrent: bool,
    pub undervoltage: bool,
    pub device_id: u8,
}

#[derive(Clone, Copy)]
pub struct StatusFrame {
    pub flags: StatusFlags,
    pub position: f32,
    pub velocity: f32,
    pub torque: f32,
    pub temperature_c: f32,
}

// The position, velocity or torque that a raw number stands for, of limit m.
pub fn status_value(raw: u16, m: f32) -> f32
    ensures { result ≡ status_value raw m }
{
    ((raw as f32) / 32767.0 - 1.0) * m
}

// The temperature that a raw number stands for, in °C.
pub fn temperature(raw: u16) -> f32
    ensures { result ≡ temperature_of raw }
{
    (raw as f32) * 0.1
}

// The flags of the extra field.
fn status_flags(extra_data: u16) -> StatusFlags
    ensures { result ≡ status_flags extra_data }
{
    StatusFlags {
        mode_state: ((extra_data >> 14) & 0x03) as u8,
        uncalibrated: ((extra_data >> 13) & 0x01) != 0,
        stall: ((extra_data >> 12) & 0x01) != 0,
        magnetic_encoder_fault: ((extra_data >> 11) & 0x01) != 0,
        overtemperature: ((extra_data >> 10) & 0x01) != 0,
        overcurrent: ((extra_data >> 9) & 0x01) != 0,
        undervoltage: ((extra_data >> 8) & 0x01) != 0,
        device_id: (extra_data & 0xFF) as u8,
    }
}

// A status frame's extra field and payload, decoded by the model's limits.
pub fn decode_status_frame(extra_data: u16, payload: [u8; 8], limits: Limits) -> StatusFrame
    ensures { result ≡ decode_status_frame extra_data payload limits }
{
    let [p1, p0, v1, v0, t1, t0, c1, c0] = payload;
    StatusFrame {
        flags: status_flags(extra_data),
        position: status_value(u16::from_be_bytes([p1, p0]), limits.position),
        velocity: status_value(u16::from_be_bytes([v1, v0]), limits.velocity),
        torque: status_value(u16::from_be_bytes([t1, t0]), limits.torque),
        temperature_c: temperature(u16::from_be_bytes([c1, c0])),
    }
}

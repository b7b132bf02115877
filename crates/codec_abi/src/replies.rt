// Fault reports, ping replies and version replies.
ghost use Rattle.std.specs.Prelude.{◌≡◌, ◌≤◌};
ghost use Rattle.codec.specs.Faults.{decode_fault_report};
ghost use Rattle.codec.specs.Numbers.{given_or};
ghost use Rattle.codec.specs.Replies.{encode_version_request, is_version_reply, decode_version_reply, decode_ping_reply, blank_ping};
ghost use Rattle.codec_abi.specs.Packing.{payload_of, packed};
ghost use Rattle.codec_abi.specs.Numbers.{fault_bits, report_bits, report_number, ping_number, version_number, version_bytes};

use crate::packing::{flag, packed, payload_of};
use codec::error::number;
use codec::faults::FaultFlags;

// The flags of the fault word, in the struct's order from bit 0 on.
fn fault_bits(f: FaultFlags) -> u16
    ensures { (result ≡ fault_bits f) × (result ≤ 2047) }
{
    flag(f.phase_a_overcurrent, 0x1)
        + flag(f.stall_overload, 0x2)
        + flag(f.position_init_fault, 0x4)
        + flag(f.hardware_id_fault, 0x8)
        + flag(f.encoder_uncalibrated, 0x10)
        + flag(f.phase_c_overcurrent, 0x20)
        + flag(f.phase_b_overcurrent, 0x40)
        + flag(f.overvoltage, 0x80)
        + flag(f.undervoltage, 0x100)
        + flag(f.driver_fault, 0x200)
        + flag(f.overtemperature, 0x400)
}

// A fault report: fault word + warning word × 2^32. Its flags: those of the fault word, and bit 11
// the overtemperature warning.
pub fn codec_decode_fault_report(payload: u64, flags: &mut u16) -> u64
    ensures { (result ≡ report_number (decode_fault_report (payload_of payload))) × (flags.new ≡ report_bits (decode_fault_report (payload_of payload))) }
{
    let report = codec::faults::decode_fault_report(payload_of(payload));
    let faults = report.faults;
    let warnings = report.warnings;
    *flags = fault_bits(faults) + flag(warnings.overtemperature_warning, 0x800);
    (report.fault_raw as u64) + (report.warning_raw as u64) * 0x1_0000_0000
}

// A ping reply: refusal × 2^16 + device × 2^8 + responder, and its payload.
pub fn codec_decode_ping_reply(id: u32, payload: u64, out: &mut u64) -> u32
    ensures { (result ≡ ping_number (decode_ping_reply id (payload_of payload))) × (out.new ≡ packed (given_or blank_ping (decode_ping_reply id (payload_of payload))).payload) }
{
    match codec::replies::decode_ping_reply(id, payload_of(payload)) {
        Ok(reply) => {
            *out = packed(reply.payload);
            (reply.device_id as u32) * 0x100 + (reply.responder_id as u32)
        }
        Err(refusal) => {
            *out = 0;
            (number(refusal) as u32) * 0x1_0000
        }
    }
}

// The payload of a version request.
pub fn codec_encode_version_request() -> u64
    ensures { result ≡ packed encode_version_request }
{
    packed(codec::replies::encode_version_request())
}

// Whether a frame is a version reply.
pub fn codec_is_version_reply(id: u32, payload: u64) -> bool
    ensures { result ≡ is_version_reply id (payload_of payload) }
{
    codec::replies::is_version_reply(id, payload_of(payload))
}

// A version reply: refusal × 2^16 + device, and the version, byte 0 lowest.
pub fn codec_decode_version_reply(id: u32, payload: u64, version: &mut u32) -> u32
    ensures { (result ≡ version_number (decode_version_reply id (payload_of payload))) × (version.new ≡ version_bytes (decode_version_reply id (payload_of payload))) }
{
    match codec::replies::decode_version_reply(id, payload_of(payload)) {
        Ok(reply) => {
            *version = u32::from_le_bytes(reply.version);
            reply.device_id as u32
        }
        Err(refusal) => {
            *version = 0;
            (number(refusal) as u32) * 0x1_0000
        }
    }
}

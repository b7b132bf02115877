// Parameters, run modes and the protocol command.
ghost use Rattle.std.specs.Prelude.{◌≡◌};
ghost use Rattle.codec.specs.Kinds.{parameter_info, kind_number};
ghost use Rattle.codec.specs.Modes.{control_mode_from_raw};
ghost use Rattle.codec.specs.Numbers.{said_in, given_or};
ghost use Rattle.codec.specs.Replies.{zeros, validate_protocol_cmd, encode_set_protocol};
ghost use Rattle.codec.specs.Values.{encode_parameter_read, encode_parameter_write, encode_parameter_value, decode_read_parameter_value, kind_in, raw_of};
ghost use Rattle.codec_abi.specs.Packing.{payload_of, packed, refusal_in};
ghost use Rattle.codec_abi.specs.Numbers.{info_number, mode_answer, kind_named, typed_value, encoded_refusal, encoded_raw};

use crate::packing::{packed, payload_of, refusal_in};
use codec::error::number;
use codec::protocol::ParameterValue;
use codec::registers::{ControlMode, ParameterDataType};
use codec::word::byte_of;

// The number of a kind, as C has it: 1 Int8, 2 UInt8, 3 UInt16, 4 UInt32, 5 Float32.
fn kind_number(kind: ParameterDataType) -> u8
    ensures { result ≡ kind_number kind }
{
    match kind {
        ParameterDataType::Int8 => 1,
        ParameterDataType::UInt8 => 2,
        ParameterDataType::UInt16 => 3,
        ParameterDataType::UInt32 => 4,
        ParameterDataType::Float32 => 5,
    }
}

// The number of a parameter's kind, 0 if it is unlisted.
pub fn codec_parameter_info(id: u16) -> u8
    ensures { result ≡ info_number (parameter_info id) }
{
    codec::registers::parameter_info(id).map_or(0, kind_number)
}

// The mode that a run_mode value names, as its own number, or 256 + the refusal's number.
pub fn codec_mode_from_raw(value: i8) -> u16
    ensures { result ≡ mode_answer (control_mode_from_raw value) }
{
    match ControlMode::from_raw(value) {
        Ok(mode) => byte_of(mode.number()) as u16,
        Err(refusal) => 256 + number(refusal) as u16,
    }
}

// The refusal of a protocol command.
pub fn codec_validate_protocol_cmd(cmd: u8) -> u8
    ensures { result ≡ refusal_in (validate_protocol_cmd cmd) }
{
    refusal_in(codec::protocol::validate_protocol_cmd(cmd))
}

// The payload of a protocol command, and its refusal.
pub fn codec_encode_set_protocol(cmd: u8, payload: &mut u64) -> u8
    ensures { (result ≡ refusal_in (said_in (encode_set_protocol cmd))) × (payload.new ≡ packed (given_or zeros (encode_set_protocol cmd))) }
{
    match codec::protocol::encode_set_protocol(cmd) {
        Ok(bytes) => {
            *payload = packed(bytes);
            0
        }
        Err(refusal) => {
            *payload = 0;
            number(refusal)
        }
    }
}

// The payload that asks for a parameter.
pub fn codec_encode_parameter_read(id: u16) -> u64
    ensures { result ≡ packed (encode_parameter_read id) }
{
    packed(codec::protocol::encode_parameter_read(id))
}

// The payload that writes a parameter.
pub fn codec_encode_parameter_write(id: u16, raw: u32) -> u64
    ensures { result ≡ packed (encode_parameter_write id raw) }
{
    packed(codec::protocol::encode_parameter_write(id, raw))
}

// The kind that a number names; any other number than 1 to 4 names Float32.
fn kind_named(number: u8) -> ParameterDataType
    ensures { result ≡ kind_named number }
{
    match number {
        1 => ParameterDataType::Int8,
        2 => ParameterDataType::UInt8,
        3 => ParameterDataType::UInt16,
        4 => ParameterDataType::UInt32,
        _ => ParameterDataType::Float32,
    }
}

// The value of a kind, by its number, whose bits are the low bits of `bits`.
fn typed_value(kind: u8, bits: u32) -> ParameterValue
    ensures { result ≡ typed_value kind bits }
{
    ParameterValue::of_kind(kind_named(kind), bits)
}

// The raw bytes of a value for a parameter, byte 0 lowest and 0 at a refusal, and the refusal. A
// kind that is not 1 to 5 counts as 5.
pub fn codec_encode_parameter_value(id: u16, kind: u8, bits: u32, raw: &mut u32) -> u8
    ensures { (result ≡ encoded_refusal (encode_parameter_value id (typed_value kind bits))) × (raw.new ≡ encoded_raw (encode_parameter_value id (typed_value kind bits))) }
{
    match codec::protocol::encode_parameter_value(id, typed_value(kind, bits)) {
        Ok(n) => {
            *raw = n;
            0
        }
        Err(refusal) => {
            *raw = 0;
            number(refusal)
        }
    }
}

// The kind and the bits of the value that a read reply's payload carries for a parameter.
pub fn codec_decode_read_parameter_value(id: u16, payload: u64, bits: &mut u32) -> u8
    ensures { (result ≡ kind_number (kind_in (decode_read_parameter_value id (payload_of payload)))) × (bits.new ≡ raw_of (decode_read_parameter_value id (payload_of payload))) }
{
    let value = codec::protocol::decode_read_parameter_value(id, payload_of(payload));
    *bits = value.raw();
    kind_number(value.kind())
}

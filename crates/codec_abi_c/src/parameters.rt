// Parameters, run modes and the protocol command.
ghost use Rattle.std.specs.Prelude.{◌≡◌};
ghost use Rattle.codec.specs.Kinds.{parameter_info, kind_number};
ghost use Rattle.codec.specs.Modes.{control_mode_from_raw};
ghost use Rattle.codec.specs.Numbers.{said_in, given_or};
ghost use Rattle.codec.specs.Replies.{zeros, validate_protocol_cmd, encode_set_protocol};
ghost use Rattle.codec.specs.Values.{encode_parameter_read, encode_parameter_write, encode_parameter_value, decode_read_parameter_value, kind_in, raw_of};
ghost use Rattle.codec_abi.specs.Packing.{payload_of, packed, refusal_in};
ghost use Rattle.codec_abi.specs.Numbers.{info_number, mode_answer, typed_value, encoded_refusal, encoded_raw};

// The number of a parameter's kind, 0 if it is unlisted.
#[unsafe(no_mangle)]
pub extern "C" fn codec_parameter_info(id: u16) -> u8
    ensures { result ≡ info_number (parameter_info id) }
{
    codec_abi::parameters::codec_parameter_info(id)
}

// The mode that a run_mode value names, as its own number, or 256 + the refusal's number.
#[unsafe(no_mangle)]
pub extern "C" fn codec_mode_from_raw(value: i8) -> u16
    ensures { result ≡ mode_answer (control_mode_from_raw value) }
{
    codec_abi::parameters::codec_mode_from_raw(value)
}

// The refusal of a protocol command.
#[unsafe(no_mangle)]
pub extern "C" fn codec_validate_protocol_cmd(cmd: u8) -> u8
    ensures { result ≡ refusal_in (validate_protocol_cmd cmd) }
{
    codec_abi::parameters::codec_validate_protocol_cmd(cmd)
}

// The payload of a protocol command, and its refusal.
#[unsafe(no_mangle)]
pub extern "C" fn codec_encode_set_protocol(cmd: u8, payload: &mut u64) -> u8
    ensures { (result ≡ refusal_in (said_in (encode_set_protocol cmd))) × (payload.new ≡ packed (given_or zeros (encode_set_protocol cmd))) }
{
    codec_abi::parameters::codec_encode_set_protocol(cmd, payload)
}

// The payload that asks for a parameter.
#[unsafe(no_mangle)]
pub extern "C" fn codec_encode_parameter_read(id: u16) -> u64
    ensures { result ≡ packed (encode_parameter_read id) }
{
    codec_abi::parameters::codec_encode_parameter_read(id)
}

// The payload that writes a parameter.
#[unsafe(no_mangle)]
pub extern "C" fn codec_encode_parameter_write(id: u16, raw: u32) -> u64
    ensures { result ≡ packed (encode_parameter_write id raw) }
{
    codec_abi::parameters::codec_encode_parameter_write(id, raw)
}

// The raw bytes of a value for a parameter, byte 0 lowest and 0 at a refusal, and the refusal. A
// kind that is not 1 to 5 counts as 5.
#[unsafe(no_mangle)]
pub extern "C" fn codec_encode_parameter_value(id: u16, kind: u8, bits: u32, raw: &mut u32) -> u8
    ensures { (result ≡ encoded_refusal (encode_parameter_value id (typed_value kind bits))) × (raw.new ≡ encoded_raw (encode_parameter_value id (typed_value kind bits))) }
{
    codec_abi::parameters::codec_encode_parameter_value(id, kind, bits, raw)
}

// The kind and the bits of the value that a read reply's payload carries for a parameter.
#[unsafe(no_mangle)]
pub extern "C" fn codec_decode_read_parameter_value(id: u16, payload: u64, bits: &mut u32) -> u8
    ensures { (result ≡ kind_number (kind_in (decode_read_parameter_value id (payload_of payload)))) × (bits.new ≡ raw_of (decode_read_parameter_value id (payload_of payload))) }
{
    codec_abi::parameters::codec_decode_read_parameter_value(id, payload, bits)
}

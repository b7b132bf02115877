// Replies about ids, parameters, fault reports, pings, versions and names. v has a request's numbers.
// A payload is written byte 0 first, and crosses codec_abi with byte 0 lowest: its bytes are swapped.
ghost use Rattle.std.specs.Prelude.{◌≡◌};
ghost use Rattle.vectors.specs.Answers as answer;

use crate::fields::{Reply, low8, low16, low32, numbers, unless_refused};
use codec_abi::{ids, names, parameters, replies};

pub fn build_ext_id(v: [u64; 6]) -> Reply
    ensures { result ≡ answer.build_ext_id v }
{
    let id = ids::codec_build_ext_id(low32(v[0]), low16(v[1]), low8(v[2]));
    Ok(numbers(u64::from(id), 0, 0))
}

pub fn ext_id_parts(v: [u64; 6]) -> Reply
    ensures { result ≡ answer.ext_id_parts v }
{
    let parts = ids::codec_ext_id_parts(low32(v[0]));
    Ok(numbers(parts / 0x1_0000_0000, parts / 0x1_0000, parts))
}

pub fn parameter_info(v: [u64; 6]) -> Reply
    ensures { result ≡ answer.parameter_info v }
{
    let kind = parameters::codec_parameter_info(low16(v[0]));
    Ok(numbers(u64::from(kind), 0, 0))
}

pub fn from_raw(v: [u64; 6]) -> Reply
    ensures { result ≡ answer.from_raw v }
{
    let mode = parameters::codec_mode_from_raw(low8(v[0]).cast_signed());
    match u64::from(mode).checked_sub(256) {
        None => Ok(numbers(u64::from(mode), 0, 0)),
        Some(refusal) => Err(refusal),
    }
}

pub fn validate_protocol_cmd(v: [u64; 6]) -> Reply
    ensures { result ≡ answer.validate_protocol_cmd v }
{
    let n = parameters::codec_validate_protocol_cmd(low8(v[0]));
    unless_refused(u64::from(n), numbers(0, 0, 0))
}

pub fn encode_set_protocol(v: [u64; 6]) -> Reply
    ensures { result ≡ answer.encode_set_protocol v }
{
    let mut bytes: u64 = 0;
    let n = parameters::codec_encode_set_protocol(low8(v[0]), &mut bytes);
    unless_refused(u64::from(n), numbers(bytes.swap_bytes(), 0, 0))
}

pub fn encode_parameter_read(v: [u64; 6]) -> Reply
    ensures { result ≡ answer.encode_parameter_read v }
{
    let bytes = parameters::codec_encode_parameter_read(low16(v[0]));
    Ok(numbers(bytes.swap_bytes(), 0, 0))
}

pub fn encode_parameter_write(v: [u64; 6]) -> Reply
    ensures { result ≡ answer.encode_parameter_write v }
{
    let bytes = parameters::codec_encode_parameter_write(low16(v[0]), low32(v[1]));
    Ok(numbers(bytes.swap_bytes(), 0, 0))
}

pub fn encode_parameter_value(v: [u64; 6]) -> Reply
    ensures { result ≡ answer.encode_parameter_value v }
{
    let mut raw: u32 = 0;
    let n = parameters::codec_encode_parameter_value(
        low16(v[0]),
        low8(v[1]),
        low32(v[2]),
        &mut raw,
    );
    unless_refused(u64::from(n), numbers(u64::from(raw), 0, 0))
}

pub fn decode_read_parameter_value(v: [u64; 6]) -> Reply
    ensures { result ≡ answer.decode_read_parameter_value v }
{
    let mut bits: u32 = 0;
    let kind = parameters::codec_decode_read_parameter_value(
        low16(v[0]),
        v[1].swap_bytes(),
        &mut bits,
    );
    Ok(numbers(u64::from(kind), u64::from(bits), 0))
}

pub fn decode_fault_report(v: [u64; 6]) -> Reply
    ensures { result ≡ answer.decode_fault_report v }
{
    let mut flags: u16 = 0;
    let report = replies::codec_decode_fault_report(v[0].swap_bytes(), &mut flags);
    Ok(numbers(report, report / 0x1_0000_0000, u64::from(flags)))
}

pub fn decode_ping_reply(v: [u64; 6]) -> Reply
    ensures { result ≡ answer.decode_ping_reply v }
{
    let mut bytes: u64 = 0;
    let said = replies::codec_decode_ping_reply(low32(v[0]), v[1].swap_bytes(), &mut bytes);
    let said = u64::from(said);
    let shown = numbers(said / 0x100, said, bytes.swap_bytes());
    unless_refused(said / 0x1_0000, shown)
}

pub fn encode_version_request() -> Reply
    ensures { result ≡ answer.encode_version_request }
{
    let bytes = replies::codec_encode_version_request();
    Ok(numbers(bytes.swap_bytes(), 0, 0))
}

pub fn is_version_reply(v: [u64; 6]) -> Reply
    ensures { result ≡ answer.is_version_reply v }
{
    let is = replies::codec_is_version_reply(low32(v[0]), v[1].swap_bytes());
    Ok(numbers(u64::from(is), 0, 0))
}

pub fn decode_version_reply(v: [u64; 6]) -> Reply
    ensures { result ≡ answer.decode_version_reply v }
{
    let mut version: u32 = 0;
    let said = replies::codec_decode_version_reply(low32(v[0]), v[1].swap_bytes(), &mut version);
    let said = u64::from(said);
    let shown = numbers(said, u64::from(version.swap_bytes()), 0);
    unless_refused(said / 0x1_0000, shown)
}

pub fn parameter_name(v: [u64; 6]) -> Reply
    ensures { result ≡ answer.parameter_name v }
{
    let mut first: u64 = 0;
    let mut second: u64 = 0;
    let n = names::codec_parameter_name(low16(v[0]), &mut first, &mut second);
    Ok(numbers(n as u64, first.swap_bytes(), second.swap_bytes()))
}

pub fn protocol_name(v: [u64; 6]) -> Reply
    ensures { result ≡ answer.protocol_name v }
{
    let mut first: u64 = 0;
    let mut second: u64 = 0;
    let n = names::codec_protocol_name(low8(v[0]), &mut first, &mut second);
    Ok(numbers(n as u64, first.swap_bytes(), second.swap_bytes()))
}

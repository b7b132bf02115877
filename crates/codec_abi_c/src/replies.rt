// Fault reports, ping replies and version replies.
ghost use Rattle.std.specs.Prelude.{◌≡◌, ◌≤◌};
ghost use Rattle.codec.specs.Faults.{decode_fault_report};
ghost use Rattle.codec.specs.Numbers.{given_or};
ghost use Rattle.codec.specs.Replies.{encode_version_request, is_version_reply, decode_version_reply, decode_ping_reply, blank_ping};
ghost use Rattle.codec_abi.specs.Packing.{payload_of, packed};
ghost use Rattle.codec_abi.specs.Numbers.{fault_bits, report_bits, report_number, ping_number, version_number, version_bytes};

// A fault report: fault word + warning word × 2^32. Its flags: those of the fault word, and bit 11
// the overtemperature warning.
#[unsafe(no_mangle)]
pub extern "C" fn codec_decode_fault_report(payload: u64, flags: &mut u16) -> u64
    ensures { (result ≡ report_number (decode_fault_report (payload_of payload))) × (flags.new ≡ report_bits (decode_fault_report (payload_of payload))) }
{
    codec_abi::replies::codec_decode_fault_report(payload, flags)
}

// A ping reply: refusal × 2^16 + device × 2^8 + responder, and its payload.
#[unsafe(no_mangle)]
pub extern "C" fn codec_decode_ping_reply(id: u32, payload: u64, out: &mut u64) -> u32
    ensures { (result ≡ ping_number (decode_ping_reply id (payload_of payload))) × (out.new ≡ packed (given_or blank_ping (decode_ping_reply id (payload_of payload))).payload) }
{
    codec_abi::replies::codec_decode_ping_reply(id, payload, out)
}

// The payload of a version request.
#[unsafe(no_mangle)]
pub extern "C" fn codec_encode_version_request() -> u64
    ensures { result ≡ packed encode_version_request }
{
    codec_abi::replies::codec_encode_version_request()
}

// Whether a frame is a version reply.
#[unsafe(no_mangle)]
pub extern "C" fn codec_is_version_reply(id: u32, payload: u64) -> bool
    ensures { result ≡ is_version_reply id (payload_of payload) }
{
    codec_abi::replies::codec_is_version_reply(id, payload)
}

// A version reply: refusal × 2^16 + device, and the version, byte 0 lowest.
#[unsafe(no_mangle)]
pub extern "C" fn codec_decode_version_reply(id: u32, payload: u64, version: &mut u32) -> u32
    ensures { (result ≡ version_number (decode_version_reply id (payload_of payload))) × (version.new ≡ version_bytes (decode_version_reply id (payload_of payload))) }
{
    codec_abi::replies::codec_decode_version_reply(id, payload, version)
}

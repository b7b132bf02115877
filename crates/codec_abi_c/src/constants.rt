// The codec's constants, in the Rust's order.
ghost use Rattle.std.specs.Prelude.{◌≡◌};
ghost use Rattle.codec_abi.specs.Constants.{communication_types, parameter_ids, protocol_constants};

// The types of a frame.
#[unsafe(no_mangle)]
pub extern "C" fn codec_communication_types(out: &mut [u32; 14])
    ensures { out.new ≡ communication_types }
{
    codec_abi::constants::codec_communication_types(out);
}

// The ids that the Rust names.
#[unsafe(no_mangle)]
pub extern "C" fn codec_parameter_ids(out: &mut [u16; 31])
    ensures { out.new ≡ parameter_ids }
{
    codec_abi::constants::codec_parameter_ids(out);
}

// The protocols, the marker of a version request, and the signature of its reply.
#[unsafe(no_mangle)]
pub extern "C" fn codec_protocol_constants(out: &mut [u8; 7])
    ensures { out.new ≡ protocol_constants }
{
    codec_abi::constants::codec_protocol_constants(out);
}

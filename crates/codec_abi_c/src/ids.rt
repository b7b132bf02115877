// Frame ids.
ghost use Rattle.std.specs.Prelude.{◌≡◌};
ghost use Rattle.codec.specs.Ids.{build_ext_id, ext_id_parts};
ghost use Rattle.codec_abi.specs.Numbers.{parts_number};

// The id of a frame of this type, extra field and node.
#[unsafe(no_mangle)]
pub extern "C" fn codec_build_ext_id(comm_type: u32, extra_data: u16, node_id: u8) -> u32
    ensures { result ≡ build_ext_id comm_type extra_data node_id }
{
    codec_abi::ids::codec_build_ext_id(comm_type, extra_data, node_id)
}

// An id taken apart: type × 2^32 + extra field × 2^16 + node.
#[unsafe(no_mangle)]
pub extern "C" fn codec_ext_id_parts(arbitration_id: u32) -> u64
    ensures { result ≡ parts_number (ext_id_parts arbitration_id) }
{
    codec_abi::ids::codec_ext_id_parts(arbitration_id)
}

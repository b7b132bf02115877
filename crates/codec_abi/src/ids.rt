// Frame ids.
ghost use Rattle.std.specs.Prelude.{◌≡◌};
ghost use Rattle.codec.specs.Ids.{build_ext_id, ext_id_parts};
ghost use Rattle.codec_abi.specs.Numbers.{parts_number};

// The id of a frame of this type, extra field and node.
pub fn codec_build_ext_id(comm_type: u32, extra_data: u16, node_id: u8) -> u32
    ensures { result ≡ build_ext_id comm_type extra_data node_id }
{
    codec::protocol::build_ext_id(comm_type, extra_data, node_id)
}

// An id taken apart: type × 2^32 + extra field × 2^16 + node.
pub fn codec_ext_id_parts(arbitration_id: u32) -> u64
    ensures { result ≡ parts_number (ext_id_parts arbitration_id) }
{
    let parts = codec::protocol::ext_id_parts(arbitration_id);
    (parts.comm_type as u64) * 0x1_0000_0000
        + (parts.extra_data as u64) * 0x1_0000
        + (parts.node_id as u64)
}

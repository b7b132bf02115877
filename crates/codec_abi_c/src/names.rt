// Names: the number of a name's bytes, and all 16 as two numbers, byte 0 lowest in the first.
ghost use Rattle.std.specs.Prelude.{◌≡◌};
ghost use Rattle.codec.specs.Names.{protocol_name};
ghost use Rattle.codec.specs.ParameterNames.{parameter_name};
ghost use Rattle.codec_abi.specs.Packing.{first_half, second_half};

// The name of a parameter, of no byte if it is unlisted.
#[unsafe(no_mangle)]
pub extern "C" fn codec_parameter_name(id: u16, first: &mut u64, second: &mut u64) -> usize
    ensures { (result ≡ (parameter_name id).length) × (first.new ≡ first_half (parameter_name id).bytes) × (second.new ≡ second_half (parameter_name id).bytes) }
{
    codec_abi::names::codec_parameter_name(id, first, second)
}

// The name of a protocol command.
#[unsafe(no_mangle)]
pub extern "C" fn codec_protocol_name(cmd: u8, first: &mut u64, second: &mut u64) -> usize
    ensures { (result ≡ (protocol_name cmd).length) × (first.new ≡ first_half (protocol_name cmd).bytes) × (second.new ≡ second_half (protocol_name cmd).bytes) }
{
    codec_abi::names::codec_protocol_name(cmd, first, second)
}

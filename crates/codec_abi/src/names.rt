// Names: the number of a name's bytes, and all 16 as two numbers, byte 0 lowest in the first.
ghost use Rattle.std.specs.Prelude.{◌≡◌};
ghost use Rattle.codec.specs.Names.{protocol_name};
ghost use Rattle.codec.specs.ParameterNames.{parameter_name};
ghost use Rattle.codec_abi.specs.Packing.{first_half, second_half};

use crate::packing::halves;
use codec::names::Name;

// A name's 16 bytes, and how many of them it has.
fn written(name: Name, first: &mut u64, second: &mut u64) -> usize
    ensures { (result ≡ name.length) × (first.new ≡ first_half name.bytes) × (second.new ≡ second_half name.bytes) }
{
    (*first, *second) = halves(name.bytes);
    name.length
}

// The name of a parameter, of no byte if it is unlisted.
pub fn codec_parameter_name(id: u16, first: &mut u64, second: &mut u64) -> usize
    ensures { (result ≡ (parameter_name id).length) × (first.new ≡ first_half (parameter_name id).bytes) × (second.new ≡ second_half (parameter_name id).bytes) }
{
    written(codec::parameter_names::parameter_name(id), first, second)
}

// The name of a protocol command.
pub fn codec_protocol_name(cmd: u8, first: &mut u64, second: &mut u64) -> usize
    ensures { (result ≡ (protocol_name cmd).length) × (first.new ≡ first_half (protocol_name cmd).bytes) × (second.new ≡ second_half (protocol_name cmd).bytes) }
{
    written(codec::protocol::protocol_name(cmd), first, second)
}

// The arguments of a call: its timeout, and the numbers that only they can give.
ghost use Rattle.std.specs.Prelude.{◌≡◌};
ghost use Rattle.codec.specs.Values.{encode_parameter_value};
ghost use Rattle.motor.specs.Calls.{timeout_of, host_checked, new_id_checked, encodes, argued_of};

use crate::engine::command::Command;
use codec::error::Refusal;
use codec::protocol::{ParameterValue, encode_parameter_value, validate_protocol_cmd};

// The timeout that a call gives, 0 where it gives none.
pub(crate) fn timeout_of(command: Command) -> u64
    ensures { result ≡ timeout_of command }
{
    match command {
        Command::Ping(timeout)
        | Command::PingWithHostId(_, timeout)
        | Command::EnsureControlMode(_, timeout)
        | Command::GetProtocolFlag(timeout)
        | Command::SetProtocol(_, timeout)
        | Command::GetControlMode(timeout)
        | Command::ControlledStop(timeout)
        | Command::GetParameter(_, timeout)
        | Command::GetParameterWithHostId(_, _, timeout)
        | Command::GetParameterF32(_, timeout)
        | Command::GetParameterI8(_, timeout) => timeout,
        _ => 0,
    }
}

// 2: a named host above 255.
fn host_checked(host_id: u16) -> Result<(), Refusal>
    ensures { result ≡ host_checked host_id }
{
    if host_id > 255 {
        return Err(Refusal::HostIdOutOfRange);
    }
    Ok(())
}

// 19: the new device id is 0.
fn new_id_checked(new_id: u8) -> Result<(), Refusal>
    ensures { result ≡ new_id_checked new_id }
{
    if new_id == 0 {
        return Err(Refusal::NewDeviceIdZero);
    }
    Ok(())
}

// 10 and 11: what the encoder says of a value.
fn value_checked(param_id: u16, value: ParameterValue) -> Result<(), Refusal>
    ensures { result ≡ encodes (encode_parameter_value param_id value) }
{
    encode_parameter_value(param_id, value).map(|_| ())
}

// 2, 19, 12, 10, 11.
pub(crate) fn argued(command: Command) -> Result<(), Refusal>
    ensures { result ≡ argued_of command }
{
    match command {
        Command::PingWithHostId(host_id, _) => host_checked(host_id),
        Command::SetProtocol(protocol_cmd, _) => validate_protocol_cmd(protocol_cmd),
        Command::SetDeviceId(new_id) => new_id_checked(new_id),
        Command::WriteParameter(param_id, value) => value_checked(param_id, value),
        Command::GetParameterWithHostId(_, host_id, _) => host_checked(host_id),
        _ => Ok(()),
    }
}

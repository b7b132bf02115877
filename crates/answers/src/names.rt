// Names as the Rust has them.
#![tactic(auto, unfolding(crate::specs::Names::mode_place, text::specs::Words::word_at, text::specs::Search::index_of, text::specs::Search::index_after))]

ghost use Rattle.std.specs.Prelude.{◌≡◌};
ghost use Rattle.answers.specs.Names.{mode_text, command_text};

use codec::registers::ControlMode;
use motor::engine::command::Command;

// A mode's name.
pub(crate) fn mode_text(mode: ControlMode) -> &'static [u8]
    ensures { result.now ≡ mode_text mode }
{
    match mode {
        ControlMode::Mit => b"mit",
        ControlMode::Position => b"pp",
        ControlMode::Velocity => b"velocity",
        ControlMode::PositionCsp => b"csp",
    }
}

// A command's name, the Rust method's.
pub(crate) fn command_text(command: Command) -> &'static [u8]
    ensures { result.now ≡ command_text command }
{
    match command {
        Command::Ping(_) => b"ping",
        Command::PingWithHostId(_, _) => b"ping_with_host_id",
        Command::SetMode(_) => b"set_mode",
        Command::EnsureControlMode(_, _) => b"ensure_control_mode",
        Command::SetZeroPosition => b"set_zero_position",
        Command::SaveParameters => b"save_parameters",
        Command::GetProtocolFlag(_) => b"get_protocol_flag",
        Command::SetProtocol(_, _) => b"set_protocol",
        Command::SetDeviceId(_) => b"set_device_id",
        Command::Enable => b"enable",
        Command::Disable => b"disable",
        Command::ClearError => b"clear_error",
        Command::SetActiveReport(_) => b"set_active_report",
        Command::SendCmdMit(_, _, _, _, _) => b"send_cmd_mit",
        Command::SetVelocityTarget(_) => b"set_velocity_target",
        Command::GetControlMode(_) => b"get_control_mode",
        Command::ControlledStop(_) => b"controlled_stop",
        Command::WriteParameter(_, _) => b"write_parameter",
        Command::SendCmdPosVelCsp(_, _) => b"send_cmd_pos_vel_csp",
        Command::SendCmdPosVelPp(_, _, _) => b"send_cmd_pos_vel_pp",
        Command::RequestParameter(_) => b"request_parameter",
        Command::GetParameter(_, _) => b"get_parameter",
        Command::GetParameterWithHostId(_, _, _) => b"get_parameter_with_host_id",
        Command::GetParameterF32(_, _) => b"get_parameter_f32",
        Command::GetParameterI8(_, _) => b"get_parameter_i8",
        Command::GetVersion => b"get_version",
    }
}

// The operations: how each begins, and what follows each end of a wait, in motor.rs's order.
ghost use Rattle.std.specs.Prelude.{◌≡◌};
ghost use Rattle.motor.specs.engine.Script.{set_protocol};
ghost use Rattle.motor.specs.engine.Operations.{begins_with, acked_of, not_acked, got_value, no_value, got_ping, windows_gone};

use crate::engine::candidates::Hosts;
use crate::engine::command::{Command, Outcome};
use crate::engine::ensure::{
    back_read, ensure_acked, ensure_begins, ensure_lost, first_read, mode_off, try_again,
};
use crate::engine::kinds::{as_flag, as_mode, float_in, signed_in};
use crate::engine::node::Acknowledgement::{Response, Status};
use crate::engine::node::{Acked, Got, Node, Pinged, Request, Targets, Wait};
use crate::engine::operation::Sight;
use crate::engine::position::{csp_limit, position_target, pp_acceleration, pp_velocity};
use crate::engine::script::{
    failed_by_kind, failed_by_silence, finished, get_parameter, once, ping_each, send_with_ack,
    set_mode, window_of, write_float,
};
use crate::engine::stop::{stop_at, stop_csp, stop_in};
use codec::protocol::ParameterValue;
use codec::registers::{ControlMode, ParameterId};

// set_protocol: with timeout 0 nothing waits.
fn set_protocol(protocol_cmd: u8, timeout: u64) -> Node
    ensures { result ≡ set_protocol protocol_cmd timeout }
{
    let request = Request::SetProtocol(protocol_cmd);
    if timeout == 0 {
        return Node::Last(request);
    }
    send_with_ack(Response, request, window_of(timeout, 120), Acked::Done)
}

// How an operation begins.
pub(super) fn begins_with(command: Command) -> Node
    ensures { result ≡ begins_with command }
{
    match command {
        Command::Ping(timeout) => ping_each(timeout, Pinged::Report),
        Command::PingWithHostId(host, timeout) => once(Wait::Ping(Pinged::Report), host, timeout),
        Command::SetMode(mode) => set_mode(mode, Acked::Done),
        Command::EnsureControlMode(mode, timeout) => ensure_begins(mode, timeout),
        Command::SetZeroPosition => send_with_ack(
            Status,
            Request::SetZeroPosition,
            320,
            Acked::ZeroState,
        ),
        Command::SaveParameters => send_with_ack(
            Response,
            Request::SaveParameters,
            500,
            Acked::Done,
        ),
        Command::GetProtocolFlag(timeout) => get_parameter(
            ParameterId::PROTOCOL_FLAG,
            timeout,
            Got::Flag,
        ),
        Command::SetProtocol(protocol, timeout) => set_protocol(protocol, timeout),
        Command::SetDeviceId(new_id) => ping_each(140, Pinged::Rename(new_id)),
        Command::Enable => send_with_ack(Status, Request::Enable, 240, Acked::Done),
        Command::Disable => send_with_ack(Status, Request::Disable, 240, Acked::Done),
        Command::ClearError => send_with_ack(Status, Request::ClearError, 240, Acked::FaultCleared),
        Command::SetActiveReport(enabled) => Node::Last(Request::ActiveReport(enabled)),
        Command::SendCmdMit(position, velocity, kp, kd, torque) => Node::Motion(
            Targets {
                position,
                velocity,
                kp,
                kd,
                torque,
            },
            Outcome::Done,
        ),
        Command::SetVelocityTarget(v) => write_float(ParameterId::VELOCITY_TARGET, v, Acked::Done),
        Command::GetControlMode(timeout) => get_parameter(ParameterId::MODE, timeout, Got::Mode),
        Command::ControlledStop(timeout) => get_parameter(
            ParameterId::MODE,
            timeout,
            Got::StopMode(timeout),
        ),
        Command::WriteParameter(id, v) => Node::Write(id, v, Acked::Done),
        Command::SendCmdPosVelCsp(p, v) => set_mode(
            ControlMode::PositionCsp,
            Acked::CspEnable(p, v),
        ),
        Command::SendCmdPosVelPp(p, v, a) => set_mode(
            ControlMode::Position,
            Acked::PpEnable(p, v, a),
        ),
        Command::RequestParameter(id) => Node::Last(Request::Read(id)),
        Command::GetParameter(id, timeout) => get_parameter(id, timeout, Got::Value),
        Command::GetParameterWithHostId(id, host, timeout) => once(
            Wait::Value(id, Got::Value),
            host,
            timeout,
        ),
        Command::GetParameterF32(id, timeout) => get_parameter(id, timeout, Got::F32),
        Command::GetParameterI8(id, timeout) => get_parameter(id, timeout, Got::I8),
        Command::GetVersion => Node::Await(Wait::Version, 240, Hosts::Own),
    }
}

// What follows an acknowledgement, or a pause.
pub(super) fn acked(then: Acked) -> Node
    ensures { result ≡ acked_of then }
{
    match then {
        Acked::Done => finished(),
        Acked::FaultCleared => Node::ClearFault,
        Acked::ZeroState => Node::Write(
            ParameterId::ZERO_STATE,
            ParameterValue::U8(1),
            Acked::Done,
        ),
        Acked::Stopped(mode) => Node::Finish(Outcome::Mode(mode)),
        Acked::CspEnable(p, v) => send_with_ack(
            Status,
            Request::Enable,
            240,
            Acked::CspLimit(p, v),
        ),
        Acked::CspLimit(p, v) => csp_limit(p, v),
        Acked::PpEnable(p, v, a) => send_with_ack(
            Status,
            Request::Enable,
            240,
            Acked::PpVelocity(p, v, a),
        ),
        Acked::PpVelocity(p, v, a) => pp_velocity(p, v, a),
        Acked::PpAcceleration(p, a) => pp_acceleration(p, a),
        Acked::Target(p) => position_target(p),
        Acked::Ensure(stage, aim) => ensure_acked(stage, aim),
    }
}

// What follows where every window is gone: 16, but in ensure_control_mode.
fn not_acked(then: Acked) -> Node
    ensures { result ≡ not_acked then }
{
    match then {
        Acked::Ensure(stage, aim) => ensure_lost(stage, aim),
        _ => failed_by_silence(),
    }
}

// What follows a value.
pub(super) fn got_value(sight: Sight, then: Got, reading: ParameterValue) -> Node
    ensures { result ≡ got_value sight then reading }
{
    match then {
        Got::Value => Node::Finish(Outcome::Value(reading)),
        Got::Flag => as_flag(reading),
        Got::F32 => float_in(reading).map_or(
            failed_by_kind(),
            |word| Node::Finish(Outcome::F32(word)),
        ),
        Got::I8 => signed_in(reading).map_or(failed_by_kind(), |n| Node::Finish(Outcome::I8(n))),
        Got::Mode => as_mode(signed_in(reading), |mode| Node::Finish(Outcome::Mode(mode))),
        Got::StopMode(timeout) => as_mode(signed_in(reading), |mode| stop_in(timeout, mode)),
        Got::StopCsp => float_in(reading).map_or(failed_by_kind(), stop_csp),
        Got::StopMit => float_in(reading).map_or(failed_by_kind(), |angle| stop_at(sight, angle)),
        Got::EnsureFirst(aim) => first_read(aim, reading),
        Got::EnsureBack(aim) => back_read(aim, reading),
    }
}

// What follows where no value has come to any host.
fn no_value(then: Got) -> Node
    ensures { result ≡ no_value then }
{
    match then {
        Got::EnsureFirst(aim) => mode_off(aim),
        Got::EnsureBack(aim) => try_again(aim),
        _ => failed_by_silence(),
    }
}

// What follows a ping reply.
pub(super) fn got_ping(then: Pinged) -> Node
    ensures { result ≡ got_ping then }
{
    match then {
        Pinged::Report => Node::Report,
        Pinged::Rename(new_id) => Node::Rename(new_id),
    }
}

// What follows a wait whose last window is gone.
pub(super) fn windows_gone(wait: Wait) -> Node
    ensures { result ≡ windows_gone wait }
{
    match wait {
        Wait::Acknowledged(_, _, then) => not_acked(then),
        Wait::Value(_, then) => no_value(then),
        Wait::Ping(_) | Wait::Version => failed_by_silence(),
    }
}

// The frames that are sent.
ghost use Rattle.std.specs.Prelude.{◌≡◌};
ghost use Rattle.codec.specs.Numbers.{given_or};
ghost use Rattle.codec.specs.Replies.{zeros, encode_set_protocol, blank_ping};
ghost use Rattle.motor.specs.engine.Requests.{request_type, request_payload, frame_to, request_frame, motion_of, motion_frame, rename_frame, no_frame};

use crate::engine::node::{Request, Targets};
use crate::engine::operation::Sight;
use codec::bus::CanFrame;
use codec::model::limits_of;
use codec::motion::encode_mit_command;
use codec::protocol::{
    CommunicationType, build_ext_id, encode_parameter_read, encode_parameter_write,
    encode_set_protocol,
};
use codec::replies::{PingReply, encode_version_request};
use codec::word::value;

// The communication type of a request.
fn request_type(request: Request) -> u32
    ensures { result ≡ request_type request }
{
    match request {
        Request::Ping => CommunicationType::GET_DEVICE_ID,
        Request::Enable => CommunicationType::ENABLE,
        Request::Disable => CommunicationType::DISABLE,
        Request::ClearError => CommunicationType::DISABLE,
        Request::SetZeroPosition => CommunicationType::SET_ZERO_POSITION,
        Request::Read(_) => CommunicationType::READ_PARAMETER,
        Request::Write(_, _) => CommunicationType::WRITE_PARAMETER,
        Request::SaveParameters => CommunicationType::SAVE_PARAMETERS,
        Request::ActiveReport(_) => CommunicationType::ACTIVE_REPORT,
        Request::SetProtocol(_) => CommunicationType::SET_PROTOCOL,
        Request::Version => CommunicationType::DISABLE,
    }
}

// The payload of a request.
fn request_payload(request: Request) -> [u8; 8]
    ensures { result ≡ request_payload request }
{
    match request {
        Request::Ping | Request::Enable | Request::Disable => [0; 8],
        Request::ClearError | Request::SetZeroPosition => [1, 0, 0, 0, 0, 0, 0, 0],
        Request::Read(id) => encode_parameter_read(id),
        Request::Write(id, raw) => encode_parameter_write(id, raw),
        Request::SaveParameters => [1, 2, 3, 4, 5, 6, 7, 8],
        Request::ActiveReport(on) => [1, 2, 3, 4, 5, 6, u8::from(on), 0],
        Request::SetProtocol(protocol) => encode_set_protocol(protocol).unwrap_or([0; 8]),
        Request::Version => encode_version_request(),
    }
}

// A frame to this motor: dlc 8, extended, not received.
fn frame_to(sight: Sight, comm_type: u32, extra_data: u16, payload: [u8; 8]) -> CanFrame
    ensures { result ≡ frame_to sight comm_type extra_data payload }
{
    let node = (sight.motor_id & 0xFF) as u8;
    CanFrame {
        arbitration_id: build_ext_id(comm_type, extra_data, node),
        data: payload,
        dlc: 8,
        is_extended: true,
        is_rx: false,
    }
}

// A request to a host.
pub(super) fn request_frame(sight: Sight, request: Request, host: u16) -> CanFrame
    ensures { result ≡ request_frame sight request host }
{
    let comm_type = request_type(request);
    let payload = request_payload(request);
    frame_to(sight, comm_type, host, payload)
}

// A motion command.
pub(super) fn motion_frame(sight: Sight, targets: Targets) -> CanFrame
    ensures { result ≡ motion_frame sight (motion_of sight targets) }
{
    let c = encode_mit_command(
        value(targets.position),
        value(targets.velocity),
        value(targets.kp),
        value(targets.kd),
        value(targets.torque),
        limits_of(sight.model),
    );
    let payload = c.payload;
    frame_to(
        sight,
        CommunicationType::OPERATION_CONTROL,
        c.extra_data,
        payload,
    )
}

// What stands for a ping reply where none is held.
pub(super) fn blank_ping() -> PingReply
    ensures { result ≡ blank_ping }
{
    PingReply {
        device_id: 0,
        responder_id: 0,
        payload: [0; 8],
    }
}

// The frame that gives a motor another id, with the payload of its ping reply.
pub(super) fn rename_frame(sight: Sight, new_id: u8) -> CanFrame
    ensures { result ≡ rename_frame sight new_id }
{
    let reply = sight.ping_reply.unwrap_or(blank_ping());
    let payload = reply.payload;
    let extra = ((new_id as u16) << 8) | (sight.feedback_id & 0xFF);
    frame_to(sight, CommunicationType::SET_DEVICE_ID, extra, payload)
}

// No frame: every field 0 or false.
pub fn no_frame() -> CanFrame
    ensures { result ≡ no_frame }
{
    CanFrame {
        arbitration_id: 0,
        data: [0; 8],
        dlc: 0,
        is_extended: false,
        is_rx: false,
    }
}

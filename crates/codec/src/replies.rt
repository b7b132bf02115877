// The replies to a ping and to a version request.
ghost use Rattle.std.specs.Prelude.{◌≡◌};
ghost use Rattle.codec.specs.Replies.{encode_version_request, is_version_reply, decode_version_reply, ping_reply_of, decode_ping_reply};

use crate::error::Refusal;
use crate::protocol::{CommunicationType, IdParts, ext_id_parts};

#[derive(Clone, Copy)]
pub struct PingReply {
    pub device_id: u8,
    pub responder_id: u8,
    pub payload: [u8; 8],
}

#[derive(Clone, Copy)]
pub struct VersionReply {
    pub device_id: u8,
    pub version: [u8; 4],
}

pub const VERSION_REQUEST_MARKER: u8 = 0xC4;

pub const VERSION_REPLY_SIGNATURE: [u8; 3] = [0x00, 0xC4, 0x56];

// The payload that, in a type 4 frame, asks for the firmware's version.
pub fn encode_version_request() -> [u8; 8]
    ensures { result ≡ encode_version_request }
{
    [0, VERSION_REQUEST_MARKER, 0, 0, 0, 0, 0, 0]
}

// Whether a frame is a version reply: type 2, and a payload that begins with the signature.
pub fn is_version_reply(arbitration_id: u32, payload: [u8; 8]) -> bool
    ensures { result ≡ is_version_reply arbitration_id payload }
{
    let parts = ext_id_parts(arbitration_id);
    parts.comm_type == CommunicationType::OPERATION_STATUS
        && payload.starts_with(&VERSION_REPLY_SIGNATURE)
}

// A version reply decoded; 23 if the frame is none.
pub fn decode_version_reply(arbitration_id: u32, payload: [u8; 8]) -> Result<VersionReply, Refusal>
    ensures { result ≡ decode_version_reply arbitration_id payload }
{
    if !is_version_reply(arbitration_id, payload) {
        return Err(Refusal::NotVersionReply);
    }
    let parts = ext_id_parts(arbitration_id);
    Ok(VersionReply {
        device_id: (parts.extra_data & 0xFF) as u8,
        version: [payload[3], payload[4], payload[5], payload[6]],
    })
}

// What a ping reply tells, its id split already.
pub fn ping_reply(parts: IdParts, payload: [u8; 8]) -> PingReply
    ensures { result ≡ ping_reply_of parts payload }
{
    PingReply {
        device_id: (parts.extra_data & 0xFF) as u8,
        responder_id: parts.node_id,
        payload,
    }
}

// A ping reply decoded; 22 if the frame is none.
pub fn decode_ping_reply(arbitration_id: u32, payload: [u8; 8]) -> Result<PingReply, Refusal>
    ensures { result ≡ decode_ping_reply arbitration_id payload }
{
    let parts = ext_id_parts(arbitration_id);
    if parts.comm_type != CommunicationType::GET_DEVICE_ID {
        return Err(Refusal::NotPingReply);
    }
    Ok(ping_reply(parts, payload))
}

// Frame ids, the protocol command and parameter payloads: the Rust's protocol.rs, whose motion, status,
// fault and reply functions stand in files of their own.
ghost use Rattle.std.specs.Prelude.{◌≡◌};
ghost use Rattle.codec.specs.Ids.{build_ext_id, ext_id_parts};
ghost use Rattle.codec.specs.Names.{protocol_name};
ghost use Rattle.codec.specs.Values.{encode_parameter_read, encode_parameter_write, value_as, decode_read_parameter_value, kind_in, raw_of, encode_parameter_value};
ghost use Rattle.codec.specs.Replies.{validate_protocol_cmd, encode_set_protocol};

use crate::error::Refusal;
use crate::names::{Name, name_in};
use crate::registers::{ParameterDataType, parameter_info};
use crate::word::{Word, byte_of, signed_of};

// The type of a frame: the five bits at the top of its id.
#[derive(Clone, Copy)]
pub struct CommunicationType;

impl CommunicationType {
    pub const GET_DEVICE_ID: u32 = 0;

    pub const OPERATION_CONTROL: u32 = 1;

    pub const OPERATION_STATUS: u32 = 2;

    pub const ENABLE: u32 = 3;

    pub const DISABLE: u32 = 4;

    pub const SET_ZERO_POSITION: u32 = 6;

    pub const SET_DEVICE_ID: u32 = 7;

    pub const READ_PARAMETER: u32 = 17;

    pub const WRITE_PARAMETER: u32 = 18;

    pub const FAULT_REPORT: u32 = 21;

    pub const SAVE_PARAMETERS: u32 = 22;

    pub const SET_BAUDRATE: u32 = 23;

    pub const ACTIVE_REPORT: u32 = 24;

    pub const SET_PROTOCOL: u32 = 25;
}

// ---- the protocol command

pub const PROTOCOL_PRIVATE: u8 = 0;

pub const PROTOCOL_CANOPEN: u8 = 1;

pub const PROTOCOL_MIT: u8 = 2;

// A protocol command is one of the three; any other is 12.
pub fn validate_protocol_cmd(protocol_cmd: u8) -> Result<(), Refusal>
    ensures { result ≡ validate_protocol_cmd protocol_cmd }
{
    if protocol_cmd > PROTOCOL_MIT {
        return Err(Refusal::UnknownProtocol);
    }
    Ok(())
}

// The name of a protocol command.
#[tactic(auto, unfolding(crate::specs::Names::length_in))]
pub fn protocol_name(protocol_cmd: u8) -> Name
    ensures { result ≡ protocol_name protocol_cmd }
{
    match protocol_cmd {
        PROTOCOL_PRIVATE => name_in(*b"private         "),
        PROTOCOL_CANOPEN => name_in(*b"canopen         "),
        PROTOCOL_MIT => name_in(*b"mit             "),
        _ => name_in(*b"unknown         "),
    }
}

// The payload of a protocol command; 12 if it is none.
pub fn encode_set_protocol(protocol_cmd: u8) -> Result<[u8; 8], Refusal>
    ensures { result ≡ encode_set_protocol protocol_cmd }
{
    validate_protocol_cmd(protocol_cmd)?;
    Ok([1, 2, 3, 4, 5, 6, protocol_cmd, 0])
}

// ---- ids

// The three parts of a frame's id.
#[derive(Clone, Copy)]
pub struct IdParts {
    pub comm_type: u32,
    pub extra_data: u16,
    pub node_id: u8,
}

// The id of a frame of this type, extra field and node; the type is reduced modulo 256.
pub fn build_ext_id(comm_type: u32, extra_data: u16, node_id: u8) -> u32
    ensures { result ≡ build_ext_id comm_type extra_data node_id }
{
    (comm_type << 24) | ((extra_data as u32) << 8) | (node_id as u32)
}

// An id taken apart: 5, 16 and 8 bits, the top three bits not looked at.
pub fn ext_id_parts(arbitration_id: u32) -> IdParts
    ensures { result ≡ ext_id_parts arbitration_id }
{
    IdParts {
        comm_type: (arbitration_id >> 24) & 0x1F,
        extra_data: ((arbitration_id >> 8) & 0xFFFF) as u16,
        node_id: (arbitration_id & 0xFF) as u8,
    }
}

// ---- parameters

// A parameter's value, by its kind.
#[derive(Clone, Copy)]
pub enum ParameterValue {
    I8(i8),
    U8(u8),
    U16(u16),
    U32(u32),
    F32(Word),
}

impl ParameterValue {
    // The value of this kind that four raw bytes stand for.
    pub fn of_kind(kind: ParameterDataType, raw: u32) -> ParameterValue
        ensures { result ≡ value_as kind raw }
    {
        match kind {
            ParameterDataType::Int8 => ParameterValue::I8(signed_of((raw & 0xFF) as u8)),
            ParameterDataType::UInt8 => ParameterValue::U8((raw & 0xFF) as u8),
            ParameterDataType::UInt16 => ParameterValue::U16((raw & 0xFFFF) as u16),
            ParameterDataType::UInt32 => ParameterValue::U32(raw),
            ParameterDataType::Float32 => ParameterValue::F32(Word { bits: raw }),
        }
    }

    // The kind of a value.
    pub fn kind(self) -> ParameterDataType
        ensures { result ≡ kind_in self }
    {
        match self {
            ParameterValue::I8(_) => ParameterDataType::Int8,
            ParameterValue::U8(_) => ParameterDataType::UInt8,
            ParameterValue::U16(_) => ParameterDataType::UInt16,
            ParameterValue::U32(_) => ParameterDataType::UInt32,
            ParameterValue::F32(_) => ParameterDataType::Float32,
        }
    }

    // The bits of a value as a number; the bytes that its kind doesn't use are zero.
    pub fn raw(self) -> u32
        ensures { result ≡ raw_of self }
    {
        match self {
            ParameterValue::I8(v) => byte_of(v) as u32,
            ParameterValue::U8(v) => v as u32,
            ParameterValue::U16(v) => v as u32,
            ParameterValue::U32(v) => v,
            ParameterValue::F32(w) => w.bits,
        }
    }
}

// The payload that asks for a parameter: its id, low byte first, then zeros.
pub fn encode_parameter_read(param_id: u16) -> [u8; 8]
    ensures { result ≡ encode_parameter_read param_id }
{
    let [low, high] = param_id.to_le_bytes();
    [low, high, 0, 0, 0, 0, 0, 0]
}

// The payload that writes a parameter: its id and the four raw bytes, each low byte first.
pub fn encode_parameter_write(param_id: u16, raw_value: u32) -> [u8; 8]
    ensures { result ≡ encode_parameter_write param_id raw_value }
{
    let [low, high] = param_id.to_le_bytes();
    let [b0, b1, b2, b3] = raw_value.to_le_bytes();
    [low, high, 0, 0, b0, b1, b2, b3]
}

// The value that a read reply's payload carries for a parameter, by its kind; U32 if it is unlisted.
pub fn decode_read_parameter_value(param_id: u16, payload: [u8; 8]) -> ParameterValue
    ensures { result ≡ decode_read_parameter_value param_id payload }
{
    let raw = u32::from_le_bytes([payload[4], payload[5], payload[6], payload[7]]);
    match parameter_info(param_id) {
        Some(kind) => ParameterValue::of_kind(kind, raw),
        None => ParameterValue::U32(raw),
    }
}

// The raw bytes of a value for a parameter: 10 if the id is unlisted, 11 if the kind differs.
pub fn encode_parameter_value(param_id: u16, value: ParameterValue) -> Result<u32, Refusal>
    ensures { result ≡ encode_parameter_value param_id value }
{
    let kind = parameter_info(param_id).ok_or(Refusal::UnlistedParameter)?;
    if kind != value.kind() {
        return Err(Refusal::KindDiffers);
    }
    Ok(value.raw())
}

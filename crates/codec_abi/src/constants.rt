// The codec's constants, in the Rust's order.
ghost use Rattle.std.specs.Prelude.{◌≡◌};
ghost use Rattle.codec_abi.specs.Constants.{communication_types, parameter_ids, protocol_constants};

use codec::protocol::CommunicationType;
use codec::registers::ParameterId;

// The types of a frame.
pub fn codec_communication_types(out: &mut [u32; 14])
    ensures { out.new ≡ communication_types }
{
    *out = [
        CommunicationType::GET_DEVICE_ID,
        CommunicationType::OPERATION_CONTROL,
        CommunicationType::OPERATION_STATUS,
        CommunicationType::ENABLE,
        CommunicationType::DISABLE,
        CommunicationType::SET_ZERO_POSITION,
        CommunicationType::SET_DEVICE_ID,
        CommunicationType::READ_PARAMETER,
        CommunicationType::WRITE_PARAMETER,
        CommunicationType::FAULT_REPORT,
        CommunicationType::SAVE_PARAMETERS,
        CommunicationType::SET_BAUDRATE,
        CommunicationType::ACTIVE_REPORT,
        CommunicationType::SET_PROTOCOL,
    ];
}

// The ids that the Rust names.
pub fn codec_parameter_ids(out: &mut [u16; 31])
    ensures { out.new ≡ parameter_ids }
{
    *out = [
        ParameterId::MECHANICAL_OFFSET,
        ParameterId::MODE,
        ParameterId::IQ_TARGET,
        ParameterId::VELOCITY_TARGET,
        ParameterId::TORQUE_LIMIT,
        ParameterId::CURRENT_KP,
        ParameterId::CURRENT_KI,
        ParameterId::CURRENT_FILTER_GAIN,
        ParameterId::POSITION_TARGET,
        ParameterId::VELOCITY_LIMIT,
        ParameterId::CURRENT_LIMIT,
        ParameterId::MECHANICAL_POSITION,
        ParameterId::IQ_FILTERED,
        ParameterId::MECHANICAL_VELOCITY,
        ParameterId::VBUS,
        ParameterId::POSITION_KP,
        ParameterId::VELOCITY_KP,
        ParameterId::VELOCITY_KI,
        ParameterId::VELOCITY_FILTER_GAIN,
        ParameterId::VELOCITY_ACCELERATION_TARGET,
        ParameterId::PP_VELOCITY_MAX,
        ParameterId::PP_ACCELERATION_TARGET,
        ParameterId::EPSCAN_TIME,
        ParameterId::CAN_TIMEOUT,
        ParameterId::ZERO_STATE,
        ParameterId::DAMPER,
        ParameterId::ADD_OFFSET,
        ParameterId::ALVEOLOUS_OPEN,
        ParameterId::IQ_TEST,
        ParameterId::DCC_SET,
        ParameterId::PROTOCOL_FLAG,
    ];
}

// The protocols, the marker of a version request, and the signature of its reply.
pub fn codec_protocol_constants(out: &mut [u8; 7])
    ensures { out.new ≡ protocol_constants }
{
    let signature = codec::replies::VERSION_REPLY_SIGNATURE;
    *out = [
        codec::protocol::PROTOCOL_PRIVATE,
        codec::protocol::PROTOCOL_CANOPEN,
        codec::protocol::PROTOCOL_MIT,
        codec::replies::VERSION_REQUEST_MARKER,
        signature[0],
        signature[1],
        signature[2],
    ];
}

// Which reply a request gets.
ghost use Rattle.std.specs.Prelude.{◌≡◌};
ghost use Rattle.vectors.specs.Replies.{reply_to};

use crate::fields::Reply;
use crate::requests::Request;
use crate::{answers, motion};

pub fn reply_to(request: Request, v: [u64; 6], name: &[u8]) -> Reply
    ensures { result ≡ reply_to request v name.now }
{
    match request {
        Request::BuildExtId => answers::build_ext_id(v),
        Request::ExtIdParts => answers::ext_id_parts(v),
        Request::ParameterInfo => answers::parameter_info(v),
        Request::FromRaw => answers::from_raw(v),
        Request::ValidateProtocolCmd => answers::validate_protocol_cmd(v),
        Request::EncodeSetProtocol => answers::encode_set_protocol(v),
        Request::EncodeParameterRead => answers::encode_parameter_read(v),
        Request::EncodeParameterWrite => answers::encode_parameter_write(v),
        Request::EncodeParameterValue => answers::encode_parameter_value(v),
        Request::DecodeReadParameterValue => answers::decode_read_parameter_value(v),
        Request::DecodeFaultReport => answers::decode_fault_report(v),
        Request::DecodePingReply => answers::decode_ping_reply(v),
        Request::EncodeVersionRequest => answers::encode_version_request(),
        Request::IsVersionReply => answers::is_version_reply(v),
        Request::DecodeVersionReply => answers::decode_version_reply(v),
        Request::MotionRaw => motion::motion_raw(v),
        Request::GainRaw => motion::gain_raw(v),
        Request::StatusValue => motion::status_value(v),
        Request::Temperature => motion::temperature(v),
        Request::ModelLimits => motion::model_limits(name),
        Request::EncodeMitCommand => motion::encode_mit_command(v, name),
        Request::DecodeStatusFrame => motion::decode_status_frame(v, name),
        Request::ParameterName => answers::parameter_name(v),
        Request::ProtocolName => answers::protocol_name(v),
    }
}

// A request line: its name, its arguments, and its answer. A shape has a letter for each number: 2, 4
// or 8 for so many digits, P for a payload; N for a name, in a request; K for `ok`, in an answer.
// Letters, as in the shapes of text's put_fields: with an enum's variants a row were no plainer.
ghost use Rattle.std.specs.Prelude.{◌≡◌};
ghost use Rattle.vectors.specs.Requests.{width_of, argument_of, arguments_of};

use crate::fields::{Reply, put_reply};
use crate::replies::reply_to;
use text::Text;

// A function of the codec.
#[derive(Clone, Copy)]
pub enum Request {
    BuildExtId,
    ExtIdParts,
    ParameterInfo,
    FromRaw,
    ValidateProtocolCmd,
    EncodeSetProtocol,
    EncodeParameterRead,
    EncodeParameterWrite,
    EncodeParameterValue,
    DecodeReadParameterValue,
    DecodeFaultReport,
    DecodePingReply,
    EncodeVersionRequest,
    IsVersionReply,
    DecodeVersionReply,
    MotionRaw,
    GainRaw,
    StatusValue,
    Temperature,
    ModelLimits,
    EncodeMitCommand,
    DecodeStatusFrame,
    ParameterName,
    ProtocolName,
}

// A request's name, and the shapes of its arguments and of its answer.
#[derive(Clone, Copy)]
struct Row {
    name: &'static [u8],
    arguments: &'static [u8],
    answer: &'static [u8],
    request: Request,
}

macro_rules! row {
    ($name:literal $arguments:literal => $answer:literal, $request:ident) => {
        Row {
            name: $name,
            arguments: $arguments,
            answer: $answer,
            request: Request::$request,
        }
    };
}

static ROWS: [Row; 24] = [
    row!(b"build_ext_id" b"842" => b"8", BuildExtId),
    row!(b"ext_id_parts" b"8" => b"242", ExtIdParts),
    row!(b"parameter_info" b"4" => b"2", ParameterInfo),
    row!(b"from_raw" b"2" => b"2", FromRaw),
    row!(b"validate_protocol_cmd" b"2" => b"K", ValidateProtocolCmd),
    row!(b"encode_set_protocol" b"2" => b"P", EncodeSetProtocol),
    row!(b"encode_parameter_read" b"4" => b"P", EncodeParameterRead),
    row!(b"encode_parameter_write" b"48" => b"P", EncodeParameterWrite),
    row!(b"encode_parameter_value" b"428" => b"8", EncodeParameterValue),
    row!(b"decode_read_parameter_value" b"4P" => b"28", DecodeReadParameterValue),
    row!(b"decode_fault_report" b"P" => b"884", DecodeFaultReport),
    row!(b"decode_ping_reply" b"8P" => b"22P", DecodePingReply),
    row!(b"encode_version_request" b"" => b"P", EncodeVersionRequest),
    row!(b"is_version_reply" b"8P" => b"2", IsVersionReply),
    row!(b"decode_version_reply" b"8P" => b"28", DecodeVersionReply),
    row!(b"motion_raw" b"88" => b"4", MotionRaw),
    row!(b"gain_raw" b"88" => b"4", GainRaw),
    row!(b"status_value" b"48" => b"8", StatusValue),
    row!(b"temperature" b"4" => b"8", Temperature),
    row!(b"model_limits" b"N" => b"88888", ModelLimits),
    row!(b"encode_mit_command" b"88888N" => b"4P", EncodeMitCommand),
    row!(b"decode_status_frame" b"4PN" => b"2228888", DecodeStatusFrame),
    row!(b"parameter_name" b"4" => b"2PP", ParameterName),
    row!(b"protocol_name" b"2" => b"2PP", ProtocolName),
];

// Puts the answer of a line, or `error` where it isn't a request.
pub(crate) fn put_answer<const N: usize>(line: &[u8], out: &mut Text<N>) {
    match answered(line) {
        Some((reply, shape)) => put_reply(reply, shape, out),
        None => out.put_bytes(b"error"),
    }
}

// The reply to a line, and its shape, if the line is a request. The clauses can't say which row is
// found: a table of structs that hold references has no name there (tried).
fn answered(line: &[u8]) -> Option<(Reply, &'static [u8])> {
    let name = text::word(line, 0);
    let row = ROWS.iter().find(|row| row.name == name)?;
    let v = arguments(line, row.arguments)?;
    let last = text::word(line, row.arguments.len());
    Some((reply_to(row.request, v, last), row.answer))
}

// The words after the first, one for each letter of the shape, as numbers, with 0 in the place of a
// name: if there are so many words, and each is as its letter says.
#[tactic(auto, using(crate::proofs::Reading::none_at), unfolding(crate::specs::Requests::arguments_upto))]
fn arguments(line: &[u8], shape: &[u8]) -> Option<[u64; 6]>
    ensures { result ≡ arguments_of line.now shape.now }
{
    if shape.len() > 6 || text::word_count(line) != shape.len() + 1 {
        return None;
    }
    let mut v = [0u64; 6];
    for (i, &letter) in shape.iter().enumerate() {
        v[i] = argument(text::word(line, i + 1), letter)?;
    }
    Some(v)
}

// The number that a word is for a letter of a shape.
fn argument(w: &[u8], letter: u8) -> Option<u64>
    ensures { result ≡ argument_of w.now letter }
{
    if letter == b'N' {
        return Some(0);
    }
    if w.len() != width(letter) {
        return None;
    }
    text::hex_word(w)
}

// How many digits a letter of a shape asks for.
pub fn width(letter: u8) -> usize
    ensures { result ≡ width_of letter }
{
    match letter {
        b'2' => 2,
        b'4' => 4,
        b'8' => 8,
        _ => 16,
    }
}

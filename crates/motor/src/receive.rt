// Receiving: what a frame does to what a motor holds. A read reply is `edits`' hear_read, any other frame `quiet`'s hear_state, both
// put together from the functions here; process_feedback_frame stores what the one or the other gives.
ghost use Rattle.std.specs.Prelude.{◌≡◌, ◌+◌, ◌*◌, ◌||◌, List, [], ◌∷◌, nat_eq};
ghost use Rattle.codec.specs.Kinds.{among};
ghost use Rattle.motor.specs.Receive.{accepts_parts, accepts_frame, arrival_of, in_time, frame_admitted, counted_at, ping_after, feedback_after, fault_after, told_by, status_in, read_id, read_stored, process_feedback_frame};
ghost use Rattle.motor.specs.Readings.{Holds};
ghost use Rattle.motor.specs.Lone.{hears};
ghost use Rattle.motor.specs.Motors.{HeardAs, lone_of};

use crate::edits::{edited_by, hear_read};
use crate::engine::reading::Stored;
use crate::feedback::{FeedbackCache, feedback_in, update};
use crate::limits::LATEST;
use crate::motor::{Motor, State};
use crate::quiet::hear_state;
use crate::readings::Entry;
use codec::bus::CanFrame;
use codec::error::Refusal;
use codec::faults::{FaultReport, decode_fault_report};
use codec::model::Model;
use codec::protocol::{CommunicationType, IdParts, decode_read_parameter_value, ext_id_parts};
use codec::replies::{PingReply, ping_reply};

// Where a frame comes from: the motor's id that it carries, whether a motor of that id accepts it, and whether it is a read reply.
#[derive(Clone, Copy)]
pub struct Arrival {
    pub source: u16,
    pub accepted: bool,
    pub read: bool,
}

// What a frame answers, and the motor after it.
#[derive(Clone, Copy)]
pub struct Heard {
    pub motor: Motor,
    pub said: Result<(), Refusal>,
}

// ---- the tests

// Whether frames of this type are accepted.
#[tactic(auto, unfolding(codec::specs::Kinds::among))]
fn accepts_type(comm_type: u32) -> bool
    ensures { result ≡ among comm_type (0 ∷ 2 ∷ 17 ∷ 21 ∷ 24 ∷ 25 ∷ []) }
{
    matches!(
        comm_type,
        CommunicationType::GET_DEVICE_ID
            | CommunicationType::OPERATION_STATUS
            | CommunicationType::READ_PARAMETER
            | CommunicationType::FAULT_REPORT
            | CommunicationType::ACTIVE_REPORT
            | CommunicationType::SET_PROTOCOL
    )
}

// The same of a frame whose id is split.
fn accepts_parts(motor_id: u16, extended: bool, parts: IdParts) -> bool
    ensures { result ≡ accepts_parts motor_id extended parts }
{
    extended && accepts_type(parts.comm_type) && parts.extra_data & 0xFF == motor_id
}

// Whether a frame is for the motor of this id: extended, of an accepted type, the id in the extra field's low byte.
#[tactic(auto, unfolding(crate::specs::Receive::accepts_frame))]
pub fn accepts_frame(motor_id: u16, frame: CanFrame) -> bool
    ensures { result ≡ accepts_frame motor_id frame }
{
    let parts = ext_id_parts(frame.arbitration_id);
    accepts_parts(motor_id, frame.is_extended, parts)
}

pub(crate) fn is_read(parts: IdParts) -> bool
    ensures { result ≡ nat_eq parts.comm_type 17 }
{
    parts.comm_type == CommunicationType::READ_PARAMETER
}

#[tactic(auto, unfolding(crate::specs::Receive::arrival_of, crate::specs::Receive::accepts_frame, crate::specs::Receive::is_read))]
pub fn arrival_of(frame: CanFrame) -> Arrival
    ensures { result ≡ arrival_of frame }
{
    let parts = ext_id_parts(frame.arbitration_id);
    let source = parts.extra_data & 0xFF;
    let accepted = accepts_parts(source, frame.is_extended, parts);
    let read = is_read(parts);
    Arrival {
        source,
        accepted,
        read,
    }
}

// 7: a time below the clock, or above 10^15.
#[tactic(auto, unfolding(crate::specs::Receive::is_out_of_time))]
pub(crate) fn in_time(clock: u64, now: u64) -> Result<(), Refusal>
    ensures { result ≡ in_time clock now }
{
    if now < clock || LATEST < now {
        return Err(Refusal::TimeOutOfRange);
    }
    Ok(())
}

// 13 and 7, for a motor of this id and clock.
#[tactic(auto, unfolding(crate::specs::Receive::frame_admitted))]
pub(crate) fn frame_admitted(
    motor_id: u16,
    clock: u64,
    extended: bool,
    parts: IdParts,
    now: u64,
) -> Result<(), Refusal>
    ensures { result ≡ frame_admitted motor_id clock extended parts now }
{
    if !accepts_parts(motor_id, extended, parts) {
        return Err(Refusal::FrameNotAccepted);
    }
    in_time(clock, now)
}

// ---- what frames tell

// The ping reply held after a frame: type 0 brings a new one.
#[tactic(auto, unfolding(crate::specs::Receive::ping_after))]
fn ping_after(old: Option<PingReply>, parts: IdParts, payload: [u8; 8]) -> Option<PingReply>
    ensures { result ≡ ping_after old parts payload }
{
    if parts.comm_type == CommunicationType::GET_DEVICE_ID {
        Some(ping_reply(parts, payload))
    } else {
        old
    }
}

// Whether frames of this type tell a status.
fn tells_status(comm_type: u32) -> bool
    ensures { result ≡ (nat_eq comm_type 2 || nat_eq comm_type 24) }
{
    matches!(
        comm_type,
        CommunicationType::OPERATION_STATUS | CommunicationType::ACTIVE_REPORT
    )
}

// The feedback after a frame: types 2 and 24 bring new feedback.
#[tactic(auto, unfolding(crate::specs::Receive::feedback_after))]
fn feedback_after(
    old: FeedbackCache,
    model: Model,
    parts: IdParts,
    frame: CanFrame,
) -> FeedbackCache
    ensures { result ≡ feedback_after old model parts frame }
{
    if tells_status(parts.comm_type) {
        update(old, feedback_in(model, parts, frame))
    } else {
        old
    }
}

// The fault report held after a frame: type 21 brings a new one.
#[tactic(auto, unfolding(crate::specs::Receive::fault_after))]
fn fault_after(old: Option<FaultReport>, parts: IdParts, payload: [u8; 8]) -> Option<FaultReport>
    ensures { result ≡ fault_after old parts payload }
{
    if parts.comm_type == CommunicationType::FAULT_REPORT {
        Some(decode_fault_report(payload))
    } else {
        old
    }
}

// The state after what a frame tells.
#[tactic(auto, unfolding(crate::specs::Receive::told_by))]
pub(crate) fn told_by(s: State, parts: IdParts, frame: CanFrame) -> State
    ensures { result ≡ told_by s parts frame }
{
    let data = frame.data;
    State {
        feedback: feedback_after(s.feedback, s.model, parts, frame),
        fault_report: fault_after(s.fault_report, parts, data),
        ping_reply: ping_after(s.ping_reply, parts, data),
        ..s
    }
}

// The frame's time, and one response more.
#[tactic(auto, unfolding(crate::specs::Receive::counted_at))]
pub(crate) fn counted_at(s: State, now: u64) -> State
    ensures { result ≡ counted_at s now }
{
    let mut out = s;
    out.clock = now;
    out.responses = s.responses.wrapping_add(1);
    out
}

// ---- read replies

// The status of a read reply: the extra field's high byte.
pub(crate) fn status_in(parts: IdParts) -> u8
    ensures { result ≡ status_in parts }
{
    (parts.extra_data >> 8) as u8
}

// The parameter of a read reply.
#[tactic(auto, unfolding(crate::specs::Receive::read_id))]
pub(crate) fn read_id(frame: CanFrame) -> u16
    ensures { result ≡ read_id frame }
{
    let data = frame.data;
    u16::from_le_bytes([data[0], data[1]])
}

// What a read reply gives to be held.
#[tactic(auto, unfolding(crate::specs::Receive::read_stored))]
pub(crate) fn read_stored(frame: CanFrame) -> Stored
    ensures { result ≡ read_stored frame }
{
    let data = frame.data;
    let value = decode_read_parameter_value(read_id(frame), data);
    Stored { value }
}

// ---- the answer

// A frame at a time: 13 and 7 leave the motor as it was; else it is counted, and held by its type.
pub fn process_feedback_frame(m: Motor, frame: CanFrame, now: u64) -> Heard
    ensures is { result ≡ process_feedback_frame m frame now }
    ensures means { (l : List Entry) → Holds m.readings l → HeardAs result (hears (lone_of m l) frame now) }
{
    let parts = ext_id_parts(frame.arbitration_id);
    if is_read(parts) {
        let h = hear_read(m, frame, now);
        let readings = edited_by(m.readings, h.edit);
        let motor = Motor {
            state: h.state,
            readings,
        };
        return Heard {
            motor,
            said: h.said,
        };
    }
    let h = hear_state(m.state, frame, now);
    let motor = Motor {
        state: h.state,
        ..m
    };
    Heard {
        motor,
        said: h.said,
    }
}

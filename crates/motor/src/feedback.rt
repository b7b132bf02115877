// Feedback: the latest state that a motor has told, and how many have come.
ghost use Rattle.std.specs.Prelude.{◌≡◌};
ghost use Rattle.motor.specs.Receive.{feedback_in, next_sequence, update};

use codec::bus::CanFrame;
use codec::model::{Model, limits_of};
use codec::protocol::IdParts;
use codec::status::decode_status_frame;

// A state, as a status frame tells it, with the whole id of its frame.
#[derive(Clone, Copy)]
pub struct MotorFeedbackState {
    pub arbitration_id: u32,
    pub device_id: u8,
    pub mode_state: u8,
    pub position: f32,
    pub velocity: f32,
    pub torque: f32,
    pub temperature_c: f32,
    pub uncalibrated: bool,
    pub stall: bool,
    pub magnetic_encoder_fault: bool,
    pub overtemperature: bool,
    pub overcurrent: bool,
    pub undervoltage: bool,
}

// The latest state, and the sequence: a number that rises with each and stays at its maximum.
#[derive(Clone, Copy)]
pub struct FeedbackCache {
    pub latest: Option<MotorFeedbackState>,
    pub sequence: u64,
}

// What a status frame tells, by the model's limits.
#[tactic(auto, unfolding(crate::specs::Receive::feedback_in))]
pub(crate) fn feedback_in(model: Model, parts: IdParts, frame: CanFrame) -> MotorFeedbackState
    ensures { result ≡ feedback_in model parts frame }
{
    let data = frame.data;
    let status = decode_status_frame(parts.extra_data, data, limits_of(model));
    let flags = status.flags;
    MotorFeedbackState {
        arbitration_id: frame.arbitration_id,
        device_id: flags.device_id,
        mode_state: flags.mode_state,
        position: status.position,
        velocity: status.velocity,
        torque: status.torque,
        temperature_c: status.temperature_c,
        uncalibrated: flags.uncalibrated,
        stall: flags.stall,
        magnetic_encoder_fault: flags.magnetic_encoder_fault,
        overtemperature: flags.overtemperature,
        overcurrent: flags.overcurrent,
        undervoltage: flags.undervoltage,
    }
}

// One more, up to the maximum.
#[tactic(auto, unfolding(crate::specs::Receive::next_sequence))]
fn next_sequence(n: u64) -> u64
    ensures { result ≡ next_sequence n }
{
    n.saturating_add(1)
}

// A new state, and the next sequence.
pub(crate) fn update(cache: FeedbackCache, state: MotorFeedbackState) -> FeedbackCache
    ensures { result ≡ update cache state }
{
    FeedbackCache {
        latest: Some(state),
        sequence: next_sequence(cache.sequence),
    }
}

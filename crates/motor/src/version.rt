// Receiving while get_version waits (document 02, T-01): a version reply is its answer, and no feedback.
ghost use Rattle.std.specs.Prelude.{◌≡◌};
ghost use Rattle.motor.specs.Receive.{awaits_version, is_answer, version_in, with_answer, answer_taken, taken_by};

use crate::engine::node::Wait;
use crate::engine::operation::{Operation, Phase};
use crate::motor::State;
use crate::receive::told_by;
use codec::bus::CanFrame;
use codec::protocol::IdParts;
use codec::replies::{VersionReply, decode_version_reply, is_version_reply};

// Whether get_version waits: from its start until a step ends it.
fn awaits_version(phase: Phase) -> bool
    ensures { result ≡ awaits_version phase }
{
    matches!(phase, Phase::Waiting(Wait::Version))
}

// Whether an accepted frame is its answer.
fn is_answer(phase: Phase, frame: CanFrame) -> bool
    ensures { result ≡ is_answer phase frame }
{
    let data = frame.data;
    awaits_version(phase) && is_version_reply(frame.arbitration_id, data)
}

// The version in such a frame, as the codec decodes it; it can't be 23 there (specs/Versions).
#[tactic(auto, unfolding(crate::specs::Receive::version_in))]
fn version_in(frame: CanFrame) -> Option<VersionReply>
    ensures { result ≡ version_in frame }
{
    let data = frame.data;
    decode_version_reply(frame.arbitration_id, data).ok()
}

// The operation with this answer, in place of an earlier one.
fn with_answer(operation: Operation, answer: Option<VersionReply>) -> Operation
    ensures { result ≡ with_answer operation answer }
{
    Operation {
        answer,
        ..operation
    }
}

// The state after an answer: the operation has it, and nothing else changes.
#[tactic(auto, unfolding(crate::specs::Receive::answer_taken))]
fn answer_taken(s: State, frame: CanFrame) -> State
    ensures { result ≡ answer_taken s frame }
{
    State {
        operation: with_answer(s.operation, version_in(frame)),
        ..s
    }
}

// The state after an accepted frame that is counted: an answer is taken; any other frame tells what its type tells.
pub(crate) fn taken_by(s: State, parts: IdParts, frame: CanFrame) -> State
    ensures { result ≡ taken_by s parts frame }
{
    if is_answer(s.operation.phase, frame) {
        return answer_taken(s, frame);
    }
    told_by(s, parts, frame)
}

// Receiving a frame that is no read reply: it concerns the state alone, and the readings stay where they are.
ghost use Rattle.std.specs.Prelude.{◌≡◌};
ghost use Rattle.motor.specs.Receive.{is_quiet, hear_state};

use crate::motor::State;
use crate::receive::{counted_at, frame_admitted, is_read};
use crate::version::taken_by;
use codec::bus::CanFrame;
use codec::error::Refusal;
use codec::protocol::{IdParts, ext_id_parts};

// What such a frame answers, and the state after it.
#[derive(Clone, Copy)]
pub struct StateHeard {
    pub state: State,
    pub said: Result<(), Refusal>,
}

// Whether a frame may be for the state alone: extended, and no read reply.
#[tactic(auto, unfolding(crate::specs::Receive::is_quiet))]
fn is_quiet(extended: bool, parts: IdParts) -> bool
    ensures { result ≡ is_quiet extended parts }
{
    extended && !is_read(parts)
}

// A frame at a time, a read reply not taken: 13 and 7 leave the state as it was; else it is counted, and is get_version's
// answer or held by its type.
pub fn hear_state(s: State, frame: CanFrame, now: u64) -> StateHeard
    ensures { result ≡ hear_state s frame now }
{
    let parts = ext_id_parts(frame.arbitration_id);
    let quiet = is_quiet(frame.is_extended, parts);
    match frame_admitted(s.motor_id, s.clock, quiet, parts, now) {
        Ok(()) => StateHeard {
            state: taken_by(counted_at(s, now), parts, frame),
            said: Ok(()),
        },
        Err(refusal) => StateHeard {
            state: s,
            said: Err(refusal),
        },
    }
}

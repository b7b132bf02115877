// Frames handed in round robin over the motors.
ghost use Rattle.std.specs.Prelude.{◌≡◌};
ghost use Rattle.station_abi.specs.Frames.{motors_of, next_id, next_frame, passed_of, frames_by_value};

use crate::loaded::{last_parameter, loaded, read_reply, status_frame};
use codec::bus::CanFrame;
use station::call::{Answer, Replied};
use station::station::frame;

// How many motors there are: at most 8.
#[tactic(auto, unfolding(crate::specs::Frames::motors_of))]
pub(crate) fn motors_of(motors: u64) -> u16
    ensures { result ≡ motors_of motors }
{
    motors.min(8) as u16
}

// The motor after this one, round robin.
#[tactic(auto, unfolding(crate::specs::Frames::next_id))]
pub(crate) fn next_id(id: u16, motors: u16) -> u16
    ensures { result ≡ next_id id motors }
{
    if id < motors {
        return id + 1;
    }
    1
}

// Kind 0 is a status frame, any other a read reply.
#[tactic(auto, unfolding(crate::specs::Frames::next_frame))]
pub(crate) fn next_frame(kind: u64, id: u16, parameter: u16) -> CanFrame
    ensures { result ≡ next_frame kind id parameter }
{
    if kind == 0 {
        return status_frame(id);
    }
    read_reply(id, parameter)
}

// 1 where a frame was not refused.
#[tactic(auto, unfolding(crate::specs::Frames::passed_of))]
pub(crate) fn passed(replied: Replied) -> u64
    ensures { result ≡ passed_of replied }
{
    match replied.answer {
        Answer::Told(said) => u64::from(said.is_ok()),
        _ => 0,
    }
}

// Hands in `times` frames, the station by value, and answers how many were not refused. There are up to 8 motors, which hold `held`
// readings each. Read replies are for the largest parameter held, or where none is held for the first.
#[unsafe(no_mangle)]
pub extern "C" fn frames_by_value(motors: u64, held: u64, kind: u64, times: u64) -> u64
    ensures { result ≡ frames_by_value motors held kind times }
{
    let motors = motors_of(motors);
    let parameter = last_parameter(held);
    let mut st = loaded(motors, held);
    let mut id: u16 = 1;
    let mut taken: u64 = 0;
    for _count in 0..times {
        let after = frame(st, next_frame(kind, id, parameter), 0);
        st = after.station;
        taken += passed(after.replied);
        id = next_id(id, motors);
    }
    taken
}

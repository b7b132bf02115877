// Frames handed in round robin over the motors of a lent station.
ghost use Rattle.std.specs.Prelude.{◌≡◌};
ghost use Rattle.station_abi.specs.Frames.{frames_in_place};

use crate::frames::{motors_of, next_frame, next_id, passed};
use crate::loaded::{last_parameter, loaded};
use station::call::{Asked, Call};
use station::lent::call::call;

// How many frames are left, how many were not refused, and what the next one is.
#[derive(Clone, Copy)]
pub struct Beat {
    pub left: u64,
    pub passed: u64,
    pub kind: u64,
    pub id: u16,
    pub motors: u16,
    pub parameter: u16,
}

// As frames_by_value, with the motors lent to each call.
#[unsafe(no_mangle)]
pub extern "C" fn frames_in_place(motors: u64, held: u64, kind: u64, times: u64) -> u64
    ensures { result ≡ frames_in_place motors held kind times }
{
    let motors = motors_of(motors);
    let parameter = last_parameter(held);
    let mut st = loaded(motors, held);
    let mut b = Beat {
        left: times,
        passed: 0,
        kind,
        id: 1,
        motors,
        parameter,
    };
    for _count in 0..b.left {
        let asked = Asked {
            call: Call::Frame { time: 0 },
            frame: next_frame(b.kind, b.id, b.parameter),
        };
        b.passed += passed(call(&mut st.motors, asked));
        b.id = next_id(b.id, b.motors);
        b.left -= 1;
    }
    b.passed
}

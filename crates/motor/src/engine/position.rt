// send_cmd_pos_vel_csp and send_cmd_pos_vel_pp: mode, enable, each limit's absolute value if finite and above 0, the target.
ghost use Rattle.std.specs.Prelude.{◌≡◌};
ghost use Rattle.motor.specs.engine.Script.{abs_of, is_usable, position_target, put_limit, csp_limit, pp_acceleration, pp_velocity};

use crate::engine::node::{Acked, Node};
use crate::engine::script::write_float;
use codec::registers::ParameterId;
use codec::word::Word;

// The absolute value of a float.
#[tactic(auto, unfolding(crate::specs::engine::Script::abs_of))]
fn abs_of(w: Word) -> Word
    ensures { result ≡ abs_of w }
{
    Word {
        bits: w.bits & 0x7FFF_FFFF,
    }
}

// An absolute value is finite and above 0.
fn is_usable(w: Word) -> bool
    ensures { result ≡ is_usable w }
{
    w.bits > 0 && w.bits < 0x7F80_0000
}

// A limit is written to this parameter, then what follows; or at once what it comes to.
fn put_limit(param_id: u16, limit: Word, then: Acked, at_once: Node) -> Node
    ensures { result ≡ put_limit param_id limit then at_once }
{
    let most = abs_of(limit);
    if is_usable(most) {
        return write_float(param_id, most, then);
    }
    at_once
}

// The target.
pub(super) fn position_target(position: Word) -> Node
    ensures { result ≡ position_target position }
{
    write_float(ParameterId::POSITION_TARGET, position, Acked::Done)
}

// The velocity limit, then the target.
pub(super) fn csp_limit(position: Word, velocity_limit: Word) -> Node
    ensures { result ≡ csp_limit position velocity_limit }
{
    put_limit(
        ParameterId::VELOCITY_LIMIT,
        velocity_limit,
        Acked::Target(position),
        position_target(position),
    )
}

// The acceleration, then the target.
pub(super) fn pp_acceleration(position: Word, acceleration: Word) -> Node
    ensures { result ≡ pp_acceleration position acceleration }
{
    put_limit(
        ParameterId::PP_ACCELERATION_TARGET,
        acceleration,
        Acked::Target(position),
        position_target(position),
    )
}

// The greatest velocity, then the acceleration.
pub(super) fn pp_velocity(position: Word, velocity_max: Word, acceleration: Word) -> Node
    ensures { result ≡ pp_velocity position velocity_max acceleration }
{
    put_limit(
        ParameterId::PP_VELOCITY_MAX,
        velocity_max,
        Acked::PpAcceleration(position, acceleration),
        pp_acceleration(position, acceleration),
    )
}

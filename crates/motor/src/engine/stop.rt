// controlled_stop: the run mode is read, and what holds the motor in that mode is sent.
ghost use Rattle.std.specs.Prelude.{◌≡◌};
ghost use Rattle.codec.specs.declared.protocol.ParameterValue.TheVariants as value;
ghost use Rattle.codec.specs.declared.registers.ControlMode.TheVariants as mode;
ghost use Rattle.motor.specs.declared.engine.node.Acked.TheVariants as acked;
ghost use Rattle.motor.specs.engine.Script.{put, stop_gain, stop_in, stop_at};

use crate::engine::command::Outcome;
use crate::engine::node::{Acked, Got, Node, Targets};
use crate::engine::operation::Sight;
use crate::engine::script::{get_parameter, write_float};
use codec::model::limits_of;
use codec::registers::{ControlMode, ParameterId};
use codec::word::{Word, value, word_of};

// 0.0.
const ZERO: Word = Word { bits: 0 };

// What holds a motor in this mode.
pub(super) fn stop_in(timeout: u64, mode: ControlMode) -> Node
    ensures { result ≡ stop_in timeout mode }
{
    match mode {
        ControlMode::Mit => get_parameter(ParameterId::MECHANICAL_POSITION, timeout, Got::StopMit),
        ControlMode::Position => write_float(
            ParameterId::PP_VELOCITY_MAX,
            ZERO,
            Acked::Stopped(ControlMode::Position),
        ),
        ControlMode::Velocity => write_float(
            ParameterId::VELOCITY_TARGET,
            ZERO,
            Acked::Stopped(ControlMode::Velocity),
        ),
        ControlMode::PositionCsp => get_parameter(
            ParameterId::MECHANICAL_POSITION,
            timeout,
            Got::StopCsp,
        ),
    }
}

// A gain below 0.02 times its maximum becomes 0.10 times the maximum; NaN isn't below.
#[tactic(auto, unfolding(crate::specs::engine::Script::stop_gain))]
fn stop_gain(held: Word, most: f32) -> Word
    ensures { result ≡ stop_gain held most }
{
    if value(held) < most * 0.02 {
        return word_of(most * 0.10);
    }
    held
}

// mit: the angle read is sent as motion command, with velocity and torque 0.
pub(super) fn stop_at(sight: Sight, angle: Word) -> Node
    ensures { result ≡ stop_at sight angle }
{
    let most = limits_of(sight.model);
    let gains = sight.gains;
    let targets = Targets {
        position: angle,
        velocity: ZERO,
        kp: stop_gain(gains.kp, most.kp),
        kd: stop_gain(gains.kd, most.kd),
        torque: ZERO,
    };
    Node::Motion(targets, Outcome::Mode(ControlMode::Mit))
}

// csp: the angle read becomes the target.
pub(super) fn stop_csp(angle: Word) -> Node
    ensures { result ≡ put 0x7016 (value.F32 angle) (acked.Stopped mode.PositionCsp) }
{
    write_float(
        ParameterId::POSITION_TARGET,
        angle,
        Acked::Stopped(ControlMode::PositionCsp),
    )
}

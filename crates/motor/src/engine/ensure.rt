// ensure_control_mode: read; if it isn't the mode, off, a pause of 60, and three attempts to write it and read it back, with pauses
// of 30. A failed disable doesn't end it.
ghost use Rattle.std.specs.Prelude.{◌≡◌};
ghost use Rattle.motor.specs.engine.Script.{signed_in, aim_at, is_mode, get_parameter, mode_off, try_in, try_again, first_read, back_read, ensure_acked, ensure_lost};
ghost use Rattle.motor.specs.declared.engine.node.Got.TheVariants as got;

use crate::engine::kinds::signed_in;
use crate::engine::node::Acknowledgement::Status;
use crate::engine::node::{Acked, Aim, Ensure, Got, Node, Request};
use crate::engine::script::{failed_by_silence, finished, get_parameter, send_with_ack, set_mode};
use codec::error::Refusal;
use codec::protocol::ParameterValue;
use codec::registers::{ControlMode, ParameterId};

const ATTEMPTS: u8 = 3;

const AFTER_DISABLE: u32 = 60;

const BETWEEN: u32 = 30;

// The run mode is read first.
pub(super) fn ensure_begins(mode: ControlMode, timeout: u64) -> Node
    ensures { result ≡ get_parameter 0x7005 timeout (got.EnsureFirst (aim_at mode timeout)) }
{
    let aim = Aim {
        mode,
        timeout,
        left: ATTEMPTS,
        actual: None,
    };
    get_parameter(ParameterId::MODE, timeout, Got::EnsureFirst(aim))
}

// The value read is the mode aimed at.
#[tactic(auto, unfolding(crate::specs::engine::Script::is_mode))]
fn is_mode(aim: Aim, number: i8) -> bool
    ensures { result ≡ is_mode aim number }
{
    number == aim.mode.number()
}

// The motor is switched off.
pub(super) fn mode_off(aim: Aim) -> Node
    ensures { result ≡ mode_off aim }
{
    let then = Acked::Ensure(Ensure::Off, aim);
    send_with_ack(Status, Request::Disable, 240, then)
}

// A pause, then the next attempt.
pub(super) fn try_again(aim: Aim) -> Node
    ensures { result ≡ try_again aim }
{
    Node::Pause(BETWEEN, Acked::Ensure(Ensure::Try, aim))
}

// An attempt, or 18 with the last value read where none is left.
fn mode_try(aim: Aim) -> Node
    ensures { result ≡ try_in aim.left aim }
{
    if aim.left == 0 {
        return Node::Fail(Refusal::ModeNotReached(aim.actual));
    }
    let next = Aim {
        left: aim.left - 1,
        ..aim
    };
    set_mode(aim.mode, Acked::Ensure(Ensure::Written, next))
}

// The first reading: it is the mode, or the motor is switched off.
pub(super) fn first_read(aim: Aim, reading: ParameterValue) -> Node
    ensures { result ≡ first_read aim (signed_in reading) }
{
    match signed_in(reading) {
        Some(number) if is_mode(aim, number) => finished(),
        _ => mode_off(aim),
    }
}

// A reading after a mode write: it is the mode, or it is kept as the last, if it is of the kind.
pub(super) fn back_read(aim: Aim, reading: ParameterValue) -> Node
    ensures { result ≡ back_read aim (signed_in reading) }
{
    match signed_in(reading) {
        Some(number) if is_mode(aim, number) => finished(),
        Some(number) => try_again(Aim {
            actual: Some(number),
            ..aim
        }),
        None => try_again(aim),
    }
}

// What follows each stage's acknowledgement, or its pause.
pub(super) fn ensure_acked(stage: Ensure, aim: Aim) -> Node
    ensures { result ≡ ensure_acked stage aim }
{
    match stage {
        Ensure::Off => Node::Pause(AFTER_DISABLE, Acked::Ensure(Ensure::Try, aim)),
        Ensure::Try => mode_try(aim),
        Ensure::Written => Node::Pause(BETWEEN, Acked::Ensure(Ensure::Back, aim)),
        Ensure::Back => get_parameter(ParameterId::MODE, aim.timeout, Got::EnsureBack(aim)),
    }
}

// What follows where every window is gone.
pub(super) fn ensure_lost(stage: Ensure, aim: Aim) -> Node
    ensures { result ≡ ensure_lost stage aim }
{
    match stage {
        Ensure::Off => Node::Pause(AFTER_DISABLE, Acked::Ensure(Ensure::Try, aim)),
        Ensure::Written => try_again(aim),
        Ensure::Try | Ensure::Back => failed_by_silence(),
    }
}

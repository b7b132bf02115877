// A reading as a value of one kind.
ghost use Rattle.std.specs.Prelude.{◌≡◌};
ghost use Rattle.codec.specs.declared.registers.ControlMode.{ControlMode};
ghost use Rattle.motor.specs.declared.engine.node.Node.{Node};
ghost use Rattle.motor.specs.engine.Script.{signed_in, float_in, as_flag, as_mode};

use crate::engine::command::Outcome;
use crate::engine::node::Node;
use crate::engine::script::{failed_by_kind, failed_by_mode};
use codec::protocol::ParameterValue;
use codec::registers::ControlMode;
use codec::word::Word;

pub(super) fn signed_in(reading: ParameterValue) -> Option<i8>
    ensures { result ≡ signed_in reading }
{
    match reading {
        ParameterValue::I8(v) => Some(v),
        _ => None,
    }
}

pub(super) fn float_in(reading: ParameterValue) -> Option<Word>
    ensures { result ≡ float_in reading }
{
    match reading {
        ParameterValue::F32(word) => Some(word),
        _ => None,
    }
}

// ---- a reading of a kind, or 20

pub(super) fn as_flag(reading: ParameterValue) -> Node
    ensures { result ≡ as_flag reading }
{
    match reading {
        ParameterValue::U8(flag) => Node::Finish(Outcome::Flag(flag)),
        _ => failed_by_kind(),
    }
}

// What follows a run mode: 20 where the number is of another kind, 17 where it is no mode.
pub(super) fn as_mode<F: FnOnce(ControlMode) -> Node>(number: Option<i8>, then: F) -> Node
    requires { F.IsAlwaysCallable then }
    ensures { (k : ControlMode → Node) → ((m : ControlMode) → (n : Node) → F.post then m n → n ≡ k m) → result ≡ as_mode number k }
{
    match number.map(ControlMode::from_raw) {
        Some(Ok(mode)) => then(mode),
        Some(Err(_)) => failed_by_mode(),
        None => failed_by_kind(),
    }
}

// What a move changes of what is held.
ghost use Rattle.std.specs.Prelude.{◌≡◌};
ghost use Rattle.motor.specs.Calls.{sight_of, gains_by, fault_by, ping_by, readings_by, command_in, state_by};
ghost use Rattle.motor.specs.Readings.{drop_id};

use crate::engine::command::Command;
use crate::engine::operation::{Effect, Gains, Operation, Phase, Sight};
use crate::motor::State;
use crate::readings::{Readings, drop_id};
use codec::faults::FaultReport;
use codec::replies::PingReply;

// What an operation sees of its motor.
pub(crate) fn sight_of(state: State) -> Sight
    ensures { result ≡ sight_of state }
{
    Sight {
        motor_id: state.motor_id,
        feedback_id: state.feedback_id,
        model: state.model,
        write_wait: state.write_wait,
        sequence: state.feedback.sequence,
        responses: state.responses,
        ping_reply: state.ping_reply,
        gains: state.gains,
    }
}

pub(crate) fn gains_by(effect: Effect, held: Gains) -> Gains
    ensures { result ≡ gains_by effect held }
{
    match effect {
        Effect::HoldGains(gains) => gains,
        _ => held,
    }
}

pub(crate) fn fault_by(effect: Effect, held: Option<FaultReport>) -> Option<FaultReport>
    ensures { result ≡ fault_by effect held }
{
    match effect {
        Effect::ForgetFault => None,
        _ => held,
    }
}

pub(crate) fn ping_by(effect: Effect, held: Option<PingReply>) -> Option<PingReply>
    ensures { result ≡ ping_by effect held }
{
    match effect {
        Effect::ForgetPing => None,
        _ => held,
    }
}

pub(crate) fn readings_by(effect: Effect, held: Readings) -> Readings
    ensures { result ≡ readings_by effect (λ id. drop_id held id) held }
{
    match effect {
        Effect::ForgetReading(id) => drop_id(held, id),
        _ => held,
    }
}

// Finished or failed leaves no operation.
pub(crate) fn command_in(phase: Phase, command: Command) -> Command
    ensures { result ≡ command_in phase command }
{
    match phase {
        Phase::Idle => Command::Ping(0),
        Phase::Pausing(_) | Phase::Waiting(_) => command,
    }
}

// The state after a move of this command.
pub(crate) fn state_by(
    state: State,
    now: u64,
    command: Command,
    operation: Operation,
    effect: Effect,
) -> State
    ensures { result ≡ state_by state now command operation effect }
{
    State {
        clock: now,
        gains: gains_by(effect, state.gains),
        fault_report: fault_by(effect, state.fault_report),
        ping_reply: ping_by(effect, state.ping_reply),
        operation,
        command: command_in(operation.phase, command),
        ..state
    }
}

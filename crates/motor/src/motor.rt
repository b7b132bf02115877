// One motor by value: made, started, stepped, looked at, and asked whether it may be removed.
ghost use Rattle.std.specs.Prelude.{◌≡◌, List, []};
ghost use Rattle.motor.specs.declared.engine.command.Said.TheVariants as said;
ghost use Rattle.motor.specs.Calls.{is_idle, start_admitted, start_said, step_said, remove_said, new_state, wanted};
ghost use Rattle.motor.specs.Lone.{lone_start, lone_step, lone_look};
ghost use Rattle.motor.specs.Motors.{new_motor, refused_of, moved_by, start_of, step_of, look_of, removal_of, lone_of, AnsweredAs};
ghost use Rattle.motor.specs.Readings.{Holds, find_of};

use crate::arguments::{argued, timeout_of};
use crate::effects::{readings_by, sight_of, state_by};
use crate::engine::command::{Command, Said};
use crate::engine::moves::no_operation;
use crate::engine::node::Wait;
use crate::engine::operation::{Gains, Move, Operation, Phase};
use crate::engine::reading::Stored;
use crate::engine::requests::no_frame;
use crate::engine::run::{advance_at, begin_at};
use crate::feedback::FeedbackCache;
use crate::limits::LONGEST;
use crate::readings::{Entry, Listing, Readings, empty, find, listed};
use crate::receive::in_time;
use codec::bus::CanFrame;
use codec::error::Refusal;
use codec::faults::FaultReport;
use codec::model::Model;
use codec::replies::PingReply;
use codec::word::Word;

// All that a motor holds but its readings. As registered: id, host, model and write wait. Then clock, response count, feedback
// with its sequence, gains, fault report, ping reply, and the running operation with its command.
#[derive(Clone, Copy)]
pub struct State {
    pub motor_id: u16,
    pub feedback_id: u16,
    pub model: Model,
    pub write_wait: u64,
    pub clock: u64,
    pub responses: u64,
    pub feedback: FeedbackCache,
    pub gains: Gains,
    pub fault_report: Option<FaultReport>,
    pub ping_reply: Option<PingReply>,
    pub operation: Operation,
    pub command: Command,
}

#[derive(Clone, Copy)]
pub struct Motor {
    pub state: State,
    pub readings: Readings,
}

// What a start or a step answers, and the motor after it.
#[derive(Clone, Copy)]
pub struct Answered {
    pub motor: Motor,
    pub said: Said,
    pub frame: CanFrame,
    pub result: [u8; 8],
}

// All held, the readings along the chain.
#[derive(Clone, Copy)]
pub struct Seen {
    pub state: State,
    pub readings: Listing,
}

// ---- registration

// What is held at first.
fn new_state(motor_id: u16, feedback_id: u16, model: Model, write_wait: u64, now: u64) -> State
    ensures { result ≡ new_state motor_id feedback_id model write_wait now }
{
    let zero = Word { bits: 0 };
    State {
        motor_id,
        feedback_id,
        model,
        write_wait,
        clock: now,
        responses: 0,
        feedback: FeedbackCache {
            latest: None,
            sequence: 0,
        },
        gains: Gains { kp: zero, kd: zero },
        fault_report: None,
        ping_reply: None,
        operation: no_operation(),
        command: Command::Ping(0),
    }
}

// A motor just registered.
pub fn new(motor_id: u16, feedback_id: u16, model: Model, write_wait: u64, now: u64) -> Motor
    ensures is { result ≡ new_motor motor_id feedback_id model write_wait now }
    ensures means { Holds result.readings [] }
{
    Motor {
        state: new_state(motor_id, feedback_id, model, write_wait, now),
        readings: empty(),
    }
}

// ---- what a move changes

// The move is made, and the clock takes its time.
fn moved_by(m: Motor, now: u64, command: Command, made: Move) -> Answered
    ensures { result ≡ moved_by m now command made }
{
    let motor = Motor {
        state: state_by(m.state, now, command, made.operation, made.effect),
        readings: readings_by(made.effect, m.readings),
    };
    let result = made.result;
    Answered {
        motor,
        said: made.said,
        frame: made.frame,
        result,
    }
}

// Refused: nothing changes.
fn refused(m: Motor, refusal: Refusal) -> Answered
    ensures { result ≡ refused_of m (said.Refused refusal) }
{
    Answered {
        motor: m,
        said: Said::Refused(refusal),
        frame: no_frame(),
        result: [0; 8],
    }
}

// ---- start

// Whether nothing runs.
fn is_idle(phase: Phase) -> bool
    ensures { result ≡ is_idle phase }
{
    matches!(phase, Phase::Idle)
}

// 7, 8: an operation that runs.
fn idle_at(clock: u64, phase: Phase, now: u64) -> Result<(), Refusal>
    ensures { result ≡ remove_said clock phase now }
{
    in_time(clock, now)?;
    if !is_idle(phase) {
        return Err(Refusal::OperationRunning);
    }
    Ok(())
}

// 7, 8, 9.
fn start_admitted(clock: u64, phase: Phase, command: Command, now: u64) -> Result<(), Refusal>
    ensures { result ≡ start_admitted clock phase command now }
{
    idle_at(clock, phase, now)?;
    if timeout_of(command) > LONGEST {
        return Err(Refusal::TimeoutTooLong);
    }
    Ok(())
}

// 7, 8, 9, then 2, 19, 12, 10, 11.
fn start_said(clock: u64, phase: Phase, command: Command, now: u64) -> Result<(), Refusal>
    ensures { result ≡ start_said clock phase command now }
{
    start_admitted(clock, phase, command, now)?;
    argued(command)
}

// A call starts an operation.
pub fn start(m: Motor, command: Command, now: u64) -> Answered
    ensures is { result ≡ start_of m command now }
    ensures means { (l : List Entry) → Holds m.readings l → AnsweredAs result (lone_start (lone_of m l) command now) }
{
    let state = m.state;
    if let Err(refusal) = start_said(state.clock, state.operation.phase, command, now) {
        return refused(m, refusal);
    }
    let made = begin_at(sight_of(state), now, command);
    moved_by(m, now, command, made)
}

// ---- step

// 7, 21.
fn step_said(clock: u64, phase: Phase, now: u64) -> Result<(), Refusal>
    ensures { result ≡ step_said clock phase now }
{
    in_time(clock, now)?;
    if is_idle(phase) {
        return Err(Refusal::NothingRunning);
    }
    Ok(())
}

// The reading that a wait looks for.
fn wanted_at(readings: Readings, phase: Phase) -> Option<Stored>
    ensures { result ≡ wanted phase (λ id. find_of readings id) }
{
    match phase {
        Phase::Waiting(Wait::Value(id, _)) => find(readings, id),
        _ => None,
    }
}

// The operation goes on.
pub fn step(m: Motor, now: u64) -> Answered
    ensures is { result ≡ step_of m now }
    ensures means { (l : List Entry) → Holds m.readings l → AnsweredAs result (lone_step (lone_of m l) now) }
{
    let state = m.state;
    let operation = state.operation;
    if let Err(refusal) = step_said(state.clock, operation.phase, now) {
        return refused(m, refusal);
    }
    let found = wanted_at(m.readings, operation.phase);
    let made = advance_at(sight_of(state), now, operation, found);
    moved_by(m, now, state.command, made)
}

// ---- look and removal

// All that is held.
pub fn look(m: Motor) -> Seen
    ensures is { result ≡ look_of m }
    ensures means { (l : List Entry) → Holds m.readings l → result ≡ lone_look (lone_of m l) }
{
    Seen {
        state: m.state,
        readings: listed(m.readings),
    }
}

// Whether the motor may be removed: 7, 8.
pub fn removal(m: Motor, now: u64) -> Result<(), Refusal>
    ensures { result ≡ removal_of m now }
{
    idle_at(m.state.clock, m.state.operation.phase, now)
}

// The moves that an operation can make.
ghost use Rattle.std.specs.Prelude.{◌≡◌};
ghost use Rattle.motor.specs.declared.engine.command.Outcome.TheVariants as outcome;
ghost use Rattle.motor.specs.declared.engine.operation.Effect.TheVariants as effect;
ghost use Rattle.motor.specs.engine.Requests.{request_frame, rename_frame};
ghost use Rattle.motor.specs.engine.Run.{no_operation, pausing_until, ended, ended_with, ping_reported, pauses, waits, sent_on, request_of, dropped_by, acknowledgement_count, mark_of, dropped_by_last, motion_sent};

use crate::engine::candidates::Hosts;
use crate::engine::command::{Outcome, Said};
use crate::engine::node::{Acked, Acknowledgement, Request, Targets, Wait};
use crate::engine::operation::{Effect, Gains, Move, Operation, Phase, Sight};
use crate::engine::requests::{blank_ping, motion_frame, no_frame, rename_frame, request_frame};
use codec::bus::CanFrame;

// Nothing runs.
pub fn no_operation() -> Operation
    ensures { result ≡ no_operation }
{
    Operation {
        phase: Phase::Idle,
        due: 0,
        window: 0,
        hosts: Hosts::Candidates,
        host: 0,
        candidate: 0,
        mark: 0,
        answer: None,
    }
}

// Before what follows at this time.
fn pausing_until(then: Acked, until: u64) -> Operation
    ensures { result ≡ pausing_until then until }
{
    Operation {
        phase: Phase::Pausing(then),
        due: until,
        ..no_operation()
    }
}

// The operation is over, and nothing is sent.
pub(super) fn ended(said: Said, effect: Effect) -> Move
    ensures { result ≡ ended said effect }
{
    Move {
        said,
        frame: no_frame(),
        result: [0; 8],
        operation: no_operation(),
        effect,
    }
}

// What is said, and nothing else.
pub(super) fn only_said(said: Said) -> Move
    ensures { result ≡ ended said effect.Nothing }
{
    ended(said, Effect::Nothing)
}

// The operation is over with a last frame.
pub(super) fn ended_with(outcome: Outcome, frame: CanFrame, effect: Effect) -> Move
    ensures { result ≡ ended_with outcome frame effect }
{
    Move {
        frame,
        ..ended(Said::FinishedWith(outcome), effect)
    }
}

// A ping's result.
pub(super) fn ping_reported(sight: Sight) -> Move
    ensures { result ≡ ping_reported sight }
{
    let reply = sight.ping_reply.unwrap_or(blank_ping());
    let outcome = Outcome::Ping(reply.device_id, reply.responder_id);
    let payload = reply.payload;
    Move {
        result: payload,
        ..only_said(Said::Finished(outcome))
    }
}

// A pause.
pub(super) fn pauses(then: Acked, until: u64) -> Move
    ensures { result ≡ pauses then until }
{
    Move {
        operation: pausing_until(then, until),
        ..only_said(Said::Waiting(until))
    }
}

// Still waiting.
pub(super) fn waits(operation: Operation) -> Move
    ensures { result ≡ waits operation }
{
    Move {
        operation,
        ..only_said(Said::Waiting(operation.due))
    }
}

// A frame that nothing waits for; what follows is due at this time.
pub(super) fn sent_on(frame: CanFrame, then: Acked, until: u64) -> Move
    ensures { result ≡ sent_on frame then until }
{
    Move {
        frame,
        operation: pausing_until(then, until),
        ..only_said(Said::Sent(until))
    }
}

// ---- one attempt of a wait

// What a wait asks.
pub(super) fn request_of(wait: Wait) -> Request
    ensures { result ≡ request_of wait }
{
    match wait {
        Wait::Acknowledged(_, request, _) => request,
        Wait::Value(id, _) => Request::Read(id),
        Wait::Ping(_) => Request::Ping,
        Wait::Version => Request::Version,
    }
}

// Each send of a read or a ping first drops the old value.
pub(super) fn dropped_by(wait: Wait) -> Effect
    ensures { result ≡ dropped_by wait }
{
    match wait {
        Wait::Value(id, _) => Effect::ForgetReading(id),
        Wait::Ping(_) => Effect::ForgetPing,
        Wait::Acknowledged(_, _, _) | Wait::Version => Effect::Nothing,
    }
}

// The number whose rise acknowledges.
pub(super) fn count_by(sight: Sight, by: Acknowledgement) -> u64
    ensures { result ≡ acknowledgement_count sight by }
{
    match by {
        Acknowledgement::Status => sight.sequence,
        Acknowledgement::Response => sight.responses,
    }
}

// That number at this send.
pub(super) fn mark_of(sight: Sight, wait: Wait) -> u64
    ensures { result ≡ mark_of sight wait }
{
    match wait {
        Wait::Acknowledged(by, _, _) => count_by(sight, by),
        Wait::Value(_, _) | Wait::Ping(_) | Wait::Version => 0,
    }
}

// ---- last frames

// request_parameter drops the held reading.
fn dropped_by_last(request: Request) -> Effect
    ensures { result ≡ dropped_by_last request }
{
    match request {
        Request::Read(id) => Effect::ForgetReading(id),
        _ => Effect::Nothing,
    }
}

// A request that nothing waits for, with finished.
pub(super) fn last_request(sight: Sight, request: Request) -> Move
    ensures { result ≡ ended_with outcome.Done (request_frame sight request sight.feedback_id) (dropped_by_last request) }
{
    let frame = request_frame(sight, request, sight.feedback_id);
    ended_with(Outcome::Done, frame, dropped_by_last(request))
}

// A motion command; its gains are held as given.
pub(super) fn motion_sent(sight: Sight, targets: Targets, outcome: Outcome) -> Move
    ensures { result ≡ motion_sent sight targets outcome }
{
    let gains = Gains {
        kp: targets.kp,
        kd: targets.kd,
    };
    let frame = motion_frame(sight, targets);
    ended_with(outcome, frame, Effect::HoldGains(gains))
}

// The motor gets another id.
pub(super) fn renamed(sight: Sight, new_id: u8) -> Move
    ensures { result ≡ ended_with outcome.Done (rename_frame sight new_id) effect.Nothing }
{
    ended_with(Outcome::Done, rename_frame(sight, new_id), Effect::Nothing)
}

// How an operation goes on: windows, candidates, deadlines and pauses, once for all operations.
ghost use Rattle.std.specs.Prelude.{◌≡◌, ◌≤◌};
ghost use Rattle.motor.specs.Limits.{latest_time};
ghost use Rattle.motor.specs.engine.Operations.{acked_of};
ghost use Rattle.codec.specs.Values.{encode_parameter_value};
ghost use Rattle.motor.specs.engine.Run.{tried, send_then, awaited, looked_pause, waits, write_raw, write, entered, retried, timed, looked_ack, looked_value, looked_ping, looked_version, looked, advanced, begun_by, too_late, in_time};

use crate::engine::candidates::{Hosts, first_host, next_host};
use crate::engine::command::{Command, Outcome, Said};
use crate::engine::moves::{
    count_by, dropped_by, ended, ended_with, last_request, mark_of, motion_sent, only_said, pauses,
    ping_reported, renamed, request_of, sent_on, waits,
};
use crate::engine::node::{Acked, Acknowledgement, Got, Node, Pinged, Request, Wait};
use crate::engine::operation::{Effect, Move, Operation, Phase, Sight};
use crate::engine::operations::{acked, begins_with, got_ping, got_value, windows_gone};
use crate::engine::reading::Stored;
use crate::engine::requests::request_frame;
use crate::engine::script::window_of;
use crate::engine::version::version_reported;
use crate::limits::LATEST;
use codec::bus::CanFrame;
use codec::error::Refusal;
use codec::protocol::{ParameterValue, encode_parameter_value};

// What a move is made on: a motor as its operation sees it, at a time that a call may give.
#[derive(Clone, Copy)]
struct Turn {
    sight: Sight,
    time: u64,
    ghost not_late: { time ≤ latest_time },
}

// ---- a node is entered

impl Turn {
    // The request goes to this host, its window from now on.
    fn tried(self, wait: Wait, window: u32, hosts: Hosts, host: u16, next: u8) -> Move
        ensures { result ≡ tried self.sight self.time wait window hosts host next }
    {
        let due = self.time + window as u64;
        let frame = request_frame(self.sight, request_of(wait), host);
        let mark = mark_of(self.sight, wait);
        let effect = dropped_by(wait);
        Move {
            said: Said::Sent(due),
            frame,
            result: [0; 8],
            operation: Operation {
                phase: Phase::Waiting(wait),
                due,
                window,
                hosts,
                host,
                candidate: next,
                mark,
                answer: None,
            },
            effect,
        }
    }

    // A frame that nothing waits for: with finished, with a pause that begins in this step, or what follows is due at once.
    fn sent_then(self, frame: CanFrame, then: Acked) -> Move
        ensures { result ≡ send_then self.time frame then (acked_of then) }
    {
        match acked(then) {
            Node::Finish(outcome) => ended_with(outcome, frame, Effect::Nothing),
            Node::Pause(time, next) => sent_on(frame, next, self.time + time as u64),
            _ => sent_on(frame, then, self.time),
        }
    }

    // A write's frame: acknowledged by a status where the motor has a write wait.
    fn write_raw(self, request: Request, then: Acked) -> Move
        ensures { result ≡ write_raw self.sight self.time request then }
    {
        let sight = self.sight;
        let own = sight.feedback_id;
        if sight.write_wait == 0 {
            return self.sent_then(request_frame(sight, request, own), then);
        }
        let window = window_of(sight.write_wait, 120);
        let wait = Wait::Acknowledged(Acknowledgement::Status, request, then);
        self.tried(wait, window, Hosts::Candidates, own, 1)
    }

    // A write, through the encoder.
    fn written(self, param_id: u16, value: ParameterValue, then: Acked) -> Move
        ensures { result ≡ write self.sight self.time param_id then (encode_parameter_value param_id value) }
    {
        match encode_parameter_value(param_id, value) {
            Ok(raw) => self.write_raw(Request::Write(param_id, raw), then),
            Err(refusal) => only_said(Said::Refused(refusal)),
        }
    }

    // A wait begins, at its first host.
    fn awaited(self, wait: Wait, window: u32, hosts: Hosts) -> Move
        ensures { result ≡ awaited self.sight self.time wait window hosts }
    {
        let host = first_host(self.sight.feedback_id, hosts);
        self.tried(wait, window, hosts, host, 1)
    }

    fn entered(self, node: Node) -> Move
        ensures { result ≡ entered self.sight self.time node }
    {
        let sight = self.sight;
        match node {
            Node::Finish(outcome) => only_said(Said::Finished(outcome)),
            Node::Report => ping_reported(sight),
            Node::ClearFault => ended(Said::Finished(Outcome::Done), Effect::ForgetFault),
            Node::Fail(refusal) => only_said(Said::Refused(refusal)),
            Node::Pause(time, then) => pauses(then, self.time + time as u64),
            Node::Last(request) => last_request(sight, request),
            Node::Write(id, value, then) => self.written(id, value, then),
            Node::Await(wait, window, hosts) => self.awaited(wait, window, hosts),
            Node::Motion(targets, outcome) => motion_sent(sight, targets, outcome),
            Node::Rename(new_id) => renamed(sight, new_id),
        }
    }
}

// ---- a step

impl Turn {
    // The window is gone: the next host, if there is one.
    fn retried(self, operation: Operation, wait: Wait) -> Move
        ensures { result ≡ retried self.sight self.time operation wait }
    {
        let hosts = operation.hosts;
        match next_host(self.sight.feedback_id, hosts, operation.candidate) {
            Some((host, next)) => self.tried(wait, operation.window, hosts, host, next),
            None => self.entered(windows_gone(wait)),
        }
    }

    // Nothing has come: still waiting within the window.
    fn timed(self, operation: Operation, wait: Wait) -> Move
        ensures { result ≡ timed self.sight self.time operation wait (waits operation) }
    {
        if self.time < operation.due {
            return waits(operation);
        }
        self.retried(operation, wait)
    }

    // An acknowledgement: the deadline first.
    fn looked_ack(
        self,
        operation: Operation,
        by: Acknowledgement,
        request: Request,
        then: Acked,
    ) -> Move
        ensures { result ≡ looked_ack self.sight self.time operation by request then }
    {
        if self.time >= operation.due {
            return self.retried(operation, Wait::Acknowledged(by, request, then));
        }
        if operation.mark < count_by(self.sight, by) {
            return self.entered(acked(then));
        }
        waits(operation)
    }

    // A read: the value first, then the deadline.
    fn looked_value(
        self,
        operation: Operation,
        param_id: u16,
        then: Got,
        found: Option<Stored>,
    ) -> Move
        ensures { result ≡ looked_value self.sight self.time operation param_id then found }
    {
        match found {
            Some(stored) => self.entered(got_value(self.sight, then, stored.value)),
            None => self.timed(operation, Wait::Value(param_id, then)),
        }
    }

    // A ping likewise.
    fn looked_ping(self, operation: Operation, then: Pinged) -> Move
        ensures { result ≡ looked_ping self.sight self.time operation then }
    {
        if self.sight.ping_reply.is_some() {
            return self.entered(got_ping(then));
        }
        self.timed(operation, Wait::Ping(then))
    }

    // A version likewise: the answer first, then the deadline.
    fn looked_version(self, operation: Operation) -> Move
        ensures { result ≡ looked_version self.sight self.time operation }
    {
        match operation.answer {
            Some(reply) => version_reported(reply),
            None => self.timed(operation, Wait::Version),
        }
    }

    fn looked(self, operation: Operation, found: Option<Stored>, wait: Wait) -> Move
        ensures { result ≡ looked self.sight self.time operation found wait }
    {
        match wait {
            Wait::Acknowledged(by, request, then) => self.looked_ack(operation, by, request, then),
            Wait::Value(id, then) => self.looked_value(operation, id, then, found),
            Wait::Ping(then) => self.looked_ping(operation, then),
            Wait::Version => self.looked_version(operation),
        }
    }

    // What follows a pause, once it has ended.
    fn looked_pause(self, operation: Operation, then: Acked) -> Move
        ensures { result ≡ looked_pause self.sight self.time operation then }
    {
        if self.time < operation.due {
            return waits(operation);
        }
        self.entered(acked(then))
    }

    // What a step does.
    fn advanced(self, operation: Operation, found: Option<Stored>) -> Move
        ensures { result ≡ advanced self.sight self.time operation found operation.phase }
    {
        match operation.phase {
            Phase::Idle => only_said(Said::Refused(Refusal::NothingRunning)),
            Phase::Pausing(then) => self.looked_pause(operation, then),
            Phase::Waiting(wait) => self.looked(operation, found, wait),
        }
    }
}

// ---- in time: no move is made after 10^15 (7)

// 7, as a move.
fn too_late() -> Move
    ensures { result ≡ too_late }
{
    only_said(Said::Refused(Refusal::TimeOutOfRange))
}

// A start's move.
pub fn begin_at(sight: Sight, now: u64, command: Command) -> Move
    ensures { result ≡ in_time now (begun_by sight now command) }
{
    if now > LATEST {
        return too_late();
    }
    Turn { sight, time: now }.entered(begins_with(command))
}

// A step's move.
pub fn advance_at(sight: Sight, now: u64, operation: Operation, found: Option<Stored>) -> Move
    ensures { result ≡ in_time now (advanced sight now operation found operation.phase) }
{
    if now > LATEST {
        return too_late();
    }
    Turn { sight, time: now }.advanced(operation, found)
}

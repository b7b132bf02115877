// What operations are made of: windows, requests, reads, writes.
ghost use Rattle.std.specs.Prelude.{◌≡◌};
ghost use Rattle.codec.specs.declared.error.Refusal.TheVariants as refusal;
ghost use Rattle.codec.specs.declared.protocol.ParameterValue.TheVariants as value;
ghost use Rattle.motor.specs.declared.engine.candidates.Hosts.TheVariants as hosts;
ghost use Rattle.motor.specs.declared.engine.node.Node.TheVariants as node;
ghost use Rattle.motor.specs.declared.engine.node.Wait.TheVariants as wait;
ghost use Rattle.motor.specs.engine.Script.{window_of, finished, failed_by_silence, get_parameter, put, set_mode, ping_each};

use crate::engine::candidates::Hosts;
use crate::engine::command::Outcome;
use crate::engine::node::{Acked, Acknowledgement, Got, Node, Pinged, Request, Wait};
use crate::limits::{LONGEST, LONGEST_WINDOW};
use codec::error::Refusal;
use codec::protocol::ParameterValue;
use codec::registers::{ControlMode, ParameterId};
use codec::word::Word;

// A window: the timeout, or this least where it is shorter.
pub(super) fn window_of(timeout: u64, least: u32) -> u32
    ensures { result ≡ window_of timeout least }
{
    if timeout < least as u64 {
        return least;
    }
    if timeout > LONGEST {
        return LONGEST_WINDOW;
    }
    timeout as u32
}

// 16: the last window is gone.
pub(super) fn failed_by_silence() -> Node
    ensures { result ≡ failed_by_silence }
{
    Node::Fail(Refusal::WindowsGone)
}

// 20: a reading of another kind.
pub(super) fn failed_by_kind() -> Node
    ensures { result ≡ node.Fail refusal.ReadingOfAnotherKind }
{
    Node::Fail(Refusal::ReadingOfAnotherKind)
}

// 17: a run mode that isn't 0, 1, 2 or 5.
pub(super) fn failed_by_mode() -> Node
    ensures { result ≡ node.Fail refusal.UnsupportedRunMode }
{
    Node::Fail(Refusal::UnsupportedRunMode)
}

// Finished, with nothing to give.
pub(super) fn finished() -> Node
    ensures { result ≡ finished }
{
    Node::Finish(Outcome::Done)
}

// A request to each candidate, until it is acknowledged.
pub(super) fn send_with_ack(by: Acknowledgement, request: Request, window: u32, then: Acked) -> Node
    ensures { result ≡ node.Await (wait.Acknowledged by request then) window hosts.Candidates }
{
    let wait = Wait::Acknowledged(by, request, then);
    Node::Await(wait, window, Hosts::Candidates)
}

// A request to one named host, once, with the timeout as given.
pub(super) fn once(wait: Wait, host_id: u16, timeout: u64) -> Node
    ensures { result ≡ node.Await wait (window_of timeout 0) (hosts.Named host_id) }
{
    Node::Await(wait, window_of(timeout, 0), Hosts::Named(host_id))
}

// A read to each candidate.
pub(super) fn get_parameter(param_id: u16, timeout: u64, then: Got) -> Node
    ensures { result ≡ get_parameter param_id timeout then }
{
    let window = window_of(timeout, 150);
    Node::Await(Wait::Value(param_id, then), window, Hosts::Candidates)
}

// A ping to each candidate.
pub(super) fn ping_each(timeout: u64, then: Pinged) -> Node
    ensures { result ≡ ping_each timeout then }
{
    let window = window_of(timeout, 120);
    Node::Await(Wait::Ping(then), window, Hosts::Candidates)
}

// A write of a float.
pub(super) fn write_float(param_id: u16, word: Word, then: Acked) -> Node
    ensures { result ≡ put param_id (value.F32 word) then }
{
    Node::Write(param_id, ParameterValue::F32(word), then)
}

// The write of run_mode.
pub(super) fn set_mode(mode: ControlMode, then: Acked) -> Node
    ensures { result ≡ set_mode mode then }
{
    Node::Write(ParameterId::MODE, ParameterValue::I8(mode.number()), then)
}

// What is said to an event other than a look, with the frame sent on the line before it.
#![tactic(auto, using(text::proofs::Putting::puts_joined))]

ghost use Rattle.std.specs.Prelude.{◌≡◌};
ghost use Rattle.text.specs.Put.{put};
ghost use Rattle.answers.specs.Said as spec;

use crate::names::mode_text;
use crate::values::{put_line, put_named, put_numbers, put_signed, put_value};
use codec::bus::CanFrame;
use codec::error::{Refusal, number};
use motor::engine::command::{Outcome, Said};
use text::Text;

// ok
pub fn put_ok<const N: usize>(out: &mut Text<N>)
    ensures { out.new ≡ put out.old (spec.ok_text) }
{
    out.put_bytes(b"ok\n");
}

// Of a registration, a frame or a removal: ok, or refused.
#[tactic(auto, using(text::proofs::Putting::puts_joined), unfolding(crate::specs::Said::told_text))]
pub fn put_told<const N: usize>(said: Result<(), Refusal>, out: &mut Text<N>)
    ensures { out.new ≡ put out.old (spec.told_text said) }
{
    match said {
        Ok(()) => put_ok(out),
        Err(refusal) => put_refused(refusal, out),
    }
}

// refused N, with the values that 14 and 18 carry
pub fn put_refused<const N: usize>(refusal: Refusal, out: &mut Text<N>)
    ensures { out.new ≡ put out.old (spec.refused_text refusal) }
{
    put_named(b"refused", u64::from(number(refusal)), b"D", out);
    put_carried(refusal, out);
    out.put_byte(b'\n');
}

fn put_carried<const N: usize>(refusal: Refusal, out: &mut Text<N>)
    ensures { out.new ≡ put out.old (spec.carried_text refusal) }
{
    match refusal {
        Refusal::ReadFailed { id, status } => {
            out.put_fields([u64::from(id), u64::from(status), 0, 0, 0, 0, 0, 0], b"42");
        }
        Refusal::ModeNotReached(last) => put_last(last, out),
        _ => {}
    }
}

// The last value read, or none.
fn put_last<const N: usize>(last: Option<i8>, out: &mut Text<N>)
    ensures { out.new ≡ put out.old (spec.last_text last) }
{
    match last {
        None => out.put_bytes(b" none"),
        Some(v) => {
            out.put_byte(b' ');
            put_signed(v, out);
        }
    }
}

// Of a start or a step.
#[tactic(auto, using(text::proofs::Putting::puts_joined), unfolding(crate::specs::Said::said_text))]
pub fn put_said<const N: usize>(
    said: Said,
    frame: CanFrame,
    res: [u8; 8],
    time: u64,
    out: &mut Text<N>,
)
    ensures { out.new ≡ put out.old (spec.said_text said frame res time) }
{
    put_sent(said, frame, time, out);
    put_last_line(said, res, out);
}

// The frame, where one is sent.
#[tactic(auto, using(text::proofs::Putting::puts_joined), unfolding(crate::specs::Said::sent_text))]
fn put_sent<const N: usize>(said: Said, frame: CanFrame, time: u64, out: &mut Text<N>)
    ensures { out.new ≡ put out.old (spec.sent_text said frame time) }
{
    match said {
        Said::Sent(_) | Said::FinishedWith(_) => put_frame(frame, time, out),
        Said::Waiting(_) | Said::Finished(_) | Said::Refused(_) => {}
    }
}

// What is said after it.
fn put_last_line<const N: usize>(said: Said, res: [u8; 8], out: &mut Text<N>)
    ensures { out.new ≡ put out.old (spec.last_line said res) }
{
    match said {
        Said::Sent(due) => put_line(b"sent due", due, b"D", out),
        Said::Waiting(due) => put_line(b"waiting due", due, b"D", out),
        Said::Finished(outcome) | Said::FinishedWith(outcome) => put_finished(outcome, res, out),
        Said::Refused(refusal) => put_refused(refusal, out),
    }
}

// (SECONDS.MICROS) can0 ID#DATA
#[tactic(auto, using(text::proofs::Putting::puts_joined), unfolding(crate::specs::Values::payload_number))]
fn put_frame<const N: usize>(frame: CanFrame, time: u64, out: &mut Text<N>)
    ensures { out.new ≡ put out.old (spec.frame_text frame time) }
{
    put_stamp(time, out);
    out.put_hex(u64::from(frame.arbitration_id), 8);
    out.put_byte(b'#');
    out.put_hex(u64::from_be_bytes(frame.data), 16);
    out.put_byte(b'\n');
}

// (SECONDS.MICROS) can0, and a space
fn put_stamp<const N: usize>(time: u64, out: &mut Text<N>)
    ensures { out.new ≡ put out.old (spec.stamp_text time) }
{
    out.put_byte(b'(');
    out.put_decimal(time / 1000);
    out.put_byte(b'.');
    out.put_places(time % 1000, 3);
    out.put_bytes(b"000) can0 ");
}

// finished RESULT
fn put_finished<const N: usize>(outcome: Outcome, res: [u8; 8], out: &mut Text<N>)
    ensures { out.new ≡ put out.old (spec.finished_text outcome res) }
{
    out.put_bytes(b"finished ");
    put_outcome(outcome, res, out);
    out.put_byte(b'\n');
}

fn put_outcome<const N: usize>(outcome: Outcome, res: [u8; 8], out: &mut Text<N>)
    ensures { out.new ≡ put out.old (spec.outcome_text outcome res) }
{
    match outcome {
        Outcome::Done => out.put_bytes(b"none"),
        Outcome::Ping(device, responder) => put_ping(device, responder, res, out),
        Outcome::Mode(mode) => {
            out.put_bytes(b"mode ");
            out.put_bytes(mode_text(mode));
        }
        Outcome::Value(value) => {
            out.put_bytes(b"value ");
            put_value(value, out);
        }
        Outcome::Flag(flag) => put_named(b"flag", u64::from(flag), b"2", out),
        Outcome::F32(w) => put_named(b"f32", u64::from(w.bits), b"8", out),
        Outcome::I8(v) => {
            out.put_bytes(b"i8 ");
            put_signed(v, out);
        }
        Outcome::Version(device) => put_version(device, [res[0], res[1], res[2], res[3]], out),
    }
}

// ping DEVICE RESPONDER PAYLOAD
#[tactic(auto, using(text::proofs::Putting::puts_joined), unfolding(crate::specs::Values::payload_number))]
pub(crate) fn put_ping<const N: usize>(
    device: u8,
    responder: u8,
    payload: [u8; 8],
    out: &mut Text<N>,
)
    ensures { out.new ≡ put out.old (spec.ping_text device responder payload) }
{
    let n = u64::from_be_bytes(payload);
    out.put_bytes(b"ping");
    out.put_fields(
        [u64::from(device), u64::from(responder), n, 0, 0, 0, 0, 0],
        b"22P",
    );
}

// version DEVICE BYTES: the four bytes in order
pub(crate) fn put_version<const N: usize>(device: u8, version: [u8; 4], out: &mut Text<N>)
    ensures { out.new ≡ put out.old (spec.version_text device version) }
{
    let n = u32::from_be_bytes(version);
    out.put_bytes(b"version");
    put_numbers(u64::from(device), u64::from(n), b"28", out);
}
